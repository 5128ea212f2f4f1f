//! What is known after edits, a question, a report, a call for all answers and a lookup of which any one allocation may
//! be refused.
use crate::Difference;
use Asking::{Choose, LookUp, Points, Put, Report};
use cdi_container::{Bodies, Choice, Container, WorkDone};
use cdi_fixtures::name;
use cdi_model::{Error, Name, Quals};
use std::alloc::{AllocError, Global};

/// An interface, two beans of it that a point cannot tell apart, and a stereotype that one of them has.
static DECLARED: [&[u8]; 9] = [
    b"kind=\"type\"\nname=\"Shop\"\nform=\"interface\"\n",
    b"kind=\"type\"\nname=\"A\"\nimplements=[\"Shop\"]\n",
    b"kind=\"type\"\nname=\"B\"\nimplements=[\"Shop\"]\n",
    b"kind=\"type\"\nname=\"Use\"\n",
    b"kind=\"stereotype\"\nname=\"Base\"\n",
    b"kind=\"stereotype\"\nname=\"Mid\"\nstereotypes=[\"Base\"]\n",
    b"kind=\"bean\"\nname=\"A\"\n",
    b"kind=\"bean\"\nname=\"B\"\nstereotypes=[\"Mid\"]\npriority=1\n",
    br#"kind="bean"
name="Use"
points=[{name="s",type="Shop"},{name="t",type="A"}]
"#,
];

/// What is asked of the container.
#[derive(Clone, Copy)]
enum Asking {
    /// How many faults there are.
    Report(usize),
    /// How many injection points there are, none of which names a qualifier.
    Points(usize),
    Put(&'static [u8]),
    /// By a type alone.
    Choose(&'static [u8]),
    /// By a type alone, of a dependent bean without bodies.
    LookUp(&'static [u8]),
}

/// What is asked, and what is known afterwards, where memory sufficed.
#[derive(Clone, Copy)]
struct Step(Asking, usize);

/// Declarations ask for eleven answers: two choices, and chains at three places of each bean. An alternative touches the
/// choice by `Shop` alone.
static STEPS: [Step; 7] = [
    Step(Report(1), 11),
    Step(
        Put(b"kind=\"stereotype\"\nname=\"Base\"\nalternative=true\n"),
        10,
    ),
    Step(Choose(b"Shop"), 11),
    Step(Put(b"kind=\"stereotype\"\nname=\"Base\"\n"), 10),
    Step(Points(2), 11),
    Step(
        Put(b"kind=\"stereotype\"\nname=\"Base\"\nalternative=true\n"),
        10,
    ),
    Step(LookUp(b"A"), 11),
];

/// The type of an injection point, and what is chosen for it.
#[derive(Drop)]
struct PointChoice {
    bean_type: Name,
    choice: Choice,
}

/// What is chosen for each injection point.
fn point_choices<B: Bodies>(
    alloc: Global,
    container: &mut Container<B>,
) -> Result<Vec<PointChoice>, AllocError> {
    let mut list = Vec::new(alloc);
    for told in container.points()? {
        list.push(PointChoice {
            bean_type: told.point.required_type,
            choice: told.choice.copy(alloc)?,
        })?;
    }
    Ok(list)
}

/// Whether there are so many injection points, and the choice for each answers the question for its type alone.
fn agrees<B: Bodies>(
    alloc: Global,
    container: &mut Container<B>,
    count: usize,
) -> Result<bool, AllocError> {
    let list = point_choices(alloc, container)?;
    for told in &list {
        if container.choose(told.bean_type, &Quals::new(alloc))? != told.choice {
            return Ok(false);
        }
    }
    Ok(list.len() == count)
}

/// Makes what is asked, and says whether it answers what it is to.
fn make<B: Bodies>(
    alloc: Global,
    container: &mut Container<B>,
    asking: &Asking,
) -> Result<bool, Error> {
    match asking {
        Report(count) => Ok(container.report()?.len() == *count),
        Points(count) => Ok(agrees(alloc, container, *count)?),
        Put(text) => {
            container.put(text)?;
            Ok(true)
        }
        Choose(of) => {
            container.choose(name(of)?, &Quals::new(alloc))?;
            Ok(true)
        }
        LookUp(of) => {
            container.lookup(name(of)?, &Quals::new(alloc))?;
            Ok(true)
        }
    }
}

/// Whether no known answer was lost, and at most one was counted that is not known.
fn loses_nothing(before: WorkDone, after: WorkDone) -> bool {
    let more = after.known.saturating_sub(before.known) as u64;
    let counted = after.work.saturating_sub(before.work);
    after.known >= before.known && more <= counted && counted.saturating_sub(more) <= 1
}

/// Whether what an asking without memory left is right: an edit and a question leave the work, and a report, a call for the
/// injection points and a lookup lose no known answer.
fn is_left(asking: &Asking, before: WorkDone, after: WorkDone) -> bool {
    match asking {
        Put(_) | Choose(_) => before == after,
        Report(_) | Points(_) | LookUp(_) => loses_nothing(before, after),
    }
}

/// Makes a step, again if there was no memory for it, and says whether there was none.
fn take<B: Bodies>(alloc: Global, container: &mut Container<B>, step: &Step) -> Option<bool> {
    let Step(asking, known) = step;
    let before = container.work();
    match make(alloc, container, asking) {
        Ok(right) if right && container.work().known == *known => Some(false),
        Err(Error::OutOfMemory) if is_left(asking, before, container.work()) => {
            match make(alloc, container, asking) {
                Ok(right) if right && container.work().known == *known => Some(true),
                _ => None,
            }
        }
        _ => None,
    }
}

fn declare<B: Bodies>(container: &mut Container<B>) -> Result<(), Error> {
    for text in &DECLARED {
        container.put(text)?;
    }
    Ok(())
}

/// Takes the steps, and says whether there was no memory for one of these.
fn take_each<B: Bodies>(alloc: Global, container: &mut Container<B>) -> Result<bool, Difference> {
    let mut refused = false;
    for (place, step) in STEPS.iter().enumerate() {
        match take(alloc, container, step) {
            Some(here) => refused = refused || here,
            None => return Err(Difference::Known(place)),
        }
    }
    Ok(refused)
}

/// Declares in an empty container what the steps need, takes them, and says whether there was no memory for one of these.
pub fn ask_for_all<B: Bodies>(
    alloc: Global,
    container: &mut Container<B>,
) -> Result<bool, Difference> {
    match declare(container) {
        Ok(()) => take_each(alloc, container),
        Err(Error::OutOfMemory) => Ok(true),
        Err(_) => Err(Difference::Declarations),
    }
}
