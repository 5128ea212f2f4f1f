//! Calls of a container, of which any one allocation may be refused.
use crate::Difference;
use crate::answers::{Answer, Answered, agrees};
use Answer::{Ambiguous, Around, Counted, Done, Faults, Observed, One, Refused, Unsatisfied};
use Call::{Beans, Books, Chain, Choose, Counts, Named, Observers, Promises, Put, Remove, Report};
use cdi_container::{Bodies, Book, Choice, Container, Promise, PromiseBook, Shared, read_quals};
use cdi_fixtures::{lines_of, name};
use cdi_model::{BeanPlace, Error, Ident, Kind, Refusal};
use cdi_stock::stock_bodies;
use std::alloc::{AllocError, Global};

/// A call of a container. A type is chosen with uses of qualifiers.
#[derive(Clone, Copy)]
enum Call {
    Put(&'static [u8]),
    Remove(Kind, &'static [u8]),
    Choose(&'static [u8], &'static [u8]),
    Named(&'static [u8]),
    /// The interceptors around the constructor of a bean, or around the method of a name.
    Chain(&'static [u8], Option<&'static [u8]>),
    /// The observer methods of an event of a type, with uses of qualifiers.
    Observers(&'static [u8], &'static [u8]),
    Report,
    Counts,
    /// The classes of the bean list.
    Beans,
    /// Whether a book of promises has the one that was inserted.
    Promises,
    /// A book of the program's bodies.
    Books,
}

const CORNER: &[u8] = b"Corner";

const MALL: &[u8] = b"Mall";

const STAND: &[u8] = b"Stand";

const SHOP: &[u8] = b"Shop";

const OBJECT: &[u8] = b"Object";

const PLACE: &[u8] = b"Place";

const HUT: &[u8] = b"Hut";

const BOTH: &[&[u8]] = &[CORNER, MALL];

const PLAIN: &[u8] = b"";

const ANY: &[u8] = b"Any";

const RANKED: &[u8] = b"Rank(n=2,m=1) Named(mall)";

const INTERFACE: &[u8] = b"kind=\"type\"\nname=\"Shop\"\nform=\"interface\"\n";

const TYPE: &[u8] =
    b"kind=\"type\"\nname=\"Corner\"\nextends=\"Place\"\nimplements=[\"Shop\",\"Stop\"]\n";

const QUALIFIER: &[u8] =
    b"kind=\"qualifier\"\nname=\"Rank\"\nmembers=[{name=\"n\",default=2},{name=\"m\",binding=false}]\n";

const BEAN: &[u8] = b"kind=\"bean\"\nname=\"Corner\"\nnamed=\"mall\"\n";

const OTHER_BEAN: &[u8] =
    b"kind=\"bean\"\nname=\"Mall\"\nqualifiers=[\"Rank(n=2,m=3)\",\"Default\"]\nnamed=\"mall\"\n";

const BAD_BEAN: &[u8] = b"kind=\"bean\"\nname=\"Inn\"\nform=\"class\"\n";

const TWICE: &[u8] = b"kind=\"bean\"\nname=\"Inn\"\nqualifiers=[\"Rank(n=1)\",\"Rank(n=2)\"]\n";

const MEMBER_TWICE: &[u8] = b"kind=\"bean\"\nname=\"Inn\"\nqualifiers=[\"Rank(n=1,n=1)\"]\n";

const STEREOTYPE: &[u8] =
    b"kind=\"stereotype\"\nname=\"Mock\"\nscope=\"request\"\nalternative=true\nstereotypes=[\"Action\"]\n";

const OTHER_STEREOTYPE: &[u8] = b"kind=\"stereotype\"\nname=\"Action\"\nnamed=true\n";

const ALTERNATIVE: &[u8] =
    b"kind=\"bean\"\nname=\"Stand\"\ntypes=[\"Stand\",\"Booth\"]\nstereotypes=[\"Mock\",\"Ghost\"]\npriority=-1\n";

const BINDING: &[u8] = b"kind=\"binding\"\nname=\"Log\"\nmembers=[{name=\"level\",default=0}]\n";

const OTHER_BINDING: &[u8] = b"kind=\"binding\"\nname=\"Trail\"\ndeclares=[\"Log(level=1)\"]\n";

const FINAL_TYPE: &[u8] = b"kind=\"type\"\nname=\"Till\"\nfinal=true\n";

const BOUND_BEAN: &[u8] = br#"kind="bean"
name="Till"
bindings=["Log","Trail"]
methods=[{name="run",body="echo",bindings=["Log(level=1)"]}]
"#;

const INTERCEPTOR: &[u8] = br#"kind="interceptor"
name="Scribe"
priority=1
bindings=["Log(level=1)"]
around_invoke={body="echo"}
"#;

const OTHER_INTERCEPTOR: &[u8] = br#"kind="interceptor"
name="Clark"
priority=2
bindings=["Log(level=1)"]
around_invoke={body="echo"}
"#;

const BAD_INTERCEPTOR: &[u8] = b"kind=\"interceptor\"\nname=\"Clerk\"\npre={body=\"nobody\"}\n";

const CALLER: &[u8] = b"kind=\"bean\"\nname=\"Desk\"\npoints=[{name=\"t\",type=\"Till\"}]\n";

const LISTENER: &[u8] = br#"kind="bean"
name="Ear"
observers=[{name="shop",type="Shop",body="echo"},{name="all",type="Object",qualifiers=["Any"],priority=1,body="echo"}]
"#;

const BAD_POINTS: &[u8] = br#"kind="bean"
name="Inn"
named="mall.x"
points=[{name="p",type="Shop"},{name="q",type="Object"}]
producers=[{name="make",type="Beer",body="echo",params=[{name="r",type="Rum"}]}]
disposers=[{name="drop",type="Wine",body="echo"}]
"#;

const FURTHER_TYPE: &[u8] = b"kind=\"type\"\nname=\"Hut\"\nextends=\"Place\"\n";

const SPECIALIZED: &[u8] =
    b"kind=\"bean\"\nname=\"Place\"\nqualifiers=[\"Rank(n=1)\"]\nnamed=\"\"\n";

const SPECIALIZING: &[u8] =
    b"kind=\"bean\"\nname=\"Corner\"\nspecializes=true\ntypes=[\"Shop\"]\nnamed=\"\"\nqualifiers=[\"Rank(n=2)\"]\n";

const ALSO_SPECIALIZING: &[u8] = b"kind=\"bean\"\nname=\"Hut\"\nspecializes=true\n";

const SPECIALIZING_NONE: &[u8] = b"kind=\"bean\"\nname=\"Lone\"\nspecializes=true\n";

/// The faults of what is declared at the end.
const FAULTS: &[u8] = b"F01 type Corner type Place
F01 type Corner type Stop
F01 bean Mall qualifier Rank
F01 bean Mall type Mall
F01 bean Stand stereotype Ghost
F01 bean Stand stereotype Mock
F01 bean Stand type Booth
F01 bean Stand type Stand
F04 bean Stand typed Booth
F06 bean Till class
F10 interceptor Clerk pre
F11 interceptor Clerk
F01 bean Desk type Desk
F22 bean Desk point t
F01 bean Ear type Ear
F01 bean Inn type Beer
F01 bean Inn type Inn
F01 bean Inn type Rum
F01 bean Inn type Wine
F08 bean Inn disposer drop
F20 bean Inn point p
F20 bean Inn producer make param r
F21 bean Inn point q
F01 type Hut type Place
F01 bean Place qualifier Rank
F01 bean Place type Place
F01 bean Corner qualifier Rank
F28 bean Corner type Place
F29 bean Corner
F01 bean Lone type Lone
F27 bean Lone
F24 name place
F25 name mall mall.x
F30 bean Place Corner Hut
";

/// Calls, each with its answer.
static CALLS: [(Call, Answer); 56] = [
    (Put(TYPE), Done),
    (Put(INTERFACE), Done),
    (Put(QUALIFIER), Done),
    (Put(BEAN), Done),
    (Put(OTHER_BEAN), Done),
    (Put(BAD_BEAN), Refused(Refusal::UnknownKey)),
    (Put(TWICE), Refused(Refusal::Twice)),
    (Put(MEMBER_TWICE), Refused(Refusal::Twice)),
    (Choose(SHOP, PLAIN), One(CORNER)),
    (Choose(OBJECT, PLAIN), Ambiguous(BOTH)),
    (Choose(OBJECT, RANKED), One(MALL)),
    (Named(b"mall"), Ambiguous(BOTH)),
    (Named(b"corner"), Unsatisfied),
    (Put(STEREOTYPE), Done),
    (Put(OTHER_STEREOTYPE), Done),
    (Put(ALTERNATIVE), Done),
    (Named(b"stand"), One(STAND)),
    (Choose(OBJECT, PLAIN), One(STAND)),
    (Remove(Kind::Stereotype, b"Mock"), Done),
    (Named(b"stand"), Unsatisfied),
    (Remove(Kind::Bean, CORNER), Done),
    (Remove(Kind::Bean, CORNER), Refused(Refusal::Absent)),
    (Choose(CORNER, PLAIN), Unsatisfied),
    (Remove(Kind::Qualifier, b"Rank"), Done),
    // `n` has no default, and `m` counts.
    (Choose(OBJECT, RANKED), Unsatisfied),
    (Put(BINDING), Done),
    (Put(OTHER_BINDING), Done),
    (Put(FINAL_TYPE), Done),
    (Put(BOUND_BEAN), Done),
    (Put(INTERCEPTOR), Done),
    (Put(BAD_INTERCEPTOR), Done),
    (Put(CALLER), Done),
    (Chain(b"Till", Some(b"run")), Around(&[b"Scribe"])),
    // What is known of the chain is compared.
    (Put(OTHER_INTERCEPTOR), Done),
    (Chain(b"Till", Some(b"run")), Around(&[b"Scribe", b"Clark"])),
    (Remove(Kind::Interceptor, b"Clark"), Done),
    (Chain(b"Till", Some(b"run")), Around(&[b"Scribe"])),
    (Chain(b"Till", None), Around(&[])),
    (Chain(b"Till", Some(b"stop")), Refused(Refusal::NoMethod)),
    (Chain(b"Inn", None), Refused(Refusal::UnknownName)),
    (Put(LISTENER), Done),
    (Observers(SHOP, RANKED), Observed(&[b"all", b"shop"])),
    (Observers(OBJECT, PLAIN), Observed(&[b"all"])),
    (Put(BAD_POINTS), Done),
    (Put(FURTHER_TYPE), Done),
    (Put(SPECIALIZED), Done),
    (Put(SPECIALIZING), Done),
    (Choose(SHOP, b"Rank(n=1)"), One(CORNER)),
    (Put(ALSO_SPECIALIZING), Done),
    (Choose(PLACE, ANY), One(HUT)),
    (Put(SPECIALIZING_NONE), Done),
    (Counts, Counted(5, 12)),
    (Report, Faults(FAULTS)),
    (
        Beans,
        Around(&[
            MALL, STAND, b"Till", b"Desk", b"Ear", b"Inn", b"Inn", PLACE, CORNER, HUT, b"Lone",
        ]),
    ),
    (Promises, Done),
    (Books, Done),
];

/// Makes a call.
fn make<B: Bodies>(
    alloc: Global,
    container: &mut Container<B>,
    call: Call,
) -> Result<Answered, Error> {
    match call {
        Put(text) => nothing(container.put(text)),
        Remove(kind, text) => nothing(container.remove(kind, name(text)?)),
        Choose(text, uses) => choose(alloc, container, text, uses),
        Named(text) => chosen(container.named(name(text)?)),
        Chain(text, method) => chain(container, text, method),
        Observers(text, uses) => observers(alloc, container, text, uses),
        Report => report(alloc, container),
        Counts => Ok(Answered::Counts(container.counts())),
        Beans => beans(alloc, container),
        Promises => promises(alloc),
        Books => books(alloc),
    }
}

fn books(alloc: Global) -> Result<Answered, Error> {
    match Book::new(stock_bodies!(alloc)) {
        Ok(_) => Ok(Answered::Nothing),
        Err(_) => Err(Error::OutOfMemory),
    }
}

fn beans<B: Bodies>(alloc: Global, container: &Container<B>) -> Result<Answered, Error> {
    let mut classes = Vec::new(alloc);
    for bean in container.beans() {
        classes.push(bean.id.class)?;
    }
    Ok(Answered::Names(Shared::from_vec(alloc, classes)?))
}

fn promises(alloc: Global) -> Result<Answered, Error> {
    let mut book = PromiseBook::new(alloc);
    book.insert(Ident::new(b"unit"), Promise::NONE)?;
    book.insert(Ident::new(b"count"), Promise::LOAD_STORE)?;
    match book.promise(&Ident::new(b"count")) {
        Some(promise) if promise == Promise::LOAD_STORE => Ok(Answered::Nothing),
        _ => Err(Error::Refused(Refusal::Absent)),
    }
}

fn observers<B: Bodies>(
    alloc: Global,
    container: &mut Container<B>,
    text: &[u8],
    uses: &[u8],
) -> Result<Answered, Error> {
    let quals = read_quals(alloc, uses)?;
    Ok(Answered::Observers(container.observers(name(text)?, &quals)?))
}

fn chain<B: Bodies>(
    container: &mut Container<B>,
    text: &[u8],
    method: Option<&[u8]>,
) -> Result<Answered, Error> {
    let place = match method {
        Some(method) => {
            BeanPlace::Method(Ident::parse(method).ok_or(Error::Refused(Refusal::BadName))?)
        }
        None => BeanPlace::Construct,
    };
    Ok(Answered::Names(container.chain(name(text)?, &place)?))
}

fn nothing<T: Drop>(outcome: Result<T, Error>) -> Result<Answered, Error> {
    match outcome {
        Ok(_) => Ok(Answered::Nothing),
        Err(error) => Err(error),
    }
}

fn chosen(outcome: Result<Choice, AllocError>) -> Result<Answered, Error> {
    match outcome {
        Ok(choice) => Ok(Answered::Choice(choice)),
        Err(_) => Err(Error::OutOfMemory),
    }
}

fn choose<B: Bodies>(
    alloc: Global,
    container: &mut Container<B>,
    text: &[u8],
    uses: &[u8],
) -> Result<Answered, Error> {
    let quals = read_quals(alloc, uses)?;
    chosen(container.choose(name(text)?, &quals))
}

fn report<B: Bodies>(alloc: Global, container: &mut Container<B>) -> Result<Answered, Error> {
    let faults = container.report()?;
    Ok(Answered::Faults(lines_of(alloc, faults.as_slice())?))
}

/// Whether a call has its answer. `None` where it has no memory.
fn is_right<B: Bodies>(
    alloc: Global,
    container: &mut Container<B>,
    call: Call,
    answer: Answer,
) -> Option<bool> {
    agrees(&make(alloc, container, call), answer)
}

/// Makes the calls in a container that is empty at first, and tells whether one got no memory. Where one gets none, it is made
/// again.
pub fn make_calls<B: Bodies>(
    alloc: Global,
    container: &mut Container<B>,
) -> Result<bool, Difference> {
    let mut refused = false;
    for (place, (call, answer)) in CALLS.iter().enumerate() {
        let mut right = is_right(alloc, container, *call, *answer);
        if right.is_none() {
            if refused {
                return Err(Difference::RefusedAgain);
            }
            refused = true;
            right = is_right(alloc, container, *call, *answer);
        }
        if right != Some(true) {
            return Err(Difference::Answer(place));
        }
    }
    Ok(refused)
}
