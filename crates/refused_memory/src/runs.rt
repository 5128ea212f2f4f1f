//! Lookups, calls, events, requests, edits and a stop of a container, of which any one allocation may be refused.
use crate::Difference;
use Asked::{Batch, Begin, Call, End, Fire, LookUp, Put, PutDecl, Remove, Stop};
use cdi_container::{BatchError, Bodies, Container, Edit, read_decl};
use cdi_fixtures::name;
use cdi_model::{Error, Ident, Kind, Name, Outcome, Quals, Refusal, Seq, Val};
use std::alloc::{AllocError, Global};

/// A call of a container. What is looked up and called, and an event, is meant by its type alone.
#[derive(Clone, Copy)]
pub enum Asked {
    LookUp(&'static [u8]),
    /// Of a method, with an argument.
    Call(&'static [u8], Val, &'static [u8]),
    Fire(Val, &'static [u8]),
    Put(&'static [u8]),
    /// Of what a text spells.
    PutDecl(&'static [u8]),
    /// Of each of these texts, and then of what it spells.
    Batch(&'static [&'static [u8]]),
    /// Of a type.
    Remove(&'static [u8]),
    Begin,
    End,
    Stop,
}

/// What a call answers: an outcome where it is a lookup, the call of a method or an event.
pub type Reply = Result<Option<Outcome>, Error>;

/// A call, what it answers, and the trace after it.
#[derive(Clone, Copy)]
pub struct Step(pub Asked, pub Reply, pub &'static [u8]);

/// How a step goes.
enum Going {
    Right,
    /// It answers, shows or leaves something else.
    Wrong,
    /// It has no memory, and goes right when it is made again, or leaves no trace.
    Refused,
}

fn method(text: &[u8]) -> Result<Ident, Error> {
    Ident::parse(text).ok_or(Error::Refused(Refusal::BadName))
}

fn given(answered: Result<Outcome, Error>) -> Reply {
    Ok(Some(answered?))
}

fn done(answered: Result<(), Error>) -> Reply {
    answered?;
    Ok(None)
}

fn state_of<B: Bodies>(alloc: Global, container: &mut Container<B>, bean_type: Name) -> Reply {
    given(container.lookup(bean_type, &Quals::new(alloc)))
}

fn answer_of<B: Bodies>(
    alloc: Global,
    container: &mut Container<B>,
    bean_type: Name,
    method: Ident,
    arg: Val,
) -> Reply {
    given(container.call(bean_type, &Quals::new(alloc), method, arg))
}

/// Fires an event without qualifiers.
fn outcome_of<B: Bodies>(
    alloc: Global,
    container: &mut Container<B>,
    event_type: Name,
    arg: Val,
) -> Reply {
    given(container.fire(event_type, &Quals::new(alloc), arg))
}

fn begin_request<B: Bodies>(container: &mut Container<B>) -> Reply {
    done(container.begin_request().map_err(Error::Refused))
}

fn end_request<B: Bodies>(container: &mut Container<B>) -> Reply {
    done(container.end_request())
}

fn end_contexts<B: Bodies>(container: &mut Container<B>) -> Reply {
    done(container.stop().map_err(|_| Error::OutOfMemory))
}

fn declare_one<B: Bodies>(container: &mut Container<B>, text: &[u8]) -> Result<(), Error> {
    container.put(text)?;
    Ok(())
}

fn put_decl<B: Bodies>(
    alloc: Global,
    container: &mut Container<B>,
    text: &[u8],
) -> Result<(), Error> {
    container.put_decl(read_decl(alloc, text)?)?;
    Ok(())
}

fn remove<B: Bodies>(container: &mut Container<B>, text: &[u8]) -> Result<(), Error> {
    container.remove(Kind::Type, name(text)?)
}

fn put_of(alloc: Global, text: &[u8]) -> Result<Edit, AllocError> {
    let mut copy = Vec::with_capacity(alloc, text.len())?;
    copy.extend_from_slice(text)?;
    let text = Seq::from_vec(copy);
    Ok(Edit::Put { text })
}

fn put_decl_of(alloc: Global, text: &[u8]) -> Result<Edit, Error> {
    let decl = Box::new(alloc, read_decl(alloc, text)?)?;
    Ok(Edit::PutDecl { decl })
}

/// Puts of each text, and then of what it spells.
fn push_puts(alloc: Global, edits: &mut Vec<Edit>, texts: &[&[u8]]) -> Result<(), Error> {
    for text in texts {
        edits.push(put_of(alloc, text)?)?;
        edits.push(put_decl_of(alloc, text)?)?;
    }
    Ok(())
}

/// Makes a batch of these puts.
fn declare_all<B: Bodies>(
    alloc: Global,
    container: &mut Container<B>,
    texts: &[&[u8]],
) -> Result<(), Error> {
    let mut edits = Vec::new(alloc);
    push_puts(alloc, &mut edits, texts)?;
    match container.batch(edits) {
        Ok(()) => Ok(()),
        Err(BatchError::OutOfMemory) => Err(Error::OutOfMemory),
        Err(BatchError::Refused { refusal, .. }) => Err(Error::Refused(refusal)),
    }
}

/// Makes a call by its own function.
fn make<B: Bodies>(alloc: Global, container: &mut Container<B>, asked: &Asked) -> Reply {
    match asked {
        LookUp(text) => state_of(alloc, container, name(text)?),
        Call(text, arg, of) => answer_of(alloc, container, name(of)?, method(text)?, *arg),
        Fire(arg, of) => outcome_of(alloc, container, name(of)?, *arg),
        Put(text) => done(declare_one(container, text)),
        PutDecl(text) => done(put_decl(alloc, container, text)),
        Batch(texts) => done(declare_all(alloc, container, texts)),
        Remove(text) => done(remove(container, text)),
        Begin => begin_request(container),
        End => end_request(container),
        Stop => end_contexts(container),
    }
}

fn trace_text<B: Bodies>(alloc: Global, container: &Container<B>) -> Result<Vec<u8>, AllocError> {
    let mut text = Vec::new(alloc);
    container.push_trace(&mut text)?;
    Ok(text)
}

/// Whether a container shows so many entries.
fn has_entries<B: Bodies>(container: &Container<B>, count: usize) -> bool {
    let mut entries = container.trace();
    for _ in 0..count {
        if entries.next().is_none() {
            return false;
        }
    }
    entries.next().is_none()
}

/// Whether a container shows this trace, with an entry for each line.
fn shows<B: Bodies>(
    alloc: Global,
    container: &Container<B>,
    wanted: &[u8],
) -> Result<bool, AllocError> {
    let text = trace_text(alloc, container)?;
    let lines = wanted.iter().filter(|byte| **byte == b'\n').count();
    Ok(text.as_slice() == wanted && has_entries(container, lines))
}

/// Whether a call that found no memory answers and shows what it is to when it is made again.
fn repeats<B: Bodies>(
    alloc: Global,
    container: &mut Container<B>,
    step: &Step,
) -> Result<bool, AllocError> {
    let Step(asked, wanted, trace) = step;
    let reply = make(alloc, container, asked);
    Ok(reply == *wanted && shows(alloc, container, trace)?)
}

/// How a step goes that has no memory for its call. An edit and the end of contexts change nothing then. After any other
/// call nothing is live, and the numbers of instances go on, so the steps end there.
fn refused<B: Bodies>(alloc: Global, container: &mut Container<B>, step: &Step) -> Going {
    let is_right = match step.0 {
        Put(_) | PutDecl(_) | Batch(_) | Remove(_) | End | Stop => {
            repeats(alloc, container, step) == Ok(true)
        }
        _ => container.trace().next().is_none(),
    };
    if is_right {
        Going::Refused
    } else {
        Going::Wrong
    }
}

/// How a step goes whose call is right. Where there is no memory for the trace's text, the text is asked for again.
fn shown<B: Bodies>(alloc: Global, container: &Container<B>, trace: &[u8]) -> Going {
    match shows(alloc, container, trace) {
        Ok(true) => Going::Right,
        Ok(false) => Going::Wrong,
        Err(_) => match shows(alloc, container, trace) {
            Ok(true) => Going::Refused,
            _ => Going::Wrong,
        },
    }
}

fn take<B: Bodies>(alloc: Global, container: &mut Container<B>, step: &Step) -> Going {
    let Step(asked, wanted, trace) = step;
    let reply = make(alloc, container, asked);
    if reply == Err(Error::OutOfMemory) {
        return refused(alloc, container, step);
    }
    if reply == *wanted {
        shown(alloc, container, trace)
    } else {
        Going::Wrong
    }
}

fn declare<B: Bodies>(container: &mut Container<B>, texts: &[&[u8]]) -> Result<(), Error> {
    for text in texts {
        declare_one(container, text)?;
    }
    Ok(())
}

/// Takes the steps up to one that has no memory, and says whether there is one.
fn take_each<B: Bodies>(
    alloc: Global,
    container: &mut Container<B>,
    steps: &[Step],
) -> Result<bool, Difference> {
    for (place, step) in steps.iter().enumerate() {
        match take(alloc, container, step) {
            Going::Right => {}
            Going::Wrong => return Err(Difference::Step(place)),
            Going::Refused => return Ok(true),
        }
    }
    Ok(false)
}

/// Declares in an empty container what the steps need, takes them, and says whether there was no memory for one of these.
pub fn take_steps<B: Bodies>(
    alloc: Global,
    container: &mut Container<B>,
    texts: &[&[u8]],
    steps: &[Step],
) -> Result<bool, Difference> {
    match declare(container, texts) {
        Ok(()) => take_each(alloc, container, steps),
        Err(Error::OutOfMemory) => Ok(true),
        Err(_) => Err(Difference::Declarations),
    }
}
