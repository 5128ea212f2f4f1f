//! Answers, and what they are to be.
use crate::texts::{are_names, are_observers};
use cdi_container::{Choice, Counts, ObserverId, Shared};
use cdi_fixtures::are_of;
use cdi_model::{Error, Name, Refusal};

/// What a call is to answer. Beans are given by the names of their classes, and faults by their texts, each on a line.
#[derive(Clone, Copy)]
pub enum Answer {
    Done,
    Refused(Refusal),
    One(&'static [u8]),
    Unsatisfied,
    Ambiguous(&'static [&'static [u8]]),
    Faults(&'static [u8]),
    /// How many closures and how many records of beans were computed.
    Counted(u64, u64),
    /// The names of interceptors.
    Around(&'static [&'static [u8]]),
    /// The names of observer methods.
    Observed(&'static [&'static [u8]]),
}

/// What a call that was not refused answered.
#[derive(Drop)]
pub enum Answered {
    Nothing,
    Choice(Choice),
    /// The texts of faults, each on a line.
    Faults(Vec<u8>),
    Counts(Counts),
    Names(Shared<Name>),
    Observers(Shared<ObserverId>),
}

/// Whether a call answered what it is to answer. `None` where it had no memory.
pub fn agrees(answered: &Result<Answered, Error>, answer: Answer) -> Option<bool> {
    match answered {
        Ok(answered) => Some(is_answer(answered, answer)),
        Err(Error::OutOfMemory) => None,
        Err(error) => match answer {
            Answer::Refused(refusal) => Some(*error == Error::Refused(refusal)),
            _ => Some(false),
        },
    }
}

fn is_answer(answered: &Answered, answer: Answer) -> bool {
    match answered {
        Answered::Nothing => matches!(answer, Answer::Done),
        Answered::Choice(choice) => is_choice(choice, answer),
        Answered::Counts(counts) => match answer {
            Answer::Counted(closures, beans) => *counts == Counts { closures, beans },
            _ => false,
        },
        Answered::Names(names) => match answer {
            Answer::Around(wanted) => are_names(names.as_slice(), wanted),
            _ => false,
        },
        Answered::Observers(ids) => match answer {
            Answer::Observed(wanted) => are_observers(ids.as_slice(), wanted),
            _ => false,
        },
        Answered::Faults(text) => match answer {
            Answer::Faults(wanted) => text.as_slice() == wanted,
            _ => false,
        },
    }
}

/// Whether a choice is the one that is wanted.
pub fn is_choice(choice: &Choice, answer: Answer) -> bool {
    match (choice, answer) {
        (Choice::One(bean), Answer::One(class)) => bean.class.as_bytes() == class,
        (Choice::Unsatisfied, Answer::Unsatisfied) => true,
        (Choice::Ambiguous(beans), Answer::Ambiguous(classes)) => {
            are_of(beans.as_slice(), classes)
        }
        _ => false,
    }
}
