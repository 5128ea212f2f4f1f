//! What a command answers.
ghost use Rattle.std.specs.Prelude.{◌≡◌, None};
ghost use Rattle.cdi_container.specs.Seen.{failed_answer, edit_answer, put_answer, batch_answer, plain_answer, end_answer};
ghost use Rattle.cdi_container.specs.declared.answer.Answer.TheVariants.{Refused};
ghost use Rattle.cdi_container.specs.Seen.{chain_answer, choice_answer, observers_answer, outcome_answer, report_answer};

use crate::batch::BatchError;
use cdi_faults::Fault;
use cdi_index::Counts;
use cdi_model::{Error, Kind, Name, Outcome, Refusal, Seq};
use cdi_observe::{ObserverId, Shared};
use cdi_resolve::Choice;
use std::alloc::AllocError;

/// How many answers were computed, up to the greatest `u64`, and of how many keys the answers are known.
#[derive(Clone, Copy, Debug, PartialEq, Eq)]
pub struct WorkDone {
    pub work: u64,
    pub known: usize,
}

/// What a put did.
#[derive(Clone, Copy, Debug, PartialEq, Eq)]
pub struct PutDone {
    /// The kind of the declaration that was put.
    pub kind: Kind,
    /// Its name.
    pub name: Name,
    /// Whether one of this kind and name was there, in whose place it is now.
    pub has_replaced: bool,
}

/// The answer of a command.
#[derive(Debug, Drop)]
pub enum Answer {
    /// An edit, or a change of a context, is done.
    Done,
    /// The bean that was asked for, or why there is none.
    Chosen(Choice),
    /// The names of the interceptors around a place, in order.
    Intercepted(Shared<Name>),
    /// The observer methods that are notified of an event, in order.
    Observed(Shared<ObserverId>),
    /// The faults of the deployment, in their order.
    Reported(Seq<Fault>),
    /// How many records were computed.
    Counted(Counts),
    /// How many answers were computed, and how many are known.
    Worked(WorkDone),
    /// The outcome of a lookup, a call or an event: a value or a failure.
    Given(Outcome),
    /// The command is refused. It has changed nothing but which answers are known and the work, where it is a run.
    Refused {
        refusal: Refusal,
        /// The edit of a batch that is refused, counted from 1.
        edit: Option<usize>,
    },
}

/// The answer of a call that was refused and is no batch.
pub(crate) fn refused(refusal: Refusal) -> Answer
    ensures { result ≡ Refused refusal None }
{
    Answer::Refused {
        refusal,
        edit: None,
    }
}

/// The answer of a call that was refused or found no memory.
fn answer_of_failure(error: Error) -> Result<Answer, AllocError>
    ensures { result ≡ failed_answer error }
{
    match error {
        Error::OutOfMemory => Err(AllocError),
        Error::Refused(refusal) => Ok(refused(refusal)),
    }
}

/// What a call that puts a declaration answers as an edit.
pub(crate) fn without_put(called: Result<PutDone, Error>) -> Result<(), Error>
    ensures { edit_answer result ≡ put_answer called }
{
    match called {
        Ok(_) => Ok(()),
        Err(error) => Err(error),
    }
}

/// The answer of a call that gives no value.
pub(crate) fn answer_of_edit(called: Result<(), Error>) -> Result<Answer, AllocError>
    ensures { result ≡ edit_answer called }
{
    match called {
        Ok(()) => Ok(Answer::Done),
        Err(error) => answer_of_failure(error),
    }
}

/// The answer of a batch.
pub(crate) fn answer_of_batch(called: Result<(), BatchError>) -> Result<Answer, AllocError>
    ensures { result ≡ batch_answer called }
{
    match called {
        Ok(()) => Ok(Answer::Done),
        Err(BatchError::OutOfMemory) => Err(AllocError),
        Err(BatchError::Refused { refusal, edit }) => Ok(Answer::Refused { refusal, edit }),
    }
}

/// The answer of a call that gives no value and takes no memory.
pub(crate) fn answer_of_begin(called: Result<(), Refusal>) -> Result<Answer, AllocError>
    ensures { result ≡ plain_answer called }
{
    match called {
        Ok(()) => Ok(Answer::Done),
        Err(refusal) => Ok(refused(refusal)),
    }
}

/// The answer of a call that gives no value and is never refused.
pub(crate) fn answer_of_stop(called: Result<(), AllocError>) -> Result<Answer, AllocError>
    ensures { result ≡ end_answer called }
{
    match called {
        Ok(()) => Ok(Answer::Done),
        Err(error) => Err(error),
    }
}

/// The answer of a question for a bean.
pub(crate) fn answer_of_choice(called: Result<Choice, AllocError>) -> Result<Answer, AllocError>
    ensures { result ≡ choice_answer called }
{
    match called {
        Ok(choice) => Ok(Answer::Chosen(choice)),
        Err(error) => Err(error),
    }
}

/// The answer of a question for interceptors.
pub(crate) fn answer_of_chain(called: Result<Shared<Name>, Error>) -> Result<Answer, AllocError>
    ensures { result ≡ chain_answer called }
{
    match called {
        Ok(names) => Ok(Answer::Intercepted(names)),
        Err(error) => answer_of_failure(error),
    }
}

/// The answer of a question for observer methods.
pub(crate) fn answer_of_observers(
    called: Result<Shared<ObserverId>, AllocError>,
) -> Result<Answer, AllocError>
    ensures { result ≡ observers_answer called }
{
    match called {
        Ok(ids) => Ok(Answer::Observed(ids)),
        Err(error) => Err(error),
    }
}

/// The answer of a report.
pub(crate) fn answer_of_report(called: Result<Vec<Fault>, AllocError>) -> Result<Answer, AllocError>
    ensures { result ≡ report_answer called }
{
    match called {
        Ok(faults) => Ok(Answer::Reported(Seq::from_vec(faults))),
        Err(error) => Err(error),
    }
}

/// The answer of a lookup, a call or an event.
pub(crate) fn answer_of_run(called: Result<Outcome, Error>) -> Result<Answer, AllocError>
    ensures { result ≡ outcome_answer called }
{
    match called {
        Ok(outcome) => Ok(Answer::Given(outcome)),
        Err(error) => answer_of_failure(error),
    }
}
