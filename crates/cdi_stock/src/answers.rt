//! What answers say.
ghost use Rattle.std.specs.Prelude.{◌≡◌};
ghost use Rattle.cdi_stock.specs.Acts as acts;

use cdi_bodies::Frame;
use cdi_model::{Outcome, Val};

/// The latest answer of a frame.
pub(crate) fn latest(frame: &Frame) -> Option<Outcome>
    ensures { result ≡ acts.latest frame.now.answers.items }
{
    frame.answers.last().copied()
}

/// The number that a value is, with null taken as 0.
pub(crate) fn number_of(value: Val) -> i64
    ensures { result ≡ acts.number_of value }
{
    match value {
        Val::Null => 0,
        Val::Int(number) => number,
    }
}

/// What an answer says that the state is, as a number.
pub(crate) fn number_in(answer: Outcome) -> i64
    ensures { result ≡ acts.number_in answer }
{
    match answer {
        Outcome::Value(held) => number_of(held),
        Outcome::Failed(_) => 0,
    }
}
