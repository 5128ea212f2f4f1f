//! Bodies of interceptors: they proceed with the argument, and end by the answer.
ghost use Rattle.std.specs.Prelude.{◌≡◌};
ghost use Rattle.cdi_bodies.specs.Within.{IsWithin};
ghost use Rattle.cdi_stock.specs.Acts as acts;

use crate::answers::latest;
use cdi_bodies::{Act, Frame, Promise};
use cdi_model::{Failure, Outcome, Val};

/// The body `pass`: proceeds, and returns the value of the answer or fails as it does.
pub fn pass(frame: &Frame) -> Act
    ensures kept { IsWithin Promise.PROCEED_FAIL frame.now result }
    ensures act { result ≡ acts.pass_act frame.now }
{
    match latest(frame) {
        None => Act::Proceed(frame.argument),
        Some(Outcome::Value(value)) => Act::Return(value),
        Some(Outcome::Failed(failure)) => Act::Fail(failure),
    }
}

/// The body `double`: as `pass`, but a number is doubled.
pub fn double(frame: &Frame) -> Act
    ensures kept { IsWithin Promise.PROCEED_FAIL frame.now result }
    ensures act { result ≡ acts.double_act frame.now }
{
    match latest(frame) {
        None => Act::Proceed(frame.argument),
        Some(Outcome::Value(value)) => Act::Return(doubled(value)),
        Some(Outcome::Failed(failure)) => Act::Fail(failure),
    }
}

/// Twice a number, or the end of what an `i64` can say; null stays.
fn doubled(value: Val) -> Val
    ensures { result ≡ acts.doubled value }
{
    match value {
        Val::Null => Val::Null,
        Val::Int(number) => Val::Int(number.saturating_mul(2)),
    }
}

/// The body `guard`: fails with `User(1)` where the argument is negative; else as `pass`.
pub fn guard(frame: &Frame) -> Act
    ensures kept { IsWithin Promise.PROCEED_FAIL frame.now result }
    ensures act { result ≡ acts.guard_act frame.now }
{
    if is_negative(frame.argument) {
        return Act::Fail(Failure::User(1));
    }
    pass(frame)
}

fn is_negative(value: Val) -> bool
    ensures { result ≡ acts.is_negative_val value }
{
    match value {
        Val::Null => false,
        Val::Int(number) => number.is_negative(),
    }
}

/// The body `retry`: proceeds until a value comes, which it returns, at most three times; then it fails with the third
/// failure.
pub fn retry(frame: &Frame) -> Act
    ensures kept { IsWithin Promise.PROCEED_FAIL frame.now result }
    ensures act { result ≡ acts.retry_act frame.now }
{
    match latest(frame) {
        None => Act::Proceed(frame.argument),
        Some(Outcome::Value(value)) => Act::Return(value),
        Some(Outcome::Failed(failure)) => proceed_again(frame, failure),
    }
}

/// Proceeds, unless three answers are there; then it fails with this.
fn proceed_again(frame: &Frame, failure: Failure) -> Act
    ensures kept { IsWithin Promise.PROCEED_FAIL frame.now result }
    ensures act { result ≡ acts.retrying frame.now (Some (Outcome.Failed failure)) }
{
    if frame.answers.len() < 3 {
        Act::Proceed(frame.argument)
    } else {
        Act::Fail(failure)
    }
}

/// The body `swallow`: proceeds, and returns the value of the answer, or null for a failure.
pub fn swallow(frame: &Frame) -> Act
    ensures kept { IsWithin Promise.PROCEED frame.now result }
    ensures act { result ≡ acts.swallow_act frame.now }
{
    match latest(frame) {
        None => Act::Proceed(frame.argument),
        Some(Outcome::Value(value)) => Act::Return(value),
        Some(Outcome::Failed(_)) => Act::Return(Val::Null),
    }
}
