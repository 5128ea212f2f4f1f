//! Bodies that load and store what their instance holds.
ghost use Rattle.std.specs.Prelude.{◌≡◌, ℕ};
ghost use Rattle.cdi_bodies.specs.Within.{Covers, IsWithin};
ghost use Rattle.cdi_stock.specs.Acts as acts;

use crate::answers::number_in;
use cdi_bodies::{Act, Frame, Promise};
use cdi_model::{Failure, Outcome, Val};

/// One more than what an answer says that the instance holds, or the greatest number.
fn next_number(held: Outcome) -> i64
    ensures { result ≡ acts.next_number (acts.number_in held) }
{
    number_in(held).saturating_add(1)
}

/// The body `count`: adds one to what the instance holds, and returns the sum.
pub fn count(frame: &Frame) -> Act
    ensures kept { IsWithin Promise.LOAD_STORE frame.now result }
    ensures act { result ≡ acts.count_act frame.now }
{
    match frame.answers.as_slice() {
        [] => Act::Load,
        [held] => Act::Store(Val::Int(next_number(*held))),
        [held, ..] => Act::Return(Val::Int(next_number(*held))),
    }
}

/// The body `flaky`: adds one to what the instance holds, and returns the sum where 3 divides it; else it fails with
/// `User(3)`.
pub fn flaky(frame: &Frame) -> Act
    ensures kept { IsWithin Promise.LOAD_STORE_FAIL frame.now result }
    ensures act { result ≡ acts.flaky_act frame.now }
{
    match frame.answers.as_slice() {
        [] => Act::Load,
        [held] => Act::Store(Val::Int(next_number(*held))),
        [held, ..] => return_thirds(next_number(*held)),
    }
}

/// Returns a number that 3 divides.
fn return_thirds(number: i64) -> Act
    ensures kept { (calls fires : ℕ) → Covers Promise.LOAD_STORE_FAIL calls fires result }
    ensures act { result ≡ acts.returning_thirds number }
{
    if number.unsigned_abs() % 3 == 0 {
        Act::Return(Val::Int(number))
    } else {
        Act::Fail(Failure::User(3))
    }
}

/// The body `spin`: loads, always, until the frame has made too many acts.
pub fn spin(_frame: &Frame) -> Act
    ensures kept { IsWithin Promise.LOAD _frame.now result }
    ensures act { result ≡ acts.spin_act _frame.now }
{
    Act::Load
}
