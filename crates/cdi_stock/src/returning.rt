//! Bodies that return or fail at once.
ghost use Rattle.std.specs.Prelude.{◌≡◌};
ghost use Rattle.cdi_bodies.specs.Within.{IsWithin};
ghost use Rattle.cdi_stock.specs.Acts as acts;

use cdi_bodies::{Act, Frame, Promise};
use cdi_model::{Failure, Val};

/// The body `unit`: returns null.
pub fn unit(_frame: &Frame) -> Act
    ensures kept { IsWithin Promise.NONE _frame.now result }
    ensures act { result ≡ acts.unit_act _frame.now }
{
    Act::Return(Val::Null)
}

/// The body `zero`: returns 0.
pub fn zero(_frame: &Frame) -> Act
    ensures kept { IsWithin Promise.NONE _frame.now result }
    ensures act { result ≡ acts.zero_act _frame.now }
{
    Act::Return(Val::Int(0))
}

/// The body `echo`: returns the argument.
pub fn echo(frame: &Frame) -> Act
    ensures kept { IsWithin Promise.NONE frame.now result }
    ensures act { result ≡ acts.echo_act frame.now }
{
    Act::Return(frame.argument)
}

/// The body `short`: returns -1, and does not proceed.
pub fn short(_frame: &Frame) -> Act
    ensures kept { IsWithin Promise.NONE _frame.now result }
    ensures act { result ≡ acts.short_act _frame.now }
{
    Act::Return(Val::Int(-1))
}

/// The body `boom`: fails with `User(9)`.
pub fn boom(_frame: &Frame) -> Act
    ensures kept { IsWithin Promise.FAIL _frame.now result }
    ensures act { result ≡ acts.boom_act _frame.now }
{
    Act::Fail(Failure::User(9))
}
