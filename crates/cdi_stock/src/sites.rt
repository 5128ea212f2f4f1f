//! Bodies that call their call sites in turn, and that fire at their fire sites.
ghost use Rattle.std.specs.Prelude.{◌≡◌};
ghost use Rattle.cdi_bodies.specs.Within.{IsWithin};
ghost use Rattle.cdi_stock.specs.Acts as acts;

use crate::answers::latest;
use cdi_bodies::{Act, Frame, Promise};
use cdi_model::{Outcome, Val};

/// The body `relay`: calls each site in order, the first with the argument, each later one with the answer before, and
/// returns the last answer; without sites the argument. It fails as an answer does.
pub fn relay(frame: &Frame) -> Act
    ensures kept { IsWithin Promise.CALL_FAIL frame.now result }
    ensures act { result ≡ acts.relay_act frame.now }
{
    match latest(frame) {
        None => call_next(frame, frame.argument),
        Some(Outcome::Value(given)) => call_next(frame, given),
        Some(Outcome::Failed(failure)) => Act::Fail(failure),
    }
}

/// Calls the next site with this, or returns it after the last.
fn call_next(frame: &Frame, given: Val) -> Act
    ensures kept { IsWithin Promise.CALL_FAIL frame.now result }
    ensures act { result ≡ acts.call_next frame.now given }
{
    let answered = frame.answers.len();
    if answered < frame.calls as usize {
        Act::Call {
            site: answered as u8,
            arg: given,
        }
    } else {
        Act::Return(given)
    }
}

/// The body `notify`: fires at each site in order with the argument, and returns it. It fails as an answer does.
pub fn notify(frame: &Frame) -> Act
    ensures kept { IsWithin Promise.FIRE_FAIL frame.now result }
    ensures act { result ≡ acts.notify_act frame.now }
{
    match latest(frame) {
        None | Some(Outcome::Value(_)) => fire_next(frame),
        Some(Outcome::Failed(failure)) => Act::Fail(failure),
    }
}

/// Fires at the next site with the argument, or returns it after the last.
fn fire_next(frame: &Frame) -> Act
    ensures kept { IsWithin Promise.FIRE_FAIL frame.now result }
    ensures act { result ≡ acts.fire_next frame.now }
{
    let answered = frame.answers.len();
    if answered < frame.fires as usize {
        Act::Fire {
            site: answered as u8,
            arg: frame.argument,
        }
    } else {
        Act::Return(frame.argument)
    }
}
