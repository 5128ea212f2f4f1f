//! What a body is shown, and what it answers.
ghost use Rattle.std.specs.Prelude.{◌≡◌};

use arrayvec::ArrayVec;
use cdi_model::{Failure, Outcome, Val};

/// What a body is shown each time it is asked for its next act. A frame is one invocation of one body.
#[derive(Debug, Drop)]
pub struct Frame {
    /// What the body is invoked with.
    pub argument: Val,
    /// How many call sites its declaration has.
    pub calls: u8,
    /// How many sites its declaration has at which it fires events.
    pub fires: u8,
    /// The answers to its acts in this frame so far, in order: at most 64 (profile).
    pub answers: ArrayVec<Outcome, 64>,
}

impl Frame {
    ghost use Rattle.cdi_bodies.specs.Shown.{first_shown};

    /// A frame that begins.
    pub fn new(argument: Val, calls: u8, fires: u8) -> Frame
        ensures { result ≡ first_shown argument calls fires }
    {
        Frame {
            argument,
            calls,
            fires,
            answers: ArrayVec::new(),
        }
    }

    /// Begins again in the same place, as a new frame. It takes no memory, and time for the answers that were shown.
    pub fn restart(&mut self, argument: Val, calls: u8, fires: u8)
        ensures { self.new ≡ first_shown argument calls fires }
    {
        self.argument = argument;
        self.calls = calls;
        self.fires = fires;
        self.answers.clear();
    }
}

/// What a body answers: its next act, or how its frame ends.
#[derive(Clone, Copy, PartialEq, Eq, Debug)]
pub enum Act {
    /// Asks for what its instance holds.
    Load,
    /// Makes its instance hold this.
    Store(Val),
    /// Calls the method of a call site, counted from 0.
    Call { site: u8, arg: Val },
    /// Fires the event of a site, counted from 0.
    Fire { site: u8, arg: Val },
    /// Lets the next interceptor run, or after the last one the intercepted body (Interceptors 2.1, Method Interceptors).
    Proceed(Val),
    /// Ends the frame with a value.
    Return(Val),
    /// Ends the frame with a failure.
    Fail(Failure),
}
