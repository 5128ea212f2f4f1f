//! What a callback shows while those after it run in its place.
ghost use Rattle.std.specs.Prelude.{◌≡◌, ◌≤◌, length};

use arrayvec::ArrayVec;
use cdi_bodies::Frame;
use cdi_model::{Outcome, Val};

/// What a frame of a callback shows when it proceeds: at most 8 answers (profile). The callbacks of an instance share one
/// frame, so that a link of their chain takes little of the stack.
#[derive(Drop)]
pub(crate) struct Paused {
    argument: Val,
    calls: u8,
    fires: u8,
    answers: ArrayVec<Outcome, 8>,
}

impl Paused {
    ghost use Rattle.cdi_ending.specs.Paused.{IsShown};

    /// Room for what a frame shows.
    pub(crate) fn new() -> Paused {
        Paused {
            argument: Val::Null,
            calls: 0,
            fires: 0,
            answers: ArrayVec::new(),
        }
    }

    /// Keeps what a frame shows now, in place: a value that is made elsewhere and moved would be on the stack twice.
    #[inline(never)]
    pub(crate) fn keep(&mut self, shown: &Frame)
        requires { length shown.now.answers.items ≤ 8 }
        ensures { IsShown self.new shown.now }
    {
        self.argument = shown.argument;
        self.calls = shown.calls;
        self.fires = shown.fires;
        self.answers.clear();
        let Ok(()) = self.answers.try_extend_from_slice(shown.answers.as_slice()) else {
            unreachable!()
        };
    }

    /// Makes the frame show it again.
    #[inline(never)]
    pub(crate) fn resume(&self, shown: &mut Frame)
        requires { length self.now.answers.items ≤ 8 }
        ensures { IsShown self.now shown.new }
    {
        shown.restart(self.argument, self.calls, self.fires);
        let Ok(()) = shown.answers.try_extend_from_slice(self.answers.as_slice()) else {
            unreachable!()
        };
    }
}
