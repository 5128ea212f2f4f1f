//! Frames that have ended, and are begun again.
ghost use Rattle.std.specs.Prelude.{◌≡◌, ◌+◌, ◌-◌, ◌<◌, ◌≤◌, IfOk, IsOk};
ghost use Rattle.cdi_bodies.specs.Shown.{first_shown};

use crate::act::Frame;
use cdi_model::Val;
use std::alloc::{AllocError, Global};
use std::marker::Model;

/// Frames that have ended, so that a frame which begins takes no memory where there is one. They are seen as how many there
/// are: what they were shown shows in no frame that begins.
pub struct SpareFrames {
    frames: Vec<Box<Frame>>,
}

impl Drop for SpareFrames {
    fn drop(self) {
        let SpareFrames { frames: _ } = self;
    }
}

impl Model for SpareFrames {
    ghost use Rattle.std.specs.Prelude.{ℕ};
    ghost use Rattle.std.specs.Vec.{vec_len};

    ghost Value = { ℕ };

    ghost view = { λ spare. vec_len spare.frames };
}

impl SpareFrames {
    /// None yet. It takes no memory.
    pub fn new(alloc: Global) -> SpareFrames
        ensures { result ≡ 0 }
    {
        SpareFrames {
            frames: Vec::new(alloc),
        }
    }

    /// A frame that begins, before its first answer. It takes no memory where one is spare.
    pub fn begin(&mut self, argument: Val, calls: u8, fires: u8) -> Result<Box<Frame>, AllocError>
        ensures shown { IfOk result (λ frame. frame.value ≡ first_shown argument calls fires) }
        ensures possible { 0 < self.old → IsOk result }
        ensures fewer { self.new ≡ self.old - 1 }
    {
        match self.frames.pop() {
            Some(mut frame) => {
                frame.restart(argument, calls, fires);
                Ok(frame)
            }
            None => {
                let frame = Frame::new(argument, calls, fires);
                Ok(Box::new(*self.frames.allocator(), frame)?)
            }
        }
    }

    /// A frame has ended. It is spare from now on, unless there is no memory to keep it.
    pub fn end(&mut self, frame: Box<Frame>)
        ensures kept { self.old ≤ self.new }
        ensures more { self.new ≤ self.old + 1 }
    {
        let _ = self.frames.push(frame);
    }
}
