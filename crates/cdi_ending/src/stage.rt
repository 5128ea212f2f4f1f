//! What runs are played on: a scene, and the book that its bodies are in.
ghost use Rattle.std.specs.Prelude.{◌≡◌, IfOk, length};
ghost use Rattle.cdi_bodies.specs.Shown.{first_shown};
ghost use Rattle.cdi_scene.specs.Sound.{IsSound, IsSoundPart};
ghost use Rattle.cdi_legal.specs.Acts.{PermitsIn};

use cdi_bodies::{Act, Bodies, Frame};
use cdi_legal::Run;
use cdi_model::Val;
use cdi_scene::{Part, Scene};
use std::alloc::AllocError;
use std::marker::Model;

/// A scene with the book of its bodies, which is sound: what a deployment without faults gives its runs. It serves every run
/// until the declarations change. No call of its own takes memory, but where one begins a frame.
#[derive(Drop)]
pub struct Stage<'a, B: Bodies> {
    scene: &'a Scene,
    book: &'a B,
}

impl<'a, B: Bodies> Model for Stage<'a, B> {
    ghost use Rattle.cdi_scene.specs.Sound.{IsSound};
    ghost use Rattle.cdi_ending.specs.Staged.{Staged};

    ghost Value = { Staged };

    ghost view = { λ stage. record { scene = stage.scene.now; promises = B.promises stage.book.now } };

    ghost invariant = { λ stage. IsSound (B.promises stage.book.now) stage.scene.now };
}

impl<'a, B: Bodies> Stage<'a, B> {
    /// The stage of a sound scene.
    pub fn new(scene: &'a Scene, book: &'a B) -> Stage<'a, B>
        requires sound { IsSound (B.promises book.now) scene.now }
        ensures scene { result.scene ≡ scene.now }
        ensures promises { result.promises ≡ B.promises book.now }
    {
        Stage { scene, book }
    }

    /// The scene, which is sound.
    pub fn scene(&self) -> &'a Scene
        ensures scene { result.now ≡ self.now.scene }
        ensures sound { IsSound self.now.promises self.now.scene }
    {
        self.scene
    }

    /// What a frame of a part shows before the first answer. It takes no memory.
    pub fn first_shown(&self, part: &Part, arg: Val) -> Frame
        requires { IsSoundPart self.now.promises self.now.scene part.now }
        ensures { result ≡ first_shown arg (length part.now.calls) (length part.now.fires) }
    {
        Frame::new(arg, part.calls.len() as u8, part.fires.len() as u8)
    }

    /// The same in the memory of a frame that has ended, where the run has one.
    pub fn begin_frame(
        &self,
        run: &mut Run,
        part: &Part,
        arg: Val,
    ) -> Result<Box<Frame>, AllocError>
        requires { IsSoundPart self.now.promises self.now.scene part.now }
        ensures shown { IfOk result (λ frame. frame.value ≡ first_shown arg (length part.now.calls) (length part.now.fires)) }
        ensures same { run.new ≡ run.old }
    {
        run.begin_frame(arg, part.calls.len() as u8, part.fires.len() as u8)
    }

    /// What the part's body does next on this frame, which is one of the part: an act that it promises, with its site among
    /// those of the part.
    pub fn ask(&self, part: &Part, shown: &Frame) -> Act
        requires sound { IsSoundPart self.now.promises self.now.scene part.now }
        requires calls { shown.now.calls ≡ length part.now.calls }
        requires fires { shown.now.fires ≡ length part.now.fires }
        ensures { PermitsIn part.now result }
    {
        self.book.ask_at(part.body, shown)
    }
}
