//! A book for tests that run no body.
ghost use Rattle.std.specs.Prelude.{◌≡◌, codes, [], ◌∷◌};
ghost use Rattle.std.specs.Str.{bytes_eq};

use cdi_bodies::{Act, Bodies, Frame, Promise};
use cdi_model::Ident;

/// A book of one body, `echo`, which promises nothing and returns its argument.
#[derive(Clone, Copy, Debug)]
pub struct Echo;

/// Whether this is the name of the body.
fn is_echo(name: &Ident) -> bool
    ensures { result ≡ bytes_eq name.now (codes "echo") }
{
    name.as_bytes() == b"echo".as_slice()
}

impl Bodies for Echo {
    ghost promises = { λ _. (codes "echo", record { 0 = 0 }) ∷ [] };

    fn position(&self, name: &Ident) -> Option<usize> {
        if is_echo(name) { Some(0) } else { None }
    }

    fn promise(&self, name: &Ident) -> Option<Promise> {
        if is_echo(name) {
            Some(Promise::NONE)
        } else {
            None
        }
    }

    fn ask_at(&self, _position: usize, frame: &Frame) -> Act {
        Act::Return(frame.argument)
    }

    fn ask(&self, name: &Ident, frame: &Frame) -> Option<Act> {
        if is_echo(name) {
            Some(Act::Return(frame.argument))
        } else {
            None
        }
    }
}
