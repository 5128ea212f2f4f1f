//! The program's bodies as a book.
ghost use Rattle.std.specs.Prelude.{◌≡◌, find, option_copied, position};
ghost use Rattle.cdi_stock.specs.Table.{has_name};

use crate::stock::Stock;
use cdi_bodies::{Act, Bodies, Frame, Promise};
use cdi_model::{Ident, Val};

/// The fifteen bodies of the program, by name, as a book. It takes no memory.
#[derive(Clone, Copy, Debug)]
pub struct StockBodies;

/// The position of the body of a name among these.
fn position_among(bodies: &[Stock], name: &Ident) -> Option<usize>
    ensures { result ≡ position (has_name name.now) bodies.now }
{
    bodies.iter().position(|body| *name == body.name())
}

/// The body of a name among these.
fn find_among<'a>(bodies: &'a [Stock], name: &Ident) -> Option<&'a Stock>
    ensures { option_copied result ≡ find (has_name name.now) bodies.now }
{
    bodies.iter().find(|body| *name == body.name())
}

impl Bodies for StockBodies {
    ghost use Rattle.cdi_stock.specs.Table.{stored};

    ghost promises = { λ _. stored };

    fn position(&self, name: &Ident) -> Option<usize> {
        position_among(Stock::all(), name)
    }

    fn promise(&self, name: &Ident) -> Option<Promise> {
        let body = find_among(Stock::all(), name)?;
        Some(body.promise())
    }

    fn ask_at(&self, position: usize, frame: &Frame) -> Act {
        match Stock::all().get(position) {
            Some(body) => body.ask(frame),
            None => Act::Return(Val::Null),
        }
    }

    fn ask(&self, name: &Ident, frame: &Frame) -> Option<Act> {
        let body = find_among(Stock::all(), name)?;
        Some(body.ask(frame))
    }
}
