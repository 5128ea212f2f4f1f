//! Bodies that make one act for ever, which rows name beside the program's.
ghost use Rattle.std.specs.Prelude.{◌≡◌};
ghost use Rattle.cdi_bodies.specs.Within.{IsWithin};
ghost use Rattle.worked_rows.specs.ForEver.{promise_of};

use cdi_bodies::{Act, Frame, Promise};
use cdi_model::{Ident, Val};

/// What such a body does again and again, whatever is answered. The program's `spin` is one that loads.
#[derive(Clone, Copy)]
pub enum ForEver {
    /// Stores 1.
    Stores,
    /// Calls its first site with its argument. Without a site it returns null.
    Calls,
    /// Fires at its first site with its argument. Without a site it returns null.
    Fires,
    /// Proceeds with its argument.
    Proceeds,
}

/// All of them.
pub static FOR_EVER: [ForEver; 4] = [
    ForEver::Stores,
    ForEver::Calls,
    ForEver::Fires,
    ForEver::Proceeds,
];

impl ForEver {
    /// The name under which it is stored.
    pub fn name(self) -> Ident {
        match self {
            ForEver::Stores => Ident::new(b"stores_for_ever"),
            ForEver::Calls => Ident::new(b"calls_for_ever"),
            ForEver::Fires => Ident::new(b"fires_for_ever"),
            ForEver::Proceeds => Ident::new(b"proceeds_for_ever"),
        }
    }

    /// What it promises.
    pub fn promise(self) -> Promise
        ensures { result ≡ promise_of self }
    {
        match self {
            ForEver::Stores => Promise::STORE,
            ForEver::Calls => Promise::CALL,
            ForEver::Fires => Promise::FIRE,
            ForEver::Proceeds => Promise::PROCEED,
        }
    }

    /// Its next act.
    pub fn ask(self, frame: &Frame) -> Act
        ensures { IsWithin (promise_of self) frame.now result }
    {
        match self {
            ForEver::Stores => Act::Store(Val::Int(1)),
            ForEver::Calls => call_first(frame),
            ForEver::Fires => fire_first(frame),
            ForEver::Proceeds => Act::Proceed(frame.argument),
        }
    }
}

/// Calls the first site, if there is one.
fn call_first(frame: &Frame) -> Act
    ensures { IsWithin Promise.CALL frame.now result }
{
    if frame.calls == 0 {
        return Act::Return(Val::Null);
    }
    Act::Call {
        site: 0,
        arg: frame.argument,
    }
}

/// Fires at the first site, if there is one.
fn fire_first(frame: &Frame) -> Act
    ensures { IsWithin Promise.FIRE frame.now result }
{
    if frame.fires == 0 {
        return Act::Return(Val::Null);
    }
    Act::Fire {
        site: 0,
        arg: frame.argument,
    }
}
