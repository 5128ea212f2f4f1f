//! The table of the bodies.
ghost use Rattle.std.specs.Prelude.{◌≡◌};
ghost use Rattle.cdi_bodies.specs.Within.{IsWithin};

use crate::holding::{count, flaky, spin};
use crate::proceeding::{double, guard, pass, retry, swallow};
use crate::returning::{boom, echo, short, unit, zero};
use crate::sites::{notify, relay};
use cdi_bodies::{Act, Frame, Promise};
use cdi_model::Ident;

/// The bodies of the program, each a function of this crate.
#[derive(Clone, Copy, Debug)]
pub enum Stock {
    Unit,
    Zero,
    Echo,
    Count,
    Relay,
    Notify,
    Pass,
    Double,
    Guard,
    Retry,
    Swallow,
    Short,
    Boom,
    Flaky,
    Spin,
}

static TABLE: [Stock; 15] = [
    Stock::Unit,
    Stock::Zero,
    Stock::Echo,
    Stock::Count,
    Stock::Relay,
    Stock::Notify,
    Stock::Pass,
    Stock::Double,
    Stock::Guard,
    Stock::Retry,
    Stock::Swallow,
    Stock::Short,
    Stock::Boom,
    Stock::Flaky,
    Stock::Spin,
];

impl Stock {
    ghost use Rattle.cdi_stock.specs.Table.{table, name_of, promise_of, act_of};

    /// All of them, in the order of their table.
    #[tactic(auto, unfolding(crate::specs::Table::table))]
    pub fn all() -> &'static [Stock]
        ensures { result.now ≡ table }
    {
        &TABLE
    }

    /// The name under which it is stored.
    pub fn name(self) -> Ident
        ensures { result ≡ name_of self }
    {
        match self {
            Stock::Unit => Ident::new(b"unit"),
            Stock::Zero => Ident::new(b"zero"),
            Stock::Echo => Ident::new(b"echo"),
            Stock::Count => Ident::new(b"count"),
            Stock::Relay => Ident::new(b"relay"),
            Stock::Notify => Ident::new(b"notify"),
            Stock::Pass => Ident::new(b"pass"),
            Stock::Double => Ident::new(b"double"),
            Stock::Guard => Ident::new(b"guard"),
            Stock::Retry => Ident::new(b"retry"),
            Stock::Swallow => Ident::new(b"swallow"),
            Stock::Short => Ident::new(b"short"),
            Stock::Boom => Ident::new(b"boom"),
            Stock::Flaky => Ident::new(b"flaky"),
            Stock::Spin => Ident::new(b"spin"),
        }
    }

    /// What it promises.
    pub fn promise(self) -> Promise
        ensures { result ≡ promise_of self }
    {
        match self {
            Stock::Unit => Promise::NONE,
            Stock::Zero => Promise::NONE,
            Stock::Echo => Promise::NONE,
            Stock::Count => Promise::LOAD_STORE,
            Stock::Relay => Promise::CALL_FAIL,
            Stock::Notify => Promise::FIRE_FAIL,
            Stock::Pass => Promise::PROCEED_FAIL,
            Stock::Double => Promise::PROCEED_FAIL,
            Stock::Guard => Promise::PROCEED_FAIL,
            Stock::Retry => Promise::PROCEED_FAIL,
            Stock::Swallow => Promise::PROCEED,
            Stock::Short => Promise::NONE,
            Stock::Boom => Promise::FAIL,
            Stock::Flaky => Promise::LOAD_STORE_FAIL,
            Stock::Spin => Promise::LOAD,
        }
    }

    /// Its next act.
    pub fn ask(self, frame: &Frame) -> Act
        ensures kept { IsWithin (promise_of self) frame.now result }
        ensures act { result ≡ act_of self frame.now }
    {
        match self {
            Stock::Unit => unit(frame),
            Stock::Zero => zero(frame),
            Stock::Echo => echo(frame),
            Stock::Count => count(frame),
            Stock::Relay => relay(frame),
            Stock::Notify => notify(frame),
            Stock::Pass => pass(frame),
            Stock::Double => double(frame),
            Stock::Guard => guard(frame),
            Stock::Retry => retry(frame),
            Stock::Swallow => swallow(frame),
            Stock::Short => short(frame),
            Stock::Boom => boom(frame),
            Stock::Flaky => flaky(frame),
            Stock::Spin => spin(frame),
        }
    }
}
