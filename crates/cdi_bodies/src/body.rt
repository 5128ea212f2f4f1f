//! Stored bodies.
ghost use Rattle.std.specs.Prelude.{◌≡◌};
ghost use Rattle.cdi_bodies.specs.Within.{IsWithin, IsWithin-prop};
ghost use Rattle.cdi_bodies.specs.declared.act.Act.{Act};

use crate::act::{Act, Frame};
use crate::promise::Promise;
use cdi_model::Ident;

/// A function that can be asked for its next act: boxed by the caller, who may let it hold what it needs.
pub type Asks = Box<dyn Fn(&Frame) -> Act>;

/// A stored body: its name, its promise and its function, with the fact that the function keeps the promise.
#[derive(Drop)]
pub struct Body {
    pub name: Ident,
    pub promise: Promise,
    asks: Asks,
    ghost callable: { Asks.IsAlwaysCallable asks },
    ghost kept: { (shown : _) (act : Act) → Asks.post asks shown act → IsWithin promise shown.now act } by { Prim.hlevel IsWithin-prop },
}

impl Body {
    /// A body of a function that may be called on every frame, and whose every act is promised, with its site among
    /// those of the frame. It takes no memory.
    pub fn new(name: Ident, promise: Promise, asks: Asks) -> Body
        requires callable { Asks.IsAlwaysCallable asks }
        requires kept { (shown : _) (act : Act) → Asks.post asks shown act → IsWithin promise shown.now act }
        ensures named { result.name ≡ name }
        ensures promised { result.promise ≡ promise }
    {
        Body {
            name,
            promise,
            asks,
        }
    }

    /// The body's next act on this frame. It takes no memory.
    pub fn ask(&self, frame: &Frame) -> Act
        ensures { IsWithin self.now.promise frame.now result }
    {
        (self.asks)(frame)
    }
}
