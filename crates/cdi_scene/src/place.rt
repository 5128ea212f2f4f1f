//! Where bodies run: at a place of a bean, and there for the bean itself or for an interceptor.
ghost use Rattle.std.specs.Prelude.{◌≡◌, ◌<◌, ◌^◌, IfOk, IsOk};

use cdi_contexts::Actor;
use std::alloc::AllocError;

/// The position in a list, as scenes keep it. No list in memory goes beyond these: a position that would is out of memory.
pub fn position_at(place: usize) -> Result<u32, AllocError>
    ensures value { IfOk result (λ position. position ≡ place) }
    ensures possible { place < 2 ^ 32 → IsOk result }
{
    match u32::try_from(place) {
        Ok(position) => Ok(position),
        Err(_) => Err(AllocError),
    }
}

/// A place of a bean at which bodies run. Methods and observer methods are named by their positions in the bean, producer
/// and disposer methods by the position of the product in the bean list.
#[derive(Clone, Copy, PartialEq, Eq, Debug)]
pub enum Place {
    /// The constructor (Interceptors 2.1, AroundConstruct).
    Construct,
    /// After the constructor (CDI 4.0, Lifecycle of managed beans).
    Post,
    /// Before the destruction (CDI 4.0, Lifecycle of managed beans).
    Pre,
    /// A method that is called (Interceptors 2.1, Method Interceptors).
    Method(u32),
    /// The producer method of a product (CDI 4.0, Producer methods).
    Producer(u32),
    /// The disposer method of a product (CDI 4.0, Disposer methods).
    Disposer(u32),
    /// An observer method (CDI 4.0, Observer notification).
    Observer(u32),
}

/// Where a frame runs: at a place of a bean, on an instance unless the method is static, for the bean or an interceptor.
#[derive(Clone, Copy, PartialEq, Eq, Debug)]
pub struct Seat {
    /// The bean whose place it is, by its position in the bean list.
    pub bean: u32,
    /// The number of the instance; none where the method is static or a disposer method.
    pub number: Option<u64>,
    pub actor: Actor,
    pub place: Place,
}
