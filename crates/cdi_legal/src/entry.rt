//! The entries of a trace, and what the steps of a run answer.
use cdi_contexts::{Actor, InstanceId, Owner};
use cdi_model::{Failure, Outcome, Val};
use cdi_scene::{Notified, Seat};

/// One line of a trace. Owners, what was produced, and where something is stored, called or fired are not printed.
#[derive(Clone, Copy, PartialEq, Eq, Debug)]
pub enum Entry {
    /// The creation of an instance begins.
    Create {
        id: InstanceId,
        owner: Owner,
    },
    /// It succeeded; of a product with the value of its producer method.
    Ready {
        id: InstanceId,
        product: Option<Val>,
    },
    /// It failed.
    Broken {
        id: InstanceId,
        failure: Failure,
    },
    /// A frame begins.
    Enter {
        seat: Seat,
        arg: Val,
    },
    /// A body has read what its instance holds for it.
    Loaded {
        value: Val,
    },
    /// A body has made its instance hold this for it.
    Stored {
        number: u64,
        actor: Actor,
        value: Val,
    },
    /// A call begins, at a call site of the seat.
    Called {
        seat: Seat,
        site: u8,
        arg: Val,
    },
    /// An event begins, at a site of the seat.
    Fired {
        seat: Seat,
        site: u8,
        arg: Val,
    },
    /// The next link of a chain begins (Interceptors 2.1, Method Interceptors).
    Proceeded {
        arg: Val,
    },
    /// What a call, an event or a proceeding answered.
    Got {
        outcome: Outcome,
    },
    /// The frame ends.
    Leave {
        outcome: Outcome,
    },
    /// An observer method is not notified (CDI 4.0, Conditional observer methods).
    Skip {
        observer: Notified,
    },
    /// The destruction of an instance begins.
    Destroy {
        id: InstanceId,
    },
    /// It ends.
    Gone {
        id: InstanceId,
    },
}

/// The number of an instance, or why there is none.
#[derive(Clone, Copy, PartialEq, Eq, Debug)]
pub enum Made {
    Instance(u64),
    Refused(Failure),
}

/// What an invocation gave, and whether the bean's own body gave a value at least once within.
#[derive(Clone, Copy, PartialEq, Eq, Debug)]
pub struct Answered {
    pub outcome: Outcome,
    pub has_returned: bool,
}
