//! How the parts of entries print.
use crate::lookup::{bean_in, interceptor_in, method_in, observer_in};
use cdi_contexts::{Actor, InstanceId};
use cdi_model::{CallDecl, EventDecl, Outcome};
use cdi_scene::{Place, Seat};
use cdi_staging::{BeanNames, MethodNames, Names};
use std::fmt;

/// An instance: the id of its bean, and its number.
#[derive(Clone, Copy)]
pub(crate) struct InstanceText<'a> {
    pub(crate) names: &'a Names,
    pub(crate) id: InstanceId,
}

impl fmt::Display for InstanceText<'_> {
    ghost use Rattle.std.specs.Prelude.{Some};
    ghost use Rattle.cdi_trace.specs.Names.{text_of_instance};

    ghost output = { λ i. Some (text_of_instance i.names.now i.id.bean i.id.number) };

    fn fmt<W: fmt::Write>(&self, f: &mut fmt::Formatter<W>) -> fmt::Result {
        match bean_in(self.names, self.id.bean) {
            Some(bean) => write!(f, "{}#{}", bean.id, self.id.number),
            None => write!(f, "#{}", self.id.number),
        }
    }
}

/// The class of a bean.
#[derive(Clone, Copy)]
pub(crate) struct ClassText<'a> {
    pub(crate) names: &'a Names,
    pub(crate) bean: u32,
}

impl fmt::Display for ClassText<'_> {
    ghost use Rattle.std.specs.Prelude.{Some};
    ghost use Rattle.cdi_trace.specs.Names.{bean_told, class_of_bean};

    ghost output = { λ c. Some (class_of_bean (bean_told c.names.now c.bean)) };

    fn fmt<W: fmt::Write>(&self, f: &mut fmt::Formatter<W>) -> fmt::Result {
        match bean_in(self.names, self.bean) {
            Some(bean) => write!(f, "{}", bean.id.class),
            None => Ok(()),
        }
    }
}

/// The name of a method or of an observer method.
#[derive(Clone, Copy)]
struct MethodText<'a>(Option<&'a MethodNames>);

impl fmt::Display for MethodText<'_> {
    ghost use Rattle.std.specs.Prelude.{Some, option_copied};
    ghost use Rattle.cdi_trace.specs.Names.{name_of_method};

    ghost output = { λ m. Some (name_of_method (option_copied m.0)) };

    fn fmt<W: fmt::Write>(&self, f: &mut fmt::Formatter<W>) -> fmt::Result {
        match self.0 {
            Some(method) => write!(f, "{}", method.name),
            None => Ok(()),
        }
    }
}

/// The name of the producer method of a product.
#[derive(Clone, Copy)]
struct ProducerText<'a>(Option<&'a BeanNames>);

impl fmt::Display for ProducerText<'_> {
    ghost use Rattle.std.specs.Prelude.{Some, option_copied};
    ghost use Rattle.cdi_trace.specs.Names.{name_of_producer};

    ghost output = { λ p. Some (name_of_producer (option_copied p.0)) };

    fn fmt<W: fmt::Write>(&self, f: &mut fmt::Formatter<W>) -> fmt::Result {
        let Some(bean) = self.0 else {
            return Ok(());
        };
        match bean.id.producer {
            Some(name) => write!(f, "{name}"),
            None => Ok(()),
        }
    }
}

/// The name of the disposer method that matches a product.
#[derive(Clone, Copy)]
struct DisposerText<'a>(Option<&'a BeanNames>);

impl fmt::Display for DisposerText<'_> {
    ghost use Rattle.std.specs.Prelude.{Some, option_copied};
    ghost use Rattle.cdi_trace.specs.Names.{name_of_disposer};

    ghost output = { λ p. Some (name_of_disposer (option_copied p.0)) };

    fn fmt<W: fmt::Write>(&self, f: &mut fmt::Formatter<W>) -> fmt::Result {
        let Some(bean) = self.0 else {
            return Ok(());
        };
        match bean.disposer {
            Some(name) => write!(f, "{name}"),
            None => Ok(()),
        }
    }
}

/// A place of a bean.
#[derive(Clone, Copy)]
pub(crate) struct PlaceText<'a> {
    pub(crate) names: &'a Names,
    pub(crate) bean: u32,
    pub(crate) place: Place,
}

impl fmt::Display for PlaceText<'_> {
    ghost use Rattle.std.specs.Prelude.{Some};
    ghost use Rattle.cdi_trace.specs.TraceText.{text_of_place};

    ghost output = { λ p. Some (text_of_place p.names.now p.bean p.place) };

    fn fmt<W: fmt::Write>(&self, f: &mut fmt::Formatter<W>) -> fmt::Result {
        let (names, bean) = (self.names, self.bean);
        match self.place {
            Place::Construct => write!(f, "construct"),
            Place::Post => write!(f, "post"),
            Place::Pre => write!(f, "pre"),
            Place::Method(at) => write!(f, "method {}", MethodText(method_in(names, bean, at))),
            Place::Producer(at) => write!(f, "producer {}", ProducerText(bean_in(names, at))),
            Place::Disposer(at) => write!(f, "disposer {}", DisposerText(bean_in(names, at))),
            Place::Observer(at) => {
                write!(f, "observer {}", MethodText(observer_in(names, bean, at)))
            }
        }
    }
}

/// The instance on which a body runs, or the class where it runs on none.
#[derive(Clone, Copy)]
struct HostText<'a> {
    names: &'a Names,
    bean: u32,
    number: Option<u64>,
}

impl fmt::Display for HostText<'_> {
    ghost use Rattle.std.specs.Prelude.{Some};
    ghost use Rattle.cdi_trace.specs.TraceText.{text_of_host};

    ghost output = { λ h. Some (text_of_host h.names.now h.bean h.number) };

    fn fmt<W: fmt::Write>(&self, f: &mut fmt::Formatter<W>) -> fmt::Result {
        let (names, bean) = (self.names, self.bean);
        match self.number {
            Some(number) => {
                let id = InstanceId { bean, number };
                write!(f, "{}", InstanceText { names, id })
            }
            None => write!(f, "{}", ClassText { names, bean }),
        }
    }
}

/// Whose body runs, if it is an interceptor's.
#[derive(Clone, Copy)]
struct ActorText<'a> {
    names: &'a Names,
    actor: Actor,
}

impl fmt::Display for ActorText<'_> {
    ghost use Rattle.std.specs.Prelude.{Some};
    ghost use Rattle.cdi_trace.specs.Names.{text_of_actor};

    ghost output = { λ a. Some (text_of_actor a.names.now a.actor) };

    fn fmt<W: fmt::Write>(&self, f: &mut fmt::Formatter<W>) -> fmt::Result {
        let Actor::Interceptor(position) = self.actor else {
            return Ok(());
        };
        match interceptor_in(self.names, position) {
            Some(interceptor) => write!(f, " by {}", interceptor.name),
            None => write!(f, " by "),
        }
    }
}

/// Where a body runs, and whose it is.
#[derive(Clone, Copy)]
pub(crate) struct SeatText<'a> {
    pub(crate) names: &'a Names,
    pub(crate) seat: Seat,
}

impl fmt::Display for SeatText<'_> {
    ghost use Rattle.std.specs.Prelude.{Some};
    ghost use Rattle.cdi_trace.specs.TraceText.{text_of_seat};

    ghost output = { λ s. Some (text_of_seat s.names.now s.seat) };

    fn fmt<W: fmt::Write>(&self, f: &mut fmt::Formatter<W>) -> fmt::Result {
        let (names, bean) = (self.names, self.seat.bean);
        let host = HostText {
            names,
            bean,
            number: self.seat.number,
        };
        let place = PlaceText {
            names,
            bean,
            place: self.seat.place,
        };
        let actor = ActorText {
            names,
            actor: self.seat.actor,
        };
        write!(f, "{host} {place}{actor}")
    }
}

/// A call site.
#[derive(Clone, Copy)]
pub(crate) struct CallText<'a>(pub(crate) Option<&'a CallDecl>);

impl fmt::Display for CallText<'_> {
    ghost use Rattle.std.specs.Prelude.{Some, option_copied};
    ghost use Rattle.cdi_trace.specs.Names.{text_of_call_site};

    ghost output = { λ c. Some (text_of_call_site (option_copied c.0)) };

    fn fmt<W: fmt::Write>(&self, f: &mut fmt::Formatter<W>) -> fmt::Result {
        match self.0 {
            Some(call) => write!(f, "{call}"),
            None => Ok(()),
        }
    }
}

/// A fire site.
#[derive(Clone, Copy)]
pub(crate) struct FireText<'a>(pub(crate) Option<&'a EventDecl>);

impl fmt::Display for FireText<'_> {
    ghost use Rattle.std.specs.Prelude.{Some, option_copied};
    ghost use Rattle.cdi_trace.specs.Names.{text_of_fire_site};

    ghost output = { λ c. Some (text_of_fire_site (option_copied c.0)) };

    fn fmt<W: fmt::Write>(&self, f: &mut fmt::Formatter<W>) -> fmt::Result {
        match self.0 {
            Some(event) => write!(f, "{event}"),
            None => Ok(()),
        }
    }
}

/// A value, or `failed` and the failure.
#[derive(Clone, Copy)]
pub(crate) struct OutcomeText(pub(crate) Outcome);

impl fmt::Display for OutcomeText {
    ghost use Rattle.std.specs.Prelude.{Some};
    ghost use Rattle.cdi_trace.specs.TraceText.{text_of_outcome};

    ghost output = { λ o. Some (text_of_outcome o.0) };

    fn fmt<W: fmt::Write>(&self, f: &mut fmt::Formatter<W>) -> fmt::Result {
        match self.0 {
            Outcome::Value(value) => write!(f, "{value}"),
            Outcome::Failed(failure) => write!(f, "failed {failure}"),
        }
    }
}
