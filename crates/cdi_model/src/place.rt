//! The places of a bean that interceptors may surround, and those at which stored bodies run.
ghost use Rattle.std.specs.Prelude.{Some};
ghost use Rattle.cdi_model.specs.PlaceText.{text_of_part_place, text_of_place};

use crate::name::Ident;
use std::fmt;

/// Where a managed bean is invoked (Interceptors 2.1, Interceptor Programming Contract).
#[derive(Clone, Copy, Debug, PartialEq, Eq, Hash)]
pub enum BeanPlace {
    /// Its constructor.
    Construct,
    /// Its post-construct callback.
    Post,
    /// Its pre-destroy callback.
    Pre,
    /// A business method.
    Method(Ident),
    /// A producer method that is not static.
    Producer(Ident),
    /// An observer method.
    Observer(Ident),
}

impl fmt::Display for BeanPlace {
    ghost output = { λ place. Some (text_of_place place) };

    fn fmt<W: fmt::Write>(&self, f: &mut fmt::Formatter<W>) -> fmt::Result {
        match self {
            BeanPlace::Construct => write!(f, "construct"),
            BeanPlace::Post => write!(f, "post"),
            BeanPlace::Pre => write!(f, "pre"),
            BeanPlace::Method(name) => write!(f, "method {name}"),
            BeanPlace::Producer(name) => write!(f, "producer {name}"),
            BeanPlace::Observer(name) => write!(f, "observer {name}"),
        }
    }
}

/// Where in a bean or an interceptor a stored body runs (profile).
#[derive(Clone, Copy, Debug, PartialEq, Eq, Hash)]
pub enum PartPlace {
    /// Its constructor.
    Construct,
    /// Its post-construct callback.
    Post,
    /// Its pre-destroy callback.
    Pre,
    /// A business method.
    Method(Ident),
    /// A producer method that is not static.
    Producer(Ident),
    /// A static producer method, which runs at no instance.
    StaticProducer(Ident),
    /// A disposer method.
    Disposer(Ident),
    /// An observer method.
    Observer(Ident),
    /// Around a method (Interceptors 2.1, Method Interceptors).
    AroundInvoke,
    /// Around a constructor (Interceptors 2.1, AroundConstruct).
    AroundConstruct,
}

impl fmt::Display for PartPlace {
    ghost output = { λ place. Some (text_of_part_place place) };

    fn fmt<W: fmt::Write>(&self, f: &mut fmt::Formatter<W>) -> fmt::Result {
        match self {
            PartPlace::Construct => write!(f, "construct"),
            PartPlace::Post => write!(f, "post"),
            PartPlace::Pre => write!(f, "pre"),
            PartPlace::Method(name) => write!(f, "method {name}"),
            PartPlace::Producer(name) | PartPlace::StaticProducer(name) => {
                write!(f, "producer {name}")
            }
            PartPlace::Disposer(name) => write!(f, "disposer {name}"),
            PartPlace::Observer(name) => write!(f, "observer {name}"),
            PartPlace::AroundInvoke => write!(f, "around_invoke"),
            PartPlace::AroundConstruct => write!(f, "around_construct"),
        }
    }
}
