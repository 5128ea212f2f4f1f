//! Types.
use crate::advice::Advice;
use crate::adviser::{Adviser, Part};
use crate::circles::circle_of_names;
use crate::notes::Notes;
use crate::words::listed;
use cdi_faults::Subject;
use cdi_match::closure;
use cdi_model::{Decl, Form, Ident, Name};
use std::alloc::AllocError;

/// A type, a stereotype or a binding type reaches itself.
pub(crate) fn cycle(
    adviser: &Adviser<'_>,
    notes: &mut Notes,
    part: Part<'_>,
) -> Result<Advice, AllocError> {
    let name = part.decl.name();
    let keys = match part.decl {
        Decl::Type(_) => "extends and implements",
        Decl::Stereotype(_) => "stereotypes",
        _ => "declares",
    };
    let way = match circle_of_names(adviser, notes, part.decl.kind(), *name)? {
        Some(way) => way,
        None => String::from_str(adviser.alloc, name.as_str())?,
    };
    let keys = String::from_str(adviser.alloc, keys)?;
    adviser.help("{}: leave a step of {} out", &[way.as_str(), keys.as_str()])
}

/// A class is named where an interface is needed, or the other way round.
pub(crate) fn bad_kind(adviser: &Adviser<'_>, part: Part<'_>) -> Result<Advice, AllocError> {
    let name = part.decl.name().as_str();
    match part.subject {
        Subject::Extends(other) if is_interface(part.decl) => adviser.help(
            "the interface {} names what it extends in implements: write {} there",
            &[name, other.as_str()],
        ),
        Subject::Extends(other) => adviser.help(
            "{} is an interface: write it in implements",
            &[other.as_str()],
        ),
        Subject::Implements(other) => adviser.help(
            "{} is a class: name it in extends, or give it form = \"interface\"",
            &[other.as_str()],
        ),
        _ => adviser.help(
            "the type {} is an interface: declare the bean for a class that implements it",
            &[name],
        ),
    }
}

fn is_interface(decl: &Decl) -> bool {
    match decl {
        Decl::Type(decl) => decl.form == Form::Interface,
        _ => false,
    }
}

/// A bean is restricted to a type that it does not have.
pub(crate) fn typed(adviser: &Adviser<'_>, part: Part<'_>) -> Result<Advice, AllocError> {
    let alloc = adviser.alloc;
    let Subject::Typed { producer, name } = part.subject else {
        return adviser.see();
    };
    let Some(class) = product_type(part.decl, producer) else {
        return adviser.see();
    };
    let types = closure(alloc, adviser.decls, class)?;
    let types = listed(alloc, types.as_slice())?;
    adviser.help(
        "{} has no type {}; list some of: {}",
        &[class.as_str(), name.as_str(), types.as_str()],
    )
}

/// The type whose types a bean has: its class, or what its producer method returns.
fn product_type(decl: &Decl, producer: &Option<Ident>) -> Option<Name> {
    let Decl::Bean(bean) = decl else {
        return None;
    };
    match producer {
        None => Some(bean.name),
        Some(name) => {
            let producer = bean
                .producers
                .as_slice()
                .iter()
                .find(|producer| producer.name == *name)?;
            Some(producer.product_type)
        }
    }
}
