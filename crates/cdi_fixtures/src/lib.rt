//! The values that texts spell and the texts that values print, for tests and for the program `refused_memory`.
#![tactic(auto)]

mod echo;

use cdi_effective::BeanId;
use cdi_faults::Fault;
use cdi_model::{Decls, Error, Name, Quals, Refusal};
use cdi_text::{read_decl, read_qualifier};
pub use echo::Echo;
use std::alloc::{AllocError, Global};

/// The name that a text is.
pub fn name(text: &[u8]) -> Result<Name, Error> {
    Name::parse(text).ok_or(Error::Refused(Refusal::BadName))
}

/// The uses of qualifiers that texts are.
pub fn quals(alloc: Global, texts: &[&[u8]]) -> Result<Quals, Error> {
    let mut quals = Quals::new(alloc);
    for text in texts {
        if quals.is_full() {
            return Err(Error::Refused(Refusal::ListTooLong));
        }
        quals.insert(read_qualifier(alloc, text)?)?;
    }
    Ok(quals)
}

/// The declarations that texts spell.
pub fn declared(alloc: Global, texts: &[&[u8]]) -> Result<Decls, Error> {
    let mut decls = Decls::new(alloc);
    for text in texts {
        decls.put(read_decl(alloc, text)?)?;
    }
    Ok(decls)
}

/// Whether beans are of these classes, in this order.
pub fn are_of(beans: &[BeanId], classes: &[&[u8]]) -> bool {
    beans.len() == classes.len()
        && beans
            .iter()
            .zip(classes.iter())
            .all(|(bean, class)| bean.class.as_bytes() == *class)
}

/// The texts of some faults, each on a line.
pub fn lines_of(alloc: Global, faults: &[Fault]) -> Result<Vec<u8>, AllocError> {
    let mut text = Vec::new(alloc);
    for fault in faults {
        fault.push_text(&mut text)?;
        text.push(b'\n')?;
    }
    Ok(text)
}
