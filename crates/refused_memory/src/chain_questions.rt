//! Questions about the bindings and the interceptors at methods, and about observer methods.
use crate::texts::{are_names, are_observers};
use cdi_fixtures::name;
use cdi_intercept::bindings_at;
use cdi_model::{BeanPlace, Decls, Error, Ident, Name, Qual, Quals, Refusal};
use cdi_observe::{PlainView, View};
use cdi_resolve::BeanList;
use std::alloc::Global;

/// A question about the audited bean, with its answer.
#[derive(Clone, Copy)]
pub enum ChainQuestion {
    /// The interceptors around a method.
    Around(&'static [u8], &'static [&'static [u8]]),
    /// The types of the bindings at a method.
    Bound(&'static [u8], &'static [&'static [u8]]),
    /// The observer methods of an event of a type.
    Observed(&'static [u8], &'static [&'static [u8]]),
}

use ChainQuestion::{Around, Bound, Observed};

/// Three binding types, one of which brings another, an interceptor, and a bean with two methods, one of which has a
/// binding in the place of the one that its class is brought, and with an observer method.
pub static AUDITED: [&[u8]; 6] = [
    b"kind=\"binding\"\nname=\"Log\"\n",
    b"kind=\"binding\"\nname=\"Tx\"\nmembers=[{name=\"level\",default=0}]\n",
    b"kind=\"binding\"\nname=\"Audit\"\ndeclares=[\"Tx(level=1)\"]\n",
    br#"kind="interceptor"
name="G"
priority=1
bindings=["Log","Tx(level=1)"]
around_invoke={body="pass"}
"#,
    b"kind=\"type\"\nname=\"S\"\n",
    br#"kind="bean"
name="S"
bindings=["Log","Audit"]
methods=[{name="run",body="echo"},{name="fast",body="echo",bindings=["Tx(level=2)"]}]
observers=[{name="see",type="S",body="echo"}]
"#,
];

/// Whether a question about the audited bean has its answer by these declarations.
pub fn has_answer_of_chains(
    alloc: Global,
    decls: &Decls,
    question: ChainQuestion,
) -> Result<bool, Error> {
    match question {
        Around(called, wanted) => is_surrounded(alloc, decls, called, wanted),
        Bound(called, wanted) => is_bound(alloc, decls, called, wanted),
        Observed(event_type, wanted) => is_observed(alloc, decls, event_type, wanted),
    }
}

fn is_surrounded(
    alloc: Global,
    decls: &Decls,
    called: &[u8],
    wanted: &[&[u8]],
) -> Result<bool, Error> {
    let list = BeanList::of(alloc, decls)?;
    let mut view = PlainView::new(decls, &list);
    let chain = view.chain(alloc, name(b"S")?, &method(called)?)?;
    Ok(are_names(chain.as_slice(), wanted))
}

fn is_bound(alloc: Global, decls: &Decls, called: &[u8], wanted: &[&[u8]]) -> Result<bool, Error> {
    let bindings = bindings_at(alloc, decls, name(b"S")?, &method(called)?)?;
    let types = types_of(alloc, bindings.as_slice())?;
    Ok(are_names(types.as_slice(), wanted))
}

fn is_observed(
    alloc: Global,
    decls: &Decls,
    event_type: &[u8],
    wanted: &[&[u8]],
) -> Result<bool, Error> {
    let quals = Quals::new(alloc);
    let list = BeanList::of(alloc, decls)?;
    let mut view = PlainView::new(decls, &list);
    let ids = view.observers(alloc, name(event_type)?, &quals)?;
    Ok(are_observers(ids.as_slice(), wanted))
}

/// The place of a method.
fn method(text: &[u8]) -> Result<BeanPlace, Error> {
    match Ident::parse(text) {
        Some(name) => Ok(BeanPlace::Method(name)),
        None => Err(Error::Refused(Refusal::BadName)),
    }
}

fn types_of(alloc: Global, bindings: &[Qual]) -> Result<Vec<Name>, Error> {
    let mut types = Vec::new(alloc);
    for binding in bindings {
        types.push(binding.name)?;
    }
    Ok(types)
}
