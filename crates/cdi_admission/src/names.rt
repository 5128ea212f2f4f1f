//! Names that are malformed or reserved.
ghost use Rattle.std.specs.Prelude.{◌≡◌};
ghost use Rattle.std.specs.List.{list_any};
ghost use Rattle.cdi_model.specs.Mentions.{mentions, shown};
ghost use Rattle.cdi_uses.specs.Uses.{is_named, is_plain};
ghost use Rattle.cdi_admission.specs.Admission.{declares_named, has_bad_name, is_built_in, is_malformed, is_no_use, is_of_default};
ghost use Rattle.cdi_admission.specs.Admission.{is_of_named, observes_default};

use cdi_model::{Arguments, Decl, Kind, Mention, ObserverDecl, ProducerDecl, Qual};

/// Whether a name of a declaration is malformed or reserved. It takes no memory.
pub(crate) fn has_bad_name(decl: &Decl) -> bool
    ensures { result ≡ has_bad_name decl.now }
{
    is_built_in(decl.kind(), decl.name().as_bytes())
        || has_malformed(decl)
        || declares_named(decl)
        || observes_default(decl)
}

fn is_built_in(kind: Kind, name: &[u8]) -> bool
    ensures { result ≡ is_built_in kind name.now }
{
    match kind {
        Kind::Type => name == b"Object".as_slice(),
        Kind::Qualifier => is_plain(name) || is_named(name),
        _ => false,
    }
}

fn is_named(name: &[u8]) -> bool
    ensures { result ≡ is_named name.now }
{
    name == b"Named".as_slice()
}

/// Whether uses of the name have no arguments.
fn is_plain(name: &[u8]) -> bool
    ensures { result ≡ is_plain name.now }
{
    name == b"Any".as_slice() || name == b"Default".as_slice()
}

/// Whether what is named in some place is malformed.
fn has_malformed(decl: &Decl) -> bool
    ensures { result ≡ list_any is_malformed (mentions decl.now) }
{
    for mention in decl.mentions() {
        if is_malformed(&mention) {
            return true;
        }
    }
    false
}

fn is_malformed(mention: &Mention<'_>) -> bool
    ensures { result ≡ is_malformed (shown mention.now) }
{
    match mention {
        Mention::Use(_, qual) => is_no_use(qual),
        Mention::Event(event) => has_default(event.qualifiers.as_slice()),
        _ => false,
    }
}

/// Whether the arguments of a use are none of those that its name may have.
fn is_no_use(qual: &Qual) -> bool
    ensures { result ≡ is_no_use qual.now }
{
    let name = qual.name.as_bytes();
    match &qual.arguments {
        Arguments::Name(_) => !is_named(name),
        Arguments::Members(members) => { is_named(name) || (!members.is_empty() && is_plain(name)) }
    }
}

/// Whether a bean or one of its producer methods declares `Named` as a qualifier.
fn declares_named(decl: &Decl) -> bool
    ensures { result ≡ declares_named decl.now }
{
    match decl {
        Decl::Bean(bean) => {
            has_named(bean.attributes.qualifiers.as_slice())
                || some_has_named(bean.producers.as_slice())
        }
        _ => false,
    }
}

fn some_has_named(producers: &[ProducerDecl]) -> bool
    ensures { result ≡ list_any (λ p. list_any is_of_named p.attributes.qualifiers) producers.now }
{
    producers.iter().any(|producer| has_named(producer.attributes.qualifiers.as_slice()))
}

/// Whether one of the observer methods of a bean asks for `Default`.
fn observes_default(decl: &Decl) -> bool
    ensures { result ≡ observes_default decl.now }
{
    match decl {
        Decl::Bean(bean) => some_has_default(bean.observers.as_slice()),
        _ => false,
    }
}

fn some_has_default(observers: &[ObserverDecl]) -> bool
    ensures { result ≡ list_any (λ o. list_any is_of_default o.qualifiers) observers.now }
{
    observers
        .iter()
        .any(|observer| has_default(observer.qualifiers.as_slice()))
}

fn has_named(quals: &[Qual]) -> bool
    ensures { result ≡ list_any is_of_named quals.now }
{
    quals.iter().any(|qual| is_named(qual.name.as_bytes()))
}

fn has_default(quals: &[Qual]) -> bool
    ensures { result ≡ list_any is_of_default quals.now }
{
    quals
        .iter()
        .any(|qual| qual.name.as_bytes() == b"Default".as_slice())
}
