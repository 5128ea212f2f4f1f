//! Names that are neither declared nor built in.
ghost use Rattle.std.specs.Prelude.{◌≡◌, ◌∷◌, [], codes, IfOk};
ghost use Rattle.std.specs.List.{list_all};
ghost use Rattle.cdi_model.specs.Mentions.{shown};
ghost use Rattle.cdi_match.specs.Chain.{has};
ghost use Rattle.cdi_subjects.specs.Asked.{are_known, is_known_use};
ghost use Rattle.cdi_subjects.specs.Subjects.{is_known_in, is_known_qualifier, is_known_type, is_known_use_of, unknown_in, unknown_names};

use crate::forms::is_object;
use cdi_faults::Subject;
use cdi_match::is_misused;
use cdi_model::{Decl, Decls, Kind, Mention, Name, Qual, Quals, TypePlace, UseKind};
use std::alloc::{AllocError, Global};

/// The types, qualifiers, binding types and stereotypes that a declaration names and that are neither declared nor built in, and the
/// class of a bean where it is not declared.
pub(crate) fn unknown_names(
    alloc: Global,
    decls: &Decls,
    decl: &Decl,
) -> Result<Vec<Subject>, AllocError>
    ensures { IfOk result (λ list. list.items ≡ unknown_names decls.now decl.now) }
{
    let mut subjects = Vec::new(alloc);
    for mention in decl.mentions() {
        if let Some(subject) = unknown_in(decls, &mention) {
            subjects.push(subject)?;
        }
    }
    Ok(subjects)
}

/// What is named in a place, where it is unknown.
pub(crate) fn unknown_in(decls: &Decls, mention: &Mention<'_>) -> Option<Subject>
    ensures { result ≡ unknown_in decls.now (shown mention.now) }
{
    match mention {
        Mention::Type(place, name) if !is_known_in(decls, *place, name) => {
            Some(Subject::Type(**name))
        }
        Mention::Use(kind, qual) if !is_known_use_of(decls, *kind, &qual.name) => {
            Some(Subject::Used(*kind, qual.name))
        }
        Mention::Stereotype(name) if decls.get(Kind::Stereotype, name).is_none() => {
            Some(Subject::Stereotype(**name))
        }
        _ => None,
    }
}

/// Whether a type that is named in a place is known: the class of a bean is to be declared.
fn is_known_in(decls: &Decls, place: TypePlace, name: &Name) -> bool
    ensures { result ≡ is_known_in decls.now place name.now }
{
    match place {
        TypePlace::Class => decls.get(Kind::Type, name).is_some(),
        _ => is_known_type(decls, name),
    }
}

/// Whether a type and qualifiers may be asked for: each is declared or built in, and the members of each use fit the
/// declaration of its qualifier. It takes no memory.
pub fn are_known(decls: &Decls, bean_type: Name, quals: &Quals) -> bool
    ensures { result ≡ are_known decls.now bean_type quals.now }
{
    is_known_type(decls, &bean_type) && are_known_uses(decls, quals.as_slice())
}

fn are_known_uses(decls: &Decls, uses: &[Qual]) -> bool
    ensures { result ≡ list_all (is_known_use decls.now) uses.now }
{
    uses.iter().all(|qual| is_known_use(decls, qual))
}

fn is_known_use(decls: &Decls, qual: &Qual) -> bool
    ensures { result ≡ is_known_use decls.now qual.now }
{
    is_known_qualifier(decls, &qual.name) && !is_misused(decls, UseKind::Qualifier, qual)
}

fn is_known_type(decls: &Decls, name: &Name) -> bool
    ensures { result ≡ is_known_type decls.now name.now }
{
    is_object(name) || decls.get(Kind::Type, name).is_some()
}

/// Whether a qualifier or a binding type is known: no binding type is built in.
fn is_known_use_of(decls: &Decls, kind: UseKind, name: &Name) -> bool
    ensures { result ≡ is_known_use_of decls.now kind name.now }
{
    match kind {
        UseKind::Qualifier => is_known_qualifier(decls, name),
        UseKind::Binding => decls.get(Kind::Binding, name).is_some(),
    }
}

fn is_known_qualifier(decls: &Decls, name: &Name) -> bool
    ensures { result ≡ is_known_qualifier decls.now name.now }
{
    is_built_in(name.as_bytes()) || decls.get(Kind::Qualifier, name).is_some()
}

/// Whether a qualifier needs no declaration (CDI 4.0, Built-in qualifier types).
fn is_built_in(name: &[u8]) -> bool
    ensures { result ≡ has (codes "Any" ∷ codes "Default" ∷ codes "Named" ∷ []) name.now }
{
    [
        b"Any".as_slice(),
        b"Default".as_slice(),
        b"Named".as_slice(),
    ]
    .contains(&name)
}
