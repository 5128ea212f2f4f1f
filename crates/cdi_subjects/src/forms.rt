//! Types that are used in the wrong places (CDI 4.0, Bean types).
ghost use Rattle.std.specs.Prelude.{◌≡◌, Some, IfOk};
ghost use Rattle.std.specs.Str.{bytes_eq};
ghost use Rattle.cdi_model.specs.declared.decl.Kind.TheVariants as kinds;
ghost use Rattle.cdi_model.specs.DeclList.{find_decl};
ghost use Rattle.cdi_model.specs.Mentions.{shown, TypeIn};
ghost use Rattle.cdi_match.specs.Types.{object};
ghost use Rattle.cdi_subjects.specs.Subjects.{bad_kind_in, bad_kinds, form_of, is_class, is_interface, is_interface_form};
ghost use Rattle.cdi_subjects.specs.Subjects.{is_unbound, reaches_itself, whole_if};

use cdi_faults::Subject;
use cdi_match::{brings_itself, extends_itself, inherits_itself};
use cdi_model::{Decl, Decls, Form, Kind, Mention, Name, TypePlace};
use std::alloc::{AllocError, Global};

/// The declaration as a whole, where it is of a type, a binding type or a stereotype that reaches itself.
pub(crate) fn cycles(alloc: Global, decls: &Decls, decl: &Decl) -> Result<Vec<Subject>, AllocError>
    ensures { IfOk result (λ list. list.items ≡ whole_if (reaches_itself decls.now decl.now)) }
{
    let mut subjects = Vec::new(alloc);
    if reaches_itself(decls, decl) {
        subjects.push(Subject::Whole)?;
    }
    Ok(subjects)
}

fn reaches_itself(decls: &Decls, decl: &Decl) -> bool
    ensures { result ≡ reaches_itself decls.now decl.now }
{
    match decl {
        Decl::Type(decl) => extends_itself(decls, &decl.name),
        Decl::Binding(decl) => brings_itself(decls, &decl.name),
        Decl::Stereotype(decl) => inherits_itself(decls, &decl.name),
        _ => false,
    }
}

/// The declaration as a whole, where it is of an interceptor that declares no binding.
pub(crate) fn unbound(alloc: Global, decl: &Decl) -> Result<Vec<Subject>, AllocError>
    ensures { IfOk result (λ list. list.items ≡ whole_if (is_unbound decl.now)) }
{
    let mut subjects = Vec::new(alloc);
    if let Decl::Interceptor(interceptor) = decl {
        if interceptor.bindings.is_empty() {
            subjects.push(Subject::Whole)?;
        }
    }
    Ok(subjects)
}

/// What an interface extends, an interface that a class extends, a class that is implemented, and the class of a bean
/// that is an interface.
pub(crate) fn bad_kinds(
    alloc: Global,
    decls: &Decls,
    decl: &Decl,
) -> Result<Vec<Subject>, AllocError>
    ensures { IfOk result (λ list. list.items ≡ bad_kinds decls.now decl.now) }
{
    let mut subjects = Vec::new(alloc);
    for mention in decl.mentions() {
        if let Some(subject) = bad_kind_in(decls, decl, &mention) {
            subjects.push(subject)?;
        }
    }
    Ok(subjects)
}

/// What is named in a place, where it is a type of the wrong form.
pub(crate) fn bad_kind_in(decls: &Decls, decl: &Decl, mention: &Mention<'_>) -> Option<Subject>
    ensures { result ≡ bad_kind_in decls.now decl.now (shown mention.now) }
{
    match mention {
        Mention::Type(place, name) => bad_kind_at(decls, decl, *place, name),
        _ => None,
    }
}

/// A type that a declaration names in a place, where it is of the wrong form.
fn bad_kind_at(decls: &Decls, decl: &Decl, place: TypePlace, name: &Name) -> Option<Subject>
    ensures { result ≡ bad_kind_in decls.now decl.now (TypeIn place name.now) }
{
    match place {
        TypePlace::Extends if is_interface_decl(decl) || is_interface(decls, name) => {
            Some(Subject::Extends(*name))
        }
        TypePlace::Implements if is_class(decls, name) => Some(Subject::Implements(*name)),
        TypePlace::Class if is_interface(decls, name) => Some(Subject::Class),
        _ => None,
    }
}

fn is_interface_decl(decl: &Decl) -> bool
    ensures { result ≡ is_interface_form (form_of (Some decl.now)) }
{
    match decl {
        Decl::Type(decl) => matches!(decl.form, Form::Interface),
        _ => false,
    }
}

fn is_interface(decls: &Decls, name: &Name) -> bool
    ensures { result ≡ is_interface decls.now name.now }
{
    matches!(form_of(decls, name), Some(Form::Interface))
}

fn is_class(decls: &Decls, name: &Name) -> bool
    ensures { result ≡ is_class decls.now name.now }
{
    is_object(name) || matches!(form_of(decls, name), Some(Form::Class))
}

/// Whether the name is that of the class that each type has (CDI 4.0, Bean types).
pub(crate) fn is_object(name: &Name) -> bool
    ensures { result ≡ bytes_eq name.now object }
{
    name.as_bytes() == b"Object".as_slice()
}

/// The form of a declared type.
fn form_of(decls: &Decls, name: &Name) -> Option<Form>
    ensures { result ≡ form_of (find_decl kinds.Type name.now decls.now) }
{
    match decls.get(Kind::Type, name) {
        Some(Decl::Type(decl)) => Some(decl.form),
        _ => None,
    }
}
