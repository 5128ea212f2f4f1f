//! Beans that specialize others (CDI 4.0, Specialization; Direct and indirect specialization).
ghost use Rattle.std.specs.Prelude.{◌≡◌, IfOk};
ghost use Rattle.std.specs.Option.{option_copied};
ghost use Rattle.cdi_subjects.specs.Records.{lacked_by};
ghost use Rattle.cdi_subjects.specs.Specializing.{has_name, is_specializing, lacks_specialized, renames_specialized};
ghost use Rattle.cdi_subjects.specs.Specializing.{specialized_bean};
ghost use Rattle.cdi_subjects.specs.Subjects.{whole_if};

use cdi_effective::{Effective, specialized};
use cdi_faults::Subject;
use cdi_model::{BeanDecl, Decl, Decls};
use cdi_observe::View;
use std::alloc::{AllocError, Global};

/// Whether a declaration is of a bean that says that it specializes another.
pub(crate) fn is_specializing(decl: &Decl) -> bool
    ensures { result ≡ is_specializing decl.now }
{
    match decl {
        Decl::Bean(bean) => bean.specializes,
        _ => false,
    }
}

/// The declaration as a whole, where it is of a bean that says so, and there is none that it specializes.
pub(crate) fn without_specialized(
    alloc: Global,
    decls: &Decls,
    decl: &Decl,
) -> Result<Vec<Subject>, AllocError>
    ensures { IfOk result (λ list. list.items ≡ whole_if (lacks_specialized decls.now decl.now)) }
{
    let mut subjects = Vec::new(alloc);
    if lacks_specialized(decls, decl) {
        subjects.push(Subject::Whole)?;
    }
    Ok(subjects)
}

fn lacks_specialized(decls: &Decls, decl: &Decl) -> bool
    ensures { result ≡ lacks_specialized decls.now decl.now }
{
    match decl {
        Decl::Bean(bean) => bean.specializes && specialized(decls, bean).is_none(),
        _ => false,
    }
}

/// The types of the bean that the first of these specializes and that it does not have itself, of a declaration that has
/// these beans.
pub(crate) fn lacked_types<V: View>(
    alloc: Global,
    view: &V,
    decl: &Decl,
    beans: &[Effective],
) -> Result<Vec<Subject>, AllocError>
    ensures { IfOk result (λ list. list.items ≡ lacked_by (V.list view.now) decl.now beans.now) }
{
    let mut subjects = Vec::new(alloc);
    let (Decl::Bean(bean), Some(managed)) = (decl, beans.first()) else {
        return Ok(subjects);
    };
    let Some(other) = specialized_bean(view, bean) else {
        return Ok(subjects);
    };
    for name in other.types.as_slice() {
        if !managed.has_type(name) {
            subjects.push(Subject::Type(*name))?;
        }
    }
    Ok(subjects)
}

/// The declaration as a whole, where it is of a bean that gives itself a name, and the bean that it specializes has one.
pub(crate) fn renamed<V: View>(
    alloc: Global,
    view: &V,
    decl: &Decl,
) -> Result<Vec<Subject>, AllocError>
    ensures { IfOk result (λ list. list.items ≡ whole_if (renames_specialized (V.list view.now) decl.now)) }
{
    let mut subjects = Vec::new(alloc);
    if renames_specialized(view, decl) {
        subjects.push(Subject::Whole)?;
    }
    Ok(subjects)
}

fn renames_specialized<V: View>(view: &V, decl: &Decl) -> bool
    ensures { result ≡ renames_specialized (V.list view.now) decl.now }
{
    match decl {
        Decl::Bean(bean) => bean.attributes.named.is_some() && has_named_bean(view, bean),
        _ => false,
    }
}

/// Whether the bean that a bean specializes has a name.
fn has_named_bean<V: View>(view: &V, bean: &BeanDecl) -> bool
    ensures { result ≡ has_name (specialized_bean (V.list view.now) bean.now) }
{
    match specialized_bean(view, bean) {
        Some(other) => other.name.is_some(),
        None => false,
    }
}

/// The record of the bean that a bean specializes, if there is one. It takes no memory.
fn specialized_bean<'a, V: View>(view: &'a V, bean: &BeanDecl) -> Option<&'a Effective>
    ensures { option_copied result ≡ specialized_bean (V.list view.now) bean.now }
{
    match specialized(view.decls(), bean) {
        Some(other) => view.records(&other.name).first(),
        None => None,
    }
}
