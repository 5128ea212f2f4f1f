//! Injection points whose bean needs a proxy or a subclass that its type rules out (CDI 4.0, Unproxyable bean types).
ghost use Rattle.std.specs.Prelude.{◌≡◌, false, is_some, Some, IfOk};
ghost use Rattle.std.specs.List.{find};
ghost use Rattle.std.specs.Option.{option_copied};
ghost use Rattle.cdi_model.specs.DeclList.{find_decl};
ghost use Rattle.cdi_model.specs.declared.decl.Decl.TheVariants as declared;
ghost use Rattle.cdi_model.specs.declared.decl.Kind.TheVariants as kinds;
ghost use Rattle.cdi_effective.specs.Bindings.{class_bindings};
ghost use Rattle.cdi_observe.specs.Lending.{IsEvaluated};
ghost use Rattle.cdi_subjects.specs.Proxies.{is_final, is_normal, is_told_by, is_unproxyable, needs_subclass};
ghost use Rattle.cdi_subjects.specs.Proxies.{needs_subclass_by};

use cdi_effective::{BeanId, Effective};
use cdi_model::{BeanDecl, Decl, Decls, Form, Ident, Kind, Name, PointDecl, Scope};
use cdi_observe::{View, interceptors_of};
use cdi_resolve::Choice;
use std::alloc::{AllocError, Global};

/// Whether one bean is chosen for a point, its instances need a subclass, and the class that the point requires may have
/// none. It takes memory for the names of the interceptors around the bean.
pub(crate) fn is_unproxyable<V: View>(
    alloc: Global,
    view: &V,
    point: &PointDecl,
    choice: &Choice,
) -> Result<bool, AllocError>
    requires { IsEvaluated (V.list view.now) (V.kept view.now) }
    ensures { IfOk result (λ found. found ≡ is_unproxyable (V.list view.now) point.now choice.now) }
{
    match choice {
        Choice::One(id) if is_final(view.decls(), &point.required_type) => {
            needs_subclass(alloc, view, id)
        }
        _ => Ok(false),
    }
}

/// Whether it is a declared class that may have no subclass.
pub(crate) fn is_final(decls: &Decls, name: &Name) -> bool
    ensures { result ≡ is_final decls.now name.now }
{
    match decls.get(Kind::Type, name) {
        Some(Decl::Type(decl)) => matches!(decl.form, Form::Class) && decl.is_final,
        _ => false,
    }
}

#[tactic(auto, unfolding(cdi_effective::specs::Records::records_in))]
fn needs_subclass<V: View>(alloc: Global, view: &V, id: &BeanId) -> Result<bool, AllocError>
    requires { IsEvaluated (V.list view.now) (V.kept view.now) }
    ensures { IfOk result (λ needs. needs ≡ needs_subclass (V.list view.now) id.now) }
{
    let Some(Decl::Bean(bean)) = view.decls().get(Kind::Bean, &id.class) else {
        return Ok(false);
    };
    match record_of(view.records(&id.class), id.producer) {
        Some(record) => needs_subclass_by(alloc, view, bean, record),
        None => Ok(false),
    }
}

/// Of the records of a declaration that of the product of a producer method, or of its managed bean.
fn record_of(records: &[Effective], producer: Option<Ident>) -> Option<&Effective>
    ensures { option_copied result ≡ find (is_told_by producer) records.now }
{
    for record in records {
        if record.id.producer == producer {
            return Some(record);
        }
    }
    None
}

/// Whether a client proxy stands for the instances of a bean, or it is a managed bean with interceptors.
fn needs_subclass_by<V: View>(
    alloc: Global,
    view: &V,
    bean: &BeanDecl,
    effective: &Effective,
) -> Result<bool, AllocError>
    requires found { find_decl kinds.Bean bean.now.name (V.list view.now) ≡ Some (declared.Bean bean.now) }
    requires evaluated { IsEvaluated (V.list view.now) (V.kept view.now) }
    requires own { is_some effective.now.id.producer ≡ false
        → effective.now.bindings ≡ class_bindings (V.list view.now) bean.now }
    ensures { IfOk result (λ needs. needs ≡ needs_subclass_by (V.list view.now) bean.now effective.now) }
{
    if is_normal(effective.scope) {
        return Ok(true);
    }
    if effective.id.producer.is_some() {
        return Ok(false);
    }
    let names = interceptors_of(alloc, view, bean)?;
    Ok(!names.is_empty())
}

fn is_normal(scope: Scope) -> bool
    ensures { result ≡ is_normal scope }
{
    match scope {
        Scope::Dependent => false,
        Scope::Request | Scope::Application => true,
    }
}
