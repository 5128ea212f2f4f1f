//! Which beans are replaced by others that specialize them (CDI 4.0, Specialization).
ghost use Rattle.std.specs.Prelude.{◌≡◌, IfOk};
ghost use Rattle.cdi_effective.specs.Enabled.{is_enabled};
ghost use Rattle.cdi_model.specs.declared.decl.Decl.TheVariants as decls_are;
ghost use Rattle.cdi_effective.specs.Locality.{EditsKeepReplaced, SparedStay};
ghost use Rattle.cdi_effective.specs.Specialized.{is_offered, replaced_by, ChainsAreThese};

use crate::chain::{behind, class_names};
use crate::given::given_to;
use cdi_model::{BeanDecl, Decl, Decls, Name};
use std::alloc::{AllocError, Global};

/// Whether a bean is no alternative, or has a priority.
pub(crate) fn is_enabled(is_alternative: bool, priority: Option<i64>) -> bool
    ensures { result ≡ is_enabled is_alternative priority }
{
    !is_alternative || priority.is_some()
}

/// Whether a bean is offered: it is no alternative, or an alternative with a priority. It takes memory while it looks for
/// the stereotypes.
fn is_offered(alloc: Global, decls: &Decls, bean: &BeanDecl) -> Result<bool, AllocError>
    ensures { IfOk result (λ is. is ≡ is_offered decls.now bean.now) }
{
    let given = given_to(alloc, decls, bean.attributes.stereotypes.as_slice())?;
    Ok(is_enabled(
        bean.attributes.is_alternative || given.is_alternative,
        bean.priority,
    ))
}

/// The classes of the beans that a declaration replaces: where it is that of an offered bean, those of the beans after it
/// in its chain. It takes memory for the list and for the searches, and none for a bean that specializes none.
#[tactic(auto, unfolding(crate::specs::Specialized::replaced_by))]
pub fn replaced_by(alloc: Global, decls: &Decls, decl: &Decl) -> Result<Vec<Name>, AllocError>
    ensures value { IfOk result (λ names. names.items ≡ replaced_by decls.now decl.now) }
    ensures chains { ChainsAreThese }
    ensures edits { EditsKeepReplaced }
    ensures spared { SparedStay }
{
    match decl {
        Decl::Bean(bean) => replaced_by_bean(alloc, decls, bean),
        _ => Ok(Vec::new(alloc)),
    }
}

fn replaced_by_bean(alloc: Global, decls: &Decls, bean: &BeanDecl) -> Result<Vec<Name>, AllocError>
    ensures { IfOk result (λ names. names.items ≡ replaced_by decls.now (decls_are.Bean bean.now)) }
{
    if !bean.specializes {
        return Ok(Vec::new(alloc));
    }
    if !is_offered(alloc, decls, bean)? {
        return Ok(Vec::new(alloc));
    }
    let behind = behind(alloc, decls, bean)?;
    class_names(alloc, &behind)
}
