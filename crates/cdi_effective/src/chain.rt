//! The chain of a bean (CDI 4.0, Specialization).
ghost use Rattle.std.specs.Prelude.{◌≡◌, IfOk};
ghost use Rattle.std.specs.Option.{option_copied};
ghost use Rattle.cdi_effective.specs.Disposers.{find_bean};
ghost use Rattle.cdi_effective.specs.Lent.{beans_in};
ghost use Rattle.cdi_effective.specs.Specialized.{behind, class_names, extended, specialized};
ghost use Rattle.cdi_model.specs.DeclList.{find_decl};
ghost use Rattle.cdi_model.specs.declared.decl.Kind.TheVariants as kinds;

use cdi_model::{BeanDecl, DECLS_LIMIT, Decl, Decls, Kind, Name};
use std::alloc::{AllocError, Global};
use std::collections::BTreeSet;

/// The declaration of a bean. It takes no memory.
pub fn find_bean<'a>(decls: &'a Decls, class: &Name) -> Option<&'a BeanDecl>
    ensures { option_copied result ≡ find_bean class.now decls.now }
{
    match decls.get(Kind::Bean, class) {
        Some(Decl::Bean(bean)) => Some(bean),
        _ => None,
    }
}

/// The class that a class extends.
pub(crate) fn extended<'a>(decls: &'a Decls, class: &Name) -> Option<&'a Name>
    ensures { option_copied result ≡ extended (find_decl kinds.Type class.now decls.now) }
{
    match decls.get(Kind::Type, class) {
        Some(Decl::Type(decl)) => decl.extends.as_ref(),
        _ => None,
    }
}

/// The bean that a bean specializes: where it says so, the bean of the class that its class extends, if there is one. It
/// takes no memory.
pub fn specialized<'a>(decls: &'a Decls, bean: &BeanDecl) -> Option<&'a BeanDecl>
    ensures { option_copied result ≡ specialized decls.now bean.now }
{
    if !bean.specializes {
        return None;
    }
    match extended(decls, &bean.name) {
        Some(class) => find_bean(decls, class),
        None => None,
    }
}

/// The beans after a bean in its chain: the one that it specializes, the one that this specializes, and so on, ending
/// before a repeat. It takes memory for the list and for the names that are met, and none for a bean that specializes
/// none.
#[tactic(auto, unfolding(crate::specs::Specialized::behind))]
pub fn behind<'a>(
    alloc: Global,
    decls: &'a Decls,
    bean: &BeanDecl,
) -> Result<Vec<&'a BeanDecl>, AllocError>
    ensures { IfOk result (λ list. beans_in list.items ≡ behind decls.now bean.now) }
{
    let mut list = Vec::new(alloc);
    if !bean.specializes {
        return Ok(list);
    }
    let mut met = BTreeSet::new(alloc);
    met.insert(bean.name)?;
    let mut last = bean;
    for step in 0..DECLS_LIMIT {
        let Some(next) = specialized(decls, last) else {
            return Ok(list);
        };
        if !met.insert(next.name)? {
            return Ok(list);
        }
        list.push(next)?;
        last = next;
    }
    Ok(list)
}

/// The classes of some beans.
pub(crate) fn class_names(alloc: Global, beans: &[&BeanDecl]) -> Result<Vec<Name>, AllocError>
    ensures { IfOk result (λ names. names.items ≡ class_names (beans_in beans.now)) }
{
    let mut names = Vec::with_capacity(alloc, beans.len())?;
    for bean in beans {
        names.push(bean.name)?;
    }
    Ok(names)
}
