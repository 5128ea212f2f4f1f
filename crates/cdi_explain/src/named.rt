//! The verdicts where the bean of a name is wanted.
ghost use Rattle.std.specs.Prelude.{◌≡◌, IfOk, filter, map};
ghost use Rattle.cdi_resolve.specs.Choices.{is_named};
ghost use Rattle.cdi_explain.specs.Lent.{lent_in};
ghost use Rattle.cdi_explain.specs.Names.{TakenAreTheNamed, has_name, name_verdict, name_verdict_by};

use crate::rivals::Rivals;
use crate::verdict::{Verdict, unless_disabled};
use cdi_effective::Effective;
use cdi_model::Name;
use std::alloc::{AllocError, Global};

/// The verdict on each of some beans, in order, where the bean of a name is wanted (CDI 4.0, Name resolution; Ambiguous
/// names). It takes memory for the enabled beans with the name and for the verdicts, and time near the number of beans.
#[tactic(auto, using(crate::proofs::NameLemmas::taken_are_the_named))]
pub fn verdicts_on_name(
    alloc: Global,
    beans: &[&Effective],
    name: Name,
) -> Result<Vec<Verdict>, AllocError>
    ensures verdicts { IfOk result (λ list. list.items ≡ map (name_verdict (lent_in beans.now) name) (lent_in beans.now)) }
    ensures answer { TakenAreTheNamed }
{
    let named = named(alloc, beans, &name)?;
    let rivals = Rivals::of(&named);
    verdicts(alloc, beans, &name, rivals)
}

/// The enabled ones of some beans that have a name.
fn named<'a>(
    alloc: Global,
    beans: &[&'a Effective],
    name: &Name,
) -> Result<Vec<&'a Effective>, AllocError>
    ensures { IfOk result (λ list. lent_in list.items ≡ filter (has_name name.now) (lent_in beans.now)) }
{
    let mut named = Vec::new(alloc);
    for bean in beans {
        if bean.is_enabled && is_named(bean, name) {
            named.push(*bean)?;
        }
    }
    Ok(named)
}

/// The verdict on each of some beans.
fn verdicts(
    alloc: Global,
    beans: &[&Effective],
    name: &Name,
    rivals: Rivals,
) -> Result<Vec<Verdict>, AllocError>
    ensures { IfOk result (λ list. list.items ≡ map (name_verdict_by name.now rivals) (lent_in beans.now)) }
{
    let mut verdicts = Vec::with_capacity(alloc, beans.len())?;
    for bean in beans {
        verdicts.push(verdict(bean, name, rivals))?;
    }
    Ok(verdicts)
}

/// The verdict on a bean.
#[tactic(auto, unfolding(crate::specs::Names::name_verdict_by))]
fn verdict(bean: &Effective, name: &Name, rivals: Rivals) -> Verdict
    ensures { result ≡ name_verdict_by name.now rivals bean.now }
{
    if is_named(bean, name) {
        unless_disabled(bean, rivals.verdict(bean))
    } else {
        Verdict::LacksName
    }
}

/// Whether a bean has a name.
fn is_named(bean: &Effective, name: &Name) -> bool
    ensures { result ≡ is_named name.now bean.now.name }
{
    bean.name == Some(*name)
}
