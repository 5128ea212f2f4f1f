//! The verdicts where a bean of a type with some qualifiers is wanted.
ghost use Rattle.std.specs.Prelude.{◌≡◌, IfOk, filter, map, slice_get};
ghost use Rattle.cdi_effective.specs.Qualifiers.{some_covers};
ghost use Rattle.cdi_resolve.specs.Eligible.{is_eligible_for};
ghost use Rattle.cdi_explain.specs.Lent.{lent_in};
ghost use Rattle.cdi_explain.specs.Verdicts.{TakenAreTheAnswer, in_place, in_place_at, lacking, verdict, verdict_by};

use crate::rivals::Rivals;
use crate::verdict::{Verdict, unless_disabled};
use cdi_effective::{Effective, default_use, required};
use cdi_match::covers;
use cdi_model::{Decls, Name, Qual, Quals, UseKind};
use std::alloc::{AllocError, Global};

/// What is wanted of a bean by some declarations: a type, and qualifiers.
#[derive(Clone, Copy)]
struct Wanted<'a> {
    decls: &'a Decls,
    bean_type: Name,
    asked_for: &'a [Qual],
}

/// The verdict on each of some beans, in order, where one of a type with some qualifiers is wanted (CDI 4.0, Performing
/// typesafe resolution; Unsatisfied and ambiguous dependencies). If no qualifier is named, `Default` is asked for. It takes
/// memory for the eligible beans and the verdicts, and time near the number of beans and of their types and qualifiers.
#[tactic(auto, using(crate::proofs::VerdictLemmas::taken_are_the_answer))]
pub fn verdicts_on_choice(
    alloc: Global,
    decls: &Decls,
    beans: &[&Effective],
    bean_type: Name,
    quals: &Quals,
) -> Result<Vec<Verdict>, AllocError>
    ensures verdicts { IfOk result (λ list. list.items
        ≡ map (verdict decls.now (lent_in beans.now) bean_type quals.now) (lent_in beans.now)) }
    ensures answer { TakenAreTheAnswer }
{
    let by_default = [default_use(alloc)];
    let wanted = Wanted {
        decls,
        bean_type,
        asked_for: required(quals, &by_default),
    };
    let eligible = wanted.eligible(alloc, beans)?;
    wanted.verdicts(alloc, beans, Rivals::of(&eligible))
}

impl Wanted<'_> {
    /// Whether a bean is enabled, has the type, and has each of the qualifiers.
    fn is_eligible(&self, bean: &Effective) -> bool
        ensures { result ≡ is_eligible_for self.now.decls.now self.now.bean_type self.now.asked_for.now bean.now }
    {
        bean.is_enabled
            && bean.has_type(&self.bean_type)
            && bean.has_qualifiers(self.decls, self.asked_for)
    }

    /// Those of some beans that are eligible.
    fn eligible<'b>(
        &self,
        alloc: Global,
        beans: &[&'b Effective],
    ) -> Result<Vec<&'b Effective>, AllocError>
        ensures { let w = self.now in IfOk result (λ list.
            lent_in list.items ≡ filter (is_eligible_for w.decls.now w.bean_type w.asked_for.now) (lent_in beans.now)) }
    {
        let mut eligible = Vec::new(alloc);
        for bean in beans {
            if self.is_eligible(bean) {
                eligible.push(*bean)?;
            }
        }
        Ok(eligible)
    }

    /// The verdict on each of some beans.
    fn verdicts(
        &self,
        alloc: Global,
        beans: &[&Effective],
        rivals: Rivals,
    ) -> Result<Vec<Verdict>, AllocError>
        ensures { let w = self.now in IfOk result (λ list.
            list.items ≡ map (verdict_by w.decls.now w.bean_type w.asked_for.now rivals) (lent_in beans.now)) }
    {
        let mut verdicts = Vec::with_capacity(alloc, beans.len())?;
        for bean in beans {
            verdicts.push(self.verdict(bean, rivals))?;
        }
        Ok(verdicts)
    }

    /// The verdict on a bean.
    #[tactic(auto, unfolding(crate::specs::Verdicts::verdict_by))]
    fn verdict(&self, bean: &Effective, rivals: Rivals) -> Verdict
        ensures { let w = self.now in
            result ≡ verdict_by w.decls.now w.bean_type w.asked_for.now rivals bean.now }
    {
        if !bean.has_type(&self.bean_type) {
            return Verdict::LacksType;
        }
        if let Some(wanted) = lacking(self.decls, bean.qualifiers.as_slice(), self.asked_for) {
            let has = in_place_at(bean.qualifiers.as_slice(), self.asked_for, wanted);
            return Verdict::LacksQualifier { wanted, has };
        }
        unless_disabled(bean, rivals.verdict(bean))
    }
}

/// The position of the first of some wanted qualifiers that none of these covers.
fn lacking(decls: &Decls, quals: &[Qual], asked_for: &[Qual]) -> Option<usize>
    ensures { result ≡ lacking decls.now quals.now asked_for.now }
{
    asked_for
        .iter()
        .position(|want| !some_covers(decls, quals, want))
}

/// Whether one of these qualifiers covers a wanted one.
fn some_covers(decls: &Decls, quals: &[Qual], want: &Qual) -> bool
    ensures { result ≡ some_covers decls.now quals.now want.now }
{
    quals
        .iter()
        .any(|have| covers(decls, UseKind::Qualifier, have, want))
}

/// The position of the first of these qualifiers that has the name of the one at a position among the wanted ones.
fn in_place_at(quals: &[Qual], asked_for: &[Qual], wanted: usize) -> Option<usize>
    ensures { result ≡ in_place_at quals.now (slice_get asked_for.now wanted) }
{
    match asked_for.get(wanted) {
        Some(want) => in_place(quals, want),
        None => None,
    }
}

/// The position of the first of these qualifiers that has the name of a wanted one.
fn in_place(quals: &[Qual], want: &Qual) -> Option<usize>
    ensures { result ≡ in_place quals.now want.now }
{
    quals.iter().position(|have| have.name == want.name)
}
