//! Questions that look only at the beans which the index lists for them.
ghost use Rattle.std.specs.Prelude.{◌≡◌, ℕ, List, IfOk, OnOk, OnErr};
ghost use Rattle.cdi_model.specs.Work.{with_one};
ghost use Rattle.cdi_effective.specs.Beans.{beans};
ghost use Rattle.cdi_resolve.specs.Choices.{chosen, chosen_by_name};
ghost use Rattle.cdi_observe.specs.Observers.{notified};
ghost use Rattle.cdi_questions.specs.Found.{is_found};
ghost use Rattle.cdi_questions.specs.Observed.{observed_types};

use cdi_index::{Candidates, Index};
use cdi_match::closure;
use cdi_model::{Name, Qual, Quals, Work};
use cdi_observe::{ObserverId, Shared, evaluate_observers};
use cdi_resolve::{Choice, choose_from};
use std::alloc::{AllocError, Global};

/// The bean for a type and qualifiers (CDI 4.0, Performing typesafe resolution). It takes memory for a list of the beans
/// that have the type, and where several eligible ones rank alike. Where several declarations have such beans, and an
/// alternative is eligible, it looks at the alternatives alone. It is counted as one evaluation: `Work` rises where it
/// answers, and not where memory runs out.
pub fn choose(
    alloc: Global,
    index: &Index,
    bean_type: Name,
    quals: &Quals,
    work: &mut Work,
) -> Result<Choice, AllocError>
    ensures choice { IfOk result (λ choice. choice ≡ chosen index.now.decls (beans index.now.decls) bean_type quals.now) }
    ensures work { OnOk result (work.new ≡ with_one work.old) }
    ensures err { OnErr result (work.new ≡ work.old) }
{
    match index.first_candidates(alloc, &bean_type)? {
        Candidates::All(beans) => {
            choose_from(alloc, index.decls(), &beans, bean_type, quals, work)
        }
        Candidates::Alternatives(beans) => {
            let mut counted = *work;
            let choice = choose_from(alloc, index.decls(), &beans, bean_type, quals, &mut counted)?;
            if is_found(&choice) {
                *work = counted;
                return Ok(choice);
            }
            choose_among_all(alloc, index, bean_type, quals, work)
        }
    }
}

/// The choice among all beans of the type.
fn choose_among_all(
    alloc: Global,
    index: &Index,
    bean_type: Name,
    quals: &Quals,
    work: &mut Work,
) -> Result<Choice, AllocError>
    ensures choice { IfOk result (λ choice. choice ≡ chosen index.now.decls (beans index.now.decls) bean_type quals.now) }
    ensures work { OnOk result (work.new ≡ with_one work.old) }
    ensures err { OnErr result (work.new ≡ work.old) }
{
    let candidates = index.beans_of_type(alloc, &bean_type)?;
    choose_from(alloc, index.decls(), &candidates, bean_type, quals, work)
}

/// Whether a choice is one bean, or several.
fn is_found(choice: &Choice) -> bool
    ensures { result ≡ is_found choice.now }
{
    !matches!(choice, Choice::Unsatisfied)
}

/// The bean of a name (CDI 4.0, Name resolution). It takes memory for a list of the beans that have the name, and where
/// several of these rank alike.
#[tactic(auto, using(crate::proofs::CandidateLemmas::named_enough))]
pub fn choose_name(alloc: Global, index: &Index, name: Name) -> Result<Choice, AllocError>
    ensures { IfOk result (λ choice. choice ≡ chosen_by_name (beans index.now.decls) name) }
{
    let candidates = index.beans_of_name(alloc, &name)?;
    cdi_resolve::choose_name(alloc, &candidates, name)
}

/// The types of an event of a type that some observer method observes, in order. A type that is not declared is taken as it is.
/// It takes memory for a list of them, and where the type is not declared for its types.
pub fn observed_types(
    alloc: Global,
    index: &Index,
    event_type: Name,
) -> Result<Vec<Name>, AllocError>
    ensures { IfOk result (λ types. types.items ≡ observed_types index.now.decls event_type) }
{
    if let Some(types) = index.types(&event_type) {
        return index.observed_among(alloc, types);
    }
    let types = closure(alloc, index.decls(), event_type)?;
    index.observed_among(alloc, &types)
}

/// The observer methods that are notified of an event with some qualifiers, in order, where these are the types of it that
/// some observer method observes (CDI 4.0, Observer resolution; Observer ordering). A qualifier that is not declared is
/// taken as it is. It takes memory for lists of the beans of which an observer method observes one of these, and of these
/// methods. It is counted as `choose` is.
pub fn observers(
    alloc: Global,
    index: &Index,
    observed: &[Name],
    quals: &[Qual],
    work: &mut Work,
) -> Result<Shared<ObserverId>, AllocError>
    ensures observers { IfOk result (λ ids. (t : List ℕ) → observed.now ≡ observed_types index.now.decls t
        → ids ≡ notified index.now.decls (beans index.now.decls) t quals.now) }
    ensures work { OnOk result (work.new ≡ with_one work.old) }
    ensures err { OnErr result (work.new ≡ work.old) }
{
    let candidates = index.beans_observing(alloc, observed)?;
    evaluate_observers(alloc, index.decls(), &candidates, observed, quals, work)
}
