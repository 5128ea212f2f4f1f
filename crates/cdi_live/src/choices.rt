//! Choices that are kept.
ghost use Rattle.std.specs.Prelude.{◌≡◌, ◌&&◌, ◌∷◌, [], Some, None, if◌then◌else◌, IfOk, OnOk, OnErr};
ghost use Rattle.std.specs.Str.{bytes_eq};
ghost use Rattle.cdi_model.specs.SameUse.{same_quals};
ghost use Rattle.cdi_model.specs.Work.{with_one};
ghost use Rattle.cdi_effective.specs.Beans.{beans};
ghost use Rattle.cdi_effective.specs.Qualifiers.{default_use, required};
ghost use Rattle.cdi_memo.specs.Answers.{answer};
ghost use Rattle.cdi_observe.specs.Keys.{ChoiceKey};
ghost use Rattle.cdi_observe.specs.Wanted.{is_wanted};
ghost use Rattle.cdi_resolve.specs.Choices.{chosen};
ghost use Rattle.cdi_live.specs.Gone.{is_gone};
ghost use Rattle.cdi_live.specs.State.{IsDefaultOrNone};

use crate::gone::Gone;
use cdi_effective::default_use;
use cdi_index::{Asked, Index, Question};
use cdi_memo::Memo;
use cdi_model::{Name, Quals, Work};
use cdi_questions::choose;
use cdi_resolve::Choice;
use std::alloc::{AllocError, Global};

/// The qualifiers that are asked for: where none is named, `Default`.
pub(crate) fn required_of<'a>(quals: &'a Quals, by_default: &'a Quals) -> &'a Quals
    requires { by_default.now ≡ default_use ∷ [] }
    ensures { result.now ≡ required quals.now }
{
    if quals.is_empty() { by_default } else { quals }
}

/// `Default` is there from now on. It takes memory for it.
#[tactic(auto, using(crate::proofs::LiveLemmas::default_or_none))]
pub(crate) fn make_default(by_default: &mut Quals, alloc: Global) -> Result<(), AllocError>
    requires { IsDefaultOrNone by_default.old }
    ensures ok { OnOk result (by_default.new ≡ default_use ∷ []) }
    ensures err { OnErr result (by_default.new ≡ by_default.old) }
{
    if by_default.is_empty() {
        by_default.insert(default_use(alloc))?;
    }
    Ok(())
}

/// Keeps a choice, if a point asks for it.
fn keep(
    alloc: Global,
    index: &Index,
    choices: &mut Memo<Quals, Choice>,
    bean_type: Name,
    uses: &Quals,
    choice: &Choice,
) -> Result<(), AllocError>
    ensures ok { OnOk result ((t : _) (us : _) → answer same_quals choices.new t us
        ≡ (if is_wanted index.now.decls (ChoiceKey bean_type uses.now) && (bytes_eq bean_type t && same_quals uses.now us)
        then Some choice.now else answer same_quals choices.old t us)) }
    ensures err { OnErr result (choices.new ≡ choices.old) }
{
    let asked = Asked {
        question: Question::Choice,
        name: &bean_type,
        uses: uses.as_slice(),
    };
    if !index.is_asked(asked) {
        return Ok(());
    }
    let part = uses.copy()?;
    let answer = choice.copy(alloc)?;
    choices.keep(bean_type, part, answer)?;
    Ok(())
}

/// Computes the choice for a type and qualifiers, and keeps it, if a point asks for it. Without memory nothing is kept or
/// counted.
pub(crate) fn evaluate(
    alloc: Global,
    index: &Index,
    choices: &mut Memo<Quals, Choice>,
    bean_type: Name,
    uses: &Quals,
    work: &mut Work,
) -> Result<Choice, AllocError>
    ensures choice { IfOk result (λ choice. choice ≡ chosen index.now.decls (beans index.now.decls) bean_type uses.now) }
    ensures kept { IfOk result (λ choice. (t : _) (us : _) → answer same_quals choices.new t us
        ≡ (if is_wanted index.now.decls (ChoiceKey bean_type uses.now) && (bytes_eq bean_type t && same_quals uses.now us)
        then Some choice else answer same_quals choices.old t us)) }
    ensures work { OnOk result (work.new ≡ with_one work.old) }
    ensures err { OnErr result (choices.new ≡ choices.old) }
    ensures same { OnErr result (work.new ≡ work.old) }
{
    let mut counted = *work;
    let choice = choose(alloc, index, bean_type, uses, &mut counted)?;
    keep(alloc, index, choices, bean_type, uses, &choice)?;
    *work = counted;
    Ok(choice)
}

/// Keeps some choices no more. It takes no memory.
pub(crate) fn forget(choices: &mut Memo<Quals, Choice>, mut gone: Vec<Gone>)
    ensures { (t : _) (us : _) → answer same_quals choices.new t us
        ≡ (if is_gone gone.items t us then None else answer same_quals choices.old t us) }
{
    'left: while let Some(one) = gone.pop() {
        choices.remove(&one.bean_type, &one.uses);
    }
}
