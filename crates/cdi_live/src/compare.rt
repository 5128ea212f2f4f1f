//! Whether choices see the same before and after a draft.
ghost use Rattle.std.specs.Prelude.{◌≡◌, ◌&&◌, ◌||◌, IfOk, OnOk};
ghost use Rattle.std.specs.List.{list_all, list_any};
ghost use Rattle.std.specs.Str.{bytes_eq};
ghost use Rattle.cdi_model.specs.SameUse.{same_quals};
ghost use Rattle.cdi_memo.specs.Answers.{parts_under};
ghost use Rattle.cdi_seen.specs.Touched.{declare_alike, see_same_beans};
ghost use Rattle.cdi_live.specs.Gone.{are_alike, is_gone, sees_other};

use crate::gone::{Gone, push_gone};
use crate::sides::Sides;
use cdi_effective::{default_use, required};
use cdi_memo::Memo;
use cdi_model::{Name, Qual, Quals};
use cdi_resolve::Choice;
use cdi_seen::{offering, same_beans, same_qualifier};
use std::alloc::{AllocError, Global};

/// Whether the choices for a type see the same beans before and after the draft.
fn see_same_beans(alloc: Global, sides: &Sides<'_>, bean_type: &Name) -> Result<bool, AllocError>
    ensures { IfOk result (λ is. is ≡ see_same_beans sides.now.index.now.decls sides.now.next.now bean_type.now) }
{
    let before = sides.index.beans_of_type(alloc, bean_type)?;
    let after = sides.next.beans_of_type(alloc, bean_type)?;
    let olds = offering(alloc, &before, *bean_type)?;
    let news = offering(alloc, &after, *bean_type)?;
    same_beans(alloc, sides.index.decls(), &olds, sides.next.decls(), &news)
}

/// Whether each of some qualifiers is declared alike before and after the draft.
pub(crate) fn are_declared_alike(sides: &Sides<'_>, uses: &[Qual]) -> bool
    ensures { result ≡ list_all (λ u. declare_alike sides.now.index.now.decls sides.now.next.now u.name) uses.now }
{
    uses.iter().all(|qual| same_qualifier(sides.index.decls(), sides.next.decls(), qual.name))
}

/// Whether each of the qualifiers that are asked for is.
fn are_alike(alloc: Global, sides: &Sides<'_>, uses: &Quals) -> bool
    ensures { result ≡ are_alike sides.now.index.now.decls sides.now.next.now uses.now }
{
    let by_default = [default_use(alloc)];
    are_declared_alike(sides, required(uses, &by_default))
}

/// Appends a choice, if it sees something else after the draft. Whether it sees the same beans is given.
fn push_if_other(
    alloc: Global,
    sides: &Sides<'_>,
    bean_type: &Name,
    uses: &Quals,
    is_same: bool,
    gone: &mut Vec<Gone>,
) -> Result<(), AllocError>
    requires { is_same ≡ see_same_beans sides.now.index.now.decls sides.now.next.now bean_type.now }
    ensures { OnOk result ((t : _) (us : _) → is_gone gone.new.items t us ≡ (is_gone gone.old.items t us
        || (bytes_eq t bean_type.now && (same_quals us uses.now
        && sees_other sides.now.index.now.decls sides.now.next.now bean_type.now uses.now)))) }
{
    if is_same && are_alike(alloc, sides, uses) {
        return Ok(());
    }
    push_gone(bean_type, uses, gone)?;
    Ok(())
}

/// Appends the kept choices for a type that see something else after the draft.
fn push_gone_of_type(
    alloc: Global,
    sides: &Sides<'_>,
    choices: &Memo<Quals, Choice>,
    bean_type: &Name,
    gone: &mut Vec<Gone>,
) -> Result<(), AllocError>
    ensures { OnOk result ((t : _) (us : _) → is_gone gone.new.items t us ≡ (is_gone gone.old.items t us
        || (bytes_eq t bean_type.now && list_any (λ q. same_quals us q && sees_other sides.now.index.now.decls sides.now.next.now bean_type.now q)
        (parts_under choices.now bean_type.now)))) }
{
    if choices.part_at(bean_type, 0).is_none() {
        return Ok(());
    }
    let is_same = see_same_beans(alloc, sides, bean_type)?;
    let mut index = 0;
    'parts: while let Some(uses) = choices.part_at(bean_type, index) {
        push_if_other(alloc, sides, bean_type, uses, is_same, gone)?;
        index += 1;
    }
    Ok(())
}

/// The kept choices for some types that see something else after the draft.
pub(crate) fn gone_of_types(
    alloc: Global,
    sides: &Sides<'_>,
    choices: &Memo<Quals, Choice>,
    types: &[Name],
) -> Result<Vec<Gone>, AllocError>
    ensures { IfOk result (λ gone. (t : _) (us : _) → is_gone gone.items t us
        ≡ list_any (λ n. bytes_eq t n && list_any (λ q. same_quals us q && sees_other sides.now.index.now.decls sides.now.next.now n q)
        (parts_under choices.now n)) types.now) }
{
    let mut gone = Vec::new(alloc);
    for bean_type in types {
        push_gone_of_type(alloc, sides, choices, bean_type, &mut gone)?;
    }
    Ok(gone)
}
