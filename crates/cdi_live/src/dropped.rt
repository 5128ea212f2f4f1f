//! The kept choices for which no point asks after a draft.
ghost use Rattle.std.specs.Prelude.{◌≡◌, ◌||◌, ◌∷◌, [], OnOk};
ghost use Rattle.std.specs.List.{list_any};
ghost use Rattle.cdi_model.specs.Mentions.{shown};
ghost use Rattle.cdi_effective.specs.Qualifiers.{default_use};
ghost use Rattle.cdi_live.specs.Dropped.{asks_before, is_dropped_at, is_dropped_by, is_dropped_by_point, is_dropped_in};
ghost use Rattle.cdi_live.specs.Gone.{is_gone};

use crate::choices::required_of;
use crate::gone::{Gone, push_gone};
use crate::sides::Sides;
use cdi_index::{Asked, Question};
use cdi_memo::Memo;
use cdi_model::{Decl, DeclKey, Mention, PointDecl, Quals};
use cdi_resolve::Choice;
use std::alloc::AllocError;

/// What is asked whether it is wanted after a draft.
#[derive(Drop)]
pub(crate) struct Wants<'a> {
    pub(crate) sides: &'a Sides<'a>,
    pub(crate) choices: &'a Memo<Quals, Choice>,
    /// `Default`, for which a point asks that names no qualifier.
    pub(crate) by_default: &'a Quals,
}

/// Appends what a point of an edited declaration asks for, if it is kept and no point asks for it after the draft.
fn push_dropped_by_point(
    wants: &Wants<'_>,
    point: &PointDecl,
    gone: &mut Vec<Gone>,
) -> Result<(), AllocError>
    requires { wants.now.by_default.now ≡ default_use ∷ [] }
    ensures { OnOk result ((t : _) (us : _) → is_gone gone.new.items t us
        ≡ (is_gone gone.old.items t us || is_dropped_by_point (asks_before wants.now) point.now t us)) }
{
    let uses = required_of(&point.qualifiers, wants.by_default);
    let bean_type = &point.required_type;
    if wants.choices.get(bean_type, uses).is_none() {
        return Ok(());
    }
    let asked = Asked {
        question: Question::Choice,
        name: bean_type,
        uses: uses.as_slice(),
    };
    if wants.sides.next.is_asked(asked) {
        return Ok(());
    }
    push_gone(bean_type, uses, gone)
}

/// Appends that of what is named in a place.
fn push_dropped_in(
    wants: &Wants<'_>,
    mention: &Mention<'_>,
    gone: &mut Vec<Gone>,
) -> Result<(), AllocError>
    requires { wants.now.by_default.now ≡ default_use ∷ [] }
    ensures { OnOk result ((t : _) (us : _) → is_gone gone.new.items t us
        ≡ (is_gone gone.old.items t us || is_dropped_in (asks_before wants.now) t us (shown mention.now))) }
{
    match mention {
        Mention::Point(_, point) => push_dropped_by_point(wants, point, gone),
        _ => Ok(()),
    }
}

/// Appends those of an edited declaration.
#[tactic(auto, unfolding(crate::specs::Dropped::is_dropped_by))]
fn push_dropped_by(wants: &Wants<'_>, decl: &Decl, gone: &mut Vec<Gone>) -> Result<(), AllocError>
    requires { wants.now.by_default.now ≡ default_use ∷ [] }
    ensures { OnOk result ((t : _) (us : _) → is_gone gone.new.items t us
        ≡ (is_gone gone.old.items t us || is_dropped_by (asks_before wants.now) t us decl.now)) }
{
    for mention in decl.mentions() {
        push_dropped_in(wants, &mention, gone)?;
    }
    Ok(())
}

/// Appends those of the declarations of some keys, as they are before the draft.
pub(crate) fn push_dropped(
    wants: &Wants<'_>,
    keys: &[DeclKey],
    gone: &mut Vec<Gone>,
) -> Result<(), AllocError>
    requires { wants.now.by_default.now ≡ default_use ∷ [] }
    ensures { OnOk result ((t : _) (us : _) → is_gone gone.new.items t us
        ≡ (is_gone gone.old.items t us || list_any (is_dropped_at (asks_before wants.now) t us) keys.now)) }
{
    for key in keys {
        if let Some(decl) = wants.sides.index.decls().get(key.kind, &key.name) {
            push_dropped_by(wants, decl, gone)?;
        }
    }
    Ok(())
}
