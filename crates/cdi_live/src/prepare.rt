//! Stages a draft, with what goes of the kept answers and what is to be looked at again.
ghost use Rattle.std.specs.Prelude.{◌≡◌, ◌∷◌, [], true, is_some, Some, IfOk, IfSome, OnOk};
ghost use Rattle.cdi_effective.specs.Qualifiers.{default_use};
ghost use Rattle.cdi_index.specs.State.{staged_by, IsEdited};
ghost use Rattle.cdi_index.specs.Told.{Tells};
ghost use Rattle.cdi_live.specs.Compared.{IsBetween};
ghost use Rattle.cdi_live.specs.Concerned.{Concerns};
ghost use Rattle.cdi_live.specs.Kept.{AreAsked, AreGoing};
ghost use Rattle.cdi_live.specs.State.{seen};

use crate::chain_stage::gone_chains_after;
use crate::dropped::Wants;
use crate::event_stage::gone_events_after;
use crate::interceptor_moves::moves_interceptors;
use crate::memos::{Going, Memos};
use crate::moved::concerned_by;
use crate::sides::Sides;
use crate::stage::gone_after;
use cdi_index::{Draft, Index};
use cdi_model::{DeclKey, Quals};
use std::alloc::{AllocError, Global};

/// Copies of some keys.
fn copy_keys(alloc: Global, keys: &[DeclKey]) -> Result<Vec<DeclKey>, AllocError>
    ensures { IfOk result (λ copy. copy.items ≡ keys.now) }
{
    let mut copy = Vec::with_capacity(alloc, keys.len())?;
    for key in keys {
        copy.push(*key)?;
    }
    Ok(copy)
}

/// The kinds and names that a draft edits, and those of the declarations that it affects.
#[derive(Drop)]
struct Keys {
    edited: Vec<DeclKey>,
    affected: Vec<DeclKey>,
}

/// The answers that are kept.
#[derive(Drop)]
pub(crate) struct KeptAnswers<'a> {
    pub(crate) memos: &'a Memos,
    /// `Default`, for which a point asks that names no qualifier.
    pub(crate) by_default: &'a Quals,
}

/// What goes of the kept answers with a draft.
fn going_after(
    alloc: Global,
    sides: &Sides<'_>,
    kept: &KeptAnswers<'_>,
) -> Result<Going, AllocError>
    requires between { IsBetween sides.now }
    requires default { kept.now.by_default.now ≡ default_use ∷ [] }
    requires asked { AreAsked sides.now.index.now.decls kept.now.memos.now }
    ensures { IfOk result (λ going. AreGoing sides.now.index.now.decls sides.now.next.now kept.now.memos.now going) }
{
    let wants = Wants {
        sides,
        choices: &kept.memos.choices,
        by_default: kept.by_default,
    };
    Ok(Going {
        choices: gone_after(alloc, &wants)?,
        chains: gone_chains_after(alloc, sides, &kept.memos.chains)?,
        events: gone_events_after(alloc, sides, &kept.memos.events)?,
    })
}

/// What goes of the kept answers where a draft that an index has staged leads from its declarations to others.
fn going_between(
    alloc: Global,
    index: &Index,
    kept: &KeptAnswers<'_>,
    keys: &Keys,
) -> Result<Going, AllocError>
    requires staged { is_some index.now.staged ≡ true }
    requires between { IfSome index.now.staged (λ next.
        IsEdited index.now.decls (record { decls = next.decls; keys = keys.now.edited.items })) }
    requires told { IfSome index.now.staged (λ next.
        Tells index.now.decls next.decls keys.now.edited.items keys.now.affected.items) }
    requires default { kept.now.by_default.now ≡ default_use ∷ [] }
    requires asked { AreAsked index.now.decls kept.now.memos.now }
    ensures { IfOk result (λ going. IfSome index.now.staged (λ next.
        AreGoing index.now.decls next.decls kept.now.memos.now going)) }
{
    let next = index.next().unwrap();
    let edited = keys.edited.as_slice();
    let affected = keys.affected.as_slice();
    let sides = Sides {
        index,
        next: &next,
        edited,
        affected,
        moves_interceptors: moves_interceptors(alloc, index, &next, edited, affected)?,
    };
    going_after(alloc, &sides, kept)
}

/// What is found of a draft that is staged.
#[derive(Drop)]
pub(crate) struct Prepared {
    pub(crate) going: Going,
    /// The kinds and names of the declarations that are to be looked at again.
    pub(crate) concerned: Vec<DeclKey>,
}

/// Stages a draft. It answers what goes of the kept answers with it, and which declarations are to be looked at again.
/// Without memory what is staged is not to be taken over.
pub(crate) fn prepare(
    alloc: Global,
    index: &mut Index,
    kept: &KeptAnswers<'_>,
    draft: Draft,
) -> Result<Prepared, AllocError>
    requires edited { IsEdited index.old.decls draft }
    requires default { kept.now.by_default.now ≡ default_use ∷ [] }
    requires asked { AreAsked index.old.decls kept.now.memos.now }
    ensures decls { index.new.decls ≡ index.old.decls }
    ensures counts { index.new.counts ≡ index.old.counts }
    ensures staged { OnOk result (index.new.staged ≡ Some (staged_by index.old draft)) }
    ensures going { IfOk result (λ found. AreGoing index.old.decls draft.decls kept.now.memos.now found.going) }
    ensures concerned { IfOk result (λ found. (work : _) (going : _)
        → Concerns (seen index.old kept.now.memos.now work going) draft found.concerned.items) }
{
    let edited = copy_keys(alloc, draft.keys())?;
    let affected = index.stage(draft)?;
    let keys = Keys { edited, affected };
    let going = going_between(alloc, index, kept, &keys)?;
    let concerned = concerned_by(
        alloc,
        index,
        keys.edited.as_slice(),
        keys.affected.as_slice(),
        &going,
    )?;
    Ok(Prepared { going, concerned })
}
