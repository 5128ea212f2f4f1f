//! Prepares what a draft leads to.
ghost use Rattle.std.specs.Prelude.{◌≡◌, filter, length, IfOk};
ghost use Rattle.cdi_model.specs.declared.decl.Kind.TheVariants as kinds;
ghost use Rattle.cdi_model.specs.DeclList.{AreDistinct};
ghost use Rattle.cdi_index.specs.Counted.{counted, raised};
ghost use Rattle.cdi_index.specs.Kept.{stored, Keeps, IsExact, IsFreeFrom, IsShelf, IsSound};
ghost use Rattle.cdi_index.specs.Next.{is_made, IsNext};
ghost use Rattle.cdi_index.specs.Numbers.{AreNumbered};
ghost use Rattle.cdi_index.specs.Replaced.{AreReplaced};
ghost use Rattle.cdi_index.specs.State.{IsEdited};
ghost use Rattle.cdi_index.specs.Told.{Tells};
ghost use Rattle.indexmap.specs.IndexMap.{get};
ghost use Rattle.cdi_model.specs.DeclKey.{same_key};

use crate::affected::affected_by;
use crate::change::{Change, change_affected, count_made};
use crate::counts::Counts;
use crate::draft::Draft;
use crate::numbers::{Numbers, staying};
use crate::replaced::{Turns, turn_all};
use crate::shelf::Shelf;
use cdi_model::{DeclKey, Decls, Kind};
use cdi_postings::Postings;
use indexmap::IndexSet;
use std::alloc::{AllocError, Global};

/// What a commit takes over.
#[derive(Drop)]
pub(crate) struct Next {
    pub(crate) decls: Decls,
    /// The slot of the first change. Those of the others follow.
    pub(crate) first: u64,
    /// No declaration has this number or a later one.
    pub(crate) numbered: u64,
    /// The declarations that the changes are of, in the same order.
    pub(crate) affected: IndexSet<DeclKey>,
    pub(crate) changes: Vec<Change>,
    pub(crate) turns: Turns,
    pub(crate) counts: Counts,
}

impl Counts {
    /// After some changes.
    fn after(self, changes: &[Change]) -> Counts
        ensures closures { result.closures ≡ raised self.closures (length (filter (is_made kinds.Type) changes.now)) }
        ensures beans { result.beans ≡ raised self.beans (length (filter (is_made kinds.Bean) changes.now)) }
    {
        Counts {
            closures: self
                .closures
                .saturating_add(count_made(Kind::Type, changes)),
            beans: self.beans.saturating_add(count_made(Kind::Bean, changes)),
        }
    }
}

/// Prepares what a draft of these declarations leads to. Until it is taken over nothing is seen of it: what is listed under
/// words stays, and more may.
pub(crate) fn prepare(
    alloc: Global,
    decls: &Decls,
    shelf: &mut Shelf,
    postings: &mut Postings,
    counts: Counts,
    draft: Draft,
) -> Result<Next, AllocError>
    requires distinct { AreDistinct decls.now }
    requires edited { IsEdited decls.now draft }
    requires shelf { IsShelf shelf.old }
    requires free { IsFreeFrom shelf.old.given shelf.old }
    requires exact { IsExact decls.now (stored shelf.old) }
    requires sound { IsSound (stored shelf.old) postings.old }
    requires ordered { AreNumbered decls.now shelf.old.numbered (stored shelf.old) }
    requires replaced { AreReplaced decls.now (get same_key shelf.old.replaced) }
    ensures slots { shelf.new.slots.entries ≡ shelf.old.slots.entries }
    ensures kept { shelf.new.kept.entries ≡ shelf.old.kept.entries }
    ensures given { shelf.new.given ≡ shelf.old.given }
    ensures numbered { shelf.new.numbered ≡ shelf.old.numbered }
    ensures replaced { shelf.new.replaced.entries ≡ shelf.old.replaced.entries }
    ensures keeps { Keeps postings.old postings.new }
    ensures decls { IfOk result (λ next. next.decls ≡ draft.decls) }
    ensures counts { IfOk result (λ next. next.counts ≡ counted counts decls.now draft.decls draft.keys) }
    ensures next { IfOk result (λ next. IsNext shelf.new postings.new next) }
    ensures told { IfOk result (λ next. Tells decls.now draft.decls draft.keys next.turns.beans.keys) }
{
    // No effect at run time. The proof reads here that no two declarations of the draft have one kind and name.
    let _ = draft.decls.iter();
    let affected = affected_by(alloc, shelf, postings, draft.keys.as_slice())?;
    shelf.reserve(affected.len())?;
    let numbers = Numbers {
        decls: &draft.decls,
        shelf,
        staying: staying(&draft.decls, draft.keys.as_slice()),
    };
    let changes = change_affected(alloc, numbers, &affected, postings)?;
    let turns = turn_all(alloc, shelf, postings, &affected, changes.as_slice())?;
    shelf.replaced.reserve(turns.list.len())?;
    Ok(Next {
        counts: counts.after(changes.as_slice()),
        first: shelf.given,
        numbered: shelf.numbered + draft.decls.len() as u64,
        decls: draft.decls,
        affected,
        changes,
        turns,
    })
}
