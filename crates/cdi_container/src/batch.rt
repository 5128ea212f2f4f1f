//! Batches of edits: each edit is made on a list of its own, and judged on what those before it leave.
ghost use Rattle.std.specs.Prelude.{◌≡◌, ◌≤◌, ◌+◌, ◌∷◌, [], length, Ok, Err, OnOk, OnErr, IfOk, IfErr};
ghost use Rattle.cdi_model.specs.Answering.{Answers};
ghost use Rattle.cdi_model.specs.Edits.{answer_of_edit};
ghost use Rattle.cdi_model.specs.Short.{AreShort};
ghost use Rattle.cdi_container.specs.Editing.{drafted_all, drafted_by};
ghost use Rattle.cdi_container.specs.Editing.{asked_by, change_of, changes_of, changes_of_all, first_refusal, refusal_of_batch};
ghost use Rattle.cdi_container.specs.Seen.{answer_of_change, AnswersBatch, refused_at};
ghost use Rattle.cdi_container.specs.Wired.{IsShortEdit};

use cdi_admission::check_decl;
use cdi_index::Draft;
use cdi_lines::Edit;
use cdi_live::Live;
use cdi_model::{Edit as Change, Error as CallError, Refusal};
use cdi_text::read_decl;
use std::alloc::{AllocError, Global};
use std::error::Error;
use std::fmt;

/// How many edits a batch has at most.
pub const BATCH_LIMIT: usize = 256;

/// Why a batch is not made. It has changed nothing.
#[derive(Clone, Copy, Debug, PartialEq, Eq)]
pub enum BatchError {
    OutOfMemory,
    /// An edit is refused.
    Refused {
        refusal: Refusal,
        /// Which one, counted from 1; none where the batch is too long.
        edit: Option<usize>,
    },
}

impl BatchError {
    /// The edit of a number was refused, or found no memory.
    fn of(error: CallError, number: usize) -> BatchError
        ensures { result ≡ refused_at number error }
    {
        match error {
            CallError::OutOfMemory => BatchError::OutOfMemory,
            CallError::Refused(refusal) => BatchError::Refused {
                refusal,
                edit: Some(number),
            },
        }
    }
}

impl From<AllocError> for BatchError {
    ghost use Rattle.std.specs.Prelude.{◌≡◌};
    ghost use Rattle.cdi_container.specs.declared.batch.BatchError.TheVariants.{OutOfMemory};

    ghost from_gives = { λ _ e. e ≡ OutOfMemory };

    fn from(_error: AllocError) -> BatchError {
        BatchError::OutOfMemory
    }
}

impl fmt::Display for BatchError {
    fn fmt<W: fmt::Write>(&self, f: &mut fmt::Formatter<W>) -> fmt::Result {
        match self {
            BatchError::OutOfMemory => write!(f, "out of memory"),
            BatchError::Refused {
                refusal,
                edit: Some(number),
            } => write!(f, "edit {number}: {refusal}"),
            BatchError::Refused {
                refusal,
                edit: None,
            } => write!(f, "{refusal}"),
        }
    }
}

impl Error for BatchError {}

/// A draft of a change. It takes memory for a copy of the list and for what is put.
#[tactic(auto, using(crate::proofs::Editing::edit_short))]
pub(crate) fn draft_change(live: &Live, change: Change) -> Result<Draft, CallError>
    requires short { AreShort live.now.decls }
    requires put { IsShortEdit change }
    ensures ok { IfOk result (λ draft. draft ≡ drafted_by live.now.decls (change ∷ [])) }
    ensures short { IfOk result (λ draft. AreShort draft.decls) }
    ensures accepted { OnOk result (answer_of_edit live.now.decls change ≡ Ok tt) }
    ensures refused { IfErr result (λ error. Answers (Err error) (answer_of_edit live.now.decls change)) }
{
    let mut draft = live.draft()?;
    draft.apply(change)?;
    Ok(draft)
}

/// A draft of a batch. It takes memory for a copy of the list and for what is put.
pub(crate) fn draft_batch(alloc: Global, live: &Live, edits: Vec<Edit>) -> Result<Draft, BatchError>
    requires { AreShort live.now.decls }
    ensures ok { IfOk result (λ draft. draft ≡ drafted_by live.now.decls (changes_of_all edits.items)) }
    ensures short { IfOk result (λ draft. AreShort draft.decls) }
    ensures answer { AnswersBatch result (refusal_of_batch live.now.decls edits.items) }
{
    if edits.len() > BATCH_LIMIT {
        return Err(BatchError::Refused {
            refusal: Refusal::BatchTooLong,
            edit: None,
        });
    }
    let mut draft = live.draft()?;
    make_all(alloc, &mut draft, edits)?;
    Ok(draft)
}

/// Makes some edits, in order, up to the first that is refused.
fn make_all(alloc: Global, draft: &mut Draft, edits: Vec<Edit>) -> Result<(), BatchError>
    requires few { length edits.items ≤ 256 }
    requires short { AreShort draft.old.decls }
    ensures ok { OnOk result (draft.new ≡ drafted_all draft.old (changes_of_all edits.items)) }
    ensures short { OnOk result (AreShort draft.new.decls) }
    ensures answer { AnswersBatch result (first_refusal 1 draft.old.decls (asked_by edits.items)) }
{
    let mut number = 0;
    for edit in edits {
        number += 1;
        match make(alloc, draft, edit) {
            Ok(()) => {}
            Err(error) => return Err(BatchError::of(error, number)),
        }
    }
    Ok(())
}

/// Makes an edit.
#[tactic(auto, using(crate::proofs::Editing::edit_short))]
fn make(alloc: Global, draft: &mut Draft, edit: Edit) -> Result<(), CallError>
    requires { AreShort draft.old.decls }
    ensures answer { Answers result (answer_of_change draft.old.decls (change_of edit)) }
    ensures ok { OnOk result (draft.new ≡ drafted_all draft.old (changes_of edit)) }
    ensures short { OnOk result (AreShort draft.new.decls) }
{
    let change = read_change(alloc, edit)?;
    draft.apply(change)
}

/// The change that an edit asks for.
fn read_change(alloc: Global, edit: Edit) -> Result<Change, CallError>
    ensures answer { Answers result (change_of edit) }
    ensures short { IfOk result (λ change. IsShortEdit change) }
{
    match edit {
        Edit::Put { text } => Ok(Change::Put(read_decl(alloc, text.as_slice())?)),
        Edit::PutDecl { decl } => {
            check_decl(alloc, &decl)?;
            Ok(Change::Put(Box::into_inner(decl)))
        }
        Edit::Remove { kind, name } => Ok(Change::Remove(kind, name)),
    }
}
