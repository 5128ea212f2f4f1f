//! How a container is brought to the declarations of another.

use crate::steps::steps_of;
use cdi_container::{BATCH_LIMIT, BatchError, Bodies, Command, Container, Edit, Error, read_decl};
use cdi_model::{Decl, DeclKey, Decls};
use cdi_sources::{Form, Source};
use indexmap::IndexMap;
use std::alloc::{AllocError, Global};
use std::mem;

/// Declarations by their texts. Two have one text just where they are the same, since it prints each of their fields.
type Pool = IndexMap<String, Decl>;

/// Brings a container to the declarations of another, in their order, by batches. These sources put the declarations of that
/// other. Whether it was done: if not, the container has some of the edits, or none.
///
/// A put appends a declaration, or replaces one where it stands. So what stays is the longest beginning of the wanted list that
/// the container has in this order. The rest is removed first, and then what is wanted is put: in its place where it stays but
/// is another, and at the end what comes after.
pub fn bring<B: Bodies, C: Bodies>(
    alloc: Global,
    container: &mut Container<B>,
    wanted: &Container<C>,
    sources: &[Source],
) -> Result<bool, AllocError> {
    let mut pool = pool_of(alloc, sources)?;
    match edits_between(alloc, container.present(), wanted.present(), &mut pool)? {
        Some(edits) => make_all(alloc, container, edits),
        None => Ok(false),
    }
}

/// The text of a declaration.
fn text_of(alloc: Global, decl: &Decl) -> Result<String, AllocError> {
    format!(in alloc; "{decl:?}")
}

/// The declarations that the texts in some sources spell.
fn pool_of(alloc: Global, sources: &[Source]) -> Result<Pool, AllocError> {
    let mut pool = IndexMap::new(alloc);
    for source in sources {
        let text = source.text.as_slice();
        match source.form {
            Form::Declaration => add_text(alloc, text, &mut pool)?,
            Form::Script => add_script(alloc, text, &mut pool)?,
        }
    }
    Ok(pool)
}

fn add_script(alloc: Global, script: &[u8], pool: &mut Pool) -> Result<(), AllocError> {
    for step in steps_of(alloc, script)? {
        add_command(alloc, step.command, pool)?;
    }
    Ok(())
}

fn add_command(alloc: Global, command: Command, pool: &mut Pool) -> Result<(), AllocError> {
    match command {
        Command::Edit(edit) => add_edit(alloc, &edit, pool),
        Command::Batch(edits) => add_edits(alloc, edits.into_vec(), pool),
        _ => Ok(()),
    }
}

fn add_edits(alloc: Global, edits: Vec<Edit>, pool: &mut Pool) -> Result<(), AllocError> {
    for edit in edits {
        add_edit(alloc, &edit, pool)?;
    }
    Ok(())
}

fn add_edit(alloc: Global, edit: &Edit, pool: &mut Pool) -> Result<(), AllocError> {
    match edit {
        Edit::Put { text } => add_text(alloc, text.as_slice(), pool),
        _ => Ok(()),
    }
}

fn add_text(alloc: Global, text: &[u8], pool: &mut Pool) -> Result<(), AllocError> {
    match read_decl(alloc, text) {
        Ok(decl) => {
            pool.insert(text_of(alloc, &decl)?, decl)?;
            Ok(())
        }
        Err(Error::OutOfMemory) => Err(AllocError),
        Err(Error::Refused(_)) => Ok(()),
    }
}

/// The edits that make one list of another. None where a declaration is not among those of the pool.
fn edits_between(
    alloc: Global,
    present: &Decls,
    wanted: &Decls,
    pool: &mut Pool,
) -> Result<Option<Vec<Edit>>, AllocError> {
    let kept = count_kept(present, wanted);
    let mut edits = Vec::new(alloc);
    for decl in present.iter() {
        if !is_kept(wanted, kept, decl) {
            let DeclKey { kind, name } = decl.key();
            edits.push(Edit::Remove { kind, name })?;
        }
    }
    for (position, decl) in wanted.iter().enumerate() {
        if position < kept && is_same(alloc, present, decl)? {
            continue;
        }
        let Some(put) = put_of(alloc, decl, pool)? else {
            return Ok(None);
        };
        edits.push(put)?;
    }
    Ok(Some(edits))
}

/// The edit that puts a declaration, which is taken from the pool. None where it is not there.
fn put_of(alloc: Global, decl: &Decl, pool: &mut Pool) -> Result<Option<Edit>, AllocError> {
    let text = text_of(alloc, decl)?;
    let Some(decl) = pool.swap_remove(text.as_str()) else {
        return Ok(None);
    };
    let decl = Box::new(alloc, decl)?;
    Ok(Some(Edit::PutDecl { decl }))
}

/// How many declarations the longest beginning of a wanted list has that is present in its order.
fn count_kept(present: &Decls, wanted: &Decls) -> usize {
    let mut count = 0usize;
    let mut next = 0usize;
    for decl in wanted.iter() {
        match present.position(decl.kind(), decl.name()) {
            Some(position) if position >= next => {
                next = position.saturating_add(1);
                count = count.saturating_add(1);
            }
            _ => break,
        }
    }
    count
}

/// Whether a declaration is of a kind and name that one of the first of a wanted list has.
fn is_kept(wanted: &Decls, kept: usize, decl: &Decl) -> bool {
    match wanted.position(decl.kind(), decl.name()) {
        Some(position) => position < kept,
        None => false,
    }
}

/// Whether a declaration is present as it is.
fn is_same(alloc: Global, present: &Decls, decl: &Decl) -> Result<bool, AllocError> {
    let Some(old) = present.get(decl.kind(), decl.name()) else {
        return Ok(false);
    };
    let (old, new) = (text_of(alloc, old)?, text_of(alloc, decl)?);
    Ok(old == new)
}

/// Makes some edits, in batches. Whether none was refused.
fn make_all<B: Bodies>(
    alloc: Global,
    container: &mut Container<B>,
    edits: Vec<Edit>,
) -> Result<bool, AllocError> {
    let mut batch = Vec::new(alloc);
    for edit in edits {
        batch.push(edit)?;
        if batch.len() >= BATCH_LIMIT {
            let full = mem::replace(&mut batch, Vec::new(alloc));
            if !make(container, full)? {
                return Ok(false);
            }
        }
    }
    make(container, batch)
}

/// Makes a batch. Whether it was not refused.
fn make<B: Bodies>(container: &mut Container<B>, batch: Vec<Edit>) -> Result<bool, AllocError> {
    match container.batch(batch) {
        Ok(()) => Ok(true),
        Err(BatchError::OutOfMemory) => Err(AllocError),
        Err(BatchError::Refused { .. }) => Ok(false),
    }
}
