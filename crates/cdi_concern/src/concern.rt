//! Which declarations are to be looked at again.
ghost use Rattle.std.specs.Prelude.{◌≡◌, IfOk};
ghost use Rattle.cdi_model.specs.Edits.{is_among};
ghost use Rattle.cdi_concern.specs.Concern.{is_concerned};

use crate::keys::{
    push_keys, push_keys_of_classes, push_keys_of_readers, push_keys_of_stereotypes,
    push_keys_under,
};
use crate::moved::Moved;
use crate::sought::words_sought;
use cdi_index::Index;
use cdi_model::DeclKey;
use std::alloc::{AllocError, Global};

/// The kinds and names of the declarations that are to be looked at again after an edit of the declarations of an index. They
/// are edited or affected, write an edited name, have another word of what the edit moves, or read an affected bean. The beans
/// of the chains that are given up are among them, and one may be in the list several times. It takes memory for the words and
/// for the list. It looks at these declarations alone. Where a stereotype or a binding type is edited, it looks at each one, and
/// lists all stereotypes.
pub fn concerned(
    alloc: Global,
    index: &Index,
    moved: &Moved<'_>,
) -> Result<Vec<DeclKey>, AllocError>
    ensures { IfOk result (λ keys. (k : _) → is_among keys.items k ≡ is_concerned index.now.decls moved.now k) }
{
    let words = words_sought(alloc, index, moved)?;
    let mut keys = Vec::new(alloc);
    push_keys(moved.edited, &mut keys)?;
    push_keys(moved.affected, &mut keys)?;
    push_keys_under(alloc, index, words.as_slice(), &mut keys)?;
    push_keys_of_readers(alloc, index, moved.affected, &mut keys)?;
    push_keys_of_stereotypes(index.decls(), moved.edited, &mut keys)?;
    push_keys_of_classes(moved.classes, &mut keys)?;
    Ok(keys)
}
