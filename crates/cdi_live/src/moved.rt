//! Which declarations are to be looked at again after a draft.
ghost use Rattle.std.specs.Prelude.{◌≡◌, ◌||◌, IfOk, OnOk};
ghost use Rattle.std.specs.List.{list_any};
ghost use Rattle.std.specs.Str.{bytes_eq};
ghost use Rattle.cdi_match.specs.Chain.{has};
ghost use Rattle.cdi_live.specs.Concerned.{AreConcerned};

use crate::chain_gone::GoneChain;
use crate::gone::Gone;
use crate::memos::Going;
use cdi_concern::{Moved, concerned};
use cdi_index::Index;
use cdi_model::{DeclKey, Name};
use std::alloc::{AllocError, Global};

/// Appends a name that is not the last one already.
fn push_name(name: &Name, names: &mut Vec<Name>) -> Result<(), AllocError>
    ensures { OnOk result ((n : _) → has names.new.items n ≡ (has names.old.items n || bytes_eq name.now n)) }
{
    if names.as_slice().last() == Some(name) {
        return Ok(());
    }
    names.push(*name)?;
    Ok(())
}

/// The types of some choices or events. One may be there several times.
fn types_of(alloc: Global, gone: &[Gone]) -> Result<Vec<Name>, AllocError>
    ensures { IfOk result (λ types. (t : _) → has types.items t ≡ list_any (λ g. bytes_eq g.bean_type t) gone.now) }
{
    let mut types = Vec::new(alloc);
    for one in gone {
        push_name(&one.bean_type, &mut types)?;
    }
    Ok(types)
}

/// The classes of some chains. One may be there several times.
fn classes_of(alloc: Global, gone: &[GoneChain]) -> Result<Vec<Name>, AllocError>
    ensures { IfOk result (λ classes. (class : _) → has classes.items class ≡ list_any (λ g. bytes_eq g.class class) gone.now) }
{
    let mut classes = Vec::new(alloc);
    for one in gone {
        push_name(&one.class, &mut classes)?;
    }
    Ok(classes)
}

/// The kinds and names of the declarations of an index that are to be looked at again where some are edited, some are
/// affected, and some kept answers go.
pub(crate) fn concerned_by(
    alloc: Global,
    index: &Index,
    edited: &[DeclKey],
    affected: &[DeclKey],
    going: &Going,
) -> Result<Vec<DeclKey>, AllocError>
    ensures { IfOk result (λ keys. AreConcerned index.now.decls edited.now affected.now going.now keys.items) }
{
    let types = types_of(alloc, going.choices.as_slice())?;
    let events = types_of(alloc, going.events.as_slice())?;
    let classes = classes_of(alloc, going.chains.as_slice())?;
    let moved = Moved {
        edited,
        affected,
        types: types.as_slice(),
        events: events.as_slice(),
        classes: classes.as_slice(),
    };
    concerned(alloc, index, &moved)
}
