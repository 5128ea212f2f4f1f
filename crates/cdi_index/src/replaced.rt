//! The records of beans that others replace (CDI 4.0, Specialization).
ghost use Rattle.std.specs.Prelude.{◌≡◌, ◌≤◌, ◌<◌, ◌+◌, ◌||◌, true, map, length, cond, IfOk, OnOk};
ghost use Rattle.cdi_effective.specs.Beans.{unless_replaced};
ghost use Rattle.std.specs.Option.{option_copied};
ghost use Rattle.indexmap.specs.IndexMap.{get, spare};
ghost use Rattle.indexmap.specs.IndexSet.{contains};
ghost use Rattle.cdi_model.specs.declared.decl.Kind.TheVariants as kinds;
ghost use Rattle.cdi_model.specs.DeclKey.{key_at, same_key};
ghost use Rattle.cdi_model.specs.Edits.{is_among};
ghost use Rattle.cdi_index.specs.Kept.{made_in, stored};
ghost use Rattle.cdi_index.specs.Replaced.{disabled, is_at_stake, is_replaced_after, is_replaced_anew, is_replaced_still, made_after};
ghost use Rattle.cdi_index.specs.Replaced.{keys_changed, keys_turned, records_after, replaces, stakes, turned};

use crate::affected::word_of_replaced;
use crate::change::Change;
use crate::making::{Given, Made};
use crate::shelf::Shelf;
use cdi_effective::Effective;
use cdi_model::{DeclKey, Kind, Name, Seq};
use cdi_postings::Postings;
use indexmap::{IndexMap, IndexSet};
use std::alloc::{AllocError, Global};

/// The records of a bean that is replaced from now on, or none where it is not.
#[derive(Drop)]
pub(crate) struct Turn {
    pub(crate) key: DeclKey,
    pub(crate) records: Option<Seq<Effective>>,
}

/// Turns, with the beans that they are of, in the same order.
#[derive(Drop)]
pub(crate) struct Turns {
    pub(crate) beans: IndexSet<DeclKey>,
    pub(crate) list: Vec<Turn>,
}

/// Adds the beans of some classes.
fn add_beans(classes: &[Name], beans: &mut IndexSet<DeclKey>) -> Result<(), AllocError>
    ensures { OnOk result ((k : _) → contains same_key beans.new k
        ≡ (contains same_key beans.old k || is_among (map (key_at kinds.Bean) classes.now) k)) }
{
    for class in classes {
        beans.insert(DeclKey {
            kind: Kind::Bean,
            name: *class,
        })?;
    }
    Ok(())
}

/// Adds the beans that a bean of which this is made replaces.
fn add_replaced(made: Option<&Made>, beans: &mut IndexSet<DeclKey>) -> Result<(), AllocError>
    ensures { OnOk result ((k : _) → contains same_key beans.new k
        ≡ (contains same_key beans.old k || replaces (option_copied made.entry) k)) }
{
    match made {
        Some(made) => add_beans(made.replaces.as_slice(), beans),
        None => Ok(()),
    }
}

/// Adds the declarations that a change may leave replaced or not.
fn add_stakes(
    shelf: &Shelf,
    change: &Change,
    beans: &mut IndexSet<DeclKey>,
) -> Result<(), AllocError>
    ensures { OnOk result ((k : _) → contains same_key beans.new k ≡ (contains same_key beans.old k || stakes shelf.now k change.now)) }
{
    beans.insert(change.key)?;
    add_replaced(shelf.find(&change.key), beans)?;
    add_replaced(change.made.as_ref(), beans)
}

/// The declarations that some changes may leave replaced or not.
fn beans_at_stake(
    alloc: Global,
    shelf: &Shelf,
    changes: &[Change],
) -> Result<IndexSet<DeclKey>, AllocError>
    ensures { IfOk result (λ beans. (k : _) → contains same_key beans k ≡ is_at_stake shelf.now changes.now k) }
{
    let mut beans = IndexSet::new(alloc);
    for change in changes {
        add_stakes(shelf, change, &mut beans)?;
    }
    Ok(beans)
}

/// The beans that those replace which are made anew.
fn beans_replaced_anew(alloc: Global, changes: &[Change]) -> Result<IndexSet<DeclKey>, AllocError>
    ensures { IfOk result (λ beans. (k : _) → contains same_key beans k ≡ is_replaced_anew changes.now k) }
{
    let mut beans = IndexSet::new(alloc);
    for change in changes {
        add_replaced(change.made.as_ref(), &mut beans)?;
    }
    Ok(beans)
}

/// Whether a bean is replaced by one at some slots that is not affected.
fn is_replaced_still(
    shelf: &Shelf,
    affected: &IndexSet<DeclKey>,
    slots: &[u64],
    key: &DeclKey,
) -> bool
    ensures { result ≡ is_replaced_still shelf.now affected.now.keys slots.now key.now }
{
    for slot in slots {
        if let Some(kept) = shelf.kept.get(slot) {
            if !affected.contains(&kept.key) && replaces(&kept.made, key) {
                return true;
            }
        }
    }
    false
}

/// Whether a bean of which this is made replaces that of a key.
fn replaces(made: &Made, key: &DeclKey) -> bool
    ensures { result ≡ is_among (map (key_at kinds.Bean) made.now.replaces) key.now }
{
    for class in made.replaces.as_slice() {
        let bean = DeclKey {
            kind: Kind::Bean,
            name: *class,
        };
        if bean == *key {
            return true;
        }
    }
    false
}

/// What is made of the declaration of a key after the changes of those that are affected.
pub(crate) fn made_after<'a>(
    shelf: &'a Shelf,
    affected: &IndexSet<DeclKey>,
    changes: &'a [Change],
    key: &DeclKey,
) -> Option<&'a Made>
    requires { keys_changed changes.now ≡ affected.now.keys }
    ensures { option_copied result ≡ made_after changes.now (made_in (stored shelf.now key.now)) key.now }
{
    match affected.get_index_of(key) {
        Some(index) => changes[index].made.as_ref(),
        None => shelf.find(key),
    }
}

/// The records of a bean that is replaced.
fn disabled(alloc: Global, made: Option<&Made>) -> Result<Option<Seq<Effective>>, AllocError>
    ensures { IfOk result (λ records. records ≡ disabled (option_copied made.entry)) }
{
    match made {
        Some(
            Made {
                given: Given::Records(records),
                ..
            },
        ) => Ok(Some(disable_all(alloc, records.as_slice())?)),
        _ => Ok(None),
    }
}

/// Copies of records, disabled.
fn disable_all(alloc: Global, records: &[Effective]) -> Result<Seq<Effective>, AllocError>
    ensures { IfOk result (λ copies. copies ≡ map (unless_replaced true) records.now) }
{
    let mut copies = Seq::new(alloc);
    for record in records {
        copies.push(record.unless_replaced(alloc, true)?)?;
    }
    Ok(copies)
}

/// The records of a bean after changes, where it is replaced then.
fn records_after(
    alloc: Global,
    shelf: &Shelf,
    postings: &Postings,
    affected: &IndexSet<DeclKey>,
    changes: &[Change],
    anew: &IndexSet<DeclKey>,
    key: &DeclKey,
) -> Result<Option<Seq<Effective>>, AllocError>
    requires changed { keys_changed changes.now ≡ affected.now.keys }
    requires anew { (k : _) → contains same_key anew.now k ≡ is_replaced_anew changes.now k }
    ensures { IfOk result (λ records. records ≡ records_after shelf.now postings.now affected.now.keys changes.now key.now) }
{
    let slots = postings.under(word_of_replaced(&key.name));
    if anew.contains(key) || is_replaced_still(shelf, affected, slots, key) {
        return disabled(alloc, made_after(shelf, affected, changes, key));
    }
    Ok(None)
}

/// What changes turn: the records of each bean that they may leave replaced or not. It takes memory for the copies of the
/// records of those that are replaced.
pub(crate) fn turn_all(
    alloc: Global,
    shelf: &Shelf,
    postings: &Postings,
    affected: &IndexSet<DeclKey>,
    changes: &[Change],
) -> Result<Turns, AllocError>
    requires { keys_changed changes.now ≡ affected.now.keys }
    ensures beans { IfOk result (λ turns. (k : _) → is_among turns.beans.keys k ≡ is_at_stake shelf.now changes.now k) }
    ensures keys { IfOk result (λ turns. keys_turned turns.list.items ≡ turns.beans.keys) }
    ensures records { IfOk result (λ turns. (records : _) (k : _) → turned turns.list.items records k
        ≡ cond (is_at_stake shelf.now changes.now k) (records_after shelf.now postings.now affected.now.keys changes.now k) (records k)) }
{
    let beans = beans_at_stake(alloc, shelf, changes)?;
    let anew = beans_replaced_anew(alloc, changes)?;
    let mut list = Vec::with_capacity(alloc, beans.len())?;
    for key in beans.as_slice() {
        let records = records_after(alloc, shelf, postings, affected, changes, &anew, key)?;
        list.push(Turn { key: *key, records })?;
    }
    Ok(Turns { beans, list })
}

/// The records of a bean after some turns, where another replaces it then.
pub(crate) fn records_turned<'a>(
    shelf: &'a Shelf,
    turns: &'a Turns,
    key: &DeclKey,
) -> Option<&'a Seq<Effective>>
    requires { keys_turned turns.now.list.items ≡ turns.now.beans.keys }
    ensures { option_copied result ≡ turned turns.now.list.items (get same_key shelf.now.replaced) key.now }
{
    match turns.beans.get_index_of(key) {
        Some(index) => turns.list[index].records.as_ref(),
        None => shelf.replaced.get(key),
    }
}

/// Takes turns over. It takes no memory where there is room for them.
pub(crate) fn install_turns(replaced: &mut IndexMap<DeclKey, Seq<Effective>>, mut turns: Turns)
    requires { length turns.list.items ≤ spare replaced.old }
    ensures { (k : _) → get same_key replaced.new k ≡ turned turns.list.items (get same_key replaced.old) k }
{
    'left: while let Some(turn) = turns.list.pop() {
        install_turn(replaced, turn);
    }
}

/// Takes a turn over.
fn install_turn(replaced: &mut IndexMap<DeclKey, Seq<Effective>>, turn: Turn)
    requires { 0 < spare replaced.old }
    ensures records { (k : _) → get same_key replaced.new k ≡ cond (same_key turn.key k) turn.records (get same_key replaced.old k) }
    ensures room { spare replaced.old ≤ spare replaced.new + 1 }
{
    let Turn { key, records } = turn;
    match records {
        Some(records) => {
            replaced.insert(key, records).unwrap();
        }
        None => {
            replaced.swap_remove(&key);
        }
    }
}
