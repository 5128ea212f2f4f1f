//! The declarations at which a report looks.
ghost use Rattle.std.specs.Prelude.{◌≡◌, ◌++◌, ◌∷◌, ◌||◌, [], true, false, filter, map, IfOk, OnOk};
ghost use Rattle.indexmap.specs.IndexSet.{contains};
ghost use Rattle.cdi_model.specs.Decl.{key_of};
ghost use Rattle.cdi_model.specs.DeclKey.{same_key};
ghost use Rattle.cdi_model.specs.DeclList.{AreDistinct};
ghost use Rattle.cdi_model.specs.Edits.{is_among};
ghost use Rattle.cdi_model.specs.Grammar.{is_name};
ghost use Rattle.cdi_report.specs.Settled.{are_many, is_changed, is_open, is_present, open_of, AreSettled, IsSettledAnyway, LooksAtMore};
ghost use Rattle.cdi_report.specs.Settled.{MoreIsSettled};
ghost use Rattle.cdi_report.specs.Stays.{SettledStay};

use crate::positions::{decls_at, positions_of};
use cdi_model::{Decl, DeclKey, Decls};
use cdi_validate::{Together, all_decls};
use indexmap::IndexSet;
use std::alloc::{AllocError, Global};

/// So many keys of gone declarations are kept in any case.
const SPARE_KEYS: usize = 64;

/// The declarations at which a report looks: those of which something on which their faults rest may have changed since the last
/// report, and those that had faults then. No other has a fault. All is known on which the faults of those rest that have not
/// changed. These have no faults together, unless all declarations are looked at anew for such.
#[derive(Drop)]
pub struct Unsettled {
    /// Whether all declarations may have changed.
    pub(crate) is_each: bool,
    /// Those that may have changed.
    pub(crate) keys: IndexSet<DeclKey>,
    /// Those that had faults at the last report.
    pub(crate) faulty: IndexSet<DeclKey>,
    pub(crate) anew: Together,
}

impl Unsettled {
    /// None. It takes no memory.
    pub fn new(alloc: Global) -> Unsettled
        ensures { (k : _) → is_open result k ≡ false }
    {
        Unsettled {
            is_each: false,
            keys: IndexSet::new(alloc),
            faulty: IndexSet::new(alloc),
            anew: Together {
                names: false,
                circles: false,
                chains: false,
            },
        }
    }

    /// Adds those of some keys, which may have changed. Without memory some of them may have been added. The last clauses say that
    /// over a draft all stay settled that it does not concern, and that they do where more are looked at.
    pub fn add(&mut self, keys: &[DeclKey]) -> Result<(), AllocError>
        ensures ok { OnOk result ((k : _) → is_changed self.new k ≡ (is_changed self.old k || is_among keys.now k)) }
        ensures named { OnOk result ((k : _) → is_among keys.now k ≡ true → is_name k.name ≡ true) }
        ensures more { LooksAtMore self.old self.new }
        ensures stays { SettledStay }
        ensures settled { MoreIsSettled }
    {
        read_names(keys);
        add_keys(&mut self.keys, keys)?;
        Ok(())
    }

    /// Each may have changed, and all are looked at anew. It takes no memory.
    pub fn add_each(&mut self)
        ensures { IsSettledAnyway self.new }
    {
        self.is_each = true;
        self.anew = Together::all();
    }

    /// Lets the keys go whose declarations are not there, where there are more keys than twice the declarations and 64. So the
    /// memory for keys does not grow with the names that come and go. It takes none, and for each key that was added the time of a
    /// few lookups.
    pub fn forget_gone(&mut self, decls: &Decls)
        ensures gone { are_many self.old decls.now ≡ true → (k : _) → contains same_key self.new.keys k ≡ true → is_present decls.now k ≡ true }
        ensures settled { (knows : _) (book : _) → AreSettled decls.now knows book self.old → AreSettled decls.now knows book self.new }
    {
        let are_many = self.keys.len() > 2 * decls.len() + SPARE_KEYS;
        if are_many {
            self.keys.retain(|key| is_present(decls, key));
        }
    }

    /// Those of some declarations at which a report looks, in order. It takes memory for a list of them, and looks at no others
    /// unless it is all.
    pub(crate) fn among<'a>(
        &self,
        alloc: Global,
        decls: &'a Decls,
    ) -> Result<Vec<&'a Decl>, AllocError>
        requires { AreDistinct decls.now }
        ensures { IfOk result (λ list. map (λ d. d.now) list.items ≡ open_of self.now decls.now) }
    {
        if self.is_each {
            return all_decls(alloc, decls);
        }
        let positions = positions_of(decls, self.keys.as_slice(), self.faulty.as_slice());
        decls_at(alloc, decls, &positions)
    }

    /// Those of some declarations that may have changed, in order. It takes memory for a list of them.
    pub(crate) fn changed<'a>(
        &self,
        alloc: Global,
        decls: &[&'a Decl],
    ) -> Result<Vec<&'a Decl>, AllocError>
        ensures { IfOk result (λ list. map (λ d. d.now) list.items
            ≡ filter (λ d. is_changed self.now (key_of d)) (map (λ d. d.now) decls.now)) }
    {
        let mut list = Vec::new(alloc);
        for decl in decls {
            self.push_changed(decl, &mut list)?;
        }
        Ok(list)
    }

    /// Appends a declaration, if it may have changed.
    fn push_changed<'a>(&self, decl: &'a Decl, list: &mut Vec<&'a Decl>) -> Result<(), AllocError>
        ensures { OnOk result (map (λ d. d.now) list.new.items
            ≡ map (λ d. d.now) list.old.items ++ filter (λ d. is_changed self.now (key_of d)) (decl.now ∷ [])) }
    {
        if self.is_each || self.keys.contains(&decl.key()) {
            list.push(decl)?;
        }
        Ok(())
    }

    /// What a report leaves that found this. It takes no memory.
    pub(crate) fn settle(&mut self, alloc: Global, faulty: IndexSet<DeclKey>, anew: Together)
        ensures changed { (k : _) → is_changed self.new k ≡ false }
        ensures faulty { self.new.faulty ≡ faulty }
        ensures anew { self.new.anew ≡ anew }
    {
        self.is_each = false;
        // A new set, since to clear one takes the time of its room.
        self.keys = IndexSet::new(alloc);
        self.faulty = faulty;
        self.anew = anew;
    }
}

/// Adds some keys to others.
fn add_keys(set: &mut IndexSet<DeclKey>, keys: &[DeclKey]) -> Result<(), AllocError>
    ensures ok { OnOk result ((k : _) → contains same_key set.new k ≡ (contains same_key set.old k || is_among keys.now k)) }
    ensures still { (k : _) → contains same_key set.old k ≡ true → contains same_key set.new k ≡ true }
{
    for key in keys {
        set.insert(*key)?;
    }
    Ok(())
}

/// Whether the declaration of a key is there.
fn is_present(decls: &Decls, key: &DeclKey) -> bool
    ensures { result ≡ is_present decls.now key.now }
{
    decls.position(key.kind, &key.name).is_some()
}

/// Has no effect at run time. The proof reads here that the names of some keys are names by the grammar.
fn read_names(keys: &[DeclKey])
    ensures { (k : _) → is_among keys.now k ≡ true → is_name k.name ≡ true }
{
    for key in keys {
        let _ = key.name.as_bytes();
    }
}
