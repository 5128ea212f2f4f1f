//! The declarations as they are after the next commit.
ghost use Rattle.std.specs.Prelude.{◌≡◌, false, filter, flat_map, map, option_map, slice_get, IfOk};
ghost use Rattle.std.specs.Option.{option_copied, option_map_or};
ghost use Rattle.cdi_model.specs.DeclList.{AreDistinct};
ghost use Rattle.cdi_match.specs.Chain.{has};
ghost use Rattle.cdi_effective.specs.Beans.{beans, entries};
ghost use Rattle.cdi_effective.specs.Records.{records_in};
ghost use Rattle.cdi_index.specs.Asked.{is_asked};
ghost use Rattle.cdi_index.specs.Next.{IsAfter};
ghost use Rattle.cdi_index.specs.Replaced.{keys_turned};
ghost use Rattle.cdi_index.specs.Slots.{entry_kept, kept_of_one, unless_among};
ghost use Rattle.cdi_index.specs.Under.{bindings_in, has_one, is_observed, observes_one};

use crate::asked::{Asked, is_asked_at};
use crate::change::Change;
use crate::index::{first_bindings, own_records};
use crate::prepare::Next;
use crate::replaced::{made_after, records_turned};
use crate::shelf::{Entry, Shelf, Slots};
use crate::under::{Sought, decls_under, observed_among, sought_under, words_observed};
use cdi_effective::Effective;
use cdi_model::{Decl, DeclKey, Decls, Kind, Name, Qual, Seq};
use cdi_postings::{Postings, Reason, Word};
use indexmap::IndexSet;
use std::alloc::{AllocError, Global};
use std::marker::Model;

/// What is kept of declarations by slots after the next commit.
#[derive(Clone, Copy)]
struct NextSlots<'a> {
    shelf: &'a Shelf,
    next: &'a Next,
    ghost turned: { keys_turned next.now.turns.list.items ≡ next.now.turns.beans.keys },
}

impl Slots for NextSlots<'_> {
    ghost use Rattle.cdi_index.specs.Slots.{kept_next};
    ghost use Rattle.cdi_index.specs.Replaced.{replaced_next};

    ghost kept = { λ n. kept_next n.shelf.now n.next.now };

    ghost replaced = { λ n. replaced_next n.shelf.now n.next.now };

    fn at(&self, slot: u64) -> Option<Entry<'_>> {
        if slot < self.next.first {
            return kept_still(self.shelf.at(slot), &self.next.affected);
        }
        kept_anew(
            self.next
                .changes
                .as_slice()
                .get((slot - self.next.first) as usize),
        )
    }

    fn records_replaced(&self, key: &DeclKey) -> Option<&Seq<Effective>> {
        records_turned(self.shelf, &self.next.turns, key)
    }
}

/// What is kept of a declaration, where it is not affected.
fn kept_still<'a>(entry: Option<Entry<'a>>, affected: &IndexSet<DeclKey>) -> Option<Entry<'a>>
    ensures { option_map entry_kept result ≡ unless_among affected.now.keys (option_map entry_kept entry.entry) }
{
    let entry = entry?;
    if affected.contains(entry.key) {
        return None;
    }
    Some(entry)
}

/// What is kept of a change.
fn kept_anew(change: Option<&Change>) -> Option<Entry<'_>>
    ensures { option_map entry_kept result ≡ kept_of_one (option_copied change.entry) }
{
    let change = change?;
    let made = change.made.as_ref()?;
    Some(Entry {
        key: &change.key,
        number: change.number,
        made,
    })
}

/// The declarations after the draft that an index has staged.
#[derive(Drop)]
pub struct NextIndex<'a> {
    alloc: Global,
    slots: NextSlots<'a>,
    postings: &'a Postings,
}

impl<'a> Model for NextIndex<'a> {
    ghost use Rattle.std.specs.Prelude.{List};
    ghost use Rattle.cdi_model.specs.declared.decl.Decl.{Decl};
    ghost use Rattle.cdi_index.specs.Next.{IsAfter};
    ghost use Rattle.cdi_index.specs.Replaced.{keys_turned};

    ghost Value = { List Decl };

    ghost view = { λ n. n.slots.next.now.decls };

    ghost invariant = { λ n. IsAfter n.slots.shelf.now n.postings.now n.slots.next.now };
}

impl<'a> NextIndex<'a> {
    pub(crate) fn new(
        alloc: Global,
        shelf: &'a Shelf,
        postings: &'a Postings,
        next: &'a Next,
    ) -> NextIndex<'a>
        requires { IsAfter shelf.now postings.now next.now }
        ensures { result ≡ next.now.decls }
    {
        NextIndex {
            alloc,
            slots: NextSlots { shelf, next },
            postings,
        }
    }

    /// The declarations. It takes no memory.
    pub fn decls(&self) -> &'a Decls
        ensures value { result.now ≡ self.now }
        ensures distinct { AreDistinct self.now }
    {
        &self.slots.next.decls
    }

    /// The records of the bean declaration of a class: its managed bean, and after it its products in order. None where
    /// no such bean is declared. It takes no memory.
    pub fn records(&self, class: &Name) -> &'a [Effective]
        ensures { result.now ≡ records_in self.now class.now }
    {
        let key = DeclKey {
            kind: Kind::Bean,
            name: *class,
        };
        let next = self.slots.next;
        match records_turned(self.slots.shelf, &next.turns, &key) {
            Some(records) => records.as_slice(),
            None => own_records(made_after(
                self.slots.shelf,
                &next.affected,
                next.changes.as_slice(),
                &key,
            )),
        }
    }

    /// The bindings of the class of a bean: none where no such bean is declared. It takes no memory.
    #[tactic(auto, using(crate::proofs::UnderLemmas::records_bound))]
    pub fn class_bindings(&self, class: &Name) -> &'a [Qual]
        ensures { result.now ≡ bindings_in self.now class.now }
    {
        first_bindings(self.records(class))
    }

    /// Whether a declaration asks for it. It takes no memory, and looks at declarations that ask for the type alone.
    pub fn is_asked(&self, asked: Asked<'_>) -> bool
        ensures { result ≡ is_asked self.now asked.entry.question asked.entry.name.now asked.entry.uses.now }
    {
        let slots = self.postings.under(asked.word());
        is_asked_at(
            self.alloc,
            &self.slots.next.decls,
            &self.slots,
            slots,
            asked,
        )
    }

    /// The declarations that have one of some words, in order. It takes memory for lists of them, and looks at these alone.
    pub fn decls_under(&self, alloc: Global, words: &[Word]) -> Result<Vec<&'a Decl>, AllocError>
        ensures { IfOk result (λ list. map (λ d. d.now) list.items ≡ filter (has_one self.now words.now) self.now) }
    {
        let decls = &self.slots.next.decls;
        decls_under(alloc, decls, &self.slots, self.postings, words)
    }

    /// The beans that have a type, enabled or not, in order. It takes memory for a list of them, and looks at the beans of
    /// their declarations alone.
    pub fn beans_of_type(
        &self,
        alloc: Global,
        bean_type: &Name,
    ) -> Result<Vec<&Effective>, AllocError>
        ensures { IfOk result (λ list. map (λ bean. bean.now) list.items ≡ filter (λ bean. has bean.types bean_type.now) (beans self.now)) }
    {
        let word = Word {
            reason: Reason::HasType,
            name: *bean_type,
        };
        sought_under(
            alloc,
            &self.slots,
            self.postings,
            &[word],
            Sought::OfType(bean_type),
        )
    }

    /// The beans of the declarations of which an observer method observes one of some types, in order. It takes memory for
    /// lists of the types and of the beans.
    pub fn beans_observing(
        &self,
        alloc: Global,
        types: &[Name],
    ) -> Result<Vec<&Effective>, AllocError>
        ensures { IfOk result (λ list. map (λ bean. bean.now) list.items
            ≡ flat_map (entries self.now) (filter (observes_one types.now) self.now)) }
    {
        let words = words_observed(alloc, types)?;
        sought_under(alloc, &self.slots, self.postings, &words, Sought::Each)
    }

    /// Those of some types that an observer method observes, in order. It takes memory for a list of them.
    pub fn observed_among(&self, alloc: Global, types: &[Name]) -> Result<Vec<Name>, AllocError>
        ensures { IfOk result (λ list. list.items ≡ filter (is_observed self.now) types.now) }
    {
        observed_among(alloc, &self.slots, self.postings, types)
    }
}
