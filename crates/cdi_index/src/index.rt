//! The declarations, with what is made of each.
ghost use Rattle.std.specs.Prelude.{◌≡◌, ◌&&◌, false, filter, flat_map, map, slice_get, option_map, Some, None, IfOk, IfSome, OnOk, OnErr};
ghost use Rattle.std.specs.Option.{option_copied, option_map_or};
ghost use Rattle.cdi_match.specs.Chain.{has};
ghost use Rattle.cdi_effective.specs.Beans.{beans, entries};
ghost use Rattle.cdi_effective.specs.Records.{records_in};
ghost use Rattle.cdi_model.specs.DeclList.{AreDistinct};
ghost use Rattle.cdi_model.specs.Edits.{is_among};
ghost use Rattle.cdi_index.specs.Made.{made_of, reads, serves_as_alternative, types_declared};
ghost use Rattle.cdi_index.specs.Replaced.{lent};
ghost use Rattle.cdi_index.specs.State.{committed, drafted_from, empty, staged_by, with_staged, IsEdited};
ghost use Rattle.cdi_index.specs.Asked.{is_asked};
ghost use Rattle.cdi_index.specs.Candidates.{AreFirst};
ghost use Rattle.cdi_index.specs.Told.{Tells};
ghost use Rattle.cdi_index.specs.Under.{beans_under, bindings_in, first_bindings, has_name, has_one, is_observed, is_sought, observes_one};

use crate::affected::{copy_keys, readers_of};
use crate::asked::{Asked, is_asked_at};
use crate::counts::Counts;
use crate::draft::Draft;
use crate::install::install;
use crate::making::{Given, Made};
use crate::next_index::NextIndex;
use crate::prepare::{Next, prepare};
use crate::replaced::install_turns;
use crate::shelf::Shelf;
use crate::under::{
    Sought, decls_under, observed_among, only_slot, sought_at_slot, sought_under, words_observed,
};
use cdi_effective::Effective;
use cdi_model::{Decl, DeclKey, Decls, Kind, Name, Qual};
use cdi_postings::{Postings, Reason, Word};
use std::alloc::{AllocError, Global};
use std::marker::Model;

/// The beans of a type among which a choice is made first, in order.
#[derive(Drop)]
pub enum Candidates<'a> {
    /// All of them.
    All(Vec<&'a Effective>),
    /// The enabled alternatives, and the enabled products of alternatives.
    Alternatives(Vec<&'a Effective>),
}

/// The declarations, with what is made of each, and at most one draft that is staged.
pub struct Index {
    alloc: Global,
    decls: Decls,
    shelf: Shelf,
    postings: Postings,
    counts: Counts,
    next: Option<Next>,
}

impl Drop for Index {
    fn drop(self) {
        let Index {
            alloc: _,
            decls: _,
            shelf: _,
            postings: _,
            counts: _,
            next: _,
        } = self;
    }
}

impl Model for Index {
    ghost use Rattle.cdi_index.specs.State.{seen, IsIndex, State};

    ghost Value = { State };

    ghost view = { λ i. seen i.decls i.counts i.next };

    ghost invariant = { λ i. IsIndex i.decls i.shelf i.postings i.next };
}

impl Index {
    /// No declaration, and nothing staged. It takes no memory yet.
    pub fn new(alloc: Global) -> Index
        ensures { result ≡ empty }
    {
        Index {
            alloc,
            decls: Decls::new(alloc),
            shelf: Shelf::new(alloc),
            postings: Postings::new(alloc),
            counts: Counts {
                closures: 0,
                beans: 0,
            },
            next: None,
        }
    }

    /// The declarations. It takes no memory.
    pub fn decls(&self) -> &Decls
        ensures value { result.now ≡ self.now.decls }
        ensures distinct { AreDistinct self.now.decls }
    {
        &self.decls
    }

    /// How many records were computed. It takes no memory.
    pub fn counts(&self) -> Counts
        ensures { result ≡ self.now.counts }
    {
        self.counts
    }

    /// The types of a declared type, each once, in byte order (CDI 4.0, Bean types). None where it is not declared. It takes
    /// no memory.
    pub fn types(&self, name: &Name) -> Option<&[Name]>
        ensures { option_copied result ≡ types_declared self.now.decls name.now }
    {
        let key = DeclKey {
            kind: Kind::Type,
            name: *name,
        };
        match self.shelf.find(&key) {
            Some(
                Made {
                    given: Given::Types(types),
                    ..
                },
            ) => Some(types.as_slice()),
            _ => None,
        }
    }

    /// The records of the bean declaration of a class: its managed bean, and after it its products in order. None where
    /// no such bean is declared. It takes no memory.
    pub fn records(&self, class: &Name) -> &[Effective]
        ensures { result.now ≡ records_in self.now.decls class.now }
    {
        let key = DeclKey {
            kind: Kind::Bean,
            name: *class,
        };
        match self.shelf.replaced.get(&key) {
            Some(records) => records.as_slice(),
            None => own_records(self.shelf.find(&key)),
        }
    }

    /// The bindings of the class of a bean (Interceptors 2.1, Binding an Interceptor to a Class): none where no such bean is
    /// declared. It takes no memory.
    #[tactic(auto, using(crate::proofs::UnderLemmas::records_bound))]
    pub fn class_bindings(&self, class: &Name) -> &[Qual]
        ensures { result.now ≡ bindings_in self.now.decls class.now }
    {
        first_bindings(self.records(class))
    }

    /// The declarations that have one of some words, in order. It takes memory for lists of them, and looks at these alone.
    pub fn decls_under(&self, alloc: Global, words: &[Word]) -> Result<Vec<&Decl>, AllocError>
        ensures { IfOk result (λ list. map (λ d. d.now) list.items ≡ filter (has_one self.now.decls words.now) self.now.decls) }
    {
        decls_under(alloc, &self.decls, &self.shelf, &self.postings, words)
    }

    /// Whether a declaration asks for it. It takes no memory, and looks at declarations that ask for the type alone.
    pub fn is_asked(&self, asked: Asked<'_>) -> bool
        ensures { result ≡ is_asked self.now.decls asked.entry.question asked.entry.name.now asked.entry.uses.now }
    {
        let slots = self.postings.under(asked.word());
        is_asked_at(self.alloc, &self.decls, &self.shelf, slots, asked)
    }

    /// The declarations of types, bindings, beans and interceptors of which what is made read the declaration of a key, or
    /// would if there were one: a type its types, a binding type those that it brings, an interceptor the types of its
    /// bindings, a bean what its records rest on. Each once, in no order. It takes memory for a list of them, and looks at
    /// them alone.
    pub fn readers(&self, alloc: Global, key: &DeclKey) -> Result<Vec<DeclKey>, AllocError>
        ensures value { IfOk result (λ list. (k : _) → is_among list.items k ≡ reads (made_of self.now.decls k) key.now) }
        ensures distinct { AreDistinct self.now.decls }
    {
        readers_of(alloc, &self.shelf, &self.postings, key)
    }

    /// Those of the beans of the only declaration that is listed under some words which are sought, in order. None where no
    /// declaration or several are listed.
    fn sought_in_one(
        &self,
        alloc: Global,
        words: &[Word],
        sought: Sought<'_>,
    ) -> Result<Option<Vec<&Effective>>, AllocError>
        ensures { IfOk result (λ found. IfSome found (λ list. map (λ bean. bean.now) list.items
            ≡ filter (is_sought sought.entry) (beans_under self.now.decls words.now))) }
    {
        let Some((word, slot)) = only_slot(&self.postings, words) else {
            return Ok(None);
        };
        let list = sought_at_slot(alloc, &self.shelf, sought, &word, slot)?;
        Ok(Some(list))
    }

    /// Those of the beans of the declarations that have one of some words which are sought, in order.
    fn sought_under(
        &self,
        alloc: Global,
        words: &[Word],
        sought: Sought<'_>,
    ) -> Result<Vec<&Effective>, AllocError>
        ensures { IfOk result (λ list. map (λ bean. bean.now) list.items
            ≡ filter (is_sought sought.entry) (beans_under self.now.decls words.now)) }
    {
        if let Some(list) = self.sought_in_one(alloc, words, sought)? {
            return Ok(list);
        }
        sought_under(alloc, &self.shelf, &self.postings, words, sought)
    }

    /// The beans that have a type, enabled or not, in order. It takes memory for a list of them, and looks at the beans of
    /// their declarations alone.
    pub fn beans_of_type(
        &self,
        alloc: Global,
        bean_type: &Name,
    ) -> Result<Vec<&Effective>, AllocError>
        ensures { IfOk result (λ list. map (λ bean. bean.now) list.items
            ≡ filter (λ bean. has bean.types bean_type.now) (beans self.now.decls)) }
    {
        let word = Word {
            reason: Reason::HasType,
            name: *bean_type,
        };
        self.sought_under(alloc, &[word], Sought::OfType(bean_type))
    }

    /// The beans of a type among which a choice is made first. It takes memory and time as `beans_of_type` does, and looks at
    /// the alternatives alone where several declarations have beans of the type.
    pub fn first_candidates(
        &self,
        alloc: Global,
        bean_type: &Name,
    ) -> Result<Candidates<'_>, AllocError>
        ensures { IfOk result (AreFirst self.now.decls bean_type.now) }
    {
        let word = Word {
            reason: Reason::HasType,
            name: *bean_type,
        };
        match self.sought_in_one(alloc, &[word], Sought::OfType(bean_type))? {
            Some(beans) => Ok(Candidates::All(beans)),
            None => Ok(Candidates::Alternatives(self.alternatives_of_type(alloc, bean_type)?)),
        }
    }

    /// The enabled alternatives that have a type, and the enabled products of alternatives that do, in order.
    fn alternatives_of_type(
        &self,
        alloc: Global,
        bean_type: &Name,
    ) -> Result<Vec<&Effective>, AllocError>
        ensures { IfOk result (λ list. map (λ bean. bean.now) list.items
            ≡ filter (λ bean. serves_as_alternative bean && has bean.types bean_type.now) (beans self.now.decls)) }
    {
        let word = Word {
            reason: Reason::HasTypeAsAlternative,
            name: *bean_type,
        };
        self.sought_under(alloc, &[word], Sought::AlternativesOf(bean_type))
    }

    /// The beans that have a name, enabled or not, in order. It takes memory and time as `beans_of_type` does.
    pub fn beans_of_name(&self, alloc: Global, name: &Name) -> Result<Vec<&Effective>, AllocError>
        ensures { IfOk result (λ list. map (λ bean. bean.now) list.items ≡ filter (has_name name.now) (beans self.now.decls)) }
    {
        let word = Word {
            reason: Reason::HasName,
            name: *name,
        };
        self.sought_under(alloc, &[word], Sought::OfName(name))
    }

    /// The beans of the declarations of which an observer method observes one of some types, in order. It takes memory for
    /// lists of the types and of the beans.
    pub fn beans_observing(
        &self,
        alloc: Global,
        types: &[Name],
    ) -> Result<Vec<&Effective>, AllocError>
        ensures { IfOk result (λ list. map (λ bean. bean.now) list.items
            ≡ flat_map (entries self.now.decls) (filter (observes_one types.now) self.now.decls)) }
    {
        let words = words_observed(alloc, types)?;
        self.sought_under(alloc, words.as_slice(), Sought::Each)
    }

    /// Those of some types that an observer method observes, in order. It takes memory for a list of them, and looks at the
    /// declarations that are listed for each until one does.
    pub fn observed_among(&self, alloc: Global, types: &[Name]) -> Result<Vec<Name>, AllocError>
        ensures { IfOk result (λ list. list.items ≡ filter (is_observed self.now.decls) types.now) }
    {
        observed_among(alloc, &self.shelf, &self.postings, types)
    }

    /// A draft without an edit. It takes memory as `Decls::copy` does.
    pub fn draft(&self) -> Result<Draft, AllocError>
        ensures { IfOk result (λ draft. draft ≡ drafted_from self.now.decls) }
    {
        Draft::of(self.alloc, &self.decls)
    }

    /// Stages a draft of these declarations, and answers which declarations it affects: those that it edits, and each whose
    /// records are computed anew, or that another bean replaces before or after and not both. Others may be among them.
    /// Nothing is seen of the draft until `commit`. It takes memory for all that is computed. Without memory nothing is
    /// staged.
    pub fn stage(&mut self, draft: Draft) -> Result<Vec<DeclKey>, AllocError>
        requires { IsEdited self.old.decls draft }
        ensures told { IfOk result (λ told. Tells self.old.decls draft.decls draft.keys told.items) }
        ensures ok { OnOk result (self.new ≡ with_staged self.old (Some (staged_by self.old draft))) }
        ensures err { OnErr result (self.new ≡ with_staged self.old None) }
    {
        self.next = None;
        let next = prepare(
            self.alloc,
            &self.decls,
            &mut self.shelf,
            &mut self.postings,
            self.counts,
            draft,
        )?;
        let told = copy_keys(self.alloc, next.turns.beans.as_slice())?;
        self.next = Some(next);
        Ok(told)
    }

    /// The declarations after the draft that is staged, if one is. It takes no memory.
    pub fn next(&self) -> Option<NextIndex<'_>>
        ensures value { result ≡ option_map (λ staged. staged.decls) self.now.staged }
        ensures distinct { AreDistinct self.now.decls }
        ensures apart { IfSome result AreDistinct }
    {
        match &self.next {
            Some(next) => Some(NextIndex::new(self.alloc, &self.shelf, &self.postings, next)),
            None => None,
        }
    }

    /// Takes over what is staged, if anything is. It takes no memory.
    pub fn commit(&mut self)
        ensures { self.new ≡ committed self.old }
    {
        if let Some(next) = self.next.take() {
            self.shelf.given = next.first + next.changes.len() as u64;
            self.shelf.numbered = next.numbered;
            install(
                &mut self.shelf,
                &mut self.postings,
                next.first,
                next.changes,
            );
            install_turns(&mut self.shelf.replaced, next.turns);
            self.decls = next.decls;
            self.counts = next.counts;
        }
    }
}

/// The bindings of the first of some records.
pub(crate) fn first_bindings(records: &[Effective]) -> &[Qual]
    ensures { result.now ≡ first_bindings records.now }
{
    match records.first() {
        Some(record) => record.bindings.as_slice(),
        None => &[],
    }
}

/// The records that a bean declaration has by itself.
pub(crate) fn own_records(made: Option<&Made>) -> &[Effective]
    ensures { result.now ≡ lent None (option_copied made.entry) }
{
    match made {
        Some(
            Made {
                given: Given::Records(records),
                ..
            },
        ) => records.as_slice(),
        _ => &[],
    }
}
