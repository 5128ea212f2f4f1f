//! Answers by a name and a further part.
ghost use Rattle.std.specs.Prelude.{◌≡◌, ◌<◌, ◌≤◌, ◌^◌, [], length, not, slice_get, OnOk, OnErr, IfOk, IfSome, IsSome};
ghost use Rattle.std.specs.Map.{keys_of};
ghost use Rattle.std.specs.Option.{option_copied};
ghost use Rattle.cdi_memo.specs.Answers.{answer, answers_in, how_many, is_kept, parts_under, Keeps, Removes};
ghost use Rattle.cdi_memo.specs.Laws.{AreOnce, CountsAnswered, NamesHaveParts, PartsAreKept, PartsDiffer};

use cdi_model::Name;
use indexmap::IndexMap;
use std::alloc::{AllocError, Global};
use std::hash::Hash;
use std::marker::Model;

/// Answers, each kept by a name and a further part, in no order.
#[derive(Drop)]
pub struct Memo<Q: Eq + Hash, A> {
    /// No name stands here with no part.
    answers: IndexMap<Name, IndexMap<Q, A>>,
    count: usize,
}

impl<Q: Eq + Hash, A> Model for Memo<Q, A> {
    ghost use Rattle.std.specs.Prelude.{◌≡◌};
    ghost use Rattle.std.specs.Coded.{coded_list, coded×, coded_ℕ};
    ghost use Rattle.cdi_memo.specs.Answers.{answers_in, how_many, Answers};
    ghost use Rattle.cdi_memo.specs.Laws.{AreOnce, NamesHaveParts};

    ghost Value = { Answers Q A };

    ghost coded = { coded_list (coded× (coded_list coded_ℕ) (coded_list (coded× Q.code A.code))) };

    ghost view = { λ m. answers_in m.answers.entries };

    ghost invariant = { λ m. (m.count ≡ how_many (answers_in m.answers.entries)) × AreOnce Q.eq (answers_in m.answers.entries)
        × NamesHaveParts (answers_in m.answers.entries) };
}

impl<Q: Eq + Hash, A> Memo<Q, A> {
    /// None is kept. It takes no memory yet.
    pub fn new(alloc: Global) -> Memo<Q, A>
        ensures { result ≡ [] }
    {
        Memo {
            answers: IndexMap::new(alloc),
            count: 0,
        }
    }

    /// How many answers are kept. Its clause `answered` tells it by the questions that a caller knows. No more names are kept
    /// than answers.
    pub fn count(&self) -> usize
        ensures value { result ≡ how_many self.now }
        ensures answered { CountsAnswered Q.eq self.now }
        ensures names { length self.now ≤ result }
    {
        self.count
    }

    /// The answer by a name and a part, where it is kept. It takes no memory.
    pub fn get(&self, name: &Name, part: &Q) -> Option<&A>
        ensures { option_copied result ≡ answer Q.eq self.now name.now part.now }
    {
        match self.answers.get(name) {
            Some(parts) => parts.get(part),
            None => None,
        }
    }

    /// The part at an index, counted from 0, among the parts of a name of which an answer is kept. These stand in no order, which
    /// `keep` and `remove` may change. It takes no memory.
    pub fn part_at(&self, name: &Name, index: usize) -> Option<&Q>
        ensures part { option_copied result ≡ slice_get (parts_under self.now name.now) index }
        ensures answered { IfSome result (λ part. IsSome (answer Q.eq self.now name.now part.now)) }
        ensures small { length (parts_under self.now name.now) < 2 ^ 63 }
        ensures kept { PartsAreKept Q.eq self.now }
        ensures differ { PartsDiffer Q.eq self.now }
    {
        let parts = self.answers.get(name)?;
        if index < parts.len() {
            let (part, _) = parts.get_index(index)?;
            Some(part)
        } else {
            None
        }
    }

    /// The name at an index, counted from 0, among those of which an answer is kept. These stand in no order, which `keep`
    /// and `remove` may change. It takes no memory.
    pub fn name_at(&self, index: usize) -> Option<&Name>
        ensures name { option_copied result ≡ slice_get (keys_of self.now) index }
        ensures small { length (keys_of self.now) < 2 ^ 63 }
    {
        if index < self.answers.len() {
            let (name, _) = self.answers.get_index(index)?;
            Some(name)
        } else {
            None
        }
    }

    /// Keeps an answer by a name and a part, in the place of the one that was kept. Without memory nothing changes.
    pub fn keep(&mut self, name: Name, part: Q, answer: A) -> Result<(), AllocError>
    where
        Q: Drop,
        A: Drop,
        ensures ok { OnOk result (Keeps Q.eq name part answer self.old self.new) }
        ensures err { OnErr result (self.new ≡ self.old) }
    {
        if self.count == usize::MAX {
            return Err(AllocError);
        }
        if keep_in(&mut self.answers, name, part, answer)? {
            self.count += 1;
        }
        Ok(())
    }

    /// Keeps the answer by a name and a part no more. All others stay. It takes no memory.
    pub fn remove(&mut self, name: &Name, part: &Q)
    where
        Q: Drop,
        A: Drop,
        ensures { Removes Q.eq name.now part.now self.old self.new }
    {
        if remove_in(&mut self.answers, name, part) {
            self.count -= 1;
        }
    }
}

/// Keeps an answer, and answers whether it is one more.
fn keep_in<Q: Eq + Hash + Drop, A: Drop>(
    answers: &mut IndexMap<Name, IndexMap<Q, A>>,
    name: Name,
    part: Q,
    answer: A,
) -> Result<bool, AllocError>
    ensures ok { OnOk result (Keeps Q.eq name part answer (answers_in answers.old.entries) (answers_in answers.new.entries)) }
    ensures more { IfOk result (λ more. more ≡ not (is_kept Q.eq (answers_in answers.old.entries) (name, part))) }
    ensures err { OnErr result (answers_in answers.new.entries ≡ answers_in answers.old.entries) }
    ensures once { AreOnce Q.eq (answers_in answers.old.entries) → AreOnce Q.eq (answers_in answers.new.entries) }
    ensures named { NamesHaveParts (answers_in answers.old.entries) → NamesHaveParts (answers_in answers.new.entries) }
{
    if let Some(parts) = answers.get_mut(&name) {
        let old = parts.insert(part, answer)?;
        return Ok(old.is_none());
    }
    let mut parts = IndexMap::new(*answers.allocator());
    parts.insert(part, answer)?;
    answers.insert(name, parts)?;
    Ok(true)
}

/// Removes an answer, and answers whether it was kept.
fn remove_in<Q: Eq + Hash + Drop, A: Drop>(
    answers: &mut IndexMap<Name, IndexMap<Q, A>>,
    name: &Name,
    part: &Q,
) -> bool
    ensures removed { Removes Q.eq name.now part.now (answers_in answers.old.entries) (answers_in answers.new.entries) }
    ensures was { result ≡ is_kept Q.eq (answers_in answers.old.entries) (name.now, part.now) }
    ensures once { AreOnce Q.eq (answers_in answers.old.entries) → AreOnce Q.eq (answers_in answers.new.entries) }
    ensures named { NamesHaveParts (answers_in answers.old.entries) → NamesHaveParts (answers_in answers.new.entries) }
{
    let Some(parts) = answers.get_mut(name) else {
        return false;
    };
    let was_kept = parts.swap_remove(part).is_some();
    if parts.is_empty() {
        answers.swap_remove(name);
    }
    was_kept
}
