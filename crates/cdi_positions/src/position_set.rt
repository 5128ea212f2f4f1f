//! A set of positions.
ghost use Rattle.std.specs.Prelude.{◌≡◌, ◌+◌, ◌<◌, ◌≤◌, ◌==◌, ℕ, [], length, not, true, false, IfSome, IfNone, slice_set};
ghost use Rattle.cdi_positions.specs.Marks.{limit, is_marked, marked_count, marked_from, count_below, IsOutside};
ghost use Rattle.std.specs.Iterator.{YieldsFirst, item_count};
ghost use Rattle.cdi_positions.specs.Words.{marks_in, marks_of, word_count};

use std::marker::Model;

/// How many positions there are.
pub const POSITIONS_LIMIT: usize = 2048;

/// How many words have a bit for each position.
pub(crate) const WORDS: usize = 32;

/// Which positions below the limit are in it: a bit for each. No call of it takes memory. A question goes only
/// through the words in use.
#[derive(Drop)]
pub struct PositionSet {
    words: [u64; WORDS],
    /// No word from this one on has a bit that is set.
    used: usize,
}

impl Model for PositionSet {
    ghost use Rattle.std.specs.Prelude.{List, Bool};
    ghost use Rattle.cdi_positions.specs.Words.{marks_of, EndsAt};

    ghost Value = { List Bool };

    ghost view = { λ s. marks_of s.words };

    ghost invariant = { λ s. EndsAt s.used s.words };
}

impl PositionSet {
    /// No position is in it.
    pub fn new() -> PositionSet
        ensures none { (position : ℕ) → is_marked result position ≡ false }
        ensures size { length result ≡ limit }
        ensures limit { POSITIONS_LIMIT ≡ limit }
    {
        PositionSet {
            words: [0; WORDS],
            used: 0,
        }
    }

    /// An equal set.
    pub fn copy(&self) -> PositionSet
        ensures { result ≡ self.now }
    {
        PositionSet {
            words: self.words,
            used: self.used,
        }
    }

    /// Whether a position is in it.
    pub fn contains(&self, position: usize) -> bool
        ensures { result ≡ is_marked self.now position }
    {
        match self.words.get(position / 64) {
            Some(word) => (word >> (position % 64)) & 1 == 1,
            None => false,
        }
    }

    /// Puts a position into it. Whether it was not there.
    pub fn insert(&mut self, position: usize) -> bool
        requires { position < limit }
        ensures set { self.new ≡ slice_set self.old position true }
        ensures fresh { result ≡ not (is_marked self.old position) }
    {
        let index = position / 64;
        let word = self.words[index];
        let bit = 1u64 << (position % 64);
        self.words[index] = word | bit;
        self.used = self.used.max(index + 1);
        word & bit == 0
    }

    /// How many are in it.
    pub fn len(&self) -> usize
        ensures { result ≡ marked_count self.now }
    {
        count_in(&self.words[..self.used])
    }

    /// Whether none is in it.
    pub fn is_empty(&self) -> bool
        ensures { result ≡ (marked_count self.now == 0) }
    {
        self.len() == 0
    }

    /// How many positions below one are in it.
    pub fn count_below(&self, position: usize) -> usize
        requires { position ≤ limit }
        ensures { result ≡ count_below position self.now }
    {
        let index = position / 64;
        if self.used <= index {
            return self.len();
        }
        let below = (1u64 << (position % 64)) - 1;
        count_in(&self.words[..index]) + (self.words[index] & below).count_ones() as usize
    }

    /// The position that is not in it, and below which just this many are not.
    pub fn nth_outside(&self, n: usize) -> Option<usize>
        ensures found { IfSome result (λ position. IsOutside n self.now position) }
        ensures none { IfNone result (limit ≤ n + marked_count self.now) }
    {
        let mut left = n;
        for index in 0..self.used {
            let word = self.words[index];
            let outside = 64 - word.count_ones() as usize;
            if left < outside {
                return Some(index * 64 + nth_zero(word, left));
            }
            left -= outside;
        }
        if left < POSITIONS_LIMIT - self.used * 64 {
            return Some(self.used * 64 + left);
        }
        None
    }

    /// The positions in it, rising.
    pub fn iter(&self) -> Positions<'_>
        ensures { result ≡ marked_from 0 self.now }
    {
        Positions {
            words: &self.words,
            end: self.used,
            index: 0,
            word: self.words[0],
        }
    }
}

/// How many bits of some words are set.
fn count_in(words: &[u64]) -> usize
    requires { length words.now ≤ word_count }
    ensures { result ≡ marked_count (marks_of words.now) }
{
    let mut count = 0;
    for word in words {
        count += word.count_ones() as usize;
    }
    count
}

/// The bit of a word that is not set, and below which just this many are not.
fn nth_zero(word: u64, n: usize) -> usize
    requires { n + marked_count (marks_in word) < 64 }
    ensures { IsOutside n (marks_in word) result }
{
    let mut left = n;
    for bit in 0..63 {
        if (word >> bit) & 1 == 0 {
            if left == 0 {
                return bit;
            }
            left -= 1;
        }
    }
    63
}

/// What is left of the positions in a set, rising.
#[derive(Drop)]
pub struct Positions<'a> {
    words: &'a [u64; WORDS],
    /// No word from this one on has a bit that is set.
    end: usize,
    index: usize,
    /// What is left of the word at the index.
    word: u64,
}

impl<'a> Model for Positions<'a> {
    ghost use Rattle.std.specs.Prelude.{◌<◌, List, ℕ};
    ghost use Rattle.cdi_positions.specs.Words.{positions_left, word_count, EndsAt};

    ghost Value = { List ℕ };

    ghost view = { λ p. positions_left p.words.now p.index p.word };

    ghost invariant = { λ p. EndsAt p.end p.words.now × (p.index < word_count) };
}

impl<'a> Positions<'a> {
    /// Those of a set that has none.
    pub fn none() -> Positions<'a>
        ensures { result ≡ [] }
    {
        Positions {
            words: &[0; WORDS],
            end: 0,
            index: 0,
            word: 0,
        }
    }
}

impl<'a> Iterator for Positions<'a> {
    type Item = usize;

    ghost next_gives = { YieldsFirst (λ s. s) };

    ghost remaining = { item_count (λ s. s) };

    fn next(&mut self) -> Option<usize> {
        'filled: while self.word == 0 {
            if self.index + 1 >= self.end {
                return None;
            }
            self.index += 1;
            self.word = self.words[self.index];
        }
        let word = self.word;
        self.word = word & (word - 1);
        Some(self.index * 64 + word.trailing_zeros() as usize)
    }
}
