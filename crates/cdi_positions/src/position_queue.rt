//! Positions that wait to be taken.
ghost use Rattle.std.specs.Prelude.{◌≡◌, ◌<◌, ℕ, length, true, false, IfSome, IfNone, slice_set};
ghost use Rattle.cdi_positions.specs.Marks.{limit, is_marked, marked_count};

use crate::position_set::WORDS;
use std::marker::Model;

/// Which positions below the limit wait to be taken: a bit for each. No call of it takes memory.
#[derive(Drop)]
pub struct PositionQueue {
    words: [u64; WORDS],
    /// No word before this one has a bit that is set.
    first: usize,
    /// No word from this one on has a bit that is set.
    end: usize,
}

impl Model for PositionQueue {
    ghost use Rattle.std.specs.Prelude.{List, Bool};
    ghost use Rattle.cdi_positions.specs.Words.{marks_of, BeginsAt, EndsAt};

    ghost Value = { List Bool };

    ghost view = { λ q. marks_of q.words };

    ghost invariant = { λ q. BeginsAt q.first q.words × EndsAt q.end q.words };
}

impl PositionQueue {
    /// None waits.
    pub fn new() -> PositionQueue
        ensures none { (position : ℕ) → is_marked result position ≡ false }
        ensures size { length result ≡ limit }
    {
        PositionQueue {
            words: [0; WORDS],
            first: 0,
            end: 0,
        }
    }

    /// Puts a position into it.
    pub fn put(&mut self, position: usize)
        requires { position < limit }
        ensures { self.new ≡ slice_set self.old position true }
    {
        let index = position / 64;
        let word = self.words[index];
        self.words[index] = word | (1u64 << (position % 64));
        self.first = self.first.min(index);
        self.end = self.end.max(index + 1);
    }

    /// Takes one of them out, if there is one.
    pub fn take(&mut self) -> Option<usize>
        ensures was { IfSome result (λ position. is_marked self.old position ≡ true) }
        ensures taken { IfSome result (λ position. self.new ≡ slice_set self.old position false) }
        ensures none { IfNone result (marked_count self.old ≡ 0) }
        ensures same { IfNone result (self.new ≡ self.old) }
    {
        'filled: while self.words[self.first] == 0 {
            if self.first + 1 >= self.end {
                return None;
            }
            self.first += 1;
        }
        let word = self.words[self.first];
        self.words[self.first] = word & (word - 1);
        Some(self.first * 64 + word.trailing_zeros() as usize)
    }
}
