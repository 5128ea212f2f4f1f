//! Names with counts of their characters.
ghost use Rattle.std.specs.Prelude.{◌≡◌, ◌≤◌, count_by, drop, length, true, IfOk};
ghost use Rattle.std.specs.Str.{chars};
ghost use Rattle.cdi_model.specs.BeanName.{last_identifier};
ghost use Rattle.cdi_explain.specs.Counts.{AreApart, AreCounted, is_of_class};

use cdi_model::Name;
use std::alloc::{AllocError, Global};

/// A character is of the class of its number's remainder by this.
const CLASSES: u32 = 16;

/// A name, with how many of its characters are of each class: names whose counts differ are not near.
#[derive(Drop)]
pub(crate) struct Known {
    pub(crate) name: Name,
    pub(crate) counts: Vec<usize>,
    /// Where its last identifier begins.
    last_begin: usize,
    ghost counted: { AreCounted name counts.items },
    ghost bound: { last_begin ≤ length name },
    ghost last: { drop last_begin name ≡ last_identifier name },
}

impl Known {
    pub(crate) fn of(alloc: Global, name: Name) -> Result<Known, AllocError>
        ensures { IfOk result (λ known. known.name ≡ name) }
    {
        let mut counts = Vec::new(alloc);
        for class in 0..CLASSES {
            counts.push(count_of(&name, class))?;
        }
        Ok(Known {
            name,
            counts,
            last_begin: last_begin(name.as_bytes()),
        })
    }

    /// What follows the last dot, or all of a name without one.
    pub(crate) fn last_identifier(&self) -> &[u8]
        ensures { result.now ≡ last_identifier self.now.name }
    {
        &self.name.as_bytes()[self.last_begin..]
    }
}

/// Where what follows the last dot begins, or a name without one.
fn last_begin(name: &[u8]) -> usize
    ensures bound { result ≤ length name.now }
    ensures value { drop result name.now ≡ last_identifier name.now }
{
    let mut begin = 0;
    for (index, byte) in name.iter().enumerate() {
        if *byte == b'.' {
            begin = index + 1;
        }
    }
    begin
}

/// How many characters of a name are of a class.
fn count_of(name: &Name, class: u32) -> usize
    ensures { result ≡ count_by (is_of_class class) (chars name.now) }
{
    name.as_str()
        .chars()
        .filter(|char| *char as u32 % CLASSES == class)
        .count()
}

/// Whether some counts are so different that the names are not near.
pub(crate) fn are_apart(counts: &[usize], others: &[usize]) -> bool
    ensures { result ≡ true → AreApart counts.now others.now }
{
    for (count, other) in counts.iter().zip(others) {
        if count.abs_diff(*other) > 2 {
            return true;
        }
    }
    false
}
