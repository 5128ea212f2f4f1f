//! What differs between two tables of texts.
ghost use Rattle.std.specs.Prelude.{◌≡◌, IfOk, map, option_map};
ghost use Rattle.cdi_differences.specs.Differences.{compared, differing, shown, text_at};
ghost use Rattle.cdi_differences.specs.Laws.{TellsWhatDiffers};

use indexmap::IndexMap;
use std::alloc::{AllocError, Global};

/// A key whose text is not the same in both tables.
#[derive(Clone, Copy, Debug, PartialEq, Eq)]
pub struct Difference<'a> {
    pub key: &'a str,
    /// Its text before, if it had one.
    pub before: Option<&'a str>,
    /// Its text after, if it has one.
    pub after: Option<&'a str>,
}

/// The keys whose texts differ: first those of the table before, and then those of the table after alone, each in the order of
/// its table. It takes memory for the list.
pub fn differences<'a>(
    alloc: Global,
    before: &'a IndexMap<String, String>,
    after: &'a IndexMap<String, String>,
) -> Result<Vec<Difference<'a>>, AllocError>
    ensures list { IfOk result (λ list. map shown list.items ≡ differing before.now after.now) }
    ensures told { IfOk result (λ list. TellsWhatDiffers before.now after.now (map shown list.items)) }
{
    list_of(alloc, before, after)
}

/// The list of the differences.
fn list_of<'a>(
    alloc: Global,
    before: &'a IndexMap<String, String>,
    after: &'a IndexMap<String, String>,
) -> Result<Vec<Difference<'a>>, AllocError>
    ensures { IfOk result (λ list. map shown list.items ≡ differing before.now after.now) }
{
    let mut list = Vec::new(alloc);
    for key in before.keys() {
        let difference = compared(key.as_str(), before, after);
        if difference.before != difference.after {
            list.push(difference)?;
        }
    }
    for key in after.keys() {
        let difference = compared(key.as_str(), before, after);
        if difference.before.is_none() {
            list.push(difference)?;
        }
    }
    Ok(list)
}

/// A key with its texts in both tables.
fn compared<'a>(
    key: &'a str,
    before: &'a IndexMap<String, String>,
    after: &'a IndexMap<String, String>,
) -> Difference<'a>
    ensures { shown result ≡ compared before.now after.now key.now }
{
    Difference {
        key,
        before: text_at(before, key),
        after: text_at(after, key),
    }
}

/// The text of a key.
fn text_at<'a>(table: &'a IndexMap<String, String>, key: &str) -> Option<&'a str>
    ensures { option_map (λ s. s.now) result ≡ text_at table.now key.now }
{
    match table.get(key) {
        Some(text) => Some(text.as_str()),
        None => None,
    }
}
