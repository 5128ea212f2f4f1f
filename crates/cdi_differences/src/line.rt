//! What is asked for, and what is answered, as texts.
ghost use Rattle.std.specs.Prelude.{◌≡◌, ◌++◌, None, OnOk, IfOk, is_none, map};
ghost use Rattle.cdi_differences.specs.Holds.{HoldsLines, shown_line};

use indexmap::IndexMap;
use std::alloc::{AllocError, Global};

/// What is asked for, and the answer.
#[derive(Debug, Drop)]
pub(crate) struct Line {
    pub(crate) key: String,
    pub(crate) text: String,
}

/// The lines as a table: the text of a key is that of its last line.
pub(crate) fn table_of(
    alloc: Global,
    lines: Vec<Line>,
) -> Result<IndexMap<String, String>, AllocError>
    ensures { IfOk result (λ table. HoldsLines table (map shown_line lines.items)) }
{
    let mut table = IndexMap::new(alloc);
    for line in lines {
        let Line { key, text } = line;
        table.insert(key, text)?;
    }
    Ok(table)
}
