// Reads the put blocks of the standard input by `toml` alone, and prints how many of them are tables.
//
// The input holds put blocks and nothing else: the line `put`, the lines of a TOML text, the line `.`.
#![tactic(auto)]

ghost use Rattle.std.specs.Prelude.{IsTrue, IsSome};
ghost use Rattle.toml.specs.Parse.{parse_document};

use memchr::memmem;
use std::alloc::Global;
use std::io;
use std::io::Read;

/// The line that begins a block.
const BEGIN: &[u8] = b"put\n";

/// The end of a text's last line and the line that ends a block.
const END: &[u8] = b"\n.\n";

fn main(rt: HostRuntime) -> io::Result<()> {
    let mut script = Vec::new(rt.alloc());
    rt.reader().read_to_end(&mut script)?;
    let tables = count_tables(rt.alloc(), script.as_slice());
    println!(rt; "{tables} tables")
}

/// How many of the put blocks hold a table.
fn count_tables(alloc: Global, script: &[u8]) -> u64 {
    let mut tables = 0u64;
    let mut start = 0usize;
    for end in memmem::find_iter(script, END) {
        let text = script.get(start..end).unwrap_or(&[]);
        if is_table(alloc, text.strip_prefix(BEGIN).unwrap_or(text)) {
            tables = tables.saturating_add(1);
        }
        start = end.saturating_add(END.len());
    }
    tables
}

/// Whether a text is read as a table.
fn is_table(alloc: Global, text: &[u8]) -> bool
    ensures { IsTrue result → IsSome (parse_document text.now) }
{
    toml::table_from_slice(alloc, text).is_ok()
}
