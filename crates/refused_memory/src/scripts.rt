//! Scripts that run on one container, one after another, of which any one allocation may be refused.
use crate::Difference;
use cdi_container::Bodies;
use cdi_script::{Console, Container, Counted, Options, RunFault, run_on};
use std::alloc::Global;

/// A script in which a type and a bean are put, the bean is chosen, and a type that is absent is dropped.
const STORED_SCRIPT: &[u8] =
    b"put\nkind=\"type\"\nname=\"Corner\"\n.\nput\nkind=\"bean\"\nname=\"Corner\"\n.\nchoose Corner\ndrop type Mall\n";

/// What it prints.
const STORED_TEXT: &[u8] = b"ok\nok\none Corner\nrefused E11 Absent\n";

/// A script that asks about what the one before it put.
const ASKING_SCRIPT: &[u8] = b"choose Object\n";

/// What it prints.
const ASKING_TEXT: &[u8] = b"one Corner\n";

/// A script in which a qualifier, a type, a stereotype and two beans are put, a bean is chosen by its qualifier, by its
/// name and as an alternative, the faults are reported, a type that is absent is dropped, and a batch puts it and drops the
/// stereotype. Each command but the report prints one line.
const SCRIPT: &[u8] = br#"put
kind="qualifier"
name="Rank"
members=[{name="n"}]
.
put
kind="type"
name="Corner"
.
put
kind="bean"
name="Corner"
qualifiers=["Rank(n=2)"]
.
choose Corner Rank(n=2) Any
put
kind="stereotype"
name="Mock"
named=true
alternative=true
.
put
kind="bean"
name="Mall"
stereotypes=["Mock"]
priority=1
.
name mall
choose Object Any
report
drop type Mall
batch
put
kind="type"
name="Mall"
.
drop stereotype Mock
end
"#;

/// What it prints.
const TEXT: &[u8] = br#"ok
ok
ok
one Corner
ok
ok
one Mall
one Mall
faults 1
F01 bean Mall type Mall
refused E11 Absent
ok
"#;

/// What a report that has a fault prints first.
const REPORT_BEGINS: &[u8] = b"faults 1\n";

/// A script, what it prints, and whether a command of it is refused.
#[derive(Clone, Copy)]
struct Printed {
    script: &'static [u8],
    text: &'static [u8],
    refused: bool,
}

static SCRIPTS: [Printed; 3] = [
    Printed {
        script: STORED_SCRIPT,
        text: STORED_TEXT,
        refused: true,
    },
    Printed {
        script: ASKING_SCRIPT,
        text: ASKING_TEXT,
        refused: false,
    },
    Printed {
        script: SCRIPT,
        text: TEXT,
        refused: true,
    },
];

/// Runs the scripts on a container that is empty at first, up to one that has no memory, and tells whether there is one.
pub fn run_scripts<B: Bodies>(
    alloc: Global,
    container: &mut Container<B>,
) -> Result<bool, Difference> {
    for (place, printed) in SCRIPTS.iter().enumerate() {
        match prints(alloc, container, printed) {
            Some(true) => {}
            Some(false) => return Err(Difference::Run(place)),
            None => return Ok(true),
        }
    }
    Ok(false)
}

/// Whether the run of a script writes its text into an array. `None` where it had no memory and wrote whole answers.
fn prints<B: Bodies>(
    alloc: Global,
    container: &mut Container<B>,
    wanted: &Printed,
) -> Option<bool> {
    let mut page = [0u8; 128];
    let mut reader = Counted::new(wanted.script);
    let mut writer = Counted::new(&mut page[..]);
    let options = Options { quiet: false };
    let mut console = Console::new(&mut reader, &mut writer);
    let outcome = run_on(alloc, container, &mut console, options);
    let count = writer.count() as usize;
    let written = page.get(..count).unwrap_or(&[]);
    match outcome {
        Ok(summary) => Some(summary.refused == wanted.refused && written == wanted.text),
        Err(RunFault::Memory) if is_whole_answers(wanted.text, written) => None,
        _ => Some(false),
    }
}

/// Whether these are the answers of the first commands of those that print a text, or of none.
fn is_whole_answers(text: &[u8], written: &[u8]) -> bool {
    let ends = written.is_empty()
        || (written.ends_with(b"\n") && !written.ends_with(REPORT_BEGINS));
    text.starts_with(written) && ends
}
