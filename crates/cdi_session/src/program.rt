//! A run of the program, over any files and streams.
ghost use Rattle.std.specs.Prelude.{◌≡◌, ◌≢◌, ◌≤◌, ◌⊎◌, [], map, codes, true, false};
ghost use Rattle.cdi_devices.specs.Counted.{bytes_of, has_failed, is_flushed};
ghost use Rattle.cdi_script.specs.Run.{setting_with};
ghost use Rattle.cdi_session.specs.Options.{faults_of};
ghost use Rattle.cdi_session.specs.Session.{IsInput, ComesTo, FileComesTo, status_of, RunsWords, RefusesWords, LacksMemory};

use crate::command_line::{CommandLine, options};
use crate::complaints::{fault_of_open, refuse_line, tell_fault};
use crate::files::Files;
use cdi_bodies::Bodies;
use cdi_script::{Console, Counted, Options, READ_BYTES, RunFault, SCRIPT_LIMIT, Summary, run};
use std::alloc::Global;
use std::convert::AsStr;
use std::io::{Read, Write};

/// Runs the program on these words, the program's name first among them, with this book of stored bodies, and answers its
/// status: 0; 1 where `--strict` is given and a command was refused; 2 for words that are no command line; 3 where a device
/// failed; 4 when out of memory. A status of 2 to 4 comes with a text on `errors`. It takes what `clap` takes for the words
/// and `run` for the script.
///
/// Only tested are the text of help on `output` and that of `clap` on `errors`, since `clap` promises no text and `std`
/// nothing of a `write!` that fails; and that a read failed where the run of a file ends with a fault, since the file is
/// closed by then.
pub fn session<F: Files, S: AsStr, B: Bodies + Drop, I: Read, O: Write, E: Write>(
    rt: &F,
    alloc: Global,
    words: &[S],
    book: B,
    input: &mut Counted<I>,
    output: &mut Counted<O>,
    errors: &mut Counted<E>,
) -> u8
    requires input_fresh { (bytes_of input.old ≡ 0) × (has_failed input.old ≡ false) }
    requires output_fresh { (has_failed output.old ≡ false) × (is_flushed output.old ≡ true) }

    // Where `clap` accepts the words, the script that they name was run, or there was no memory to read them.
    ensures accepted { faults_of (map S.text words.now) ≡ [] →
        RunsWords (F.contents_at rt.now) (F.refuses rt.now) I.remaining F.File.remaining O.contents E.contents SCRIPT_LIMIT READ_BYTES
        (B.promises book) (map S.text words.now) input.old input.new output.old output.new errors.old errors.new result
        ⊎ (LacksMemory E.contents output.old output.new errors.old errors.new result × (input.new ≡ input.old)) }

    // Where it does not, they ask for help, or are a mistake, or there was no memory to read them; and nothing was read.
    ensures refused { faults_of (map S.text words.now) ≢ [] →
        RefusesWords E.contents (faults_of (map S.text words.now)) output.old output.new errors.old errors.new result }
    ensures unread { faults_of (map S.text words.now) ≢ [] → input.new ≡ input.old }

    ensures most { result ≤ 4 }
{
    match options(alloc, words) {
        Ok(options) => {
            let ending = run_script(rt, alloc, book, &options, input, output);
            if let Err(fault) = ending {
                tell_fault(fault, errors);
            }
            status_of(options.strict, ending)
        }
        Err(error) => refuse_line(&error, output, errors),
    }
}

/// Runs the script that the arguments name.
fn run_script<F: Files, B: Bodies + Drop, I: Read, O: Write>(
    rt: &F,
    alloc: Global,
    book: B,
    options: &CommandLine<'_>,
    input: &mut Counted<I>,
    output: &mut Counted<O>,
) -> Result<Summary, RunFault>
    requires input_fresh { (bytes_of input.old ≡ 0) × (has_failed input.old ≡ false) }
    requires output_fresh { (has_failed output.old ≡ false) × (is_flushed output.old ≡ true) }
    ensures from_input { IsInput options.now.script.now →
        ComesTo O.contents SCRIPT_LIMIT READ_BYTES (setting_with options.now.quiet (B.promises book))
        output.old output.new result I I.remaining input.old input.new }
    ensures from_file { ¬ IsInput options.now.script.now →
        FileComesTo F.File.remaining O.contents SCRIPT_LIMIT READ_BYTES (setting_with options.now.quiet (B.promises book))
        (F.contents_at rt.now options.now.script.now) (F.refuses rt.now options.now.script.now) output.old output.new result }
    ensures unread { ¬ IsInput options.now.script.now → input.new ≡ input.old }
{
    let settings = Options {
        quiet: options.quiet,
    };
    if options.script == "-" {
        run_from(alloc, book, input, output, settings)
    } else {
        run_file(rt, alloc, book, options.script, output, settings)
    }
}

/// Runs the script at the path.
fn run_file<F: Files, B: Bodies + Drop, O: Write>(
    rt: &F,
    alloc: Global,
    book: B,
    path: &str,
    output: &mut Counted<O>,
    settings: Options,
) -> Result<Summary, RunFault>
    requires { (has_failed output.old ≡ false) × (is_flushed output.old ≡ true) }
    ensures { FileComesTo F.File.remaining O.contents SCRIPT_LIMIT READ_BYTES (setting_with settings.quiet (B.promises book))
        (F.contents_at rt.now path.now) (F.refuses rt.now path.now) output.old output.new result }
{
    match rt.open(path) {
        Ok(file) => {
            let mut reader = Counted::new(file);
            run_from(alloc, book, &mut reader, output, settings)
        }
        Err(error) => Err(fault_of_open(&error)),
    }
}

/// Runs the script that the reader gives.
fn run_from<B: Bodies + Drop, R: Read, O: Write>(
    alloc: Global,
    book: B,
    reader: &mut Counted<R>,
    output: &mut Counted<O>,
    settings: Options,
) -> Result<Summary, RunFault>
    requires reader_fresh { (bytes_of reader.old ≡ 0) × (has_failed reader.old ≡ false) }
    requires output_fresh { (has_failed output.old ≡ false) × (is_flushed output.old ≡ true) }
    ensures { ComesTo O.contents SCRIPT_LIMIT READ_BYTES (setting_with settings.quiet (B.promises book))
        output.old output.new result R R.remaining reader.old reader.new }
{
    let mut console = Console::new(reader, output);
    run(alloc, &mut console, settings, book)
}

fn status_of(strict: bool, ending: Result<Summary, RunFault>) -> u8
    ensures { result ≡ status_of strict ending }
{
    match ending {
        Ok(summary) => u8::from(strict && summary.refused),
        Err(RunFault::Read) | Err(RunFault::Write) => 3,
        Err(RunFault::Memory) => 4,
    }
}
