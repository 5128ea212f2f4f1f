//! The program: runs a script of commands on a container.
#![tactic(auto)]

ghost use Rattle.std.specs.Prelude.{◌≡◌, ◌≤◌, map, true, false, IfOk, OnErr};
ghost use Rattle.std.specs.Vec.Iter.{into_iter_items};
ghost use Rattle.cdi_devices.specs.Counted.{bytes_of, has_failed, is_flushed};
ghost use Rattle.container_script.specs.Program.{RunsProgram};

use cdi_bodies::Book;
use cdi_script::{Counted, READ_BYTES, RunFault, SCRIPT_LIMIT};
use cdi_session::{Files, refuse_words, session, tell_fault};
use cdi_stack_room::take_stack;
use cdi_stock::{Body, Frame, Stock};
use std::alloc::{AllocError, Global};
use std::convert::AsStr;
use std::io::{Read, Write};
use std::process::ExitCode;
use std::{env, io};

fn main(rt: HostRuntime) -> ExitCode {
    ExitCode::from(run_words(&rt))
}

/// Runs the program on the words that the system gives, and answers its status.
fn run_words(rt: &HostRuntime) -> u8
    ensures { result ≤ 4 }
{
    let mut errors = Counted::new(rt.stderr());
    match words(rt) {
        Ok(words) => {
            if take_stack(rt, words.len()).is_err() {
                tell_fault(RunFault::Memory, &mut errors);
                return 4;
            }
            let mut input = Counted::new(rt.reader());
            let mut output = Counted::new(io::writer(rt));
            let words = words.as_slice();
            run_program(rt, rt.alloc(), words, &mut input, &mut output, &mut errors)
        }
        Err(error) => refuse_words(&error, &mut errors),
    }
}

/// Runs the program on these words, over any files and streams, and answers its status.
fn run_program<F: Files, S: AsStr, I: Read, O: Write, E: Write>(
    rt: &F,
    alloc: Global,
    words: &[S],
    input: &mut Counted<I>,
    output: &mut Counted<O>,
    errors: &mut Counted<E>,
) -> u8
    requires input_fresh { (bytes_of input.old ≡ 0) × (has_failed input.old ≡ false) }
    requires output_fresh { (has_failed output.old ≡ false) × (is_flushed output.old ≡ true) }
    ensures runs { RunsProgram (F.contents_at rt.now) (F.refuses rt.now) I.remaining F.File.remaining O.contents E.contents
        SCRIPT_LIMIT READ_BYTES (map S.text words.now) input.old input.new output.old output.new errors.old errors.new result }
    ensures most { result ≤ 4 }
{
    match run_stock(rt, alloc, words, input, output, errors) {
        Ok(status) => status,
        Err(_) => {
            tell_fault(RunFault::Memory, errors);
            4
        }
    }
}

/// The same, where there is memory for the book of the program's bodies; where there is none, nothing was done. The loop
/// of `stock_bodies!` stands written out here, since its invariant names the bodies.
fn run_stock<F: Files, S: AsStr, I: Read, O: Write, E: Write>(
    rt: &F,
    alloc: Global,
    words: &[S],
    input: &mut Counted<I>,
    output: &mut Counted<O>,
    errors: &mut Counted<E>,
) -> Result<u8, AllocError>
    requires input_fresh { (bytes_of input.old ≡ 0) × (has_failed input.old ≡ false) }
    requires output_fresh { (has_failed output.old ≡ false) × (is_flushed output.old ≡ true) }
    ensures runs { IfOk result (λ status. RunsProgram (F.contents_at rt.now) (F.refuses rt.now) I.remaining F.File.remaining
        O.contents E.contents SCRIPT_LIMIT READ_BYTES (map S.text words.now) input.old input.new output.old output.new
        errors.old errors.new status) }
    ensures most { IfOk result (λ status. status ≤ 4) }
    ensures nothing { OnErr result ((input.new ≡ input.old) × (output.new ≡ output.old) × (errors.new ≡ errors.old)) }
{
    let table = Stock::all();
    let mut bodies = Vec::new(alloc);
    for entry in table {
        let stock = *entry;
        let asks = Box::new(alloc, move |frame: &Frame| stock.ask(frame))?;
        bodies.push(Body::new(stock.name(), stock.promise(), asks))?;
    }
    let Ok(book) = Book::new(bodies) else {
        return Err(AllocError);
    };
    Ok(session(rt, alloc, words, book, input, output, errors))
}

/// The words that the system gives, the program's name first. An argument that is not UTF-8 is an error. No clause says
/// which arguments these are, since `std` promises none.
fn words(rt: &HostRuntime) -> io::Result<Vec<String>> {
    let words = words_of(rt.alloc(), env::args(rt)?)?;
    Ok(words)
}

/// The arguments as words, in order. It takes memory for as many.
fn words_of(alloc: Global, arguments: env::Args) -> Result<Vec<String>, AllocError>
    ensures { IfOk result (λ words. words.items ≡ into_iter_items arguments) }
{
    arguments.collect(alloc)
}
