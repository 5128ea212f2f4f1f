//! Running a script.
ghost use Rattle.std.specs.Prelude.{◌≡◌, ◌≢◌, ◌≤◌, ◌<◌, ◌+◌, ◌⊎◌, length, OnOk, OnErr, IfOk, IfErr, IsErrOf, false, true, take, []};
ghost use Rattle.std.specs.Io.KnownBytes.{Appends};
ghost use Rattle.cdi_devices.specs.Devices.{WritesPart};
ghost use Rattle.cdi_devices.specs.Counted.{inner_of, bytes_of, has_failed, is_flushed, is_settled, sent_before};
ghost use Rattle.cdi_devices.specs.Console.{reader_of, writer_of, KeepsStreams};
ghost use Rattle.cdi_script.specs.Run.{Sends, SendsPart, SendsLast, Feeds, FeedsBeforeMemory, FeedsPart, Ends, EndsBeforeMemory};
ghost use Rattle.cdi_script.specs.Run.{EndsPart, RunsScript, FailsToRead, RunsOutOfMemory, FailsToWrite};
ghost use Rattle.cdi_script.specs.Run.{RunsScriptTo, FailsToReadTo, RunsOutOfMemoryTo, FailsToWriteTo};
ghost use Rattle.cdi_script.specs.Run.{setting_from, setting_with, Settles, SettlesPart};
ghost use Rattle.cdi_script.specs.Intake.{intake_on, IsFresh};

use crate::intake::Intake;
use crate::runner::Runner;
use cdi_bodies::Bodies;
use cdi_container::Container;
use cdi_devices::{Console, Counted, RunFault, SCRIPT_LIMIT, read_some, write_and_flush};
use std::alloc::Global;
use std::io::{Read, Write};

/// How many bytes a run reads at a time, at most.
pub const READ_BYTES: usize = 65536;

/// How many bytes may be printed before they are written.
const MAX_OUT: usize = 65536;

/// How a script is run.
#[derive(Clone, Copy, Debug)]
pub struct Options {
    /// Leaves trace lines out.
    pub quiet: bool,
}

/// What is known of a script that ran to its end.
#[derive(Clone, Copy, Debug)]
pub struct Summary {
    /// Whether a command was refused.
    pub refused: bool,
}

/// Writes what is printed.
fn send<W: Write>(runner: &mut Runner, writer: &mut Counted<W>) -> Result<(), RunFault>
    ensures ok { OnOk result (Sends W.contents runner.old runner.new writer.old writer.new) }
    ensures part { OnErr result (SendsPart W.contents runner.old writer.old writer.new) }
    ensures error { IfErr result (λ fault. fault ≡ RunFault.Write) }
{
    write_and_flush(writer, runner.out.as_slice())?;
    runner.out.clear();
    Ok(())
}

/// Writes what is printed before the run ends out of memory.
fn give_up<W: Write>(runner: &Runner, writer: &mut Counted<W>) -> RunFault
    ensures memory { result ≡ RunFault.Memory → SendsLast W.contents runner.now writer.old writer.new }
    ensures write { result ≡ RunFault.Write → SendsPart W.contents runner.now writer.old writer.new }
    ensures not_read { result ≢ RunFault.Read }
{
    match write_and_flush(writer, runner.out.as_slice()) {
        Ok(()) => RunFault::Memory,
        Err(_) => RunFault::Write,
    }
}

/// Writes what is printed, and goes on.
fn settle<W: Write>(intake: &mut Intake, writer: &mut Counted<W>) -> Result<(), RunFault>
    ensures ok { OnOk result (Settles W.contents intake.old intake.new writer.old writer.new) }
    ensures part { OnErr result (SettlesPart W.contents intake.old intake.new writer.old writer.new) }
    ensures still { OnOk result (has_failed writer.new ≡ has_failed writer.old) }
    ensures failed { OnErr result (has_failed writer.new ≡ true) }
    ensures flushed { OnOk result (is_flushed writer.new ≡ true) }
    ensures error { IfErr result (λ fault. fault ≡ RunFault.Write) }
    ensures empty { OnOk result (intake.new.runner.out.items ≡ []) }
{
    send(&mut intake.runner, writer)
}

/// Takes some bytes of the script, at most one line's, and tells how many.
fn take_some<B: Bodies, W: Write>(
    intake: &mut Intake,
    container: &mut Container<B>,
    writer: &mut Counted<W>,
    chunk: &[u8],
) -> Result<usize, RunFault>
    requires { 0 < length chunk.now }
    ensures ok { IfOk result (λ n. Feeds W.contents (intake_on intake.old container.old) (intake_on intake.new container.new)
        writer.old writer.new (take n chunk.now)) }
    ensures some { IfOk result (λ n. 0 < n) }
    ensures bound { IfOk result (λ n. n ≤ length chunk.now) }
    ensures still { OnOk result (has_failed writer.new ≡ has_failed writer.old) }
    ensures memory { IsErrOf result RunFault.Memory →
        FeedsBeforeMemory W.contents (intake_on intake.old container.old) (intake_on intake.new container.new) writer.old writer.new chunk.now }
    ensures memory_still { IsErrOf result RunFault.Memory → has_failed writer.new ≡ has_failed writer.old }
    ensures memory_flushed { IsErrOf result RunFault.Memory → is_flushed writer.new ≡ true }
    ensures write { IsErrOf result RunFault.Write →
        FeedsPart W.contents (intake_on intake.old container.old) (intake_on intake.new container.new) writer.old writer.new chunk.now }
    ensures write_cause { IsErrOf result RunFault.Write → has_failed writer.new ≡ true }
    ensures not_read { IfErr result (λ fault. fault ≢ RunFault.Read) }
{
    match intake.advance(container, chunk) {
        Err(_) => Err(give_up(&intake.runner, writer)),
        Ok(n) => {
            if intake.runner.out.len() < MAX_OUT {
                return Ok(n);
            }
            match settle(intake, writer) {
                Ok(()) => Ok(n),
                Err(fault) => Err(fault),
            }
        }
    }
}

/// Takes bytes of the script, and writes what their commands print.
fn feed<B: Bodies, W: Write>(
    intake: &mut Intake,
    container: &mut Container<B>,
    writer: &mut Counted<W>,
    chunk: &[u8],
) -> Result<(), RunFault>
    ensures ok { OnOk result (Feeds W.contents (intake_on intake.old container.old) (intake_on intake.new container.new)
        writer.old writer.new chunk.now) }
    ensures still { OnOk result (has_failed writer.new ≡ has_failed writer.old) }
    ensures flushed { OnOk result (is_flushed writer.new ≡ true) }
    ensures memory { IsErrOf result RunFault.Memory →
        FeedsBeforeMemory W.contents (intake_on intake.old container.old) (intake_on intake.new container.new) writer.old writer.new chunk.now }
    ensures memory_still { IsErrOf result RunFault.Memory → has_failed writer.new ≡ has_failed writer.old }
    ensures memory_flushed { IsErrOf result RunFault.Memory → is_flushed writer.new ≡ true }
    ensures write { IsErrOf result RunFault.Write →
        FeedsPart W.contents (intake_on intake.old container.old) (intake_on intake.new container.new) writer.old writer.new chunk.now }
    ensures write_cause { IsErrOf result RunFault.Write → has_failed writer.new ≡ true }
    ensures empty { OnOk result (intake.new.runner.out.items ≡ []) }
    ensures not_read { IfErr result (λ fault. fault ≢ RunFault.Read) }
{
    let mut rest = chunk;
    while !rest.is_empty() {
        match take_some(intake, container, writer, rest) {
            Ok(n) => rest = rest.split_at(n).1,
            Err(fault) => return Err(fault),
        }
    }
    settle(intake, writer)
}

/// Takes the end of the script, and writes what is printed.
fn finish<B: Bodies, W: Write>(
    intake: &mut Intake,
    container: &mut Container<B>,
    writer: &mut Counted<W>,
) -> Result<Summary, RunFault>
    ensures ok { IfOk result (λ summary. Ends W.contents (intake_on intake.old container.old) (intake_on intake.new container.new)
        writer.old writer.new summary.refused) }
    ensures still { OnOk result (has_failed writer.new ≡ has_failed writer.old) }
    ensures flushed { OnOk result (is_flushed writer.new ≡ true) }
    ensures memory { IsErrOf result RunFault.Memory →
        EndsBeforeMemory W.contents (intake_on intake.old container.old) (intake_on intake.new container.new) writer.old writer.new }
    ensures memory_still { IsErrOf result RunFault.Memory → has_failed writer.new ≡ has_failed writer.old }
    ensures memory_flushed { IsErrOf result RunFault.Memory → is_flushed writer.new ≡ true }
    ensures write { IsErrOf result RunFault.Write →
        EndsPart W.contents (intake_on intake.old container.old) (intake_on intake.new container.new) writer.old writer.new }
    ensures write_cause { IsErrOf result RunFault.Write → has_failed writer.new ≡ true }
    ensures not_read { IfErr result (λ fault. fault ≢ RunFault.Read) }
{
    let Ok(()) = intake.end_last_line(container) else {
        return Err(give_up(&intake.runner, writer));
    };
    let Ok(()) = intake.end_mode(container) else {
        return Err(give_up(&intake.runner, writer));
    };
    match send(&mut intake.runner, writer) {
        Ok(()) => Ok(Summary {
            refused: intake.runner.refused,
        }),
        Err(fault) => Err(fault),
    }
}

/// Reads a script to its end.
fn read_all<B: Bodies, R: Read, W: Write>(
    intake: &mut Intake,
    container: &mut Container<B>,
    buffer: &mut [u8],
    console: &mut Console<'_, R, W>,
) -> Result<Summary, RunFault>
    requires room { (0 < length buffer.old) × (length buffer.old ≤ READ_BYTES) }
    requires fresh { IsFresh intake.old }
    requires reader_fresh { (bytes_of (reader_of console.old) ≡ 0) × (has_failed (reader_of console.old) ≡ false) }
    requires writer_fresh { (has_failed (writer_of console.old) ≡ false) × (is_flushed (writer_of console.old) ≡ true) }
    ensures ok { IfOk result (λ summary.
        RunsScriptTo R.remaining W.contents SCRIPT_LIMIT (setting_from intake.old.runner.quiet container.old)
        (reader_of console.old) (reader_of console.new) (writer_of console.old) (writer_of console.new) summary.refused
        container.new) }
    ensures read { IsErrOf result RunFault.Read →
        FailsToReadTo R.remaining W.contents SCRIPT_LIMIT (setting_from intake.old.runner.quiet container.old)
        (reader_of console.old) (reader_of console.new) (writer_of console.old) (writer_of console.new) container.new }
    ensures memory { IsErrOf result RunFault.Memory →
        RunsOutOfMemoryTo R.remaining W.contents SCRIPT_LIMIT READ_BYTES (setting_from intake.old.runner.quiet container.old)
        (reader_of console.old) (reader_of console.new) (writer_of console.old) (writer_of console.new) container.new }
    ensures write { IsErrOf result RunFault.Write →
        FailsToWriteTo R.remaining W.contents SCRIPT_LIMIT READ_BYTES (setting_from intake.old.runner.quiet container.old)
        (reader_of console.old) (reader_of console.new) (writer_of console.old) (writer_of console.new) container.new }
    ensures flushed { IsErrOf result RunFault.Write ⊎ (is_flushed (writer_of console.new) ≡ true) }
    ensures read_cause { IsErrOf result RunFault.Read →
        (has_failed (reader_of console.new) ≡ true) ⊎ (SCRIPT_LIMIT < bytes_of (reader_of console.new)) }
    ensures reader_sound { IsErrOf result RunFault.Read
        ⊎ ((has_failed (reader_of console.new) ≡ false) × (bytes_of (reader_of console.new) ≤ SCRIPT_LIMIT)) }
    ensures write_cause { IsErrOf result RunFault.Write → has_failed (writer_of console.new) ≡ true }
    ensures writer_sound { IsErrOf result RunFault.Write ⊎ (has_failed (writer_of console.new) ≡ false) }
    ensures settled { is_settled (reader_of console.new) ≡ is_settled (reader_of console.old) }
    ensures unsent { IsErrOf result RunFault.Read → sent_before (reader_of console.new) ≡ bytes_of (writer_of console.new) }
    ensures most { bytes_of (reader_of console.new) ≤ SCRIPT_LIMIT + 1 }
    ensures streams { KeepsStreams console.old console.new }
{
    loop {
        match read_some(console, buffer) {
            Err(fault) => return Err(fault),
            Ok(0) => return finish(intake, container, console.writer()),
            Ok(n) => match feed(intake, container, console.writer(), &buffer[..n]) {
                Ok(()) => {}
                Err(fault) => return Err(fault),
            },
        }
    }
}

/// Reads a script, runs each command on the container that is there, and writes what the commands print. The container is
/// left as these commands leave it, so that further calls and scripts go on from there; it is not stopped at the end. All
/// that it had sent was flushed before each read, and no read comes after an error of the reader; where it answers `Read`,
/// it sent nothing after its last read. It takes a buffer of 65,536 bytes, what the container takes, and a bounded number
/// of bytes for the line, the put block and the batch that have begun.
///
/// Where it answers `Read`, the commands whose lines had come were carried out and their text was written. Where it answers
/// `Memory`, the text of the commands before one was written. The container is left as that one leaves it: it ran out of
/// memory, or was carried out and its text found none. Or that one was not complete, or is a run whose line found no
/// memory to be read; then the container is left as those before it leave it. Where it answers `Write`, only a front part
/// of the text was written, and the container is left as at `Memory`, since the writer may also fail at what is written
/// before a run ends out of memory.
///
/// The clauses speak of the bytes of readers and writers whose contents contracts see. Those of `std`'s files and
/// standard streams are not seen; of these they say what was counted, failed and flushed. That a command's lines are sent
/// before a read that gives more is tested.
pub fn run_on<B: Bodies, R: Read, W: Write>(
    alloc: Global,
    container: &mut Container<B>,
    console: &mut Console<'_, R, W>,
    options: Options,
) -> Result<Summary, RunFault>
    requires reader_fresh { (bytes_of (reader_of console.old) ≡ 0) × (has_failed (reader_of console.old) ≡ false) }
    requires writer_fresh { (has_failed (writer_of console.old) ≡ false) × (is_flushed (writer_of console.old) ≡ true) }

    // The text of a legal history of exactly the script's commands, from what the container held to what it holds now,
    // was written, and the summary tells of it.
    ensures ok { IfOk result (λ summary.
        RunsScriptTo R.remaining W.contents SCRIPT_LIMIT (setting_from options.quiet container.old)
        (reader_of console.old) (reader_of console.new) (writer_of console.old) (writer_of console.new) summary.refused
        container.new) }

    // What was written and what is left where the run ended early.
    ensures read { IsErrOf result RunFault.Read →
        FailsToReadTo R.remaining W.contents SCRIPT_LIMIT (setting_from options.quiet container.old)
        (reader_of console.old) (reader_of console.new) (writer_of console.old) (writer_of console.new) container.new }
    ensures memory { IsErrOf result RunFault.Memory →
        RunsOutOfMemoryTo R.remaining W.contents SCRIPT_LIMIT READ_BYTES (setting_from options.quiet container.old)
        (reader_of console.old) (reader_of console.new) (writer_of console.old) (writer_of console.new) container.new }
    ensures write { IsErrOf result RunFault.Write →
        FailsToWriteTo R.remaining W.contents SCRIPT_LIMIT READ_BYTES (setting_from options.quiet container.old)
        (reader_of console.old) (reader_of console.new) (writer_of console.old) (writer_of console.new) container.new }

    // All that was written was flushed at the end, also where a read failed.
    ensures flushed { IsErrOf result RunFault.Write ⊎ (is_flushed (writer_of console.new) ≡ true) }

    // All that was sent was flushed before each read, and no read came after an error of the reader.
    ensures settled { is_settled (reader_of console.new) ≡ is_settled (reader_of console.old) }

    // Where a read failed, or gave a byte after the limit, nothing was sent after it.
    ensures unsent { IsErrOf result RunFault.Read → sent_before (reader_of console.new) ≡ bytes_of (writer_of console.new) }

    // `Read` and `Write` come exactly where a device failed, or the reader gave a byte after the limit.
    ensures read_cause { IsErrOf result RunFault.Read →
        (has_failed (reader_of console.new) ≡ true) ⊎ (SCRIPT_LIMIT < bytes_of (reader_of console.new)) }
    ensures reader_sound { IsErrOf result RunFault.Read
        ⊎ ((has_failed (reader_of console.new) ≡ false) × (bytes_of (reader_of console.new) ≤ SCRIPT_LIMIT)) }
    ensures write_cause { IsErrOf result RunFault.Write → has_failed (writer_of console.new) ≡ true }
    ensures writer_sound { IsErrOf result RunFault.Write ⊎ (has_failed (writer_of console.new) ≡ false) }
    ensures most { bytes_of (reader_of console.new) ≤ SCRIPT_LIMIT + 1 }
    ensures streams { KeepsStreams console.old console.new }
    ensures limits { (SCRIPT_LIMIT ≡ 16777216) × (READ_BYTES ≡ 65536) }
{
    let mut buffer = vec![in alloc; 0u8; READ_BYTES]?;
    let mut intake = Intake::new(alloc, options.quiet);
    read_all(&mut intake, container, buffer.as_mut_slice(), console)
}

/// Reads a script, runs each command on a container that is empty at first and keeps this book of stored bodies, and
/// writes what the commands print. All that it had sent was flushed before each read, and no read comes after an error
/// of the reader; where it answers `Read`, it sent nothing after its last read. It takes a buffer of 65,536 bytes, what
/// the container takes, and a bounded number of bytes for the line, the put block and the batch that have begun.
///
/// The clauses speak of the bytes of readers and writers whose contents contracts see. Those of `std`'s files and
/// standard streams are not seen; of these they say what was counted, failed and flushed. That a command's lines are sent
/// before a read that gives more is tested.
pub fn run<B: Bodies + Drop, R: Read, W: Write>(
    alloc: Global,
    console: &mut Console<'_, R, W>,
    options: Options,
    book: B,
) -> Result<Summary, RunFault>
    requires reader_fresh { (bytes_of (reader_of console.old) ≡ 0) × (has_failed (reader_of console.old) ≡ false) }
    requires writer_fresh { (has_failed (writer_of console.old) ≡ false) × (is_flushed (writer_of console.old) ≡ true) }

    // The text of a legal history of exactly the script's commands was written, and the summary tells of it.
    ensures ok { IfOk result (λ summary.
        RunsScript R.remaining W.contents SCRIPT_LIMIT (setting_with options.quiet (B.promises book))
        (reader_of console.old) (reader_of console.new) (writer_of console.old) (writer_of console.new) summary.refused) }

    // What was written where the run ended early.
    ensures read { IsErrOf result RunFault.Read →
        FailsToRead R.remaining W.contents SCRIPT_LIMIT (setting_with options.quiet (B.promises book))
        (reader_of console.old) (reader_of console.new) (writer_of console.old) (writer_of console.new) }
    ensures memory { IsErrOf result RunFault.Memory →
        RunsOutOfMemory R.remaining W.contents SCRIPT_LIMIT READ_BYTES (setting_with options.quiet (B.promises book))
        (reader_of console.old) (reader_of console.new) (writer_of console.old) (writer_of console.new) }
    ensures write { IsErrOf result RunFault.Write →
        FailsToWrite R.remaining W.contents SCRIPT_LIMIT READ_BYTES (setting_with options.quiet (B.promises book))
        (reader_of console.old) (reader_of console.new) (writer_of console.old) (writer_of console.new) }

    // All that was written was flushed at the end, also where a read failed.
    ensures flushed { IsErrOf result RunFault.Write ⊎ (is_flushed (writer_of console.new) ≡ true) }

    // All that was sent was flushed before each read, and no read came after an error of the reader.
    ensures settled { is_settled (reader_of console.new) ≡ is_settled (reader_of console.old) }

    // Where a read failed, or gave a byte after the limit, nothing was sent after it.
    ensures unsent { IsErrOf result RunFault.Read → sent_before (reader_of console.new) ≡ bytes_of (writer_of console.new) }

    // `Read` and `Write` come exactly where a device failed, or the reader gave a byte after the limit.
    ensures read_cause { IsErrOf result RunFault.Read →
        (has_failed (reader_of console.new) ≡ true) ⊎ (SCRIPT_LIMIT < bytes_of (reader_of console.new)) }
    ensures reader_sound { IsErrOf result RunFault.Read
        ⊎ ((has_failed (reader_of console.new) ≡ false) × (bytes_of (reader_of console.new) ≤ SCRIPT_LIMIT)) }
    ensures write_cause { IsErrOf result RunFault.Write → has_failed (writer_of console.new) ≡ true }
    ensures writer_sound { IsErrOf result RunFault.Write ⊎ (has_failed (writer_of console.new) ≡ false) }
    ensures most { bytes_of (reader_of console.new) ≤ SCRIPT_LIMIT + 1 }
    ensures streams { KeepsStreams console.old console.new }
    ensures limits { (SCRIPT_LIMIT ≡ 16777216) × (READ_BYTES ≡ 65536) }
{
    let mut container = Container::new(alloc, book);
    run_on(alloc, &mut container, console, options)
}
