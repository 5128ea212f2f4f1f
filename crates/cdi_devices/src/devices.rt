//! Reading up to the limit of a script, and writing to the end.
ghost use Rattle.std.specs.Prelude.{◌≡◌, ℕ, ◌+◌, ◌-◌, ◌<◌, ◌≤◌, ◌&&◌, not, take, length, OnOk, OnErr, IfOk, IsErrOf, IfErr, false, true};
ghost use Rattle.std.specs.Io.KnownBytes.{Appends, Consumes, IsAtEnd};
ghost use Rattle.cdi_devices.specs.Counted.{inner_of, bytes_of, has_failed, is_flushed, is_settled, sent_before};
ghost use Rattle.cdi_devices.specs.Console.{reader_of, writer_of, KeepsStreams};
ghost use Rattle.cdi_devices.specs.Devices.{Gives, ReadFails, WritesPart};
ghost use Rattle.cdi_devices.specs.declared.devices.RunFault.TheVariants.{Memory};

use crate::console::Console;
use crate::counted::Counted;
use std::alloc::{AllocError, AllocFailed};
use std::io::{Read, Write};
use thiserror::Error;

/// How many bytes a script may have at most.
pub const SCRIPT_LIMIT: u64 = 16_777_216;

/// Why the run of a script ended before its script's end.
#[derive(Clone, Copy, Debug, PartialEq, Eq, Error)]
pub enum RunFault {
    /// The reader answered an error, or gave a byte past the limit of a script.
    #[error("read failed")]
    Read,
    /// The writer answered an error, or took no byte.
    #[error("write failed")]
    Write,
    /// The allocator gave no memory.
    #[error("out of memory")]
    Memory,
}

impl From<AllocError> for RunFault {
    ghost from_gives = { λ _ e. e ≡ Memory };

    fn from(_error: AllocError) -> Self {
        RunFault::Memory
    }
}

impl<T: Drop> From<AllocFailed<T>> for RunFault {
    ghost from_gives = { λ _ e. e ≡ Memory };

    fn from(_error: AllocFailed<T>) -> Self {
        RunFault::Memory
    }
}

/// One read into the buffer, of at most as many bytes as the limit of a script leaves; at the limit it asks for one
/// byte more, and a byte that comes then is a fault. An `Ok(0)` is the end of the input. The reader notes what was
/// sent before. It takes no memory.
pub fn read_some<R: Read, W>(
    console: &mut Console<'_, R, W>,
    buffer: &mut [u8],
) -> Result<usize, RunFault>
    requires within { bytes_of (reader_of console.old) ≤ SCRIPT_LIMIT }
    requires room { 0 < length buffer.old }
    ensures gives { IfOk result (λ n.
        Gives R.remaining SCRIPT_LIMIT (reader_of console.old) (reader_of console.new) n buffer.new) }
    ensures fails { OnErr result (ReadFails R.remaining SCRIPT_LIMIT (reader_of console.old) (reader_of console.new)) }
    ensures error { IfErr result (λ fault. fault ≡ RunFault.Read) }
    ensures settled { is_settled (reader_of console.new)
        ≡ (is_settled (reader_of console.old) && is_flushed (writer_of console.old) && not (has_failed (reader_of console.old))) }
    ensures sent { sent_before (reader_of console.new) ≡ bytes_of (writer_of console.old) }
    ensures writer { writer_of console.new ≡ writer_of console.old }
    ensures streams { KeepsStreams console.old console.new }
{
    let left = SCRIPT_LIMIT - console.reader().count();
    if left == 0 {
        let mut one = [0u8; 1];
        return match console.read(&mut one) {
            Ok(0) => Ok(0),
            _ => Err(RunFault::Read),
        };
    }
    let most = buffer.len().min(left as usize);
    match console.read(&mut buffer[..most]) {
        Ok(n) => Ok(n),
        Err(_) => Err(RunFault::Read),
    }
}

/// Writes all the bytes, unless the writer fails or takes none; then what it has taken is a front part of them. It
/// takes no memory and does not flush.
pub fn write_out<W: Write>(writer: &mut Counted<W>, bytes: &[u8]) -> Result<(), RunFault>
    ensures ok { OnOk result (Appends (W.contents (inner_of writer.old)) (W.contents (inner_of writer.new)) bytes.now) }
    ensures part { OnErr result (WritesPart W.contents writer.old writer.new bytes.now) }
    ensures error { IfErr result (λ fault. fault ≡ RunFault.Write) }
    ensures still { OnOk result (has_failed writer.new ≡ has_failed writer.old) }
    ensures failed { OnErr result (has_failed writer.new ≡ true) }
{
    let mut rest = bytes;
    while !rest.is_empty() {
        match writer.write(rest) {
            Ok(0) => return Err(RunFault::Write),
            Ok(n) => rest = rest.split_at(n).1,
            Err(_) => return Err(RunFault::Write),
        }
    }
    Ok(())
}

/// Writes all the bytes as `write_out` does, and flushes. It takes no memory.
pub fn write_and_flush<W: Write>(writer: &mut Counted<W>, bytes: &[u8]) -> Result<(), RunFault>
    ensures ok { OnOk result (Appends (W.contents (inner_of writer.old)) (W.contents (inner_of writer.new)) bytes.now) }
    ensures part { OnErr result (WritesPart W.contents writer.old writer.new bytes.now) }
    ensures error { IfErr result (λ fault. fault ≡ RunFault.Write) }
    ensures still { OnOk result (has_failed writer.new ≡ has_failed writer.old) }
    ensures failed { OnErr result (has_failed writer.new ≡ true) }
    ensures flushed { OnOk result (is_flushed writer.new ≡ true) }
{
    write_out(writer, bytes)?;
    match writer.flush() {
        Ok(()) => Ok(()),
        Err(_) => Err(RunFault::Write),
    }
}
