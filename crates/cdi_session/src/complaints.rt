//! What goes to the standard error.
ghost use Rattle.std.specs.Prelude.{◌≡◌, ◌⊎◌, ◌∷◌, [], codes};
ghost use Rattle.std.specs.IoError.{error_kind};
ghost use Rattle.clap.specs.Values.{kind_of};
ghost use Rattle.cdi_session.specs.Session.{line, text_of_fault, fault_of_open, status_of_words, text_of_words, Tells, ShowsHelp, LosesHelp, RefusesWords};

use cdi_devices::write_out;
use cdi_script::{Counted, RunFault};
use clap::Error;
use clap::error::ErrorKind;
use std::io;
use std::io::Write;

/// Writes the message of a fault.
pub fn tell_fault<E: Write>(fault: RunFault, errors: &mut Counted<E>)
    ensures { Tells E.contents errors.old errors.new (text_of_fault fault) }
{
    let text = match fault {
        RunFault::Read => "error: read failed\n",
        RunFault::Write => "error: write failed\n",
        RunFault::Memory => "error: out of memory\n",
    };
    let _ = write_out(errors, text.as_bytes());
}

/// The fault of a path that has an error in place of a file.
pub fn fault_of_open(error: &io::Error) -> RunFault
    ensures { result ≡ fault_of_open (error_kind error.now) }
{
    if error.kind() == io::ErrorKind::OutOfMemory {
        RunFault::Memory
    } else {
        RunFault::Read
    }
}

/// Shows the help that the words ask for on `output`, or says what is wrong with them on `errors`, and answers the
/// status. No clause says what the text of `clap` is.
pub fn refuse_line<O: Write, E: Write>(
    error: &Error,
    output: &mut Counted<O>,
    errors: &mut Counted<E>,
) -> u8
    ensures { RefusesWords E.contents (kind_of error.now ∷ []) output.old output.new errors.old errors.new result }
{
    if error.kind() == ErrorKind::OutOfMemory {
        tell_fault(RunFault::Memory, errors);
        return 4;
    }
    if error.kind() == ErrorKind::DisplayHelp {
        return show_help(error, output, errors);
    }
    let _ = write!(errors, "{error}");
    2
}

/// Writes the help and flushes it, and answers the status: 3 where the writer failed, which is told, and else 0.
fn show_help<O: Write, E: Write>(
    help: &Error,
    output: &mut Counted<O>,
    errors: &mut Counted<E>,
) -> u8
    ensures { ShowsHelp output.new errors.old errors.new result ⊎ LosesHelp E.contents output.new errors.old errors.new result }
{
    let _ = write!(output, "{help}");
    let _ = output.flush();
    if output.has_failed() {
        tell_fault(RunFault::Write, errors);
        return 3;
    }
    0
}

/// Says why the words of the command line could not be had, and answers the status: 4 when out of memory, and else 2.
pub fn refuse_words<E: Write>(error: &io::Error, errors: &mut Counted<E>) -> u8
    ensures status { result ≡ status_of_words (error_kind error.now) }
    ensures text { Tells E.contents errors.old errors.new (text_of_words (error_kind error.now)) }
{
    if error.kind() == io::ErrorKind::OutOfMemory {
        tell_fault(RunFault::Memory, errors);
        return 4;
    }
    let _ = write_out(errors, b"error: an argument is not UTF-8\n");
    2
}
