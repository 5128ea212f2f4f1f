//! How a program ends that cannot do what its words ask for.
use cdi_devices::{Counted, write_and_flush};
use clap::Error;
use clap::error::ErrorKind;
use std::alloc::AllocError;
use std::{env, io};

/// Why a program ends before it is done.
#[derive(Clone, Copy, Debug, PartialEq, Eq)]
pub enum Ending {
    /// Its words are no command line.
    Words,
    /// A path cannot be read.
    Unreadable,
    /// What it prints cannot be written.
    Unwritable,
    OutOfMemory,
}

impl Ending {
    /// The status of the program: 2, 3 or 4.
    pub fn status(self) -> u8 {
        match self {
            Ending::Words => 2,
            Ending::Unreadable | Ending::Unwritable => 3,
            Ending::OutOfMemory => 4,
        }
    }

    /// What is told of it on the standard error. The words and the paths are told where they are read.
    fn complaint(self) -> Option<&'static str> {
        match self {
            Ending::Words | Ending::Unreadable => None,
            Ending::Unwritable => Some("error: write failed"),
            Ending::OutOfMemory => Some("error: out of memory"),
        }
    }
}

impl From<AllocError> for Ending {
    fn from(_error: AllocError) -> Ending {
        Ending::OutOfMemory
    }
}

/// The words that the system gives, the program's name first. An argument that is not UTF-8 is told on the standard error.
pub fn words(rt: &HostRuntime) -> Result<Vec<String>, Ending> {
    match env::args(rt) {
        Ok(words) => Ok(words.collect(rt.alloc())?),
        Err(error) if error.kind() == io::ErrorKind::OutOfMemory => Err(Ending::OutOfMemory),
        Err(_) => {
            let _ = eprintln!(rt; "error: an argument is not UTF-8");
            Err(Ending::Words)
        }
    }
}

/// What the words of a program say. None where they ask for help, which is printed. Why they say nothing is told on the standard
/// error.
pub(crate) fn told<T: Drop>(
    rt: &HostRuntime,
    parsed: Result<T, Error>,
) -> Result<Option<T>, Ending> {
    let error = match parsed {
        Ok(line) => return Ok(Some(line)),
        Err(error) => error,
    };
    if error.kind() == ErrorKind::OutOfMemory {
        return Err(Ending::OutOfMemory);
    }
    if error.kind() == ErrorKind::DisplayHelp {
        let help = format!(in rt.alloc(); "{error}")?;
        write_out(rt, help.as_str())?;
        return Ok(None);
    }
    match error.print(rt) {
        Ok(()) => Err(Ending::Words),
        Err(_) => Err(Ending::Unwritable),
    }
}

/// Writes a text to the standard output.
pub fn write_out(rt: &HostRuntime, text: &str) -> Result<(), Ending> {
    let mut output = Counted::new(io::writer(rt));
    match write_and_flush(&mut output, text.as_bytes()) {
        Ok(()) => Ok(()),
        Err(_) => Err(Ending::Unwritable),
    }
}

/// The status of a program with this ending. That it could not write, or is out of memory, is told on the standard error.
pub fn status_of(rt: &HostRuntime, ended: Result<u8, Ending>) -> u8 {
    match ended {
        Ok(status) => status,
        Err(ending) => {
            if let Some(complaint) = ending.complaint() {
                let _ = eprintln!(rt; "{complaint}");
            }
            ending.status()
        }
    }
}
