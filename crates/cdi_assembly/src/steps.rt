//! The commands of a script, with the lines at which they begin.

ghost use Rattle.std.specs.Prelude.{◌≡◌, ◌<◌, ◌++◌, [], ◌∷◌, List, IfOk, IfSome, MatchOption, OnOk, length};
ghost use Rattle.cdi_lines.specs.Lines.{NoFeed, lines};
ghost use Rattle.cdi_model.specs.Bytes.{feed};
ghost use Rattle.cdi_lines.specs.declared.command.Command.{Command as AnyCommand};
ghost use Rattle.cdi_script.specs.Commands.{commands, outside, unclosed};
ghost use Rattle.cdi_script.specs.Reads.{Reads};
ghost use Rattle.cdi_assembly.specs.Steps.{commands_of_steps, LeaveAlike, TakesOne};

use cdi_container::{Command, Said, read_line};
use cdi_lines::find_feed;
use cdi_script::Mode;
use std::alloc::{AllocError, Global};
use std::mem;

/// A command of a script.
#[derive(Debug, Drop)]
pub(crate) struct Step {
    /// The line at which it begins, from 1.
    pub(crate) line: usize,
    /// Of a batch, the lines at which its edits begin.
    pub(crate) edit_lines: Vec<usize>,
    pub(crate) command: Command,
}

/// The commands that a script spells, in order. It takes memory for all of them.
pub(crate) fn steps_of(alloc: Global, script: &[u8]) -> Result<Vec<Step>, AllocError>
    ensures { IfOk result (λ steps. LeaveAlike (commands_of_steps steps.items) (commands script.now)) }
{
    let mut reading = Reading::new(alloc);
    let mut rest = script;
    while let Some((line, after)) = split_line(rest) {
        reading.take_line(line)?;
        rest = after;
    }
    reading.end(rest)
}

/// The first line of a text and what comes after it, if a line feed ends it.
fn split_line(text: &[u8]) -> Option<(&[u8], &[u8])>
    ensures shorter { IfSome result (λ split. length split.1.now < length text.now) }
    ensures cut { MatchOption result (NoFeed text.now)
        (λ split. NoFeed split.0.now × (text.now ≡ split.0.now ++ feed ∷ split.1.now)) }
{
    let end = find_feed(text)?;
    Some((&text[..end], &text[end + 1..]))
}

/// What was read of a script.
#[derive(Drop)]
struct Reading {
    alloc: Global,
    mode: Mode,
    /// How many lines were read.
    line: usize,
    /// The line at which begins what is open.
    begin: usize,
    edit_lines: Vec<usize>,
    steps: Vec<Step>,
}

impl Reading {
    fn new(alloc: Global) -> Reading
        ensures mode { result.mode ≡ outside }
        ensures steps { result.steps.items ≡ [] }
    {
        Reading {
            alloc,
            mode: Mode::new(),
            line: 0,
            begin: 0,
            edit_lines: Vec::new(alloc),
            steps: Vec::new(alloc),
        }
    }

    /// Takes a line.
    fn take_line(&mut self, line: &[u8]) -> Result<(), AllocError>
        ensures { OnOk result (TakesOne self.old self.new line.now) }
    {
        self.note_line(line)?;
        match self.mode.take_line(self.alloc, line)? {
            Some(command) => self.push(command),
            None => Ok(()),
        }
    }

    /// Notes where the next line is, and what it begins.
    fn note_line(&mut self, line: &[u8]) -> Result<(), AllocError>
        ensures mode { OnOk result (self.new.mode ≡ self.old.mode) }
        ensures steps { OnOk result (self.new.steps ≡ self.old.steps) }
    {
        self.line = self.line.saturating_add(1);
        if !self.mode.is_open() {
            self.begin = self.line;
        } else if !self.mode.is_in_put() && begins_edit(self.alloc, line)? {
            self.edit_lines.push(self.line)?;
        }
        Ok(())
    }

    /// Appends a command that is complete.
    fn push(&mut self, command: Command) -> Result<(), AllocError>
        ensures mode { OnOk result (self.new.mode ≡ self.old.mode) }
        ensures steps { OnOk result (commands_of_steps self.new.steps.items
            ≡ commands_of_steps self.old.steps.items ++ command ∷ []) }
    {
        let edit_lines = mem::replace(&mut self.edit_lines, Vec::new(self.alloc));
        self.steps.push(Step {
            line: self.begin,
            edit_lines,
            command,
        })?;
        Ok(())
    }

    /// The commands, where this is left, in which no line ends.
    fn end(mut self, rest: &[u8]) -> Result<Vec<Step>, AllocError>
        requires { NoFeed rest.now }
        ensures { (whole : List AnyCommand) → Reads self.mode (commands_of_steps self.steps.items) (lines rest.now) whole
            → IfOk result (λ steps. LeaveAlike (commands_of_steps steps.items) whole) }
    {
        if rest.is_empty() {
            return self.into_steps();
        }
        self.take_line(rest)?;
        self.into_steps()
    }

    /// The commands, where no line is left. A batch or a put block without its end is none.
    fn into_steps(mut self) -> Result<Vec<Step>, AllocError>
        ensures { IfOk result (λ steps. commands_of_steps steps.items ≡ commands_of_steps self.steps.items ++ unclosed self.mode) }
    {
        if self.mode.is_open() {
            self.push(Command::Unreadable)?;
        }
        Ok(self.steps)
    }
}

/// Whether a line outside a put block begins an edit.
fn begins_edit(alloc: Global, line: &[u8]) -> Result<bool, AllocError> {
    match read_line(alloc, line) {
        Ok(Said::PutBegins) | Ok(Said::Edit(_)) => Ok(true),
        Ok(_) => Ok(false),
        Err(error) => match error {
            cdi_container::Error::OutOfMemory => Err(AllocError),
            cdi_container::Error::Refused(_) => Ok(false),
        },
    }
}
