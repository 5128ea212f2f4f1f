//! Taking a script's bytes piece by piece.
ghost use Rattle.std.specs.Prelude.{◌≡◌, ◌<◌, ◌≤◌, ◌++◌, ◌∷◌, [], take, length, OnOk, OnErr, IfOk};
ghost use Rattle.cdi_model.specs.Bytes.{feed};
ghost use Rattle.cdi_lines.specs.Lines.{NoFeed};
ghost use Rattle.cdi_container.specs.History.{State};
ghost use Rattle.cdi_script.specs.Runner.{PrintsNothing};
ghost use Rattle.cdi_script.specs.Intake.{intake_on, TakesLine, Advances, EndsLastLine, EndsMode};
ghost use Rattle.cdi_script.specs.Intake.{TriesLine, TriesBytes, TriesLastLine, TriesMode, IsFresh};

use crate::mode::Mode;
use crate::runner::Runner;
use cdi_bodies::Bodies;
use cdi_container::Container;
use cdi_lines::{Command, Line, find_feed};
use std::alloc::{AllocError, Global};
use std::mem;

/// What was taken of a script. Its commands run on the container that each call is given.
pub(crate) struct Intake {
    alloc: Global,
    pub(crate) runner: Runner,
    /// What is kept of a line that isn't complete.
    line: Line,
    mode: Mode,
}

impl Drop for Intake {
    fn drop(self) {
        let Intake {
            alloc: _,
            runner: _,
            line: _,
            mode: _,
        } = self;
    }
}

impl Intake {
    pub(crate) fn new(alloc: Global, quiet: bool) -> Intake
        ensures fresh { IsFresh result }
        ensures quiet { result.runner.quiet ≡ quiet }
    {
        Intake {
            alloc,
            runner: Runner::new(alloc, quiet),
            line: Line::new(alloc),
            mode: Mode::new(),
        }
    }

    /// Takes bytes up to the end of a line, or all where no line ends, and tells how many.
    pub(crate) fn advance<B: Bodies>(
        &mut self,
        container: &mut Container<B>,
        chunk: &[u8],
    ) -> Result<usize, AllocError>
        requires { 0 < length chunk.now }
        ensures ok { IfOk result (λ n. Advances (intake_on self.old container.old) (intake_on self.new container.new) (take n chunk.now)) }
        ensures some { IfOk result (λ n. 0 < n) }
        ensures bound { IfOk result (λ n. n ≤ length chunk.now) }
        ensures err { OnErr result (PrintsNothing self.old.runner self.new.runner) }
        ensures tries { OnErr result (TriesBytes (intake_on self.old container.old) (intake_on self.new container.new) chunk.now) }
    {
        match find_feed(chunk) {
            None => {
                self.begin_line(chunk)?;
                Ok(chunk.len())
            }
            Some(end) => {
                self.end_line(container, &chunk[..end])?;
                Ok(end + 1)
            }
        }
    }

    /// Takes the end of input for the end of a line that has begun.
    pub(crate) fn end_last_line<B: Bodies>(
        &mut self,
        container: &mut Container<B>,
    ) -> Result<(), AllocError>
        ensures ok { OnOk result (EndsLastLine (intake_on self.old container.old) (intake_on self.new container.new)) }
        ensures err { OnErr result (PrintsNothing self.old.runner self.new.runner) }
        ensures tries { OnErr result (TriesLastLine (intake_on self.old container.old) (intake_on self.new container.new)) }
    {
        if self.line.is_empty() {
            Ok(())
        } else {
            self.end_line(container, &[])
        }
    }

    /// Refuses a put block or a batch without its end.
    pub(crate) fn end_mode<B: Bodies>(
        &mut self,
        container: &mut Container<B>,
    ) -> Result<(), AllocError>
        ensures ok { OnOk result (EndsMode (intake_on self.old container.old) (intake_on self.new container.new)) }
        ensures err { OnErr result (PrintsNothing self.old.runner self.new.runner) }
        ensures tries { OnErr result (TriesMode (intake_on self.old container.old) (intake_on self.new container.new)) }
    {
        if self.mode.is_open() {
            self.runner.execute(container, Command::Unreadable)
        } else {
            Ok(())
        }
    }

    /// Takes bytes that no line feed ends.
    fn begin_line(&mut self, piece: &[u8]) -> Result<(), AllocError>
        requires { NoFeed piece.now }
        ensures ok { OnOk result ((state : State) → Advances (intake_on self.old state) (intake_on self.new state) piece.now) }
        ensures err { OnErr result (PrintsNothing self.old.runner self.new.runner) }
    {
        self.line.push(piece)?;
        Ok(())
    }

    /// Takes the rest of a line.
    fn end_line<B: Bodies>(
        &mut self,
        container: &mut Container<B>,
        piece: &[u8],
    ) -> Result<(), AllocError>
        requires { NoFeed piece.now }
        ensures ok { OnOk result (Advances (intake_on self.old container.old) (intake_on self.new container.new) (piece.now ++ feed ∷ [])) }
        ensures err { OnErr result (PrintsNothing self.old.runner self.new.runner) }
        ensures tries { OnErr result (TriesBytes (intake_on self.old container.old) (intake_on self.new container.new) (piece.now ++ feed ∷ [])) }
    {
        if self.line.is_empty() {
            return self.take_line(container, piece);
        }
        self.line.push(piece)?;
        let line = mem::replace(&mut self.line, Line::new(self.alloc));
        self.take_line(container, line.as_slice())
    }

    /// Takes a whole line.
    fn take_line<B: Bodies>(
        &mut self,
        container: &mut Container<B>,
        line: &[u8],
    ) -> Result<(), AllocError>
        ensures ok { OnOk result (TakesLine (intake_on self.old container.old) (intake_on self.new container.new) line.now) }
        ensures err { OnErr result (PrintsNothing self.old.runner self.new.runner) }
        ensures tries { OnErr result (TriesLine (intake_on self.old container.old) (intake_on self.new container.new) line.now) }
    {
        match self.mode.take_line(self.alloc, line)? {
            None => Ok(()),
            Some(command) => self.runner.execute(container, command),
        }
    }
}
