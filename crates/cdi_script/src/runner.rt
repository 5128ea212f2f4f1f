//! Running one command after another, and printing what each answered.
ghost use Rattle.std.specs.Prelude.{◌≡◌, ◌∷◌, ◌++◌, [], OnOk, OnErr, Ok, false};
ghost use Rattle.cdi_script.specs.Runner.{runner_on, RunsStep, Tries, PrintsNothing, Prints};
ghost use Rattle.cdi_script.specs.Text.{text_of_answer};

use cdi_bodies::Bodies;
use cdi_container::{Answer, Container};
use cdi_lines::Command;
use std::alloc::{AllocError, Global};
use std::io::Write;

/// Runs commands on the container that each call is given, and keeps what they print until it is written.
pub(crate) struct Runner {
    /// Leaves trace lines out.
    pub(crate) quiet: bool,
    /// Whether a command was refused.
    pub(crate) refused: bool,
    /// What is printed and not written yet.
    pub(crate) out: Vec<u8>,
    scratch: Vec<u8>,
}

impl Drop for Runner {
    fn drop(self) {
        let Runner {
            quiet: _,
            refused: _,
            out: _,
            scratch: _,
        } = self;
    }
}

impl Runner {
    pub(crate) fn new(alloc: Global, quiet: bool) -> Runner
        ensures out { result.out.items ≡ [] }
        ensures refused { result.refused ≡ false }
        ensures quiet { result.quiet ≡ quiet }
    {
        Runner {
            quiet,
            refused: false,
            out: Vec::new(alloc),
            scratch: Vec::new(alloc),
        }
    }

    /// Carries a command out, and prints its trace and its answer.
    pub(crate) fn execute<B: Bodies>(
        &mut self,
        container: &mut Container<B>,
        command: Command,
    ) -> Result<(), AllocError>
        ensures ok { OnOk result (RunsStep (runner_on self.old container.old) (runner_on self.new container.new) command) }
        ensures err { OnErr result (PrintsNothing self.old self.new) }
        ensures tries { OnErr result (Tries [] (command ∷ []) container.old container.new) }
    {
        let answer = container.execute(command)?;
        self.print(container, &answer)
    }

    /// Prints the trace that the container shows, and this answer after it. The text of both is built apart, so that at
    /// `Err` nothing is printed.
    fn print<B: Bodies>(
        &mut self,
        container: &Container<B>,
        answer: &Answer,
    ) -> Result<(), AllocError>
        ensures ok { OnOk result (Prints container.now self.old self.new answer.now) }
        ensures err { OnErr result (PrintsNothing self.old self.new) }
    {
        self.scratch.clear();
        if !self.quiet {
            container.push_trace(&mut self.scratch)?;
        }
        push_answer(&mut self.scratch, answer)?;
        self.out.extend_from_slice(self.scratch.as_slice())?;
        if let Answer::Refused { .. } = answer {
            self.refused = true;
        }
        Ok(())
    }
}

/// An answer and the end of its line.
fn push_answer(text: &mut Vec<u8>, answer: &Answer) -> Result<(), AllocError>
    ensures { OnOk result (text.new.items ≡ text.old.items ++ text_of_answer (Ok answer.now)) }
{
    writeln!(text, "{answer}").map_err(|_| AllocError)
}
