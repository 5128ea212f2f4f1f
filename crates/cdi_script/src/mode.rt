//! What has begun and takes further lines: a put block, and a batch.
ghost use Rattle.std.specs.Prelude.{◌≡◌, [], ◌∷◌, None, Some, Ok, IfOk, OnOk, if◌then◌else◌, is_some};
ghost use Rattle.cdi_script.specs.Commands.{outside, taken, taken_said, taken_in_put, edited, commanded, batch_begun, batch_ended, unclosed};
ghost use Rattle.cdi_script.specs.Commands.{with_edit, command_of_batch, Edits, Spoiled};
ghost use Rattle.cdi_script.specs.Begun.{ServesOpen, ServesTaken};
ghost use Rattle.cdi_lines.specs.declared.command.Command.TheVariants.{Unreadable};

use cdi_container::BATCH_LIMIT;
use cdi_lines::{Block, Command, Edit, Said, ends_block, read_line};
use cdi_model::{Error, Seq};
use std::alloc::{AllocError, Global};
use std::marker::Model;

/// A batch that is open: its edits so far, at most one more than a batch may have, or that it is spoiled.
#[derive(Drop)]
struct OpenBatch {
    edits: Vec<Edit>,
    /// Whether a line that is no edit spoiled it.
    is_spoiled: bool,
}

impl Model for OpenBatch {
    ghost use Rattle.std.specs.Prelude.{if◌then◌else◌};
    ghost use Rattle.cdi_script.specs.Commands.{OpenBatch, Edits, Spoiled};

    ghost Value = { OpenBatch };

    ghost view = { λ b. if b.is_spoiled then Spoiled else Edits b.edits.items };
}

impl OpenBatch {
    /// A batch without edits.
    fn new(alloc: Global) -> OpenBatch
        ensures { result ≡ Edits [] }
    {
        OpenBatch {
            edits: Vec::new(alloc),
            is_spoiled: false,
        }
    }

    /// A batch that a line spoiled.
    fn spoiled(alloc: Global) -> OpenBatch
        ensures { result ≡ Spoiled }
    {
        OpenBatch {
            edits: Vec::new(alloc),
            is_spoiled: true,
        }
    }

    /// Adds an edit, as far as it matters.
    fn push(&mut self, edit: Edit) -> Result<(), AllocError>
        ensures { OnOk result (ServesOpen self.new (with_edit self.old edit)) }
    {
        if !self.is_spoiled && self.edits.len() <= BATCH_LIMIT {
            self.edits.push(edit)?;
        }
        Ok(())
    }

    /// The command of a batch that has ended.
    fn into_command(self) -> Command
        ensures { result ≡ command_of_batch self }
    {
        if self.is_spoiled {
            Command::Unreadable
        } else {
            Command::Batch(Seq::from_vec(self.edits))
        }
    }
}

/// What is open where a line of a script begins: a batch, a put block, or neither.
pub struct Mode {
    batch: Option<OpenBatch>,
    /// What is kept of a put block.
    block: Option<Block>,
}

impl Drop for Mode {
    fn drop(self) {
        let Mode { batch: _, block: _ } = self;
    }
}

impl Model for Mode {
    ghost use Rattle.cdi_script.specs.Commands.{Mode};

    ghost Value = { Mode };

    ghost view = { λ m. record { batch = m.batch; text = m.block } };
}

impl Mode {
    /// Nothing is open.
    pub fn new() -> Mode
        ensures { result ≡ outside }
    {
        Mode {
            batch: None,
            block: None,
        }
    }

    /// Whether a batch or a put block is open.
    pub fn is_open(&self) -> bool
        ensures { unclosed self.now ≡ (if result then Unreadable ∷ [] else []) }
    {
        self.batch.is_some() || self.block.is_some()
    }

    /// Whether a put block is open.
    pub fn is_in_put(&self) -> bool
        ensures { result ≡ is_some self.now.text }
    {
        self.block.is_some()
    }

    /// Takes a whole line without its line feed, and gives the command that it completes. It takes memory for the qualifiers
    /// of a question or a run, for a line of a put block, and for an edit of a batch; a batch keeps 257 edits at most. At `Err`
    /// what is open is lost in part, so nothing more may be taken.
    pub fn take_line(&mut self, alloc: Global, line: &[u8]) -> Result<Option<Command>, AllocError>
        ensures { IfOk result (λ command. ServesTaken command self.new (taken self.old line.now)) }
    {
        match self.block.take() {
            None => self.take_outside(alloc, line),
            Some(block) => self.take_in_put(block, line),
        }
    }

    fn take_outside(&mut self, alloc: Global, line: &[u8]) -> Result<Option<Command>, AllocError>
        requires { self.old.text ≡ None }
        ensures { IfOk result (λ command. ServesTaken command self.new (taken self.old line.now)) }
    {
        match read_line(alloc, line) {
            Ok(said) => self.take_said(alloc, said),
            Err(Error::OutOfMemory) => Err(AllocError),
            Err(Error::Refused(_)) => Ok(self.take_command(alloc, Command::Unreadable)),
        }
    }

    /// Takes what a line outside a put block says.
    fn take_said(&mut self, alloc: Global, said: Said) -> Result<Option<Command>, AllocError>
        requires { self.old.text ≡ None }
        ensures { IfOk result (λ command. ServesTaken command self.new (taken_said self.old.batch (Ok said))) }
    {
        match said {
            Said::Nothing => Ok(None),
            Said::PutBegins => {
                self.block = Some(Block::new(alloc));
                Ok(None)
            }
            Said::BatchBegins => {
                self.begin_batch(alloc);
                Ok(None)
            }
            Said::BatchEnds => Ok(Some(self.end_batch())),
            Said::Edit(edit) => self.take_edit(edit),
            Said::Command(command) => Ok(self.take_command(alloc, command)),
        }
    }

    /// Takes a line of a put block.
    fn take_in_put(&mut self, mut block: Block, line: &[u8]) -> Result<Option<Command>, AllocError>
        requires { self.old.text ≡ None }
        ensures { IfOk result (λ command. ServesTaken command self.new (taken_in_put self.old.batch block line.now)) }
    {
        if ends_block(line) {
            let text = block.into_text();
            return self.take_edit(Edit::Put { text });
        }
        block.push_line(line)?;
        self.block = Some(block);
        Ok(None)
    }

    /// Takes an edit that is complete.
    fn take_edit(&mut self, edit: Edit) -> Result<Option<Command>, AllocError>
        requires { self.old.text ≡ None }
        ensures { IfOk result (λ command. ServesTaken command self.new (edited self.old.batch edit)) }
    {
        match &mut self.batch {
            None => Ok(Some(Command::Edit(edit))),
            Some(batch) => {
                batch.push(edit)?;
                Ok(None)
            }
        }
    }

    /// Takes a command that is no edit.
    fn take_command(&mut self, alloc: Global, command: Command) -> Option<Command>
        requires { self.old.text ≡ None }
        ensures { ServesTaken result self.new (commanded self.old.batch command) }
    {
        if self.batch.is_none() {
            return Some(command);
        }
        self.batch = Some(OpenBatch::spoiled(alloc));
        None
    }

    /// Takes the line that begins a batch.
    fn begin_batch(&mut self, alloc: Global)
        requires { self.old.text ≡ None }
        ensures { ServesTaken None self.new (batch_begun self.old.batch) }
    {
        let batch = match self.batch {
            None => OpenBatch::new(alloc),
            Some(_) => OpenBatch::spoiled(alloc),
        };
        self.batch = Some(batch);
    }

    /// Takes the line that ends a batch.
    fn end_batch(&mut self) -> Command
        requires { self.old.text ≡ None }
        ensures { ServesTaken (Some result) self.new (batch_ended self.old.batch) }
    {
        match self.batch.take() {
            Some(batch) => batch.into_command(),
            None => Command::Unreadable,
        }
    }
}
