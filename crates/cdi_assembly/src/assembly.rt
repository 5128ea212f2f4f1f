//! Putting a deployment together of files.
ghost use Rattle.std.specs.Prelude.{◌≡◌, ◌++◌, true, IfOk, OnOk, Ok};
ghost use Rattle.cdi_model.specs.declared.edit.Edit.TheVariants.{Remove as RemoveEdit};
ghost use Rattle.cdi_admission.specs.Admission.{refusal_of_decl};
ghost use Rattle.cdi_container.specs.Editing.{admitted, change_of, put_of};
ghost use Rattle.cdi_script.specs.Commands.{commands};
ghost use Rattle.cdi_script.specs.Left.{left_by, left_by_all, left_by_batch, left_by_change};
ghost use Rattle.std.specs.List.{list_all};
ghost use Rattle.cdi_assembly.specs.Put.{answer_to_text, is_declaration, left_by_source, left_by_sources, put_text};
ghost use Rattle.cdi_assembly.specs.Put.{refused_as, refused_from, told};

use crate::origins::Origins;
use crate::problem::{Begin, Problem, Repeated};
use crate::steps::{Step, steps_of};
use cdi_container::{
    BatchError, Bodies, Command, Container, Edit, Error, PutDone, Refusal, Seq, read_decl,
};
use cdi_model::{Decl, DeclKey};
use cdi_sources::{Form, Source};
use std::alloc::{AllocError, Global};

/// What is known of a deployment that was put together of files.
#[derive(Drop)]
pub struct Assembly {
    alloc: Global,
    /// In which file each declaration is.
    pub origins: Origins,
    /// What was refused or repeated, in order.
    pub problems: Vec<Problem>,
}

/// Adds some files to what a container declares, in order: puts each declaration, and carries out the edits and batches of each
/// script. Any other command of a script is refused. It takes memory for the commands of a script, and for what the container
/// keeps.
pub fn assemble<B: Bodies>(
    alloc: Global,
    container: &mut Container<B>,
    sources: &[Source],
) -> Result<Assembly, AllocError>
    ensures decls { OnOk result (container.new.decls ≡ left_by_sources container.old.decls sources.now) }
    ensures told { IfOk result (λ a. list_all is_declaration sources.now ≡ true
        → told a.problems.items ≡ refused_from 0 container.old.decls sources.now) }
    ensures book { OnOk result (container.new.book ≡ container.old.book) }
{
    let mut assembly = Assembly {
        alloc,
        origins: Origins::new(alloc),
        problems: Vec::new(alloc),
    };
    for (position, source) in sources.iter().enumerate() {
        assembly.add(container, position, source)?;
    }
    Ok(assembly)
}

/// What an edit of a batch does.
#[derive(Drop)]
enum Change {
    Puts(DeclKey),
    Removes(DeclKey),
    /// Its text is refused.
    IsRefused(Problem),
}

impl Assembly {
    /// Adds a file.
    fn add<B: Bodies>(
        &mut self,
        container: &mut Container<B>,
        position: usize,
        source: &Source,
    ) -> Result<(), AllocError>
        ensures decls { OnOk result (container.new.decls ≡ left_by_source container.old.decls source.now) }
        ensures told { OnOk result (is_declaration source.now ≡ true → told self.new.problems.items
            ≡ told self.old.problems.items ++ refused_as position (answer_to_text container.old.decls source.now.text.items)) }
        ensures book { OnOk result (container.new.book ≡ container.old.book) }
    {
        let text = source.text.as_slice();
        match source.form {
            Form::Declaration => {
                let begin = Begin {
                    source: position,
                    line: 0,
                };
                self.put(container, begin, text)
            }
            Form::Script => self.run_edits(container, position, text),
        }
    }

    /// Carries out the edits and batches of a script, in order.
    fn run_edits<B: Bodies>(
        &mut self,
        container: &mut Container<B>,
        source: usize,
        script: &[u8],
    ) -> Result<(), AllocError>
        ensures decls { OnOk result (container.new.decls ≡ left_by_all container.old.decls (commands script.now)) }
        ensures book { OnOk result (container.new.book ≡ container.old.book) }
    {
        for step in steps_of(self.alloc, script)? {
            self.take_step(container, source, step)?;
        }
        Ok(())
    }

    /// Carries out a command, if it is an edit or a batch.
    fn take_step<B: Bodies>(
        &mut self,
        container: &mut Container<B>,
        source: usize,
        step: Step,
    ) -> Result<(), AllocError>
        ensures decls { OnOk result (container.new.decls ≡ left_by container.old.decls step.command) }
        ensures book { OnOk result (container.new.book ≡ container.old.book) }
    {
        let Step {
            line,
            edit_lines,
            command,
        } = step;
        let begin = Begin { source, line };
        match command {
            Command::Edit(edit) => self.make(container, begin, edit),
            Command::Batch(edits) => self.make_batch(container, begin, &edit_lines, edits),
            _ => self.refuse(begin, Refusal::BadCommand),
        }
    }

    /// Makes an edit.
    fn make<B: Bodies>(
        &mut self,
        container: &mut Container<B>,
        begin: Begin,
        edit: Edit,
    ) -> Result<(), AllocError>
        ensures decls { OnOk result (container.new.decls ≡ left_by_change container.old.decls (change_of edit)) }
        ensures book { OnOk result (container.new.book ≡ container.old.book) }
    {
        match edit {
            Edit::Put { text } => self.put(container, begin, text.as_slice()),
            Edit::Remove { kind, name } => self.remove(container, begin, DeclKey { kind, name }),
            Edit::PutDecl { decl } => self.put_made(container, begin, Box::into_inner(decl)),
        }
    }

    /// Puts the declaration that a text spells.
    fn put<B: Bodies>(
        &mut self,
        container: &mut Container<B>,
        begin: Begin,
        text: &[u8],
    ) -> Result<(), AllocError>
        ensures decls { OnOk result (container.new.decls ≡ put_text container.old.decls text.now) }
        ensures told { OnOk result (told self.new.problems.items
            ≡ told self.old.problems.items ++ refused_as begin.source (answer_to_text container.old.decls text.now)) }
        ensures book { OnOk result (container.new.book ≡ container.old.book) }
    {
        match container.put(text) {
            Ok(put) => self.note_put(begin.source, key_of(put)),
            Err(Error::OutOfMemory) => Err(AllocError),
            Err(Error::Refused(refusal)) => {
                let problem = begin.refused_text(self.alloc, text, refusal)?;
                self.problems.push(problem)?;
                Ok(())
            }
        }
    }

    /// Puts a declaration that a program made.
    fn put_made<B: Bodies>(
        &mut self,
        container: &mut Container<B>,
        begin: Begin,
        decl: Decl,
    ) -> Result<(), AllocError>
        ensures decls { OnOk result (container.new.decls
            ≡ left_by_change container.old.decls (put_of (admitted (refusal_of_decl decl) decl))) }
        ensures book { OnOk result (container.new.book ≡ container.old.book) }
    {
        match container.put_decl(decl) {
            Ok(put) => self.note_put(begin.source, key_of(put)),
            Err(Error::OutOfMemory) => Err(AllocError),
            Err(Error::Refused(refusal)) => self.refuse(begin, refusal),
        }
    }

    /// Removes the declaration of a key.
    fn remove<B: Bodies>(
        &mut self,
        container: &mut Container<B>,
        begin: Begin,
        key: DeclKey,
    ) -> Result<(), AllocError>
        ensures decls { OnOk result (container.new.decls ≡ left_by_change container.old.decls (Ok (RemoveEdit key.kind key.name))) }
        ensures book { OnOk result (container.new.book ≡ container.old.book) }
    {
        match container.remove(key.kind, key.name) {
            Ok(()) => {
                self.origins.remove(&key);
                Ok(())
            }
            Err(Error::OutOfMemory) => Err(AllocError),
            Err(Error::Refused(refusal)) => self.refuse(begin, refusal),
        }
    }

    /// Makes a batch, whose edits begin in these lines.
    fn make_batch<B: Bodies>(
        &mut self,
        container: &mut Container<B>,
        begin: Begin,
        edit_lines: &[usize],
        edits: Seq<Edit>,
    ) -> Result<(), AllocError>
        ensures decls { OnOk result (container.new.decls ≡ left_by_batch container.old.decls edits) }
        ensures book { OnOk result (container.new.book ≡ container.old.book) }
    {
        let edits = edits.into_vec();
        let changes = changes_of(self.alloc, begin, edit_lines, &edits)?;
        match container.batch(edits) {
            Ok(()) => self.note_changes(begin.source, &changes),
            Err(BatchError::OutOfMemory) => Err(AllocError),
            Err(BatchError::Refused { refusal, edit }) => {
                let begin = begin_of_edit(begin, edit_lines, edit);
                self.refuse_edit(begin, refusal, change_at(changes, edit))
            }
        }
    }

    /// Notes that a batch is refused for an edit, or for itself.
    fn refuse_edit(
        &mut self,
        begin: Begin,
        refusal: Refusal,
        change: Option<Change>,
    ) -> Result<(), AllocError> {
        match change {
            Some(Change::IsRefused(problem)) => {
                self.problems.push(problem)?;
                Ok(())
            }
            _ => self.refuse(begin, refusal),
        }
    }

    /// Notes where a declaration is that was put.
    fn note_put(&mut self, source: usize, key: DeclKey) -> Result<(), AllocError>
        ensures { OnOk result (told self.new.problems.items ≡ told self.old.problems.items) }
    {
        let DeclKey { kind, name } = key;
        match self.origins.insert(key, source)? {
            Some(before) if before != source => {
                self.problems.push(Problem::Repeated(Repeated {
                    kind,
                    name,
                    before,
                    source,
                }))?;
                Ok(())
            }
            _ => Ok(()),
        }
    }

    /// Notes where declarations are after a batch.
    fn note_changes(&mut self, source: usize, changes: &[Change]) -> Result<(), AllocError> {
        for change in changes {
            match change {
                Change::Puts(key) => self.note_put(source, *key)?,
                Change::Removes(key) => self.origins.remove(key),
                Change::IsRefused(_) => {}
            }
        }
        Ok(())
    }

    /// Notes that a command is refused.
    fn refuse(&mut self, begin: Begin, refusal: Refusal) -> Result<(), AllocError> {
        self.problems.push(begin.refused(self.alloc, refusal))?;
        Ok(())
    }
}

/// The key of what was put.
fn key_of(put: PutDone) -> DeclKey {
    DeclKey {
        kind: put.kind,
        name: put.name,
    }
}

/// What each edit of a batch does.
fn changes_of(
    alloc: Global,
    begin: Begin,
    edit_lines: &[usize],
    edits: &[Edit],
) -> Result<Vec<Change>, AllocError> {
    let mut changes = Vec::with_capacity(alloc, edits.len())?;
    let mut number = 0usize;
    for edit in edits {
        number = number.saturating_add(1);
        let begin = begin_of_edit(begin, edit_lines, Some(number));
        changes.push(change_of(alloc, begin, edit)?)?;
    }
    Ok(changes)
}

fn change_of(alloc: Global, begin: Begin, edit: &Edit) -> Result<Change, AllocError> {
    match edit {
        Edit::Put { text } => match read_decl(alloc, text.as_slice()) {
            Ok(decl) => Ok(Change::Puts(decl.key())),
            Err(Error::OutOfMemory) => Err(AllocError),
            Err(Error::Refused(refusal)) => Ok(Change::IsRefused(begin.refused_text(
                alloc,
                text.as_slice(),
                refusal,
            )?)),
        },
        Edit::PutDecl { decl } => Ok(Change::Puts(decl.key())),
        Edit::Remove { kind, name } => Ok(Change::Removes(DeclKey {
            kind: *kind,
            name: *name,
        })),
    }
}

/// Where the edit of a number begins, counted from 1, or else the batch.
fn begin_of_edit(begin: Begin, edit_lines: &[usize], edit: Option<usize>) -> Begin {
    let Some(number) = edit else {
        return begin;
    };
    match edit_lines.get(number.saturating_sub(1)) {
        Some(line) => Begin {
            source: begin.source,
            line: *line,
        },
        None => begin,
    }
}

/// What the edit of a number does, counted from 1.
fn change_at(changes: Vec<Change>, edit: Option<usize>) -> Option<Change> {
    let index = edit?.checked_sub(1)?;
    changes.into_iter().nth(index)
}
