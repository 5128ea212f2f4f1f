//! Edits that are made on a list of their own.
ghost use Rattle.std.specs.Prelude.{◌≡◌, IfOk, OnOk, OnErr};
ghost use Rattle.cdi_model.specs.Answering.{Answers};
ghost use Rattle.cdi_model.specs.Edits.{answer_of_edit, edited_key};
ghost use Rattle.cdi_index.specs.State.{drafted, drafted_from};

use cdi_model::{DeclKey, Decls, Edit, Error};
use std::alloc::{AllocError, Global};
use std::marker::Model;

/// Edits that are made, one after another, on a copy of the declarations of an index, and that it may stage.
#[derive(Drop)]
pub struct Draft {
    pub(crate) decls: Decls,
    pub(crate) keys: Vec<DeclKey>,
}

impl Model for Draft {
    ghost use Rattle.cdi_index.specs.State.{Drafted};

    ghost Value = { Drafted };

    ghost view = { λ d. record { decls = d.decls; keys = d.keys.items } };
}

impl Draft {
    /// A copy of some declarations, without an edit.
    pub(crate) fn of(alloc: Global, decls: &Decls) -> Result<Draft, AllocError>
        ensures { IfOk result (λ draft. draft ≡ drafted_from decls.now) }
    {
        Ok(Draft {
            decls: decls.copy()?,
            keys: Vec::new(alloc),
        })
    }

    /// The kinds and names of the edits, in order. It takes no memory.
    pub fn keys(&self) -> &[DeclKey]
        ensures { result.now ≡ self.now.keys }
    {
        self.keys.as_slice()
    }

    /// Makes an edit. It takes memory as `Decls::apply` does, and for its kind and name.
    ///
    /// # Errors
    ///
    /// `OutOfMemory`, or the refusal of the edit on the declarations that those before it leave.
    pub fn apply(&mut self, edit: Edit) -> Result<(), Error>
        ensures answer { Answers result (answer_of_edit self.old.decls edit) }
        ensures ok { OnOk result (self.new ≡ drafted self.old edit) }
        ensures err { OnErr result (self.new ≡ self.old) }
    {
        self.keys.push(edited_key(&edit))?;
        match self.decls.apply(edit) {
            Ok(()) => Ok(()),
            Err(error) => {
                self.keys.pop();
                Err(error)
            }
        }
    }
}

/// The kind and name that an edit puts or removes.
fn edited_key(edit: &Edit) -> DeclKey
    ensures { result ≡ edited_key edit.now }
{
    match edit {
        Edit::Put(decl) => decl.key(),
        Edit::Remove(kind, name) => DeclKey {
            kind: *kind,
            name: *name,
        },
    }
}
