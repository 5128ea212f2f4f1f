//! What is refused or repeated where a deployment is put together.
ghost use Rattle.std.specs.Prelude.{◌≡◌, [], ◌∷◌, IfOk};
ghost use Rattle.cdi_assembly.specs.Put.{told_in};

use cdi_container::{Kind, Name, Refusal, explain_refusal};
use std::alloc::{AllocError, Global};

/// What is refused or repeated in a file.
#[derive(Debug, Drop)]
pub enum Problem {
    Refused(Refused),
    Repeated(Repeated),
}

/// A command that is refused. It changes nothing.
#[derive(Debug, Drop)]
pub struct Refused {
    /// The position of its file.
    pub source: usize,
    /// The line, from 1, if one is known.
    pub line: Option<usize>,
    pub refusal: Refusal,
    /// The way in the text to what is refused, as `methods[0].body`; empty where it is the whole text.
    pub way: String,
}

/// A declaration that a file puts in the place of the one of another file.
#[derive(Clone, Copy, Debug)]
pub struct Repeated {
    pub kind: Kind,
    pub name: Name,
    /// The position of the file whose declaration was there.
    pub before: usize,
    /// That of the file whose declaration is there now.
    pub source: usize,
}

/// Where a command begins: in which file, and in which line, from 1. A declaration that is a file of its own begins before
/// its first line, in line 0.
#[derive(Clone, Copy)]
pub(crate) struct Begin {
    pub(crate) source: usize,
    pub(crate) line: usize,
}

impl Begin {
    /// A refusal of the whole command.
    pub(crate) fn refused(self, alloc: Global, refusal: Refusal) -> Problem
        ensures { told_in result ≡ (self.source, refusal) ∷ [] }
    {
        Problem::Refused(Refused {
            source: self.source,
            line: self.line_if_known(),
            refusal,
            way: String::new(alloc),
        })
    }

    /// A refusal of a text that begins in the next line.
    pub(crate) fn refused_text(
        self,
        alloc: Global,
        text: &[u8],
        refusal: Refusal,
    ) -> Result<Problem, AllocError>
        ensures { IfOk result (λ problem. told_in problem ≡ (self.source, refusal) ∷ []) }
    {
        let Some(explanation) = explain_refusal(alloc, text)? else {
            return Ok(self.refused(alloc, refusal));
        };
        let line = match explanation.line {
            Some(line) => Some(self.line.saturating_add(line)),
            None => self.line_if_known(),
        };
        let path = explanation.path;
        Ok(Problem::Refused(Refused {
            source: self.source,
            line,
            refusal,
            way: format!(in alloc; "{path}")?,
        }))
    }

    fn line_if_known(self) -> Option<usize> {
        match self.line {
            0 => None,
            line => Some(line),
        }
    }
}
