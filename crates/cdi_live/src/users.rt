//! The declarations that use edited qualifiers.
ghost use Rattle.std.specs.Prelude.{◌≡◌, ◌++◌, map, IfOk, OnOk};
ghost use Rattle.cdi_live.specs.Users.{users_of_edited, word_edited, words_edited};

use crate::sides::Sides;
use cdi_model::{Decl, DeclKey, Kind};
use cdi_postings::{Reason, Word};
use std::alloc::{AllocError, Global};

/// Appends the word of what is edited, if it is a qualifier.
fn push_word(edited: &DeclKey, words: &mut Vec<Word>) -> Result<(), AllocError>
    ensures { OnOk result (words.new.items ≡ words.old.items ++ word_edited edited.now) }
{
    if let Kind::Qualifier = edited.kind {
        words.push(Word {
            reason: Reason::Qualifies,
            name: edited.name,
        })?;
    }
    Ok(())
}

/// The words of the edited qualifiers.
fn words_edited(alloc: Global, edited: &[DeclKey]) -> Result<Vec<Word>, AllocError>
    ensures { IfOk result (λ words. words.items ≡ words_edited edited.now) }
{
    let mut words = Vec::new(alloc);
    for key in edited {
        push_word(key, &mut words)?;
    }
    Ok(words)
}

/// The declarations that use a qualifier which a draft edits, in order. It takes memory for lists of them, and looks at these
/// alone.
pub(crate) fn users_of_edited<'a>(
    alloc: Global,
    sides: &Sides<'a>,
) -> Result<Vec<&'a Decl>, AllocError>
    ensures { IfOk result (λ list. map (λ d. d.now) list.items
        ≡ users_of_edited sides.now.index.now.decls sides.now.edited.now) }
{
    let words = words_edited(alloc, sides.edited)?;
    let index = sides.index;
    index.decls_under(alloc, &words)
}
