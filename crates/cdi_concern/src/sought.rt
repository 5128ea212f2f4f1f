//! The words of what an edit moves.
ghost use Rattle.std.specs.Prelude.{◌≡◌, ◌++◌, flat_map, map, IfOk, OnOk};
ghost use Rattle.cdi_postings.specs.Words.{word_at};
ghost use Rattle.cdi_postings.specs.declared.word.Reason.TheVariants as reasons;
ghost use Rattle.cdi_concern.specs.Concern.{is_of_kind, names_of_kind, types_of_beans, words_asking, words_sought, words_writing};

use crate::moved::Moved;
use cdi_effective::Effective;
use cdi_index::Index;
use cdi_model::{DeclKey, Kind, Name};
use cdi_postings::{Reason, Word};
use std::alloc::{AllocError, Global};

pub(crate) fn is_of_kind(kind: Kind, key: &DeclKey) -> bool
    ensures { result ≡ is_of_kind kind key.now }
{
    *key == DeclKey {
        kind,
        name: key.name,
    }
}

/// The names of the keys of a kind.
pub(crate) fn names_of_kind(
    alloc: Global,
    kind: Kind,
    keys: &[DeclKey],
) -> Result<Vec<Name>, AllocError>
    ensures { IfOk result (λ names. names.items ≡ names_of_kind kind keys.now) }
{
    let mut names = Vec::new(alloc);
    for key in keys {
        if is_of_kind(kind, key) {
            names.push(key.name)?;
        }
    }
    Ok(names)
}

/// Appends the words of some names, for a reason.
fn push_words(reason: Reason, names: &[Name], words: &mut Vec<Word>) -> Result<(), AllocError>
    ensures { OnOk result (words.new.items ≡ words.old.items ++ map (word_at reason) names.now) }
{
    for name in names {
        words.push(Word {
            reason,
            name: *name,
        })?;
    }
    Ok(())
}

/// Appends the words of what asks for a type of some beans.
fn push_words_of_beans(beans: &[Effective], words: &mut Vec<Word>) -> Result<(), AllocError>
    ensures { OnOk result (words.new.items ≡ words.old.items ++ map (word_at reasons.Asks) (types_of_beans beans.now)) }
{
    for bean in beans {
        push_words(Reason::Asks, bean.types.as_slice(), words)?;
    }
    Ok(())
}

/// Appends the words of what asks for a type of a bean of one of some classes.
fn push_words_asking(
    index: &Index,
    classes: &[Name],
    words: &mut Vec<Word>,
) -> Result<(), AllocError>
    ensures { OnOk result (words.new.items ≡ words.old.items ++ words_asking index.now.decls classes.now) }
{
    for class in classes {
        push_words_of_beans(index.records(class), words)?;
    }
    Ok(())
}

/// Appends the words of what writes the name of one of some declarations.
fn push_words_writing(keys: &[DeclKey], words: &mut Vec<Word>) -> Result<(), AllocError>
    ensures { OnOk result (words.new.items ≡ words.old.items ++ words_writing keys.now) }
{
    for key in keys {
        words.push(Word {
            reason: Reason::Writes(key.kind),
            name: key.name,
        })?;
    }
    Ok(())
}

/// The words of what an edit moves.
#[tactic(auto, unfolding(crate::specs::Concern::words_sought))]
pub(crate) fn words_sought(
    alloc: Global,
    index: &Index,
    moved: &Moved<'_>,
) -> Result<Vec<Word>, AllocError>
    ensures { IfOk result (λ words. words.items ≡ words_sought index.now.decls moved.now) }
{
    let qualifiers = names_of_kind(alloc, Kind::Qualifier, moved.edited)?;
    let bindings = names_of_kind(alloc, Kind::Binding, moved.affected)?;
    let beans = names_of_kind(alloc, Kind::Bean, moved.affected)?;
    let mut words = Vec::new(alloc);
    push_words(Reason::Qualifies, qualifiers.as_slice(), &mut words)?;
    push_words(Reason::Binds, bindings.as_slice(), &mut words)?;
    push_words(Reason::Asks, moved.types, &mut words)?;
    push_words(Reason::Fires, moved.events, &mut words)?;
    push_words_asking(index, beans.as_slice(), &mut words)?;
    push_words_asking(index, moved.classes, &mut words)?;
    push_words_writing(moved.edited, &mut words)?;
    Ok(words)
}
