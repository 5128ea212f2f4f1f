//! Lists as texts.
ghost use Rattle.std.specs.Prelude.{◌≡◌, OnOk, IfOk, string_bytes};
ghost use Rattle.cdi_differences.specs.Wiring.{joined, text_of_names, text_of_observers};

use cdi_model::Name;
use cdi_observe::ObserverId;
use std::alloc::{AllocError, Global};

/// Names, separated by spaces.
pub(crate) fn text_of_names(alloc: Global, names: &[Name]) -> Result<String, AllocError>
    ensures { IfOk result (λ text. string_bytes text ≡ text_of_names names.now) }
{
    let mut text = String::new(alloc);
    for name in names {
        join(&mut text, name.as_str())?;
    }
    Ok(text)
}

/// Observer methods, separated by spaces.
pub(crate) fn text_of_observers(alloc: Global, ids: &[ObserverId]) -> Result<String, AllocError>
    ensures { IfOk result (λ text. string_bytes text ≡ text_of_observers ids.now) }
{
    let mut text = String::new(alloc);
    for id in ids {
        let id = format!(in alloc; "{id}")?;
        join(&mut text, id.as_str())?;
    }
    Ok(text)
}

/// Appends a word, after a space where it is not the first.
fn join(text: &mut String, word: &str) -> Result<(), AllocError>
    ensures { OnOk result (string_bytes text.new ≡ joined (string_bytes text.old) word.now) }
{
    if !text.is_empty() {
        text.push_str(" ")?;
    }
    text.push_str(word)?;
    Ok(())
}
