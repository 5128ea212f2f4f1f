//! Uses beside their texts.
ghost use Rattle.std.specs.Prelude.{◌≡◌, ◌++◌, IfOk, OnOk};
ghost use Rattle.cdi_model.specs.UseText.{text_of_use};

use cdi_model::Qual;
use std::alloc::{AllocError, Global};
use std::io::Write;

/// A use with its text.
#[derive(Drop)]
pub(crate) struct Written<'a> {
    pub(crate) binding: &'a Qual,
    pub(crate) text: Vec<u8>,
    ghost spelled: { text.items ≡ text_of_use binding.now },
}

impl<'a> Written<'a> {
    /// A use, with its text beside it. It takes memory for the text.
    pub(crate) fn of(alloc: Global, binding: &'a Qual) -> Result<Written<'a>, AllocError>
        ensures { IfOk result (λ written. written.binding.now ≡ binding.now) }
    {
        let mut text = Vec::new(alloc);
        push_text(&mut text, binding)?;
        Ok(Written { binding, text })
    }
}

/// Appends the text of a use.
fn push_text(text: &mut Vec<u8>, binding: &Qual) -> Result<(), AllocError>
    ensures { OnOk result (text.new.items ≡ text.old.items ++ text_of_use binding.now) }
{
    write!(text, "{binding}").map_err(|_| AllocError)
}
