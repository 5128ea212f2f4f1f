//! The texts of call sites.
ghost use Rattle.std.specs.Prelude.{◌≡◌, ◌↔◌, Some, option_map};
ghost use Rattle.cdi_model.specs.declared.decl.CallDecl.{CallDecl as ACall};
ghost use Rattle.cdi_model.specs.CallText.{around_dot, call_of, SpellsCall};

use crate::decl::CallDecl;
use crate::name::{Ident, is_ident};

impl CallDecl {
    /// The call site that a text spells, if it is one: an identifier, a dot and an identifier. It takes no memory.
    pub fn parse(text: &[u8]) -> Option<CallDecl>
        ensures value { result ≡ call_of text.now }
        ensures meaning { (call : ACall) → (result ≡ Some call) ↔ SpellsCall text.now call }
    {
        call_of(text)
    }
}

fn call_of(text: &[u8]) -> Option<CallDecl>
    ensures { result ≡ call_of text.now }
{
    let (point, method) = around_dot(text)?;
    if !is_ident(point) {
        return None;
    }
    if !is_ident(method) {
        return None;
    }
    Some(CallDecl {
        point: Ident::new(point),
        method: Ident::new(method),
    })
}

/// The text before the first dot, and the text after it.
fn around_dot(text: &[u8]) -> Option<(&[u8], &[u8])>
    ensures { option_map (λ p. (p.0.now, p.1.now)) result ≡ around_dot text.now }
{
    for (index, byte) in text.iter().enumerate() {
        if *byte == b'.' {
            return Some((&text[..index], &text[index + 1..]));
        }
    }
    None
}
