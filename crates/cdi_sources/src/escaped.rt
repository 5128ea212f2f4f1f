//! Paths as they are printed.

use std::alloc::{AllocError, Global};
use std::fmt;

/// A path as a line prints it: each control character of ASCII as an escape, such as `\n` or `\x1b`.
#[derive(Clone, Copy, Debug)]
pub struct Escaped<'a>(pub &'a str);

impl fmt::Display for Escaped<'_> {
    fn fmt<W: fmt::Write>(&self, f: &mut fmt::Formatter<W>) -> fmt::Result {
        for character in self.0.chars() {
            match character {
                '\n' => f.write_str("\\n")?,
                '\r' => f.write_str("\\r")?,
                '\t' => f.write_str("\\t")?,
                _ if character.is_ascii_control() => write_code(character, f)?,
                _ => write!(f, "{character}")?,
            }
        }
        Ok(())
    }
}

/// Writes an escape with the number of a character.
fn write_code<W: fmt::Write>(character: char, f: &mut fmt::Formatter<W>) -> fmt::Result {
    let code = u32::from(character);
    write!(f, "\\x{code:02x}")
}

/// Bytes as text, with an escape for each byte that is no part of UTF-8, such as `\xff`.
pub(crate) fn text_of_bytes(alloc: Global, bytes: &[u8]) -> Result<String, AllocError> {
    let mut text = String::new(alloc);
    for chunk in bytes.utf8_chunks() {
        text.push_str(chunk.valid())?;
        let escapes = chunk.invalid().escape_ascii();
        write!(text, "{escapes}")?;
    }
    Ok(text)
}
