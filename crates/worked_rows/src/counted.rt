//! The lines of counted blocks. Each says how many times its text is there.
use std::alloc::AllocError;
use std::io::Write;

/// A text, and how many times it is there.
#[derive(Clone, Copy)]
pub struct Times<'t> {
    pub count: usize,
    pub text: &'t str,
}

impl<'t> Times<'t> {
    /// What a line says: a count, a space, and the text.
    pub fn of_line(line: &'t str) -> Option<Times<'t>> {
        let (count, text) = line.split_once(' ')?;
        let count = count.parse().ok()?;
        Some(Times { count, text })
    }

    /// Appends what the text stands for, so many times, and tells whether each of its escapes is known.
    pub fn push_to(&self, script: &mut Vec<u8>) -> Result<bool, AllocError> {
        for number in 0..self.count {
            if !push_meant(script, self.text, number + 1)? {
                return Ok(false);
            }
        }
        Ok(true)
    }
}

/// Appends what a text stands for at the time of this number, and tells whether each of its escapes is known.
fn push_meant(script: &mut Vec<u8>, text: &str, number: usize) -> Result<bool, AllocError> {
    let mut is_escape = false;
    for byte in text.as_bytes() {
        if is_escape {
            if !push_escape(script, *byte, number)? {
                return Ok(false);
            }
            is_escape = false;
        } else if *byte == b'\\' {
            is_escape = true;
        } else {
            script.push(*byte)?;
        }
    }
    Ok(!is_escape)
}

/// Appends what a backslash with this byte after it stands for, and tells whether it stands for anything.
fn push_escape(script: &mut Vec<u8>, byte: u8, number: usize) -> Result<bool, AllocError> {
    match byte {
        b'n' => script.push(b'\n')?,
        b'r' => script.push(b'\r')?,
        b's' => script.push(b' ')?,
        b'!' => script.push(0xff)?,
        b'#' => write!(script, "{number}").map_err(|_| AllocError)?,
        _ => return Ok(false),
    }
    Ok(true)
}
