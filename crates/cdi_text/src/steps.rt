//! Ways into a document.

use crate::key_lines::is_bare;
use std::fmt;

/// A step of the way into a document.
#[derive(Debug, PartialEq, Eq, Drop)]
pub enum Step {
    /// To the value at a key.
    Key(String),
    /// To an entry of a list, from 0.
    Entry(usize),
}

/// A way from a document to a value in it, step by step.
///
/// It prints as in `methods[0].body`: a dot between a key and what is before it, and the number of an entry in brackets.
/// A key that a document has to quote is printed with quotes. An empty path, which leads to the whole document, prints
/// nothing.
#[derive(Debug, PartialEq, Eq, Drop)]
pub struct Path(pub Vec<Step>);

impl fmt::Display for Path {
    fn fmt<W: fmt::Write>(&self, f: &mut fmt::Formatter<W>) -> fmt::Result {
        let mut is_first = true;
        for step in &self.0 {
            match step {
                Step::Key(key) => {
                    let key = KeyText(key.as_str());
                    if is_first {
                        write!(f, "{key}")?;
                    } else {
                        write!(f, ".{key}")?;
                    }
                }
                Step::Entry(index) => write!(f, "[{index}]")?,
            }
            is_first = false;
        }
        Ok(())
    }
}

/// A key as a document writes it: bare, if it may be.
#[derive(Clone, Copy)]
struct KeyText<'a>(&'a str);

impl fmt::Display for KeyText<'_> {
    fn fmt<W: fmt::Write>(&self, f: &mut fmt::Formatter<W>) -> fmt::Result {
        let key = self.0;
        if is_bare(key.as_bytes()) {
            write!(f, "{key}")
        } else {
            write!(f, "{key:?}")
        }
    }
}
