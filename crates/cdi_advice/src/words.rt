//! Texts.
use std::alloc::{AllocError, Global};
use std::fmt;

/// What a thing prints.
pub(crate) fn text_of<T: fmt::Display>(alloc: Global, thing: &T) -> Result<String, AllocError> {
    format!(in alloc; "{thing}")
}

/// A text with each `{}` replaced by the next of some words.
pub(crate) fn filled(alloc: Global, form: &str, words: &[&str]) -> Result<String, AllocError> {
    let mut text = String::new(alloc);
    let mut words = words.iter();
    for part in form.split("{}") {
        text.push_str(part)?;
        if let Some(word) = words.next() {
            text.push_str(word)?;
        }
    }
    Ok(text)
}

/// So many beans and items of a list are told at most.
pub(crate) const TOLD_LIMIT: usize = 32;

/// Items in a text, separated by commas: the first ones, and how many more there are.
#[derive(Drop)]
pub(crate) struct List {
    alloc: Global,
    text: String,
    count: usize,
}

impl List {
    pub(crate) fn new(alloc: Global) -> List {
        List {
            alloc,
            text: String::new(alloc),
            count: 0,
        }
    }

    pub(crate) fn push<T: fmt::Display>(&mut self, item: &T) -> Result<(), AllocError> {
        if self.count < TOLD_LIMIT {
            let comma = if self.text.is_empty() { "" } else { ", " };
            let item = format!(in self.alloc; "{comma}{item}")?;
            self.text.push_str(item.as_str())?;
        }
        self.count = self.count.saturating_add(1);
        Ok(())
    }

    /// The text; or that there is none.
    pub(crate) fn into_text(self) -> Result<String, AllocError> {
        let List {
            alloc,
            mut text,
            count,
        } = self;
        if text.is_empty() {
            text.push_str("none")?;
        }
        if count > TOLD_LIMIT {
            let more = count - TOLD_LIMIT;
            let more = format!(in alloc; " and {more} more")?;
            text.push_str(more.as_str())?;
        }
        Ok(text)
    }
}

/// The items as a list in a text; or that there is none.
pub(crate) fn listed<T: fmt::Display>(alloc: Global, items: &[T]) -> Result<String, AllocError> {
    let mut list = List::new(alloc);
    for item in items {
        list.push(item)?;
    }
    list.into_text()
}
