//! What is told of a fault.
use crate::words::TOLD_LIMIT;
use cdi_effective::BeanId;
use std::alloc::{AllocError, Global};

/// What is told of a fault.
#[derive(Debug, Drop)]
pub struct Advice {
    /// What is wanted where a bean is: a type and its qualifiers as a question writes them, or a name.
    pub wanted: Option<String>,
    /// The beans that were considered.
    pub beans: Beans,
    /// What to write, in one line.
    pub help: String,
}

/// A bean that was considered.
#[derive(Debug, Drop)]
pub struct Candidate {
    pub bean: BeanId,
    /// Why it was taken or left.
    pub text: String,
}

/// The first of the beans that were considered, in the order of the bean list, and how many other beans there are.
#[derive(Debug, Drop)]
pub struct Beans {
    pub candidates: Vec<Candidate>,
    pub others: usize,
}

impl Beans {
    pub(crate) fn new(alloc: Global) -> Beans {
        Beans {
            candidates: Vec::new(alloc),
            others: 0,
        }
    }

    /// Whether one more is told.
    pub(crate) fn has_room(&self) -> bool {
        self.candidates.len() < TOLD_LIMIT
    }

    pub(crate) fn push(&mut self, bean: BeanId, text: String) -> Result<(), AllocError> {
        self.candidates.push(Candidate { bean, text })?;
        Ok(())
    }

    /// Counts one more that is not told.
    pub(crate) fn pass(&mut self) {
        self.others = self.others.saturating_add(1);
    }

    pub(crate) fn copy(&self, alloc: Global) -> Result<Beans, AllocError> {
        let mut candidates = Vec::with_capacity(alloc, self.candidates.len())?;
        for candidate in &self.candidates {
            candidates.push(Candidate {
                bean: candidate.bean,
                text: candidate.text.clone()?,
            })?;
        }
        Ok(Beans {
            candidates,
            others: self.others,
        })
    }
}

impl Advice {
    /// A line of help alone.
    pub(crate) fn of_help(alloc: Global, help: String) -> Advice {
        Advice {
            wanted: None,
            beans: Beans::new(alloc),
            help,
        }
    }
}
