//! Findings as JSON.
use crate::finding::Finding;
use std::alloc::{AllocError, Global};

/// The findings as one JSON array, in order, with an object each. It takes memory for the text.
pub fn json_of(alloc: Global, findings: &Vec<Finding<'_>>) -> Result<String, AllocError> {
    match serde_json::to_string_pretty(alloc, findings) {
        Ok(text) => Ok(text),
        Err(_) => Err(AllocError),
    }
}
