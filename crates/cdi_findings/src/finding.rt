//! What a check finds.
ghost use Rattle.std.specs.Prelude.{◌≡◌, IfOk, None, string_bytes};
ghost use Rattle.cdi_faults.specs.FaultText.{text_of_fault};
ghost use Rattle.cdi_findings.specs.FindingText.{text_of_refusal};

use cdi_faults::Fault;
use cdi_model::{Kind, Name, Refusal};
use serde::Serialize;
use std::alloc::{AllocError, Global};

/// What sort of thing was found.
#[derive(Clone, Copy, Debug, PartialEq, Eq, Serialize)]
#[serde(rename_all = "lowercase")]
pub enum Sort {
    /// A declaration or a line of a script is refused. It changes nothing.
    Refusal,
    /// A declaration is in two files.
    Repeated,
    /// Something is wrong with the deployment.
    Fault,
}

/// What was found in a file.
#[derive(Debug, Drop, Serialize)]
pub struct Finding<'a> {
    pub sort: Sort,
    /// The path of the file.
    pub file: Option<&'a str>,
    /// The line, from 1, if one is known.
    pub line: Option<usize>,
    /// The code of the refusal or of the fault, such as `E04`.
    pub code: Option<String>,
    /// What it is, in one line that begins with its code.
    pub text: String,
    pub reasons: Option<Reasons<'a>>,
}

/// Why, and what to write.
#[derive(Debug, Drop, Serialize)]
pub struct Reasons<'a> {
    /// What is wanted where a bean is.
    pub wanted: Option<String>,
    /// The beans that were considered.
    pub beans: Vec<Considered<'a>>,
    /// How many other beans there are.
    pub others: usize,
    pub help: String,
}

/// A bean that was considered.
#[derive(Debug, Drop, Serialize)]
pub struct Considered<'a> {
    pub bean: String,
    pub file: Option<&'a str>,
    pub text: String,
}

impl<'a> Finding<'a> {
    /// A refusal at a line of a file, and at a way into its text, which may be empty.
    pub fn refusal(
        alloc: Global,
        file: Option<&'a str>,
        line: Option<usize>,
        refusal: Refusal,
        way: &str,
    ) -> Result<Finding<'a>, AllocError>
        ensures text { IfOk result (λ f. string_bytes f.text ≡ text_of_refusal refusal way.now) }
        ensures line { IfOk result (λ f. f.line ≡ line) }
    {
        let (code, word) = (refusal.code(), refusal.word());
        Ok(Finding {
            sort: Sort::Refusal,
            file,
            line,
            code: Some(String::from_str(alloc, code)?),
            text: if way.is_empty() {
                format!(in alloc; "{code} {word}")?
            } else {
                format!(in alloc; "{code} {word} {way}")?
            },
            reasons: None,
        })
    }

    /// A declaration that a file puts in the place of that of another.
    pub fn repeated(
        alloc: Global,
        file: Option<&'a str>,
        before: &str,
        kind: Kind,
        name: Name,
    ) -> Result<Finding<'a>, AllocError> {
        Ok(Finding {
            sort: Sort::Repeated,
            file,
            line: None,
            code: None,
            text: format!(in alloc; "{kind} {name} is in {before} too, and this one holds")?,
            reasons: None,
        })
    }

    /// A fault.
    pub fn fault(
        alloc: Global,
        file: Option<&'a str>,
        fault: &Fault,
    ) -> Result<Finding<'a>, AllocError>
        ensures text { IfOk result (λ f. string_bytes f.text ≡ text_of_fault fault.now) }
        ensures reasons { IfOk result (λ f. f.reasons ≡ None) }
    {
        let code = fault.code();
        Ok(Finding {
            sort: Sort::Fault,
            file,
            line: None,
            code: Some(format!(in alloc; "{code}")?),
            text: format!(in alloc; "{fault}")?,
            reasons: None,
        })
    }
}
