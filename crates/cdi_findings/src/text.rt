//! Findings as lines.
ghost use Rattle.std.specs.Prelude.{◌≡◌, IfOk, flat_map, string_bytes};
ghost use Rattle.cdi_findings.specs.FindingText.{noun_of, text_of_finding};

use crate::finding::{Considered, Finding, Reasons};
use std::alloc::{AllocError, Global};
use std::fmt;

/// Where something was found, as far as that is known.
#[derive(Clone, Copy)]
struct PlaceText<'a> {
    file: Option<&'a str>,
    line: Option<usize>,
}

impl fmt::Display for PlaceText<'_> {
    ghost use Rattle.std.specs.Prelude.{Some, option_map};
    ghost use Rattle.cdi_findings.specs.FindingText.{text_of_place};

    ghost output = { λ place. Some (text_of_place (option_map (λ s. s.now) place.file) place.line) };

    fn fmt<W: fmt::Write>(&self, f: &mut fmt::Formatter<W>) -> fmt::Result {
        match (self.file, self.line) {
            (Some(file), Some(line)) => write!(f, "{file}:{line}: "),
            (Some(file), None) => write!(f, "{file}: "),
            (None, _) => Ok(()),
        }
    }
}

/// The file of a bean in brackets, if it is known.
#[derive(Clone, Copy)]
struct FileText<'a>(Option<&'a str>);

impl fmt::Display for FileText<'_> {
    ghost use Rattle.std.specs.Prelude.{Some, option_map};
    ghost use Rattle.cdi_findings.specs.FindingText.{text_of_file};

    ghost output = { λ file. Some (text_of_file (option_map (λ s. s.now) file.0)) };

    fn fmt<W: fmt::Write>(&self, f: &mut fmt::Formatter<W>) -> fmt::Result {
        match self.0 {
            Some(file) => write!(f, " ({file})"),
            None => Ok(()),
        }
    }
}

/// The beans that were considered, each on a line of its own.
#[derive(Clone, Copy)]
struct BeansText<'a>(&'a [Considered<'a>]);

impl fmt::Display for BeansText<'_> {
    ghost use Rattle.std.specs.Prelude.{Some};
    ghost use Rattle.cdi_findings.specs.FindingText.{text_of_beans};

    ghost output = { λ beans. Some (text_of_beans beans.0.now) };

    fn fmt<W: fmt::Write>(&self, f: &mut fmt::Formatter<W>) -> fmt::Result {
        for considered in self.0 {
            let file = FileText(considered.file);
            let (bean, text) = (considered.bean.as_str(), considered.text.as_str());
            write!(f, "  {bean}{file} {text}\n")?;
        }
        Ok(())
    }
}

/// What is wanted, if something is.
#[derive(Clone, Copy)]
struct WantedText<'a>(Option<&'a str>);

impl fmt::Display for WantedText<'_> {
    ghost use Rattle.std.specs.Prelude.{Some, option_map};
    ghost use Rattle.cdi_findings.specs.FindingText.{text_of_wanted};

    ghost output = { λ wanted. Some (text_of_wanted (option_map (λ s. s.now) wanted.0)) };

    fn fmt<W: fmt::Write>(&self, f: &mut fmt::Formatter<W>) -> fmt::Result {
        match self.0 {
            Some(wanted) => write!(f, "  wanted: {wanted}\n"),
            None => Ok(()),
        }
    }
}

/// How many other beans there are, if there are some.
#[derive(Clone, Copy)]
struct OthersText(usize);

impl fmt::Display for OthersText {
    ghost use Rattle.std.specs.Prelude.{Some};
    ghost use Rattle.cdi_findings.specs.FindingText.{text_of_others};

    ghost output = { λ others. Some (text_of_others others.0) };

    fn fmt<W: fmt::Write>(&self, f: &mut fmt::Formatter<W>) -> fmt::Result {
        let count = self.0;
        if count == 0 {
            return Ok(());
        }
        let noun = noun_of(count);
        write!(f, "  {count} other {noun}\n")
    }
}

/// The noun after a number of beans.
fn noun_of(count: usize) -> &'static str
    ensures { result.now ≡ noun_of count }
{
    if count == 1 { "bean" } else { "beans" }
}

impl fmt::Display for Reasons<'_> {
    ghost use Rattle.std.specs.Prelude.{Some};
    ghost use Rattle.cdi_findings.specs.FindingText.{text_of_reasons};

    ghost output = { λ reasons. Some (text_of_reasons reasons) };

    fn fmt<W: fmt::Write>(&self, f: &mut fmt::Formatter<W>) -> fmt::Result {
        let wanted = WantedText(match &self.wanted {
            Some(wanted) => Some(wanted.as_str()),
            None => None,
        });
        let beans = BeansText(self.beans.as_slice());
        let others = OthersText(self.others);
        let help = self.help.as_str();
        write!(f, "{wanted}{beans}{others}  help: {help}\n")
    }
}

/// Where it was found and what it is, on one line; then, on lines that begin with two spaces, the reasons.
impl fmt::Display for Finding<'_> {
    ghost use Rattle.std.specs.Prelude.{Some};
    ghost use Rattle.cdi_findings.specs.FindingText.{text_of_finding};

    ghost output = { λ finding. Some (text_of_finding finding) };

    fn fmt<W: fmt::Write>(&self, f: &mut fmt::Formatter<W>) -> fmt::Result {
        let place = PlaceText {
            file: self.file,
            line: self.line,
        };
        let text = self.text.as_str();
        match &self.reasons {
            Some(reasons) => write!(f, "{place}{text}\n{reasons}"),
            None => write!(f, "{place}{text}\n"),
        }
    }
}

/// The findings as lines, each once, in order. It takes memory for the text.
pub fn text_of(alloc: Global, findings: &[Finding<'_>]) -> Result<String, AllocError>
    ensures { IfOk result (λ text. string_bytes text ≡ flat_map text_of_finding findings.now) }
{
    let mut lines = String::new(alloc);
    for finding in findings {
        let text = format!(in alloc; "{finding}")?;
        lines.push_str(text.as_str())?;
    }
    Ok(lines)
}
