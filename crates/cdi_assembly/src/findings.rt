//! What a check of a deployment finds.
ghost use Rattle.std.specs.Prelude.{◌≡◌, IfOk, map, string_bytes};
ghost use Rattle.cdi_faults.specs.FaultText.{text_of_fault};
ghost use Rattle.cdi_validate.specs.Faults.{faults};
ghost use Rattle.cdi_assembly.specs.Told.{faults_told, is_told};

use crate::origins::Origins;
use crate::problem::Problem;
use cdi_advice::{Advice, Adviser, Candidate, Notes};
use cdi_container::{Beans, Bodies, Code, Container, Effective, Fault, Ident, Kind, Name};
use cdi_findings::{Considered, Finding, Reasons};
use cdi_sources::Source;
use std::alloc::{AllocError, Global};

/// What is refused or repeated in files, as findings, in order.
pub fn findings_of_problems<'a>(
    alloc: Global,
    sources: &'a [Source],
    problems: &[Problem],
) -> Result<Vec<Finding<'a>>, AllocError> {
    let mut findings = Vec::with_capacity(alloc, problems.len())?;
    for problem in problems {
        findings.push(match problem {
            Problem::Refused(refused) => {
                let file = path_of(sources, Some(refused.source));
                let way = refused.way.as_str();
                Finding::refusal(alloc, file, refused.line, refused.refusal, way)?
            }
            Problem::Repeated(repeated) => {
                let file = path_of(sources, Some(repeated.source));
                let before = path_of(sources, Some(repeated.before)).unwrap_or("");
                Finding::repeated(alloc, file, before, repeated.kind, repeated.name)?
            }
        })?;
    }
    Ok(findings)
}

/// How faults are told.
#[derive(Clone, Copy)]
pub struct Telling<'a> {
    /// Whether each is explained.
    pub explains: bool,
    /// Whether faults of stored bodies are left out.
    pub takes_any_body: bool,
    /// The names of stored bodies that help may name.
    pub body_names: &'a [Ident],
}

/// The faults of a deployment as findings, in the order of a report. It takes memory for the report and the findings.
pub fn findings_of_faults<'a, B: Bodies>(
    alloc: Global,
    container: &mut Container<B>,
    files: Files<'a>,
    telling: Telling<'_>,
) -> Result<Vec<Finding<'a>>, AllocError>
    ensures texts { IfOk result (λ list. map (λ f. string_bytes f.text) list.items
        ≡ map text_of_fault (faults_told telling.entry (faults container.old.decls container.old.book))) }
{
    let faults = container.report()?;
    let beans = collect_beans(alloc, container.beans())?;
    let teller = Teller {
        alloc,
        files,
        adviser: Adviser {
            alloc,
            decls: container.present(),
            beans: &beans,
            body_names: telling.body_names,
        },
        book: container.book(),
        telling,
    };
    teller.findings(faults.as_slice())
}

/// Beans that are lent, as a list.
fn collect_beans<'a>(alloc: Global, beans: Beans<'a>) -> Result<Vec<&'a Effective>, AllocError>
    ensures { IfOk result (λ list. map (λ bean. bean.now) list.items ≡ beans.entry) }
{
    let mut list = Vec::new(alloc);
    for bean in beans {
        list.push(bean)?;
    }
    Ok(list)
}

/// Whether a fault is told.
fn is_told(telling: Telling<'_>, fault: &Fault) -> bool
    ensures { result ≡ is_told telling.entry fault.now }
{
    !telling.takes_any_body || !matches!(fault.code(), Code::Body)
}

/// What tells faults.
#[derive(Drop)]
struct Teller<'a, 'b, C> {
    alloc: Global,
    files: Files<'a>,
    adviser: Adviser<'b>,
    book: &'b C,
    telling: Telling<'b>,
}

impl<'a, C: Bodies> Teller<'a, '_, C> {
    /// Those of some faults that are told, as findings, in order.
    fn findings(&self, faults: &[Fault]) -> Result<Vec<Finding<'a>>, AllocError>
        ensures { IfOk result (λ list. map (λ f. string_bytes f.text) list.items
            ≡ map text_of_fault (faults_told self.now.telling faults.now)) }
    {
        let mut findings = Vec::with_capacity(self.alloc, faults.len())?;
        let mut notes = Notes::new(self.alloc);
        for fault in faults {
            if is_told(self.telling, fault) {
                findings.push(self.finding(&mut notes, fault)?)?;
            }
        }
        Ok(findings)
    }

    fn finding(&self, notes: &mut Notes, fault: &Fault) -> Result<Finding<'a>, AllocError>
        ensures { IfOk result (λ f. string_bytes f.text ≡ text_of_fault fault.now) }
    {
        let alloc = self.alloc;
        let file = self.files.of_fault(fault, self.adviser.beans);
        let mut finding = Finding::fault(alloc, file, fault)?;
        if self.telling.explains {
            let advice = self.adviser.advise(notes, self.book, fault)?;
            finding.reasons = Some(self.files.reasons(alloc, advice)?);
        }
        Ok(finding)
    }
}

/// The files of a deployment, with what is in which.
#[derive(Clone, Copy)]
pub struct Files<'a> {
    pub sources: &'a [Source],
    pub origins: &'a Origins,
}

impl<'a> Files<'a> {
    /// The path of the file in which a declaration is.
    fn of_decl(self, kind: Kind, name: Name) -> Option<&'a str> {
        path_of(self.sources, self.origins.source_of(kind, name))
    }

    /// The path of the file of a fault: where a name clashes, that of the first enabled bean that has it.
    fn of_fault(self, fault: &Fault, beans: &[&Effective]) -> Option<&'a str> {
        match fault {
            Fault::Declared { kind, name, .. } => self.of_decl(*kind, *name),
            Fault::NameClash(name) | Fault::NamePrefix(name, _) => {
                let bean = beans
                    .iter()
                    .find(|bean| bean.is_enabled && bean.name == Some(*name))?;
                self.of_decl(Kind::Bean, bean.declaring_bean)
            }
            Fault::Circular { class, .. } => self.of_decl(Kind::Bean, *class),
            Fault::SpecializedTwice { specialized, .. } => self.of_decl(Kind::Bean, *specialized),
        }
    }

    /// What is told of a fault, with the files of the beans.
    fn reasons(self, alloc: Global, advice: Advice) -> Result<Reasons<'a>, AllocError> {
        let Advice {
            wanted,
            beans: told,
            help,
        } = advice;
        let others = told.others;
        let mut beans = Vec::with_capacity(alloc, told.candidates.len())?;
        for candidate in told.candidates {
            beans.push(self.considered(alloc, candidate)?)?;
        }
        Ok(Reasons {
            wanted,
            beans,
            others,
            help,
        })
    }

    fn considered(
        &self,
        alloc: Global,
        candidate: Candidate,
    ) -> Result<Considered<'a>, AllocError> {
        let Candidate { bean, text } = candidate;
        Ok(Considered {
            bean: format!(in alloc; "{bean}")?,
            file: self.of_decl(Kind::Bean, bean.class),
            text,
        })
    }
}

/// The path of the file at a position.
fn path_of(sources: &[Source], position: Option<usize>) -> Option<&str> {
    let source = sources.get(position?)?;
    Some(source.path.as_str())
}
