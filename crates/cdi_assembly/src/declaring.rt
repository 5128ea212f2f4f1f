//! Putting a deployment together, with what is refused told at once.
ghost use Rattle.std.specs.Prelude.{◌≡◌, OnOk};
ghost use Rattle.cdi_assembly.specs.Put.{left_by_sources};

use crate::assembly::assemble;
use crate::findings::findings_of_problems;
use crate::problem::Problem;
use cdi_container::{Bodies, Container};
use cdi_findings::text_of;
use cdi_sources::Source;
use std::alloc::AllocError;

/// Adds some files to what a container declares, as `assemble` does. What is refused or repeated is told on the standard error.
/// Whether there is nothing of this.
pub fn declare<B: Bodies>(
    rt: &HostRuntime,
    container: &mut Container<B>,
    sources: &[Source],
) -> Result<bool, AllocError>
    ensures decls { OnOk result (container.new.decls ≡ left_by_sources container.old.decls sources.now) }
    ensures book { OnOk result (container.new.book ≡ container.old.book) }
{
    let assembly = assemble(rt.alloc(), container, sources)?;
    tell(rt, sources, &assembly.problems)
}

/// Tells what is refused or repeated. Whether there is nothing of this.
fn tell(rt: &HostRuntime, sources: &[Source], problems: &[Problem]) -> Result<bool, AllocError> {
    let alloc = rt.alloc();
    let findings = findings_of_problems(alloc, sources, problems)?;
    let text = text_of(alloc, findings.as_slice())?;
    let _ = eprint!(rt; "{text}");
    Ok(problems.is_empty())
}
