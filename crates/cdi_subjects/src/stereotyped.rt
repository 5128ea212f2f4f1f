//! Default scopes that do not agree (CDI 4.0, Default scope for a stereotype).
ghost use Rattle.std.specs.Prelude.{◌≡◌, IfOk};
ghost use Rattle.cdi_subjects.specs.Subjects.{part_of, scope_conflicts};

use cdi_effective::{BeanId, Effective};
use cdi_faults::Subject;
use std::alloc::{AllocError, Global};

/// Of the beans of a declaration, those that declare no scope and have stereotypes that give different ones.
pub(crate) fn scope_conflicts(
    alloc: Global,
    beans: &[Effective],
) -> Result<Vec<Subject>, AllocError>
    ensures { IfOk result (λ list. list.items ≡ scope_conflicts beans.now) }
{
    let mut subjects = Vec::new(alloc);
    for bean in beans {
        if bean.has_scope_conflict {
            subjects.push(part_of(bean.id))?;
        }
    }
    Ok(subjects)
}

/// The part of a bean declaration that is a bean: the declaration as a whole, or a producer method.
fn part_of(id: BeanId) -> Subject
    ensures { result ≡ part_of id }
{
    match id.producer {
        None => Subject::Whole,
        Some(name) => Subject::Producer(name),
    }
}
