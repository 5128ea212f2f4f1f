//! Conditional observer methods of dependent beans (CDI 4.0, Conditional observer methods).
ghost use Rattle.std.specs.Prelude.{◌≡◌, IfOk};
ghost use Rattle.cdi_subjects.specs.Records.{conditional_by};

use cdi_effective::Effective;
use cdi_faults::Subject;
use cdi_model::{Decl, Scope};
use std::alloc::{AllocError, Global};

/// The conditional observer methods of a declaration that has these beans, where the first of them is dependent.
pub(crate) fn conditional_dependents(
    alloc: Global,
    decl: &Decl,
    beans: &[Effective],
) -> Result<Vec<Subject>, AllocError>
    ensures { IfOk result (λ list. list.items ≡ conditional_by decl.now beans.now) }
{
    let mut subjects = Vec::new(alloc);
    let (Decl::Bean(bean), Some(managed)) = (decl, beans.first()) else {
        return Ok(subjects);
    };
    if !matches!(managed.scope, Scope::Dependent) {
        return Ok(subjects);
    }
    for observer in bean.observers.as_slice() {
        if observer.is_conditional {
            subjects.push(Subject::Observer(observer.name))?;
        }
    }
    Ok(subjects)
}
