//! Uses that do not fit the declarations of what is used (CDI 4.0, Qualifier annotations with members; Interceptors 2.1,
//! Interceptor Bindings With Members).
ghost use Rattle.std.specs.Prelude.{◌≡◌, is_some, IfOk};
ghost use Rattle.cdi_model.specs.Mentions.{shown};
ghost use Rattle.cdi_subjects.specs.Subjects.{bad_use_in, bad_uses};

use cdi_faults::Subject;
use cdi_match::is_misused;
use cdi_model::{Decl, Decls, Mention};
use std::alloc::{AllocError, Global};

/// The uses of a declaration that do not fit the declarations of what is used.
pub(crate) fn bad_uses(
    alloc: Global,
    decls: &Decls,
    decl: &Decl,
) -> Result<Vec<Subject>, AllocError>
    ensures { IfOk result (λ list. list.items ≡ bad_uses decls.now decl.now) }
{
    let mut subjects = Vec::new(alloc);
    for mention in decl.mentions() {
        if let Mention::Use(kind, qual) = mention {
            if is_misused(decls, kind, qual) {
                subjects.push(Subject::Use(kind, qual.clone()?))?;
            }
        }
    }
    Ok(subjects)
}

/// Whether what is named in a place is a use that does not fit.
pub(crate) fn is_bad_use(decls: &Decls, mention: &Mention<'_>) -> bool
    ensures { result ≡ is_some (bad_use_in decls.now (shown mention.now)) }
{
    match mention {
        Mention::Use(kind, qual) => is_misused(decls, *kind, qual),
        _ => false,
    }
}
