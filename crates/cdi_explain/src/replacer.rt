//! By which bean a bean is replaced (CDI 4.0, Specialization).
ghost use Rattle.std.specs.Prelude.{◌≡◌, IfOk};
ghost use Rattle.cdi_explain.specs.Replacers.{ReplacedHaveReplacers, SpecializedHaveReplacers, replacer_of, replaces};

use cdi_effective::replaced_by;
use cdi_model::{Decl, Decls, Name};
use std::alloc::{AllocError, Global};

/// The first bean, in the order of declarations, by which the bean of a class is specialized: an enabled one that has it
/// behind itself in its chain (CDI 4.0, Specialization). There is none where the class has no bean. It takes memory
/// while it follows the chains, and time near the number of declarations.
#[tactic(auto, using(crate::proofs::ReplacerLemmas::replaced_have_replacers, crate::proofs::ReplacerLemmas::specialized_have_replacers), unfolding(crate::specs::Replacers::replacer_of))]
pub fn replacer_of(alloc: Global, decls: &Decls, class: Name) -> Result<Option<Name>, AllocError>
    ensures value { IfOk result (λ found. found ≡ replacer_of decls.now class) }
    ensures replaced { ReplacedHaveReplacers }
    ensures specialized { SpecializedHaveReplacers }
{
    for decl in decls.iter() {
        if replaces(alloc, decls, &class, decl)? {
            return Ok(Some(*decl.name()));
        }
    }
    Ok(None)
}

/// Whether a declaration replaces the bean of a class.
fn replaces(alloc: Global, decls: &Decls, class: &Name, decl: &Decl) -> Result<bool, AllocError>
    ensures { IfOk result (λ is. is ≡ replaces decls.now class.now decl.now) }
{
    let classes = replaced_by(alloc, decls, decl)?;
    Ok(classes.contains(class))
}
