//! Who tells the types of a name.
ghost use Rattle.std.specs.Prelude.{◌≡◌, List, IfOk};
ghost use Rattle.cdi_match.specs.Types.{types_of};
ghost use Rattle.cdi_model.specs.declared.decl.Decl.{Decl};

use cdi_match::closure;
use cdi_model::{Decls, Name};
use std::alloc::{AllocError, Global};

/// Tells the types of a name: present declarations do, and so does who keeps the closures of these.
pub trait Closures {
    /// The declarations by which it tells.
    ghost list: { Self → List Decl };

    /// The types of a type, each once, in byte order (CDI 4.0, Bean types). It takes memory for the list.
    fn types_of(&self, alloc: Global, name: Name) -> Result<Vec<Name>, AllocError>
        ensures { IfOk result (λ types. types.items ≡ types_of (list self.now) name) };
}

impl Closures for Decls {
    ghost list = { λ decls. decls };

    fn types_of(&self, alloc: Global, name: Name) -> Result<Vec<Name>, AllocError> {
        closure(alloc, self, name)
    }
}
