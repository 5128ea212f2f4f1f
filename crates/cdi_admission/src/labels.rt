//! The names by which the entries of lists go.
ghost use Rattle.std.specs.Prelude.{◌≡◌, map, IfOk};

use cdi_model::{
    DisposerDecl, MemberDecl, MethodDecl, Name, ObserverDecl, PointDecl, ProducerDecl,
};
use std::alloc::{AllocError, Global};

/// An entry of a list in which a name occurs once.
pub(crate) trait Labelled {
    ghost use Rattle.std.specs.Prelude.{List, ℕ};

    ghost label_of: { Self → List ℕ };

    /// Its name.
    fn label(&self) -> &[u8]
        ensures { result.now ≡ label_of self.now };
}

impl Labelled for Name {
    ghost label_of = { λ n. n };

    fn label(&self) -> &[u8] {
        self.as_bytes()
    }
}

impl Labelled for MemberDecl {
    ghost label_of = { λ m. m.name };

    fn label(&self) -> &[u8] {
        self.name.as_bytes()
    }
}

impl Labelled for PointDecl {
    ghost label_of = { λ p. p.name };

    fn label(&self) -> &[u8] {
        self.name.as_bytes()
    }
}

impl Labelled for MethodDecl {
    ghost label_of = { λ m. m.name };

    fn label(&self) -> &[u8] {
        self.name.as_bytes()
    }
}

impl Labelled for ProducerDecl {
    ghost label_of = { λ p. p.name };

    fn label(&self) -> &[u8] {
        self.name.as_bytes()
    }
}

impl Labelled for DisposerDecl {
    ghost label_of = { λ s. s.name };

    fn label(&self) -> &[u8] {
        self.name.as_bytes()
    }
}

impl Labelled for ObserverDecl {
    ghost label_of = { λ o. o.name };

    fn label(&self) -> &[u8] {
        self.name.as_bytes()
    }
}

/// The names of the entries of a list, in order.
pub(crate) fn labels_of<T: Labelled>(alloc: Global, items: &[T]) -> Result<Vec<&[u8]>, AllocError>
    ensures { IfOk result (λ labels. map (λ l. l.now) labels.items ≡ map T.label_of items.now) }
{
    let mut labels = Vec::new(alloc);
    for item in items {
        labels.push(item.label())?;
    }
    Ok(labels)
}
