//! Disposer methods without a product, and products with two (CDI 4.0, Disposer method resolution).
ghost use Rattle.std.specs.Prelude.{◌≡◌, ◌++◌, nat_lt, length, filter, IfOk, OnOk};
ghost use Rattle.std.specs.List.{list_any};
ghost use Rattle.cdi_effective.specs.Beans.{entries};
ghost use Rattle.cdi_effective.specs.Disposers.{disposes};
ghost use Rattle.cdi_subjects.specs.Subjects.{disposers_at_fault};
ghost use Rattle.cdi_subjects.specs.Records.{with_two, without_product};

use cdi_effective::{Effective, disposes};
use cdi_faults::Subject;
use cdi_model::{Decl, Decls, DisposerDecl};
use std::alloc::{AllocError, Global};

/// The disposer methods of a bean that match none of its producer methods, and the producer methods that two match.
pub(crate) fn disposers_at_fault(
    alloc: Global,
    decls: &Decls,
    decl: &Decl,
    beans: &[Effective],
) -> Result<Vec<Subject>, AllocError>
    requires { beans.now ≡ entries decls.now decl.now }
    ensures { IfOk result (λ list. list.items ≡ disposers_at_fault decls.now decl.now) }
{
    let mut subjects = Vec::new(alloc);
    let Decl::Bean(bean) = decl else {
        return Ok(subjects);
    };
    let Some((_, products)) = beans.split_first() else {
        return Ok(subjects);
    };
    let disposers = bean.disposers.as_slice();
    push_without_product(alloc, decls, products, disposers, &mut subjects)?;
    push_with_two(alloc, decls, products, disposers, &mut subjects)?;
    Ok(subjects)
}

/// Appends the disposer methods that match none of some products.
fn push_without_product(
    alloc: Global,
    decls: &Decls,
    products: &[Effective],
    disposers: &[DisposerDecl],
    subjects: &mut Vec<Subject>,
) -> Result<(), AllocError>
    ensures { OnOk result (subjects.new.items ≡ subjects.old.items ++ without_product decls.now products.now disposers.now) }
{
    for disposer in disposers {
        if !has_product(alloc, decls, products, disposer) {
            subjects.push(Subject::Disposer(disposer.name))?;
        }
    }
    Ok(())
}

/// Whether a disposer method matches one of some products.
fn has_product(
    alloc: Global,
    decls: &Decls,
    products: &[Effective],
    disposer: &DisposerDecl,
) -> bool
    ensures { result ≡ list_any (λ p. disposes decls.now p disposer.now) products.now }
{
    products
        .iter()
        .any(|product| disposes(alloc, decls, product, disposer))
}

/// Appends the producer methods whose products two of some disposer methods match.
fn push_with_two(
    alloc: Global,
    decls: &Decls,
    products: &[Effective],
    disposers: &[DisposerDecl],
    subjects: &mut Vec<Subject>,
) -> Result<(), AllocError>
    ensures { OnOk result (subjects.new.items ≡ subjects.old.items ++ with_two decls.now products.now disposers.now) }
{
    for product in products {
        if has_two(alloc, decls, product, disposers) {
            if let Some(name) = product.id.producer {
                subjects.push(Subject::Producer(name))?;
            }
        }
    }
    Ok(())
}

/// Whether two of some disposer methods match a product.
fn has_two(alloc: Global, decls: &Decls, product: &Effective, disposers: &[DisposerDecl]) -> bool
    ensures { result ≡ nat_lt 1 (length (filter (disposes decls.now product.now) disposers.now)) }
{
    let matching = disposers
        .iter()
        .filter(|disposer| disposes(alloc, decls, product, disposer));
    matching.count() > 1
}
