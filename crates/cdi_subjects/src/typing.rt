//! Types to which beans are restricted (CDI 4.0, Restricting the bean types of a bean).
ghost use Rattle.std.specs.Prelude.{◌≡◌, ◌++◌, IfOk, OnOk};
ghost use Rattle.cdi_subjects.specs.Records.{not_had, typed_by};

use cdi_effective::Effective;
use cdi_faults::Subject;
use cdi_model::{Attributes, Decl};
use std::alloc::{AllocError, Global};

/// The types that a bean or a producer method lists and does not have, of a declaration that has these beans.
pub(crate) fn typed(
    alloc: Global,
    decl: &Decl,
    beans: &[Effective],
) -> Result<Vec<Subject>, AllocError>
    ensures { IfOk result (λ list. list.items ≡ typed_by decl.now beans.now) }
{
    let mut subjects = Vec::new(alloc);
    let Decl::Bean(bean) = decl else {
        return Ok(subjects);
    };
    let Some((managed, products)) = beans.split_first() else {
        return Ok(subjects);
    };
    push_wrongly_listed(managed, &bean.attributes, &mut subjects)?;
    for (product, producer) in products.iter().zip(bean.producers.as_slice()) {
        push_wrongly_listed(product, &producer.attributes, &mut subjects)?;
    }
    Ok(subjects)
}

/// Appends the types that a bean lists and does not have: a type that it lists and has without restriction it also has
/// where it is restricted.
fn push_wrongly_listed(
    bean: &Effective,
    attributes: &Attributes,
    subjects: &mut Vec<Subject>,
) -> Result<(), AllocError>
    ensures { OnOk result (subjects.new.items ≡ subjects.old.items ++ not_had bean.now attributes.now) }
{
    let Some(listed) = &attributes.types else {
        return Ok(());
    };
    for name in listed.as_slice() {
        if !bean.has_type(name) {
            subjects.push(Subject::Typed {
                producer: bean.id.producer,
                name: *name,
            })?;
        }
    }
    Ok(())
}
