//! The records of the beans of a view, lent.
ghost use Rattle.std.specs.Prelude.{◌≡◌, ◌++◌, Some, map, IfOk, OnOk};
ghost use Rattle.cdi_model.specs.Decl.{kind_of, name_of_decl};
ghost use Rattle.cdi_model.specs.DeclList.{find_decl};
ghost use Rattle.cdi_effective.specs.Beans.{beans as beans_of, entries};

use crate::view::View;
use cdi_effective::Effective;
use cdi_model::Decl;
use std::alloc::{AllocError, Global};

/// The records of a declaration: of a bean its managed bean, and after it its products in order. It takes no memory.
pub fn records_of_decl<'a, V: View>(view: &'a V, decl: &Decl) -> &'a [Effective]
    requires { find_decl (kind_of decl.now) (name_of_decl decl.now) (V.list view.now) ≡ Some decl.now }
    ensures { result.now ≡ entries (V.list view.now) decl.now }
{
    match decl {
        Decl::Bean(bean) => view.records(&bean.name),
        _ => &[],
    }
}

/// The records of all beans, in the order of the bean list. It takes memory for the list.
#[tactic(auto, unfolding(cdi_effective::specs::Beans::beans))]
pub fn records_of_all<V: View>(alloc: Global, view: &V) -> Result<Vec<&Effective>, AllocError>
    ensures { IfOk result (λ list. map (λ bean. bean.now) list.items ≡ beans_of (V.list view.now)) }
{
    let mut list = Vec::new(alloc);
    for decl in view.decls().iter() {
        push_records(records_of_decl(view, decl), &mut list)?;
    }
    Ok(list)
}

/// Appends some records to a list. It takes memory for it.
pub fn push_records<'a>(
    records: &'a [Effective],
    list: &mut Vec<&'a Effective>,
) -> Result<(), AllocError>
    ensures { OnOk result (map (λ bean. bean.now) list.new.items ≡ map (λ bean. bean.now) list.old.items ++ records.now) }
{
    for bean in records {
        list.push(bean)?;
    }
    Ok(())
}
