//! What the records of a bean declaration rest on.
ghost use Rattle.std.specs.Prelude.{◌≡◌, ◌++◌, map, IfOk, OnOk};
ghost use Rattle.cdi_model.specs.DeclKey.{key_at};
ghost use Rattle.cdi_effective.specs.Reads.{bean_reads, chain_reads, class_reads, link_reads, product_reads, record_reads};
ghost use Rattle.cdi_effective.specs.Reads.{specialized_reads};

use crate::bindings::given_bindings;
use crate::chain::{behind, extended};
use crate::closures::Closures;
use cdi_match::{push_uses, stereotypes, types_brought};
use cdi_model::{BeanDecl, DeclKey, Decls, Kind, Name, ProducerDecl};
use std::alloc::{AllocError, Global};

/// What the records of a bean declaration rest on: the declaration itself, the types of its class and of the types that
/// its producer methods declare, the stereotypes of it and of its products, the binding types that the bindings of it and
/// of its stereotypes bring, the beans of its chain with their stereotypes, and the bean at which the chain would go on. A
/// key may stand twice. It takes memory for the keys, and for the searches.
pub fn reads_of<C: Closures>(
    alloc: Global,
    decls: &Decls,
    types: &C,
    bean: &BeanDecl,
) -> Result<Vec<DeclKey>, AllocError>
    requires { C.list types.now ≡ decls.now }
    ensures { IfOk result (λ keys. keys.items ≡ record_reads decls.now bean.now) }
{
    let mut keys = Vec::new(alloc);
    push_keys(Kind::Bean, &[bean.name], &mut keys)?;
    push_bean_reads(
        alloc,
        decls,
        types,
        bean.name,
        bean.attributes.stereotypes.as_slice(),
        &mut keys,
    )?;
    push_class_reads(alloc, decls, bean, &mut keys)?;
    push_product_reads(alloc, decls, types, bean.producers.as_slice(), &mut keys)?;
    push_chain_reads(alloc, decls, bean, &mut keys)?;
    Ok(keys)
}

/// Appends what the products of some producer methods rest on.
fn push_product_reads<C: Closures>(
    alloc: Global,
    decls: &Decls,
    types: &C,
    producers: &[ProducerDecl],
    keys: &mut Vec<DeclKey>,
) -> Result<(), AllocError>
    requires { C.list types.now ≡ decls.now }
    ensures { OnOk result (keys.new.items ≡ keys.old.items ++ product_reads decls.now producers.now) }
{
    for producer in producers {
        let declared = producer.attributes.stereotypes.as_slice();
        push_bean_reads(alloc, decls, types, producer.product_type, declared, keys)?;
    }
    Ok(())
}

/// Appends what a bean gets by its chain rests on.
fn push_chain_reads(
    alloc: Global,
    decls: &Decls,
    bean: &BeanDecl,
    keys: &mut Vec<DeclKey>,
) -> Result<(), AllocError>
    ensures { OnOk result (keys.new.items ≡ keys.old.items ++ chain_reads decls.now bean.now) }
{
    push_specialized_reads(decls, bean, keys)?;
    for other in behind(alloc, decls, bean)? {
        push_link_reads(alloc, decls, other, keys)?;
    }
    Ok(())
}

/// Appends what a bean of a chain rests on.
fn push_link_reads(
    alloc: Global,
    decls: &Decls,
    bean: &BeanDecl,
    keys: &mut Vec<DeclKey>,
) -> Result<(), AllocError>
    ensures { OnOk result (keys.new.items ≡ keys.old.items ++ link_reads decls.now bean.now) }
{
    push_keys(Kind::Bean, &[bean.name], keys)?;
    push_keys(Kind::Type, &[bean.name], keys)?;
    push_specialized_reads(decls, bean, keys)?;
    let stereotypes = stereotypes(alloc, decls, bean.attributes.stereotypes.as_slice())?;
    push_keys(Kind::Stereotype, stereotypes.as_slice(), keys)
}

/// Appends the bean of the class that the class of a bean extends, where this says that it specializes.
fn push_specialized_reads(
    decls: &Decls,
    bean: &BeanDecl,
    keys: &mut Vec<DeclKey>,
) -> Result<(), AllocError>
    ensures { OnOk result (keys.new.items ≡ keys.old.items ++ specialized_reads decls.now bean.now) }
{
    if bean.specializes {
        if let Some(class) = extended(decls, &bean.name) {
            push_keys(Kind::Bean, &[*class], keys)?;
        }
    }
    Ok(())
}

/// Appends the types of a type, and the stereotypes of what declares some.
fn push_bean_reads<C: Closures>(
    alloc: Global,
    decls: &Decls,
    types: &C,
    bean_type: Name,
    declared: &[Name],
    keys: &mut Vec<DeclKey>,
) -> Result<(), AllocError>
    requires { C.list types.now ≡ decls.now }
    ensures { OnOk result (keys.new.items ≡ keys.old.items ++ bean_reads decls.now bean_type declared.now) }
{
    let types = types.types_of(alloc, bean_type)?;
    push_keys(Kind::Type, types.as_slice(), keys)?;
    let stereotypes = stereotypes(alloc, decls, declared)?;
    push_keys(Kind::Stereotype, stereotypes.as_slice(), keys)?;
    Ok(())
}

/// Appends what the bindings of the class of a bean rest on.
fn push_class_reads(
    alloc: Global,
    decls: &Decls,
    bean: &BeanDecl,
    keys: &mut Vec<DeclKey>,
) -> Result<(), AllocError>
    ensures { OnOk result (keys.new.items ≡ keys.old.items ++ class_reads decls.now bean.now) }
{
    let mut own = Vec::new(alloc);
    push_uses(&mut own, bean.bindings.as_slice())?;
    push_keys(
        Kind::Binding,
        types_brought(alloc, decls, own.as_slice())?.as_slice(),
        keys,
    )?;
    let given = given_bindings(alloc, decls, bean.attributes.stereotypes.as_slice())?;
    push_keys(
        Kind::Binding,
        types_brought(alloc, decls, given.as_slice())?.as_slice(),
        keys,
    )
}

/// Appends the keys of a kind with some names.
fn push_keys(kind: Kind, names: &[Name], keys: &mut Vec<DeclKey>) -> Result<(), AllocError>
    ensures { OnOk result (keys.new.items ≡ keys.old.items ++ map (key_at kind) names.now) }
{
    for name in names {
        keys.push(DeclKey { kind, name: *name })?;
    }
    Ok(())
}
