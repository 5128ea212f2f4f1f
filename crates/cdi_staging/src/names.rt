//! The names of what is in a scene, by position, for those who print a trace.
ghost use Rattle.std.specs.Prelude.{◌≡◌, ◌++◌, map, IfOk, OnOk, option_copied};
ghost use Rattle.cdi_effective.specs.Beans.{product};
ghost use Rattle.cdi_effective.specs.Disposers.{disposer_of};
ghost use Rattle.cdi_effective.specs.Beans.{entries};
ghost use Rattle.cdi_intercept.specs.Chains.{in_order};
ghost use Rattle.cdi_staging.specs.Naming.{interceptor_names, managed_names, method_names, names_in, names_of};
ghost use Rattle.cdi_staging.specs.Naming.{no_sites, observer_names, product_names, sites_in, sites_of};

use cdi_effective::{BeanId, Effective, disposer_of};
use cdi_intercept::in_order;
use cdi_model::{
    BeanDecl, CallDecl, Decl, Decls, EventDecl, Ident, InterceptorDecl, MethodDecl, Name,
    ObserverDecl, PartDecl, ProducerDecl, Seq,
};
use cdi_observe::{View, records_of_decl};
use std::alloc::{AllocError, Global};

/// What a part writes at its call sites and at its fire sites.
#[derive(Drop)]
pub struct SiteNames {
    pub calls: Seq<CallDecl>,
    pub fires: Seq<EventDecl>,
}

/// A method or an observer method: its name, and its sites as they are written.
#[derive(Drop)]
pub struct MethodNames {
    pub name: Ident,
    pub sites: SiteNames,
}

/// A bean: its id, what its parts write at their sites, and the disposer method of a product.
#[derive(Drop)]
pub struct BeanNames {
    pub id: BeanId,
    pub construct: SiteNames,
    pub post: SiteNames,
    pub pre: SiteNames,
    pub methods: Seq<MethodNames>,
    pub observers: Seq<MethodNames>,
    /// Those of the producer method of a product.
    pub produces: SiteNames,
    pub disposer: Option<Ident>,
}

/// An interceptor: its name, and what its parts write at their sites.
#[derive(Drop)]
pub struct InterceptorNames {
    pub name: Name,
    pub around_construct: SiteNames,
    pub around_invoke: SiteNames,
    pub post: SiteNames,
    pub pre: SiteNames,
}

/// The names of the beans and the interceptors of a scene, in its order: each is found by a position in constant time.
pub struct Names {
    pub beans: Seq<BeanNames>,
    pub interceptors: Seq<InterceptorNames>,
}

impl Drop for Names {
    fn drop(self) {
        let Names {
            beans: _,
            interceptors: _,
        } = self;
    }
}

fn copy_calls(alloc: Global, calls: &[CallDecl]) -> Result<Seq<CallDecl>, AllocError>
    ensures { IfOk result (λ copy. copy ≡ calls.now) }
{
    let mut copy = Seq::new(alloc);
    for call in calls {
        copy.push(*call)?;
    }
    Ok(copy)
}

fn copy_events(alloc: Global, events: &[EventDecl]) -> Result<Seq<EventDecl>, AllocError>
    ensures { IfOk result (λ copy. copy ≡ events.now) }
{
    let mut copy = Seq::new(alloc);
    for event in events {
        copy.push(event.copy()?)?;
    }
    Ok(copy)
}

fn no_sites(alloc: Global) -> SiteNames
    ensures { result ≡ no_sites }
{
    SiteNames {
        calls: Seq::new(alloc),
        fires: Seq::new(alloc),
    }
}

fn sites_in(alloc: Global, part: &PartDecl) -> Result<SiteNames, AllocError>
    ensures { IfOk result (λ sites. sites ≡ sites_in part.now) }
{
    Ok(SiteNames {
        calls: copy_calls(alloc, part.calls.as_slice())?,
        fires: copy_events(alloc, part.fires.as_slice())?,
    })
}

fn sites_of(alloc: Global, part: Option<&PartDecl>) -> Result<SiteNames, AllocError>
    ensures { IfOk result (λ sites. sites ≡ sites_of (option_copied part.entry)) }
{
    match part {
        Some(part) => sites_in(alloc, part),
        None => Ok(no_sites(alloc)),
    }
}

fn names_of_methods(alloc: Global, methods: &[MethodDecl]) -> Result<Seq<MethodNames>, AllocError>
    ensures { IfOk result (λ names. names ≡ map method_names methods.now) }
{
    let mut names = Seq::new(alloc);
    for method in methods {
        names.push(MethodNames {
            name: method.name,
            sites: sites_in(alloc, &method.part)?,
        })?;
    }
    Ok(names)
}

fn names_of_observers(
    alloc: Global,
    observers: &[ObserverDecl],
) -> Result<Seq<MethodNames>, AllocError>
    ensures { IfOk result (λ names. names ≡ map observer_names observers.now) }
{
    let mut names = Seq::new(alloc);
    for observer in observers {
        names.push(MethodNames {
            name: observer.name,
            sites: sites_in(alloc, &observer.part)?,
        })?;
    }
    Ok(names)
}

#[tactic(auto, unfolding(crate::specs::Naming::managed_names))]
fn managed_names(alloc: Global, bean: &BeanDecl) -> Result<BeanNames, AllocError>
    ensures { IfOk result (λ names. names ≡ managed_names bean.now) }
{
    Ok(BeanNames {
        id: BeanId {
            class: bean.name,
            producer: None,
        },
        construct: sites_of(alloc, bean.construct.as_ref())?,
        post: sites_of(alloc, bean.post.as_ref())?,
        pre: sites_of(alloc, bean.pre.as_ref())?,
        methods: names_of_methods(alloc, bean.methods.as_slice())?,
        observers: names_of_observers(alloc, bean.observers.as_slice())?,
        produces: no_sites(alloc),
        disposer: None,
    })
}

/// The names of a product that has this record.
#[tactic(auto, unfolding(crate::specs::Naming::product_names))]
fn product_names(
    alloc: Global,
    decls: &Decls,
    bean: &BeanDecl,
    effective: &Effective,
    producer: &ProducerDecl,
) -> Result<BeanNames, AllocError>
    requires { effective.now ≡ product decls.now bean.now producer.now }
    ensures { IfOk result (λ names. names ≡ product_names decls.now bean.now producer.now) }
{
    Ok(BeanNames {
        id: BeanId {
            class: bean.name,
            producer: Some(producer.name),
        },
        construct: no_sites(alloc),
        post: no_sites(alloc),
        pre: no_sites(alloc),
        methods: Seq::new(alloc),
        observers: Seq::new(alloc),
        produces: sites_in(alloc, &producer.part)?,
        disposer: disposer_of(alloc, decls, effective),
    })
}

/// Appends the names of the products of a bean that has these records.
fn push_products(
    alloc: Global,
    decls: &Decls,
    bean: &BeanDecl,
    records: &[Effective],
    list: &mut Vec<BeanNames>,
) -> Result<(), AllocError>
    requires { records.now ≡ map (product decls.now bean.now) bean.now.producers }
    ensures { OnOk result (list.new.items ≡ list.old.items ++ map (product_names decls.now bean.now) bean.now.producers) }
{
    for (effective, producer) in records.iter().zip(bean.producers.as_slice()) {
        list.push(product_names(alloc, decls, bean, effective, producer)?)?;
    }
    Ok(())
}

/// Appends the names of the beans of a declaration, which has these records.
#[tactic(auto, unfolding(crate::specs::Naming::names_in))]
fn push_names(
    alloc: Global,
    decls: &Decls,
    decl: &Decl,
    records: &[Effective],
    list: &mut Vec<BeanNames>,
) -> Result<(), AllocError>
    requires { records.now ≡ entries decls.now decl.now }
    ensures { OnOk result (list.new.items ≡ list.old.items ++ names_in decls.now decl.now) }
{
    let Decl::Bean(bean) = decl else {
        return Ok(());
    };
    list.push(managed_names(alloc, bean)?)?;
    push_products(alloc, decls, bean, &records[1..], list)
}

/// The names of the declarations of a view. It takes memory for them, and time near the size of the declarations.
#[tactic(auto, unfolding(crate::specs::Naming::names_of))]
pub fn names_of<V: View>(alloc: Global, view: &V) -> Result<Names, AllocError>
    ensures { IfOk result (λ names. names ≡ names_of (V.list view.now)) }
{
    let decls = view.decls();
    let mut list = Vec::new(alloc);
    for decl in decls.iter() {
        push_names(alloc, decls, decl, records_of_decl(view, decl), &mut list)?;
    }
    Ok(Names {
        beans: Seq::from_vec(list),
        interceptors: names_of_interceptors(alloc, decls)?,
    })
}

fn names_of_interceptors(alloc: Global, decls: &Decls) -> Result<Seq<InterceptorNames>, AllocError>
    ensures { IfOk result (λ names. names ≡ map interceptor_names (in_order decls.now)) }
{
    let mut names = Seq::new(alloc);
    for interceptor in in_order(alloc, decls)? {
        names.push(interceptor_names(alloc, interceptor)?)?;
    }
    Ok(names)
}

#[tactic(auto, unfolding(crate::specs::Naming::interceptor_names))]
fn interceptor_names(alloc: Global, decl: &InterceptorDecl) -> Result<InterceptorNames, AllocError>
    ensures { IfOk result (λ names. names ≡ interceptor_names decl.now) }
{
    Ok(InterceptorNames {
        name: decl.name,
        around_construct: sites_of(alloc, decl.around_construct.as_ref())?,
        around_invoke: sites_of(alloc, decl.around_invoke.as_ref())?,
        post: sites_of(alloc, decl.post.as_ref())?,
        pre: sites_of(alloc, decl.pre.as_ref())?,
    })
}
