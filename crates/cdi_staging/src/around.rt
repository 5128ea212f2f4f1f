//! The interceptors that are enabled, and where they are (Interceptors 2.1, Interceptor Ordering).
ghost use Rattle.std.specs.Prelude.{◌≡◌, ◌≢◌, ◌∷◌, ◌++◌, ℕ, List, true, Contains, None, Some, map, IfOk, IfSome, OnOk};
ghost use Rattle.cdi_model.specs.DeclList.{AreDistinct, find_decl};
ghost use Rattle.cdi_model.specs.declared.decl.Decl.TheVariants as decls;
ghost use Rattle.cdi_model.specs.declared.decl.Kind.TheVariants as kinds;
ghost use Rattle.cdi_effective.specs.Beans.{beans as beans_of};
ghost use Rattle.cdi_match.specs.Chain.{has};
ghost use Rattle.cdi_observe.specs.Lending.{IsEvaluated};
ghost use Rattle.cdi_intercept.specs.Chains.{in_order};
ghost use Rattle.cdi_intercept.specs.Sets.{has_place};
ghost use Rattle.cdi_staging.specs.Shown.{around_in, names_among, IsClassOf};
ghost use Rattle.cdi_staging.specs.Staged.{around_of, chain_at, injections_from, injections_of, places_from, producer_chain};
ghost use Rattle.cdi_staging.specs.Staged.{staged_interceptor, targets};

use crate::class::Class;
use crate::listed_beans::ListedBeans;
use crate::site::Visible;
use crate::stage::Stage;
use crate::target::{Target, targets_of};
use cdi_bodies::Bodies;
use cdi_contexts::Actor;
use cdi_intercept::in_order;
use cdi_model::{BeanDecl, BeanPlace, InterceptorDecl, Name, ProducerDecl, Seq};
use cdi_observe::{View, interceptors_of};
use cdi_scene::{Injection, Interceptor, position_at};
use std::alloc::{AllocError, Global};

/// An interceptor that is enabled, with what is chosen for its injection points.
#[derive(Drop)]
pub(crate) struct Around<'a> {
    decl: &'a InterceptorDecl,
    targets: Vec<Target>,
}

/// The interceptors that are enabled, in the order in which they are called, with what is chosen for their injection points.
#[tactic(auto, unfolding(crate::specs::Staged::around_of))]
pub(crate) fn around_of<'a, V: View>(
    alloc: Global,
    view: &'a V,
    beans: &ListedBeans<'_>,
) -> Result<Vec<Around<'a>>, AllocError>
    requires beans { beans.now ≡ beans_of (V.list view.now) }
    requires evaluated { IsEvaluated (V.list view.now) (V.kept view.now) }
    ensures around { IfOk result (λ list. map around_in list.items ≡ around_of (V.list view.now)) }
    ensures distinct { AreDistinct (V.list view.now) }
{
    let decls = view.decls();
    let mut list = Vec::new(alloc);
    for decl in in_order(alloc, decls)? {
        let targets = targets_of(alloc, view, beans, decl.points.as_slice())?;
        list.push(Around { decl, targets })?;
    }
    Ok(list)
}

/// The positions of the interceptors with these names, which are in the order of the interceptors. It goes through both once.
fn positions_named(
    alloc: Global,
    around: &[Around<'_>],
    names: &[Name],
) -> Result<Seq<u32>, AllocError>
    requires { names.now ≡ names_among names.now (map around_in around.now) }
    ensures { IfOk result (λ positions. positions
        ≡ places_from (λ a. has names.now a.0.name) 0 (map around_in around.now)) }
{
    let mut positions = Seq::new(alloc);
    let mut left = names;
    for (position, around) in around.iter().enumerate() {
        if let Some(others) = after_first(left, around.decl.name) {
            positions.push(position_at(position)?)?;
            left = others;
        }
    }
    Ok(positions)
}

/// The names after the first, where the first is this one.
fn after_first(names: &[Name], name: Name) -> Option<&[Name]>
    ensures some { IfSome result (λ others. names.now ≡ name ∷ others.now) }
    ensures none { result ≡ None → (others : List (List ℕ)) → names.now ≢ name ∷ others }
{
    let (first, others) = names.split_first()?;
    if *first == name { Some(others) } else { None }
}

/// Appends what is chosen for each injection point of whoever it is of.
fn push_injections(
    actor: Actor,
    targets: &[Target],
    list: &mut Seq<Injection>,
) -> Result<(), AllocError>
    ensures { OnOk result (list.new ≡ list.old ++ injections_from actor 0 targets.now) }
{
    for (point, target) in targets.iter().enumerate() {
        list.push(Injection {
            actor,
            point: position_at(point)?,
            bean: position_at(target.bean)?,
        })?;
    }
    Ok(())
}

impl<'a, V: View, B: Bodies> Stage<'a, V, B> {
    /// The interceptors around a place of a bean that is declared, by position.
    pub(crate) fn chain(&self, bean: &BeanDecl, place: &BeanPlace) -> Result<Seq<u32>, AllocError>
        requires declared { find_decl kinds.Bean bean.now.name (V.list self.now.view.now) ≡ Some (decls.Bean bean.now) }
        requires place { has_place bean.now place.now ≡ true }
        ensures { IfOk result (λ chain. chain ≡ chain_at (V.list self.now.view.now) bean.now place.now) }
    {
        let names = self.view.lent_chain(self.alloc, &bean.name, place)?;
        positions_named(self.alloc, self.around, names.get().as_slice())
    }

    /// Those around a producer method: none around a static one.
    pub(crate) fn producer_chain(
        &self,
        bean: &BeanDecl,
        producer: &ProducerDecl,
    ) -> Result<Seq<u32>, AllocError>
        requires declared { find_decl kinds.Bean bean.now.name (V.list self.now.view.now) ≡ Some (decls.Bean bean.now) }
        requires producer { Contains bean.now.producers producer.now }
        ensures { IfOk result (λ chain. chain ≡ producer_chain (V.list self.now.view.now) bean.now producer.now) }
    {
        if producer.is_static {
            return Ok(Seq::new(self.alloc));
        }
        self.chain(bean, &BeanPlace::Producer(producer.name))
    }

    /// What is chosen for the injection points of each interceptor around some place of a bean, and then for its own.
    pub(crate) fn injections(&self, class: Class<'_>) -> Result<Seq<Injection>, AllocError>
        requires { IsClassOf (V.list self.now.view.now) class }
        ensures { IfOk result (λ list. list ≡ injections_of (V.list self.now.view.now) class.entry.bean.now) }
    {
        let names = interceptors_of(self.alloc, self.view, class.bean)?;
        let mut list = Seq::new(self.alloc);
        for (position, around) in self.around.iter().enumerate() {
            if names.contains(&around.decl.name) {
                let actor = Actor::Interceptor(position_at(position)?);
                push_injections(actor, around.targets.as_slice(), &mut list)?;
            }
        }
        push_injections(Actor::Target, class.targets, &mut list)?;
        Ok(list)
    }

    /// The interceptors that are enabled.
    pub(crate) fn interceptors(&self) -> Result<Seq<Interceptor>, AllocError>
        ensures { IfOk result (λ list. list ≡ map (staged_interceptor (V.list self.now.view.now) (B.promises self.now.book.now))
            (around_of (V.list self.now.view.now))) }
    {
        let mut list = Seq::new(self.alloc);
        for around in self.around {
            list.push(self.interceptor(around)?)?;
        }
        Ok(list)
    }

    #[tactic(auto, unfolding(crate::specs::Staged::staged_interceptor))]
    fn interceptor(&self, around: &Around<'_>) -> Result<Interceptor, AllocError>
        requires { Contains (in_order (V.list self.now.view.now)) around.now.decl.now }
        ensures { IfOk result (λ made. made
            ≡ staged_interceptor (V.list self.now.view.now) (B.promises self.now.book.now) (around_in around.now)) }
    {
        let decl = around.decl;
        let sight = Visible {
            points: decl.points.as_slice(),
            targets: around.targets.as_slice(),
            params: &[],
            param_targets: &[],
        };
        Ok(Interceptor {
            around_construct: self.optional_part(sight, decl.around_construct.as_ref())?,
            around_invoke: self.optional_part(sight, decl.around_invoke.as_ref())?,
            post: self.optional_part(sight, decl.post.as_ref())?,
            pre: self.optional_part(sight, decl.pre.as_ref())?,
        })
    }
}
