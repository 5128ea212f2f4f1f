//! Who plays runs on a stage, and what the scene of the stage says of beans and seats. No call here takes memory.
ghost use Rattle.std.specs.Prelude.{◌≡◌, IsSome, IfSome, option_map};
ghost use Rattle.cdi_scene.specs.Scene.{bean_at, managed_at, product_at, invocable_at, observer_at};
ghost use Rattle.cdi_scene.specs.Sound.{IsSoundAt};
ghost use Rattle.cdi_legal.specs.Acts.{PermitsIn};
ghost use Rattle.cdi_legal.specs.Legal.{product_of};
ghost use Rattle.cdi_run.specs.Known.{HasScope, IsManaged, IsProduct, IsObserver, IsInvocable, RunsAt, MayMake};

use cdi_bodies::{Act, Bodies};
use cdi_ending::Stage;
use cdi_model::{Scope, Val};
use cdi_scene::{Form, Invocable, Managed, Observer, Part, Place, Product, Seat};

/// Plays runs on a stage: lookups, calls and events, and the ends of contexts.
#[derive(Drop)]
pub struct Player<'a, B: Bodies> {
    pub stage: Stage<'a, B>,
}

impl<'a, B: Bodies> Player<'a, B> {
    /// The managed bean at a position.
    pub(crate) fn managed(&self, bean: u32) -> Option<&'a Managed>
        ensures found { option_map (λ managed. managed.now) result ≡ managed_at self.now.stage.scene bean }
        ensures sound { IfSome result (λ managed. IsManaged self.now.stage bean managed.now) }
    {
        self.stage.scene().managed(bean)
    }

    /// The product at a position.
    pub(crate) fn product(&self, bean: u32) -> Option<&'a Product>
        ensures found { option_map (λ product. product.now) result ≡ product_at self.now.stage.scene bean }
        ensures sound { IfSome result (λ product. IsProduct self.now.stage bean product.now) }
    {
        self.stage.scene().product(bean)
    }

    /// The observer method of a bean at a position there.
    pub(crate) fn observer(&self, bean: u32, position: u32) -> Option<&'a Observer>
        ensures found { option_map (λ observer. observer.now) result ≡ observer_at self.now.stage.scene bean position }
        ensures sound { IfSome result (λ observer. IsObserver self.now.stage bean position observer.now) }
    {
        self.stage.scene().observer(bean, position)
    }

    /// What is invoked at a place of a bean.
    pub(crate) fn invocable(&self, bean: u32, place: Place) -> Option<&'a Invocable>
        ensures found { option_map (λ invocable. invocable.now) result ≡ invocable_at self.now.stage.scene bean place }
        ensures sound { IfSome result (λ invocable. IsInvocable self.now.stage bean place invocable.now) }
    {
        self.stage.scene().invocable(bean, place)
    }

    /// The scope of a bean.
    pub(crate) fn scope_of(&self, bean: u32) -> Scope
        requires { IsSome (bean_at self.now.stage.scene bean) }
        ensures { HasScope self.now.stage.scene bean result }
    {
        match self.stage.scene().bean(bean) {
            Some(found) => found.scope,
            None => unreachable!(),
        }
    }

    /// What a product holds once it is ready.
    pub(crate) fn product_of(&self, bean: u32, value: Val) -> Option<Val>
        ensures { IfSome (bean_at self.now.stage.scene bean) (λ x. result ≡ product_of x.form value) }
    {
        match self.stage.scene().bean(bean) {
            Some(found) => match &found.form {
                Form::Managed(_) => None,
                Form::Product(_) => Some(value),
            },
            None => None,
        }
    }

    /// The body that runs at a seat.
    pub(crate) fn part_at(&self, seat: Seat) -> &'a Part
        requires { IsSoundAt self.now.stage.promises self.now.stage.scene seat }
        ensures { RunsAt self.now.stage seat result.now }
    {
        match self.stage.scene().part(seat) {
            Some(part) => part,
            None => unreachable!(),
        }
    }

    /// The body that runs at a seat, which may make an act.
    pub(crate) fn part_making(&self, seat: Seat, act: Act) -> &'a Part
        requires { MayMake self.now.stage seat act }
        ensures runs { RunsAt self.now.stage seat result.now }
        ensures permitted { PermitsIn result.now act }
    {
        match self.stage.scene().part(seat) {
            Some(part) => part,
            None => unreachable!(),
        }
    }
}
