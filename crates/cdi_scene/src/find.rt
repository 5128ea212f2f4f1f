//! Finds things in a scene by position. No call takes memory, and each looks at a few positions.
ghost use Rattle.std.specs.Prelude.{◌≡◌, ◌<◌, Some, length, option_map, slice_get};
ghost use Rattle.cdi_scene.specs.Scene.{bean_at, managed_at, product_at, interceptor_at, observer_at, disposer_at};
ghost use Rattle.cdi_scene.specs.Scene.{place_of, invocable_at, part_for, part_at};

use crate::place::{Place, Seat};
use crate::scene::{Bean, Form, Interceptor, Invocable, Managed, Observer, Part, Product, Scene};
use cdi_contexts::Actor;

impl Invocable {
    /// The interceptor at a link of the chain, counted from 0 (Interceptors 2.1, Interceptor Ordering).
    pub fn link(&self, position: usize) -> u32
        requires { position < length self.now.chain }
        ensures { slice_get self.now.chain position ≡ Some result }
    {
        self.chain.as_slice()[position]
    }
}

impl Interceptor {
    /// Its body for a place, if it has one: methods, producer methods and observer methods share `around_invoke`
    /// (Interceptors 2.1, Method Interceptors).
    pub fn part_for(&self, place: Place) -> Option<&Part>
        ensures { option_map (λ part. part.now) result ≡ part_for place self.now }
    {
        match place {
            Place::Construct => self.around_construct.as_ref(),
            Place::Post => self.post.as_ref(),
            Place::Pre => self.pre.as_ref(),
            _ => self.around_invoke.as_ref(),
        }
    }
}

impl Scene {
    /// The bean at a position.
    pub fn bean(&self, position: u32) -> Option<&Bean>
        ensures { option_map (λ bean. bean.now) result ≡ bean_at self.now position }
    {
        self.beans.as_slice().get(position as usize)
    }

    /// The managed bean at a position; none where a product is there, or nothing.
    pub fn managed(&self, position: u32) -> Option<&Managed>
        ensures { option_map (λ managed. managed.now) result ≡ managed_at self.now position }
    {
        match &self.bean(position)?.form {
            Form::Managed(managed) => Some(managed),
            Form::Product(_) => None,
        }
    }

    /// The product at a position; none where a managed bean is there, or nothing.
    pub fn product(&self, position: u32) -> Option<&Product>
        ensures { option_map (λ product. product.now) result ≡ product_at self.now position }
    {
        match &self.bean(position)?.form {
            Form::Managed(_) => None,
            Form::Product(product) => Some(product),
        }
    }

    /// The observer method of a bean at a position there; none for a product.
    pub fn observer(&self, bean: u32, position: u32) -> Option<&Observer>
        ensures { option_map (λ observer. observer.now) result ≡ observer_at self.now bean position }
    {
        self.managed(bean)?
            .observers
            .as_slice()
            .get(position as usize)
    }

    /// What is invoked at a place of a bean: interceptors and the bean's own body. A disposer method is not intercepted, so
    /// it has no interceptors here (Interceptors 2.1, Method Interceptors).
    pub fn invocable(&self, bean: u32, place: Place) -> Option<&Invocable>
        ensures { option_map (λ invocable. invocable.now) result ≡ invocable_at self.now bean place }
    {
        match place {
            Place::Producer(product) => Some(&self.product(product)?.invocable),
            Place::Disposer(_) => None,
            Place::Observer(position) => Some(&self.observer(bean, position)?.invocable),
            _ => self.managed(bean)?.invocable(place),
        }
    }

    /// The interceptor at a position.
    pub fn interceptor(&self, position: u32) -> Option<&Interceptor>
        ensures { option_map (λ interceptor. interceptor.now) result ≡ interceptor_at self.now position }
    {
        self.interceptors.as_slice().get(position as usize)
    }

    /// The disposer method of a product (CDI 4.0, Disposer method resolution).
    pub fn disposer(&self, product: u32) -> Option<&Part>
        ensures { option_map (λ part. part.now) result ≡ disposer_at self.now product }
    {
        self.product(product)?.disposer.as_ref()
    }

    /// The body that runs at a seat, of the interceptor or of the bean, whoever sits there.
    pub fn part(&self, seat: Seat) -> Option<&Part>
        ensures { option_map (λ part. part.now) result ≡ part_at self.now seat }
    {
        match seat.actor {
            Actor::Interceptor(position) => self.interceptor(position)?.part_for(seat.place),
            Actor::Target => match seat.place {
                Place::Disposer(product) => self.disposer(product),
                _ => self.invocable(seat.bean, seat.place)?.part.as_ref(),
            },
        }
    }
}

impl Managed {
    /// What is invoked at a place, other than at an observer method or a producer method.
    fn invocable(&self, place: Place) -> Option<&Invocable>
        ensures { option_map (λ invocable. invocable.now) result ≡ place_of self.now place }
    {
        match place {
            Place::Construct => Some(&self.construct),
            Place::Post => Some(&self.post),
            Place::Pre => Some(&self.pre),
            Place::Method(position) => self.methods.as_slice().get(position as usize),
            _ => None,
        }
    }
}
