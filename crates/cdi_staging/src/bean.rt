//! Managed beans and products.
ghost use Rattle.std.specs.Prelude.{◌≡◌, Contains, map, IfOk, option_copied};
ghost use Rattle.cdi_effective.specs.Beans.{managed as managed_record, product as product_record};
ghost use Rattle.cdi_staging.specs.Shown.{IsClassOf};
ghost use Rattle.cdi_staging.specs.Staged.{disposer_for, disposer_named, managed_form, product_form, staged_managed, staged_observer};
ghost use Rattle.cdi_staging.specs.Staged.{staged_product, unused_managed, unused_product};

use crate::class::Class;
use crate::part::empty_place;
use crate::stage::Stage;
use crate::target::{Target, position_of_class, targets_of};
use cdi_bodies::Bodies;
use cdi_effective::{Effective, disposer_of};
use cdi_model::{BeanDecl, BeanPlace, DisposerDecl, Ident, ObserverDecl, ProducerDecl, Seq};
use cdi_observe::View;
use cdi_scene::{Bean, Form, Managed, Observer, Part, Product, position_at};
use std::alloc::{AllocError, Global};

/// The positions of some beans.
fn positions(alloc: Global, targets: &[Target]) -> Result<Seq<u32>, AllocError>
    ensures { IfOk result (λ list. list ≡ map (λ target. target.bean) targets.now) }
{
    let mut positions = Seq::new(alloc);
    for target in targets {
        positions.push(position_at(target.bean)?)?;
    }
    Ok(positions)
}

fn disposer_named(bean: &BeanDecl, name: Ident) -> Option<&DisposerDecl>
    ensures { option_copied result ≡ disposer_named bean.now name }
{
    for disposer in bean.disposers.as_slice() {
        if disposer.name == name {
            return Some(disposer);
        }
    }
    None
}

/// The placeholder for a managed bean that is not enabled.
fn unused_managed(alloc: Global) -> Managed
    ensures { result ≡ unused_managed }
{
    Managed {
        injections: Seq::new(alloc),
        construct: empty_place(alloc),
        post: empty_place(alloc),
        pre: empty_place(alloc),
        methods: Seq::new(alloc),
        observers: Seq::new(alloc),
    }
}

impl<'a, V: View, B: Bodies> Stage<'a, V, B> {
    #[tactic(auto, unfolding(crate::specs::Staged::staged_observer))]
    fn staged_observer(
        &self,
        class: Class<'_>,
        observer: &ObserverDecl,
    ) -> Result<Observer, AllocError>
        requires class { IsClassOf (V.list self.now.view.now) class }
        requires observer { Contains class.bean.now.observers observer.now }
        ensures { IfOk result (λ made. made
            ≡ staged_observer (V.list self.now.view.now) (B.promises self.now.book.now) class.entry.bean.now observer.now) }
    {
        let params = observer.params.as_slice();
        let targets = targets_of(self.alloc, self.view, self.beans, params)?;
        let sight = class.sight_with(false, params, targets.as_slice());
        let place = BeanPlace::Observer(observer.name);
        Ok(Observer {
            is_conditional: observer.is_conditional,
            params: positions(self.alloc, targets.as_slice())?,
            invocable: self.staged_place(sight, class.bean, &place, Some(&observer.part))?,
        })
    }

    /// The observer methods of a bean.
    fn observers(&self, class: Class<'_>) -> Result<Seq<Observer>, AllocError>
        requires { IsClassOf (V.list self.now.view.now) class }
        ensures { IfOk result (λ made. made
            ≡ map (staged_observer (V.list self.now.view.now) (B.promises self.now.book.now) class.entry.bean.now)
            class.entry.bean.now.observers) }
    {
        let mut list = Seq::new(self.alloc);
        for observer in class.bean.observers.as_slice() {
            list.push(self.staged_observer(class, observer)?)?;
        }
        Ok(list)
    }

    #[tactic(auto, unfolding(crate::specs::Staged::managed_form))]
    fn managed_form(&self, class: Class<'_>) -> Result<Managed, AllocError>
        requires { IsClassOf (V.list self.now.view.now) class }
        ensures { IfOk result (λ made. made
            ≡ managed_form (V.list self.now.view.now) (B.promises self.now.book.now) class.entry.bean.now) }
    {
        let (sight, bean) = (class.sight(), class.bean);
        let construct = BeanPlace::Construct;
        Ok(Managed {
            injections: self.injections(class)?,
            construct: self.staged_place(sight, bean, &construct, bean.construct.as_ref())?,
            post: self.staged_place(sight, bean, &BeanPlace::Post, bean.post.as_ref())?,
            pre: self.staged_place(sight, bean, &BeanPlace::Pre, bean.pre.as_ref())?,
            methods: self.staged_methods(class)?,
            observers: self.observers(class)?,
        })
    }

    /// The disposer method that matches a product (CDI 4.0, Disposer method resolution).
    #[tactic(auto, unfolding(crate::specs::Staged::disposer_for))]
    fn disposer_for(&self, bean: &BeanDecl, effective: &Effective) -> Option<Part>
        ensures { result ≡ disposer_for (V.list self.now.view.now) (B.promises self.now.book.now) bean.now effective.now }
    {
        let name = disposer_of(self.alloc, self.view.decls(), effective)?;
        let disposer = disposer_named(bean, name)?;
        self.part_of(disposer.body, Seq::new(self.alloc), Seq::new(self.alloc))
    }

    #[tactic(auto, unfolding(crate::specs::Staged::product_form))]
    fn product_form(
        &self,
        class: Class<'_>,
        effective: &Effective,
        producer: &ProducerDecl,
    ) -> Result<Product, AllocError>
        requires class { IsClassOf (V.list self.now.view.now) class }
        requires producer { Contains class.bean.now.producers producer.now }
        requires record { effective.now ≡ product_record (V.list self.now.view.now) class.bean.now producer.now }
        ensures { IfOk result (λ made. made
            ≡ product_form (V.list self.now.view.now) (B.promises self.now.book.now) class.entry.bean.now producer.now) }
    {
        let params = producer.params.as_slice();
        let targets = targets_of(self.alloc, self.view, self.beans, params)?;
        let sight = class.sight_with(producer.is_static, params, targets.as_slice());
        let chain = self.producer_chain(class.bean, producer)?;
        Ok(Product {
            declaring: position_at(position_of_class(self.beans, class.bean.name))?,
            is_static: producer.is_static,
            params: positions(self.alloc, targets.as_slice())?,
            invocable: self.invocable(sight, chain, Some(&producer.part))?,
            disposer: self.disposer_for(class.bean, effective),
        })
    }

    /// The placeholder for a product that is not enabled.
    fn unused_product(&self, bean: &BeanDecl) -> Result<Product, AllocError>
        ensures { IfOk result (λ made. made ≡ unused_product (V.list self.now.view.now) bean.now) }
    {
        Ok(Product {
            declaring: position_at(position_of_class(self.beans, bean.name))?,
            is_static: false,
            params: Seq::new(self.alloc),
            invocable: empty_place(self.alloc),
            disposer: None,
        })
    }

    /// The managed bean of a class, which has this record.
    pub(crate) fn managed_bean(
        &self,
        class: Class<'_>,
        effective: &Effective,
    ) -> Result<Bean, AllocError>
        requires class { IsClassOf (V.list self.now.view.now) class }
        requires record { effective.now ≡ managed_record (V.list self.now.view.now) class.bean.now }
        ensures { IfOk result (λ made. made
            ≡ staged_managed (V.list self.now.view.now) (B.promises self.now.book.now) class.entry.bean.now) }
    {
        let managed = if effective.is_enabled {
            self.managed_form(class)?
        } else {
            unused_managed(self.alloc)
        };
        Ok(Bean {
            scope: effective.scope,
            form: Form::Managed(managed),
        })
    }

    /// The product of a producer method, which has this record.
    pub(crate) fn product_bean(
        &self,
        class: Class<'_>,
        effective: &Effective,
        producer: &ProducerDecl,
    ) -> Result<Bean, AllocError>
        requires class { IsClassOf (V.list self.now.view.now) class }
        requires producer { Contains class.bean.now.producers producer.now }
        requires record { effective.now ≡ product_record (V.list self.now.view.now) class.bean.now producer.now }
        ensures { IfOk result (λ made. made
            ≡ staged_product (V.list self.now.view.now) (B.promises self.now.book.now) class.entry.bean.now producer.now) }
    {
        let product = if effective.is_enabled {
            self.product_form(class, effective, producer)?
        } else {
            self.unused_product(class.bean)?
        };
        Ok(Bean {
            scope: effective.scope,
            form: Form::Product(product),
        })
    }
}
