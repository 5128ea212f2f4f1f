//! Views over present declarations.
ghost use Rattle.std.specs.Prelude.{◌≡◌, ℕ, List, true, false, is_some, Option, None, Ok, IfOk, IfSome, IsOk, OnOk, OnErr};
ghost use Rattle.std.specs.Option.{option_copied};
ghost use Rattle.cdi_model.specs.declared.decl.Decl.{Decl};
ghost use Rattle.cdi_model.specs.DeclList.{AreDistinct};
ghost use Rattle.cdi_effective.specs.Beans.{beans as beans_of};
ghost use Rattle.cdi_effective.specs.Records.{records_in};
ghost use Rattle.cdi_model.specs.Answering.{Answers};
ghost use Rattle.cdi_intercept.specs.Chains.{chain_of};
ghost use Rattle.cdi_resolve.specs.Choices.{chosen};
ghost use Rattle.cdi_observe.specs.Keys.{choice_key, ChainKey, EventKey};
ghost use Rattle.cdi_observe.specs.Kept.{Kept, after_key};
ghost use Rattle.cdi_observe.specs.Lending.{is_answerable, lent_value};
ghost use Rattle.cdi_observe.specs.Observers.{notified};

use crate::lent::Lent;
use crate::observers::{ObserverId, notified_of};
use crate::records::push_records;
use crate::shared::Shared;
use cdi_effective::Effective;
use cdi_intercept::evaluate_chain;
use cdi_model::{BeanPlace, Decls, Error, Name, Quals, Work};
use cdi_resolve::{BeanList, Choice};
use std::alloc::{AllocError, Global};
use std::marker::Model;

/// What answers questions about present declarations. It may keep answers, and counts those that it computes.
pub trait View {
    /// The declarations.
    ghost list: { Self → List Decl };

    /// The keys whose answers are kept, and how many answers were computed.
    ghost kept: { Self → Kept };

    /// The declarations after an edit that is staged, if one is.
    ghost staged: { Self → Option (List Decl) };

    /// What it counts beside answers, which no question changes.
    ghost counts: { Self → ℕ × ℕ };

    /// The declarations.
    fn decls(&self) -> &Decls
        ensures value { result.now ≡ list self.now }
        ensures distinct { AreDistinct (list self.now) };

    /// The records of the bean declaration of a class: its managed bean, and after it its products in order. None where
    /// no such bean is declared.
    fn records(&self, class: &Name) -> &[Effective]
        ensures { result.now ≡ records_in (list self.now) class.now };

    /// Whether it keeps answers.
    fn keeps(&self) -> bool
        ensures { result ≡ (kept self.now).keeps };

    /// The bean for a type and qualifiers, where it is kept. It takes no memory.
    fn kept_choice(&self, bean_type: &Name, quals: &Quals) -> Option<&Choice>
        ensures known { is_some result ≡ (kept self.now).knows (choice_key bean_type.now quals.now) }
        ensures choice { IfSome (option_copied result)
            (λ choice. choice ≡ chosen (list self.now) (beans_of (list self.now)) bean_type.now quals.now) };

    /// The names of the interceptors around a place of the bean of a class, where they are kept. It takes no memory.
    fn kept_chain(&self, class: &Name, place: &BeanPlace) -> Option<&Shared<Name>>
        ensures known { is_some result ≡ (kept self.now).knows (ChainKey class.now place.now) }
        ensures chain { IfSome (option_copied result) (λ names. chain_of (list self.now) class.now place.now ≡ Ok names) };

    /// The observer methods that are notified of an event of a type with some qualifiers, where they are kept. It takes no
    /// memory.
    fn kept_observers(&self, event_type: &Name, quals: &Quals) -> Option<&Shared<ObserverId>>
        ensures known { is_some result ≡ (kept self.now).knows (EventKey event_type.now quals.now) }
        ensures observers { IfSome (option_copied result)
            (λ ids. ids ≡ notified (list self.now) (beans_of (list self.now)) event_type.now quals.now) };

    /// The bean for a type and qualifiers, which is known where the view keeps answers. It is lent where it is kept, and takes
    /// memory where it is made.
    fn lent_choice(
        &self,
        alloc: Global,
        bean_type: &Name,
        quals: &Quals,
    ) -> Result<Lent<'_, Choice>, AllocError>
        requires { is_answerable (kept self.now) (choice_key bean_type.now quals.now) ≡ true }
        ensures { IfOk result
            (λ answer. lent_value answer ≡ chosen (list self.now) (beans_of (list self.now)) bean_type.now quals.now) };

    /// The names of the interceptors around a place that the bean of a class has, as `lent_choice` answers.
    fn lent_chain(
        &self,
        alloc: Global,
        class: &Name,
        place: &BeanPlace,
    ) -> Result<Lent<'_, Shared<Name>>, AllocError>
        requires answerable { is_answerable (kept self.now) (ChainKey class.now place.now) ≡ true }
        requires told { IsOk (chain_of (list self.now) class.now place.now) }
        ensures { IfOk result (λ answer. chain_of (list self.now) class.now place.now ≡ Ok (lent_value answer)) };

    /// The observer methods that are notified of an event of a type with some qualifiers, as `lent_choice` answers.
    fn lent_observers(
        &self,
        alloc: Global,
        event_type: &Name,
        quals: &Quals,
    ) -> Result<Lent<'_, Shared<ObserverId>>, AllocError>
        requires { is_answerable (kept self.now) (EventKey event_type.now quals.now) ≡ true }
        ensures { IfOk result
            (λ answer. lent_value answer ≡ notified (list self.now) (beans_of (list self.now)) event_type.now quals.now) };

    /// The bean for a type and qualifiers (CDI 4.0, Performing typesafe resolution). Where the answer was not kept, a view
    /// that keeps answers counts one more, and keeps it if a declaration asks for it; an edit that is staged may be
    /// given up then. Where the call runs out of memory, the view has kept and counted nothing.
    fn choose(
        &mut self,
        alloc: Global,
        bean_type: Name,
        quals: &Quals,
    ) -> Result<Choice, AllocError>
        ensures choice { IfOk result (λ choice. choice ≡ chosen (list self.old) (beans_of (list self.old)) bean_type quals.now) }
        ensures list { list self.new ≡ list self.old }
        ensures counts { counts self.new ≡ counts self.old }
        ensures ok { OnOk result (kept self.new ≡ after_key (list self.old) (choice_key bean_type quals.now) (kept self.old)) }
        ensures err { OnErr result (kept self.new ≡ kept self.old) }
        ensures staged { (kept self.old).knows (choice_key bean_type quals.now) ≡ true → staged self.new ≡ staged self.old };

    /// The names of the interceptors around a place of the bean of a class, in order (Interceptors 2.1, Interceptor
    /// Ordering), whether it is enabled or not. It is refused with `UnknownName` where no such bean is declared, and with
    /// `NoMethod` where it has no such place. It counts, and may give an edit up, as `choose` does; where it is refused or
    /// runs out of memory, the view has kept and counted nothing.
    fn chain(
        &mut self,
        alloc: Global,
        class: Name,
        place: &BeanPlace,
    ) -> Result<Shared<Name>, Error>
        ensures chain { Answers result (chain_of (list self.old) class place.now) }
        ensures list { list self.new ≡ list self.old }
        ensures counts { counts self.new ≡ counts self.old }
        ensures ok { OnOk result (kept self.new ≡ after_key (list self.old) (ChainKey class place.now) (kept self.old)) }
        ensures err { OnErr result (kept self.new ≡ kept self.old) }
        ensures staged { (kept self.old).knows (ChainKey class place.now) ≡ true → staged self.new ≡ staged self.old };

    /// The observer methods that are notified of an event of a type with some qualifiers, in order (CDI 4.0, Observer
    /// resolution; Observer ordering). A type or a qualifier that is not declared is taken as it is. It counts, and may give
    /// an edit up, as `choose` does; where it runs out of memory, the view has kept and counted nothing.
    fn observers(
        &mut self,
        alloc: Global,
        event_type: Name,
        quals: &Quals,
    ) -> Result<Shared<ObserverId>, AllocError>
        ensures observers { IfOk result (λ ids. ids ≡ notified (list self.old) (beans_of (list self.old)) event_type quals.now) }
        ensures list { list self.new ≡ list self.old }
        ensures counts { counts self.new ≡ counts self.old }
        ensures ok { OnOk result (kept self.new ≡ after_key (list self.old) (EventKey event_type quals.now) (kept self.old)) }
        ensures err { OnErr result (kept self.new ≡ kept self.old) }
        ensures staged { (kept self.old).knows (EventKey event_type quals.now) ≡ true → staged self.new ≡ staged self.old };
}

/// A view that keeps no answer, and computes each anew.
#[derive(Drop)]
pub struct PlainView<'a> {
    decls: &'a Decls,
    beans: &'a BeanList,
}

impl<'a> Model for PlainView<'a> {
    ghost use Rattle.std.specs.Prelude.{◌≡◌, List};
    ghost use Rattle.cdi_model.specs.declared.decl.Decl.{Decl};
    ghost use Rattle.cdi_effective.specs.Beans.{beans as beans_of};

    ghost Value = { List Decl };

    ghost view = { λ v. v.decls.now };

    ghost invariant = { λ v. v.beans.now ≡ beans_of v.decls.now };
}

impl<'a> PlainView<'a> {
    /// The view over some declarations whose bean list this is.
    pub fn new(decls: &'a Decls, beans: &'a BeanList) -> PlainView<'a>
        requires { beans.now ≡ beans_of decls.now }
        ensures { result ≡ decls.now }
    {
        PlainView { decls, beans }
    }
}

impl<'a> View for PlainView<'a> {
    ghost list = { λ v. v };

    ghost kept = { λ v. record { keeps = false; knows = λ key. false; work = 0 } };

    ghost staged = { λ v. None };

    ghost counts = { λ v. (0, 0) };

    fn decls(&self) -> &Decls {
        // No effect at run time. The proof reads here that no two declarations have one kind and name.
        let _ = self.decls.iter();
        self.decls
    }

    fn records(&self, class: &Name) -> &[Effective] {
        self.beans.records(class)
    }

    fn keeps(&self) -> bool {
        false
    }

    fn kept_choice(&self, _bean_type: &Name, _quals: &Quals) -> Option<&Choice> {
        None
    }

    fn kept_chain(&self, _class: &Name, _place: &BeanPlace) -> Option<&Shared<Name>> {
        None
    }

    fn kept_observers(&self, _event_type: &Name, _quals: &Quals) -> Option<&Shared<ObserverId>> {
        None
    }

    fn lent_choice(
        &self,
        alloc: Global,
        bean_type: &Name,
        quals: &Quals,
    ) -> Result<Lent<'_, Choice>, AllocError> {
        let mut work = Work::new();
        let choice = self
            .beans
            .choose(alloc, self.decls, *bean_type, quals, &mut work)?;
        Ok(Lent::Made(choice))
    }

    fn lent_chain(
        &self,
        alloc: Global,
        class: &Name,
        place: &BeanPlace,
    ) -> Result<Lent<'_, Shared<Name>>, AllocError> {
        let mut work = Work::new();
        match evaluate_chain(alloc, self.decls, *class, place, &mut work) {
            Ok(names) => Ok(Lent::Made(Shared::from_vec(alloc, names.into_vec())?)),
            Err(Error::OutOfMemory) => Err(AllocError),
            Err(Error::Refused(_)) => unreachable!(),
        }
    }

    fn lent_observers(
        &self,
        alloc: Global,
        event_type: &Name,
        quals: &Quals,
    ) -> Result<Lent<'_, Shared<ObserverId>>, AllocError> {
        let mut beans = Vec::new(alloc);
        push_records(self.beans.as_slice(), &mut beans)?;
        let ids = notified_of(alloc, self.decls, &beans, *event_type, quals.as_slice())?;
        Ok(Lent::Made(ids))
    }

    #[tactic(auto, unfolding(crate::specs::Kept::after_key))]
    fn choose(
        &mut self,
        alloc: Global,
        bean_type: Name,
        quals: &Quals,
    ) -> Result<Choice, AllocError> {
        let mut work = Work::new();
        self.beans
            .choose(alloc, self.decls, bean_type, quals, &mut work)
    }

    #[tactic(auto, unfolding(crate::specs::Kept::after_key))]
    fn chain(
        &mut self,
        alloc: Global,
        class: Name,
        place: &BeanPlace,
    ) -> Result<Shared<Name>, Error> {
        let mut work = Work::new();
        let names = evaluate_chain(alloc, self.decls, class, place, &mut work)?;
        Ok(Shared::from_vec(alloc, names.into_vec())?)
    }

    #[tactic(auto, unfolding(crate::specs::Kept::after_key))]
    fn observers(
        &mut self,
        alloc: Global,
        event_type: Name,
        quals: &Quals,
    ) -> Result<Shared<ObserverId>, AllocError> {
        let mut beans = Vec::new(alloc);
        push_records(self.beans.as_slice(), &mut beans)?;
        notified_of(alloc, self.decls, &beans, event_type, quals.as_slice())
    }
}
