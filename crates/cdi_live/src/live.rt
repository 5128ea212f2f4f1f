//! Declarations whose answers are kept.
ghost use Rattle.std.specs.Prelude.{◌≡◌, ◌-◌, ◌^◌, min, length, true, is_some, Some, None, Ok, IfOk, IfSome, OnOk, OnErr};
ghost use Rattle.std.specs.Option.{option_copied};
ghost use Rattle.cdi_effective.specs.Beans.{beans};
ghost use Rattle.cdi_effective.specs.Records.{records_in};
ghost use Rattle.cdi_index.specs.State.{drafted_from, IsEdited};
ghost use Rattle.cdi_observe.specs.Kept.{after_key};
ghost use Rattle.cdi_intercept.specs.Chains.{chain_of};
ghost use Rattle.cdi_model.specs.Answering.{Answers};
ghost use Rattle.cdi_model.specs.DeclList.{AreDistinct};
ghost use Rattle.cdi_observe.specs.Keys.{choice_key, ChainKey, EventKey};
ghost use Rattle.cdi_observe.specs.Observers.{notified};
ghost use Rattle.cdi_resolve.specs.Choices.{chosen, chosen_by_name};
ghost use Rattle.cdi_live.specs.Concerned.{Concerns};
ghost use Rattle.cdi_live.specs.Known.{known_of, KnownAreWanted};
ghost use Rattle.cdi_live.specs.State.{empty, kept_in, knows, staged_by, with_staged, Commits};

use crate::chain_place::ChainPlace;
use crate::chains::evaluate_chain;
use crate::choices::{evaluate, make_default, required_of};
use crate::event_lists::EventLists;
use crate::events::evaluate_event;
use crate::memos::{Going, Memos};
use crate::prepare::{KeptAnswers, Prepared, prepare};
use cdi_effective::Effective;
use cdi_index::{Counts, Draft, Index};
use cdi_model::{BeanPlace, DeclKey, Decls, Error, Name, Quals, Work};
use cdi_observe::{ObserverId, Shared};
use cdi_questions::choose_name;
use cdi_resolve::Choice;
use std::alloc::{AllocError, Global};
use std::marker::Model;

/// Declarations, with the answers to the questions that they ask, each kept until an edit touches it.
pub struct Live {
    alloc: Global,
    index: Index,
    memos: Memos,
    /// Lists of observer methods that events share, each right until the next commit.
    lists: EventLists,
    /// `Default`, for which a point asks that names no qualifier: from the first choice or edit on.
    by_default: Quals,
    work: Work,
    /// The kept answers that go at the next commit, if a draft is staged.
    going: Option<Going>,
}

impl Drop for Live {
    fn drop(self) {
        let Live {
            alloc: _,
            index: _,
            memos: _,
            lists: _,
            by_default: _,
            work: _,
            going: _,
        } = self;
    }
}

impl Model for Live {
    ghost use Rattle.cdi_live.specs.State.{seen, IsLive, State};

    ghost Value = { State };

    ghost view = { λ l. seen l.index l.memos l.work l.going };

    ghost invariant = { λ l. IsLive l.index l.memos l.lists l.by_default l.going };
}

impl Live {
    /// No declaration, and nothing kept or staged. It takes no memory.
    pub fn new(alloc: Global) -> Live
        ensures { result ≡ empty }
    {
        Live {
            alloc,
            index: Index::new(alloc),
            memos: Memos::new(alloc),
            lists: EventLists::new(alloc),
            by_default: Quals::new(alloc),
            work: Work::new(),
            going: None,
        }
    }

    /// The declarations. It takes no memory.
    pub fn decls(&self) -> &Decls
        ensures value { result.now ≡ self.now.decls }
        ensures distinct { AreDistinct self.now.decls }
    {
        self.index.decls()
    }

    /// The records of the bean declaration of a class: its managed bean, and after it its products in order. None where
    /// no such bean is declared. It takes no memory.
    pub fn records(&self, class: &Name) -> &[Effective]
        ensures { result.now ≡ records_in self.now.decls class.now }
    {
        self.index.records(class)
    }

    /// How many records were computed. It takes no memory.
    pub fn counts(&self) -> Counts
        ensures { result ≡ self.now.counts }
    {
        self.index.counts()
    }

    /// How many answers were computed. It takes no memory.
    pub fn work(&self) -> u64
        ensures count { result ≡ self.now.work }
        ensures wanted { KnownAreWanted self.now }
    {
        self.work.count()
    }

    /// How many keys are known, up to the greatest `usize`. It takes no memory.
    pub fn known(&self) -> usize
        ensures count { result ≡ min (length (known_of self.now)) (2 ^ 64 - 1) }
        ensures wanted { KnownAreWanted self.now }
    {
        let choices = self.memos.choices.count();
        let chains = self.memos.chains.count();
        let events = self.memos.events.count();
        choices.saturating_add(chains).saturating_add(events)
    }

    /// A draft without an edit. It takes memory as `Decls::copy` does.
    pub fn draft(&self) -> Result<Draft, AllocError>
        ensures { IfOk result (λ draft. draft ≡ drafted_from self.now.decls) }
    {
        self.index.draft()
    }

    /// The bean for a type and qualifiers (CDI 4.0, Performing typesafe resolution), where it is kept. It takes no memory.
    pub fn kept_choice(&self, bean_type: &Name, quals: &Quals) -> Option<&Choice>
        ensures known { is_some result ≡ knows self.now (choice_key bean_type.now quals.now) }
        ensures choice { IfSome (option_copied result)
            (λ choice. choice ≡ chosen self.now.decls (beans self.now.decls) bean_type.now quals.now) }
        ensures wanted { KnownAreWanted self.now }
    {
        if self.by_default.is_empty() {
            return None;
        }
        let uses = required_of(quals, &self.by_default);
        self.memos.choices.get(bean_type, uses)
    }

    /// The bean of a name (CDI 4.0, Name resolution). It is computed each time and not counted, and takes memory for a list of
    /// the beans that have the name.
    pub fn named(&self, alloc: Global, name: Name) -> Result<Choice, AllocError>
        ensures { IfOk result (λ choice. choice ≡ chosen_by_name (beans self.now.decls) name) }
    {
        choose_name(alloc, &self.index, name)
    }

    /// The bean for a type and qualifiers (CDI 4.0, Performing typesafe resolution). A choice that is not kept is computed
    /// and counted, and kept if a point asks for it; a draft that is staged is then given up. It takes memory for the answer,
    /// and to compute and keep it. Without memory nothing has changed.
    pub fn choose(
        &mut self,
        alloc: Global,
        bean_type: Name,
        quals: &Quals,
    ) -> Result<Choice, AllocError>
        ensures choice { IfOk result
            (λ choice. choice ≡ chosen self.old.decls (beans self.old.decls) bean_type quals.now) }
        ensures decls { self.new.decls ≡ self.old.decls }
        ensures counts { self.new.counts ≡ self.old.counts }
        ensures kept { OnOk result (kept_in self.new ≡ after_key self.old.decls (choice_key bean_type quals.now) (kept_in self.old)) }
        ensures err { OnErr result (self.new ≡ self.old) }
        ensures staged { knows self.old (choice_key bean_type quals.now) ≡ true → self.new.staged ≡ self.old.staged }
        ensures wanted { KnownAreWanted self.old }
    {
        if let Some(choice) = self.kept_choice(&bean_type, quals) {
            let copy = choice.copy(alloc)?;
            return Ok(copy);
        }
        make_default(&mut self.by_default, alloc)?;
        let choice = evaluate(
            alloc,
            &self.index,
            &mut self.memos.choices,
            bean_type,
            required_of(quals, &self.by_default),
            &mut self.work,
        )?;
        self.going = None;
        Ok(choice)
    }

    /// The names of the interceptors around a place of the bean of a class, in order (Interceptors 2.1, Interceptor
    /// Ordering), where they are kept. It takes no memory.
    pub fn kept_chain(&self, class: &Name, place: &BeanPlace) -> Option<&Shared<Name>>
        ensures known { is_some result ≡ knows self.now (ChainKey class.now place.now) }
        ensures chain { IfSome (option_copied result) (λ names. chain_of self.now.decls class.now place.now ≡ Ok names) }
        ensures wanted { KnownAreWanted self.now }
    {
        self.memos.chains.get(class, &ChainPlace::new(*place))
    }

    /// The names of the interceptors around a place of the bean of a class, in order (Interceptors 2.1, Interceptor
    /// Ordering), whether it is enabled or not. It is refused with `UnknownName` where no such bean is declared, and with
    /// `NoMethod` where it has no such place. A chain that is kept is shared, which takes no memory. Else it is computed, counted
    /// and kept, which takes memory; a draft that is staged is then given up. Where it is refused or without memory nothing has
    /// changed.
    pub fn chain(
        &mut self,
        alloc: Global,
        class: Name,
        place: &BeanPlace,
    ) -> Result<Shared<Name>, Error>
        ensures chain { Answers result (chain_of self.old.decls class place.now) }
        ensures decls { self.new.decls ≡ self.old.decls }
        ensures counts { self.new.counts ≡ self.old.counts }
        ensures kept { OnOk result (kept_in self.new ≡ after_key self.old.decls (ChainKey class place.now) (kept_in self.old)) }
        ensures err { OnErr result (self.new ≡ self.old) }
        ensures staged { knows self.old (ChainKey class place.now) ≡ true → self.new.staged ≡ self.old.staged }
        ensures wanted { KnownAreWanted self.old }
    {
        if let Some(names) = self.kept_chain(&class, place) {
            return Ok(names.share()?);
        }
        let names = evaluate_chain(
            alloc,
            &self.index,
            &mut self.memos.chains,
            class,
            place,
            &mut self.work,
        )?;
        self.going = None;
        Ok(names)
    }

    /// The observer methods that are notified of an event of a type with some qualifiers, in order (CDI 4.0, Observer
    /// resolution; Observer ordering), where they are kept. It takes no memory.
    pub fn kept_observers(&self, event_type: &Name, quals: &Quals) -> Option<&Shared<ObserverId>>
        ensures known { is_some result ≡ knows self.now (EventKey event_type.now quals.now) }
        ensures observers { IfSome (option_copied result)
            (λ ids. ids ≡ notified self.now.decls (beans self.now.decls) event_type.now quals.now) }
        ensures wanted { KnownAreWanted self.now }
    {
        self.memos.events.get(event_type, quals)
    }

    /// The observer methods that are notified of an event of a type with some qualifiers, in order (CDI 4.0, Observer
    /// resolution; Observer ordering). Those that are kept are shared, which takes no memory. Else they are computed and counted,
    /// and kept if a body may fire the event, which takes memory; a draft that is staged is then given up. Without memory
    /// nothing has changed.
    pub fn observers(
        &mut self,
        alloc: Global,
        event_type: Name,
        quals: &Quals,
    ) -> Result<Shared<ObserverId>, AllocError>
        ensures observers { IfOk result (λ ids. ids ≡ notified self.old.decls (beans self.old.decls) event_type quals.now) }
        ensures decls { self.new.decls ≡ self.old.decls }
        ensures counts { self.new.counts ≡ self.old.counts }
        ensures kept { OnOk result (kept_in self.new ≡ after_key self.old.decls (EventKey event_type quals.now) (kept_in self.old)) }
        ensures err { OnErr result (self.new ≡ self.old) }
        ensures staged { knows self.old (EventKey event_type quals.now) ≡ true → self.new.staged ≡ self.old.staged }
        ensures wanted { KnownAreWanted self.old }
    {
        if let Some(ids) = self.kept_observers(&event_type, quals) {
            return ids.share();
        }
        let ids = evaluate_event(
            alloc,
            &self.index,
            &mut self.lists,
            &mut self.memos.events,
            event_type,
            quals,
            &mut self.work,
        )?;
        self.going = None;
        Ok(ids)
    }

    /// Stages a draft of these declarations. Nothing is seen of it until `commit`. It answers which declarations are to be
    /// looked at again: what is edited or affected, or rests on that or on answers that go. The list has their kinds and
    /// names, some of them several times. It takes memory for all that is computed and for the list. It looks at the
    /// declarations that the draft affects, at the answers of which they are a part, and at what it answers; where a
    /// stereotype or a binding type is edited, at all declarations. Without memory nothing is staged.
    pub fn stage(&mut self, draft: Draft) -> Result<Vec<DeclKey>, AllocError>
        requires { IsEdited self.old.decls draft }
        ensures concerned { IfOk result (λ keys. Concerns self.old draft keys.items) }
        ensures ok { OnOk result (self.new ≡ with_staged self.old (Some (staged_by self.old draft))) }
        ensures err { OnErr result (self.new ≡ with_staged self.old None) }
    {
        self.going = None;
        make_default(&mut self.by_default, self.alloc)?;
        let kept = KeptAnswers {
            memos: &self.memos,
            by_default: &self.by_default,
        };
        let Prepared { going, concerned } = prepare(self.alloc, &mut self.index, &kept, draft)?;
        self.going = Some(going);
        Ok(concerned)
    }

    /// Gives up what is staged, if anything is. It takes no memory.
    pub fn give_up(&mut self)
        ensures { self.new ≡ with_staged self.old None }
    {
        self.going = None;
    }

    /// Takes over what is staged, if anything is. The answers that an edit touches, or for which nothing asks any more, are
    /// kept no longer, and no others. It takes no memory.
    pub fn commit(&mut self)
        ensures commits { Commits self.old self.new }
        ensures wanted { KnownAreWanted self.old }
    {
        if let Some(going) = self.going.take() {
            self.memos.forget(going);
            self.lists = EventLists::new(self.alloc);
            self.index.commit();
        }
    }
}
