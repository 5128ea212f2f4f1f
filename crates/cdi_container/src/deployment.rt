//! The present declarations and the stored bodies, and what questions have made of them.
ghost use Rattle.std.specs.Prelude.{◌≡◌, ◌≢◌, AllPairs, IfSome, None, [], is_some, length, map, true, false, Ok, Err, Some, ◌∷◌, OnOk, OnErr, IfOk, IfErr};
ghost use Rattle.std.specs.Option.{option_copied};
ghost use Rattle.cdi_model.specs.Edits.{answer_of_edit};
ghost use Rattle.cdi_index.specs.State.{IsEdited};
ghost use Rattle.cdi_container.specs.Editing.{changes_of_all, drafted_by, put_among, refusal_of_batch};
ghost use Rattle.cdi_container.specs.History.{no_counts};
ghost use Rattle.cdi_container.specs.Known.{keys_of_event, keys_of_use, worked, IsInOrder};
ghost use Rattle.cdi_container.specs.Points.{points_told};
ghost use Rattle.cdi_container.specs.PointsLent.{points_lent};
ghost use Rattle.cdi_container.specs.Seen.{AnswersBatch};
ghost use Rattle.cdi_model.specs.Answering.{Answers};
ghost use Rattle.cdi_model.specs.DeclList.{AreDistinct};
ghost use Rattle.cdi_model.specs.Short.{AreShort};
ghost use Rattle.cdi_effective.specs.Beans.{beans};
ghost use Rattle.cdi_resolve.specs.Choices.{chosen, chosen_by_name};
ghost use Rattle.cdi_intercept.specs.Chains.{chain_of};
ghost use Rattle.cdi_observe.specs.Keys.{ChainKey, EventKey, choice_key};
ghost use Rattle.cdi_observe.specs.Observers.{notified};
ghost use Rattle.cdi_observe.specs.Wanted.{wanted};
ghost use Rattle.cdi_staging.specs.Naming.{names_of};
ghost use Rattle.cdi_staging.specs.Notifying.{notified_as, notified_at};
ghost use Rattle.cdi_staging.specs.Staged.{scene_of};
ghost use Rattle.cdi_validate.specs.Faults.{faults};
ghost use Rattle.cdi_container.specs.Asked.{aim_for, aim_of, aim_of_choice, asked_for, fired_of};
ghost use Rattle.cdi_scene.specs.Sound.{AreObservers};
ghost use Rattle.cdi_container.specs.Wired.{AsksOwn, StandsIn, IsAsked, IsAskedSome, IsShortEdit, Evaluates, names_if, names_in, redeployed, staged_by, with_staged};
ghost use Rattle.cdi_wiring.specs.Wired.{IsWiredOf};

use crate::answer::{PutDone, WorkDone};
use crate::asked::{Aim, Message, aim_of_choice, can_be_fired};
use crate::batch::{BatchError, draft_batch, draft_change};
use crate::beans::Beans;
use crate::edited::{stage_looked, take_over};
use crate::found::find_wiring;
use crate::points::Points;
use cdi_bodies::Bodies;
use cdi_ending::Stage;
use cdi_faults::Fault;
use cdi_index::{Counts, Draft};
use cdi_lines::Edit;
use cdi_live::Live;
use cdi_model::{
    BeanPlace, Decl, Decls, Edit as Change, Error, Iter as DeclIter, Name, Quals, Refusal, Seq,
};
use cdi_observe::{ObserverId, Shared, evaluate};
use cdi_report::Unsettled;
use cdi_resolve::Choice;
use cdi_run::Player;
use cdi_scene::{Notified, Scene};
use cdi_staging::{ListedBeans, Names, Positions, positions_of};
use cdi_subjects::are_known;
use cdi_wiring::{Wired, Wiring};
use std::alloc::{AllocError, Global};
use std::marker::Model;

/// What was made of declarations before an edit. It is let go where it is made anew, so that the time of an edit does not
/// grow with the deployment.
struct Stale {
    scene: Option<Scene>,
    positions: Option<Positions>,
}

impl Drop for Stale {
    fn drop(self) {
        let Stale {
            scene: _,
            positions: _,
        } = self;
    }
}

impl Stale {
    fn none() -> Stale {
        Stale {
            scene: None,
            positions: None,
        }
    }

    /// A scene is stale, if there is one, with its positions. Its names.
    fn take_wiring(&mut self, wiring: Option<Wiring>) -> Option<Names>
        ensures { result ≡ names_in wiring }
    {
        match wiring {
            Some(Wiring::Sound(wired)) => {
                self.scene = Some(wired.scene);
                self.positions = Some(wired.positions);
                Some(wired.names)
            }
            _ => None,
        }
    }
}

/// The present declarations with the answers that are kept, the book of stored bodies, and what was made of them since the last
/// edit.
pub(crate) struct Deployment<B: Bodies> {
    live: Live,
    book: B,
    /// Made by the first lookup, call or event. Each wanted key is known from then on.
    wiring: Option<Wiring>,
    stale: Stale,
    /// At which declarations the next report looks.
    unsettled: Unsettled,
    /// Whether what is staged, if anything is, concerns only declarations at which the next report looks.
    is_readied: bool,
}

impl<B: Bodies + Drop> Drop for Deployment<B> {
    fn drop(self) {
        let Deployment {
            live: _,
            book: _,
            wiring: _,
            stale: _,
            unsettled: _,
            is_readied: _,
        } = self;
    }
}

impl<B: Bodies> Model for Deployment<B> {
    ghost use Rattle.cdi_live.specs.Known.{known_of};
    ghost use Rattle.cdi_container.specs.Kept.{IsKept};
    ghost use Rattle.cdi_container.specs.Wired.{Deployed, is_sound};

    ghost Value = { Deployed };

    ghost view = { λ d. record {
      decls = d.live.decls;
      counts = d.live.counts;
      known = known_of d.live;
      work = d.live.work;
      staged = d.live.staged;
      book = B.promises d.book;
      is_wired = is_sound d.wiring;
    } };

    ghost invariant = { λ d. IsKept d.live (B.promises d.book) d.wiring d.unsettled d.is_readied };
}

impl<B: Bodies> Deployment<B> {
    /// No declaration. It takes no memory yet.
    #[tactic(auto, using(crate::proofs::KnownLemmas::nothing))]
    pub(crate) fn new(alloc: Global, book: B) -> Deployment<B>
        ensures decls { result.decls ≡ [] }
        ensures counts { result.counts ≡ no_counts }
        ensures known { result.known ≡ [] }
        ensures work { result.work ≡ 0 }
        ensures staged { result.staged ≡ None }
        ensures book { result.book ≡ B.promises book }
        ensures wired { result.is_wired ≡ false }
    {
        Deployment {
            live: Live::new(alloc),
            book,
            wiring: None,
            stale: Stale::none(),
            unsettled: Unsettled::new(alloc),
            is_readied: false,
        }
    }

    /// The present declarations, in order.
    pub(crate) fn decls(&self) -> DeclIter<'_>
        ensures { result ≡ self.now.decls }
    {
        self.live.decls().iter()
    }

    /// The same as a list.
    pub(crate) fn present(&self) -> &Decls
        ensures { result.now ≡ self.now.decls }
    {
        self.live.decls()
    }

    /// The stored bodies.
    pub(crate) fn book(&self) -> &B
        ensures { B.promises result.now ≡ self.now.book }
    {
        &self.book
    }

    /// How many records were computed.
    pub(crate) fn counts(&self) -> Counts
        ensures { result ≡ self.now.counts }
    {
        self.live.counts()
    }

    /// How many answers were computed, and how many are known.
    pub(crate) fn work(&self) -> WorkDone
        ensures { result ≡ worked self.now.work self.now.known }
    {
        WorkDone {
            work: self.live.work(),
            known: self.live.known(),
        }
    }

    /// The records of all beans, in order.
    pub(crate) fn beans(&self) -> Beans<'_>
        ensures { result ≡ beans self.now.decls }
    {
        Beans::new(&self.live)
    }

    /// What a put of a declaration does.
    pub(crate) fn put_among(&self, decl: &Decl) -> PutDone
        ensures { result ≡ put_among self.now.decls decl.now }
    {
        PutDone {
            kind: decl.kind(),
            name: *decl.name(),
            has_replaced: self.live.decls().get(decl.kind(), decl.name()).is_some(),
        }
    }

    /// A draft of a change. It takes memory for what is put, and for a copy of the list.
    pub(crate) fn draft(&self, change: Change) -> Result<Draft, Error>
        requires { IsShortEdit change }
        ensures accepted { OnOk result (answer_of_edit self.now.decls change ≡ Ok tt) }
        ensures refused { IfErr result (λ error. Answers (Err error) (answer_of_edit self.now.decls change)) }
        ensures value { IfOk result (λ draft. draft ≡ drafted_by self.now.decls (change ∷ [])) }
        ensures short { IfOk result (λ draft. AreShort draft.decls) }
        ensures edited { IfOk result (IsEdited self.now.decls) }
    {
        draft_change(&self.live, change)
    }

    /// A draft of a batch. It takes memory as `draft` does.
    pub(crate) fn draft_batch(&self, alloc: Global, edits: Vec<Edit>) -> Result<Draft, BatchError>
        ensures answer { AnswersBatch result (refusal_of_batch self.now.decls edits.items) }
        ensures value { IfOk result (λ draft. draft ≡ drafted_by self.now.decls (changes_of_all edits.items)) }
        ensures short { IfOk result (λ draft. AreShort draft.decls) }
        ensures edited { IfOk result (IsEdited self.now.decls) }
    {
        draft_batch(alloc, &self.live, edits)
    }

    /// Stages a draft of these declarations, which nobody sees until `commit`. It takes memory for all that is computed.
    pub(crate) fn stage(&mut self, draft: Draft) -> Result<(), AllocError>
        requires edited { IsEdited self.old.decls draft }
        requires short { AreShort draft.decls }
        ensures ok { OnOk result (self.new ≡ with_staged self.old (Some (staged_by self.old.decls self.old.counts draft))) }
        ensures err { OnErr result (self.new ≡ with_staged self.old None) }
    {
        self.is_readied = false;
        stage_looked(&mut self.live, &mut self.unsettled, draft)?;
        self.is_readied = true;
        Ok(())
    }

    /// What is staged is present from now on, if anything is. The names of the declarations from before, where the scene was
    /// there. It takes no memory.
    #[tactic(auto, using(crate::proofs::Committing::names_wired))]
    pub(crate) fn commit(&mut self) -> Option<Names>
        requires { IfSome self.old.staged (λ next. AreShort next.decls) }
        ensures names { result ≡ names_if self.old }
        ensures new { self.new ≡ redeployed self.old }
    {
        let wiring = self.wiring.take();
        take_over(&mut self.live, &mut self.unsettled, self.is_readied);
        self.is_readied = false;
        self.stale.take_wiring(wiring)
    }

    /// The bean for a type and qualifiers.
    pub(crate) fn choose(
        &mut self,
        alloc: Global,
        bean_type: Name,
        quals: &Quals,
    ) -> Result<Choice, AllocError>
        ensures choice { IfOk result (λ choice. choice
            ≡ chosen self.old.decls (beans self.old.decls) bean_type quals.now) }
        ensures decls { self.new.decls ≡ self.old.decls }
        ensures book { self.new.book ≡ self.old.book }
        ensures wired { self.new.is_wired ≡ self.old.is_wired }
        ensures asked { OnOk result (IsAsked (choice_key bean_type quals.now ∷ []) self.old self.new) }
        ensures err { OnErr result (self.new ≡ self.old) }
    {
        self.is_readied = false;
        self.live.choose(alloc, bean_type, quals)
    }

    /// The bean of a name.
    pub(crate) fn named(&self, alloc: Global, name: Name) -> Result<Choice, AllocError>
        ensures { IfOk result (λ choice. choice ≡ chosen_by_name (beans self.now.decls) name) }
    {
        self.live.named(alloc, name)
    }

    /// The observer methods that are notified of an event.
    pub(crate) fn observers(
        &mut self,
        alloc: Global,
        event_type: Name,
        quals: &Quals,
    ) -> Result<Shared<ObserverId>, AllocError>
        ensures observers { IfOk result (λ ids. ids ≡ notified self.old.decls (beans self.old.decls) event_type quals.now) }
        ensures decls { self.new.decls ≡ self.old.decls }
        ensures book { self.new.book ≡ self.old.book }
        ensures wired { self.new.is_wired ≡ self.old.is_wired }
        ensures asked { OnOk result (IsAsked (EventKey event_type quals.now ∷ []) self.old self.new) }
        ensures err { OnErr result (self.new ≡ self.old) }
    {
        self.is_readied = false;
        self.live.observers(alloc, event_type, quals)
    }

    /// The names of the interceptors around a place.
    pub(crate) fn chain(
        &mut self,
        alloc: Global,
        bean: Name,
        place: &BeanPlace,
    ) -> Result<Shared<Name>, Error>
        ensures chain { Answers result (chain_of self.old.decls bean place.now) }
        ensures wired { self.new.is_wired ≡ self.old.is_wired }
        ensures asked { OnOk result (IsAsked (ChainKey bean place.now ∷ []) self.old self.new) }
        ensures err { OnErr result (self.new ≡ self.old) }
    {
        self.is_readied = false;
        self.live.chain(alloc, bean, place)
    }

    /// The faults.
    pub(crate) fn report(&mut self, alloc: Global) -> Result<Vec<Fault>, AllocError>
        ensures faults { IfOk result (λ list. list.items ≡ faults self.old.decls self.old.book) }
        ensures once { IfOk result (λ list. AllPairs (λ f g. f ≢ g) list.items) }
        ensures wired { self.new.is_wired ≡ self.old.is_wired }
        ensures order { IsInOrder self.old.decls self.old.known }
        ensures asked { OnOk result (IsAsked (wanted self.old.decls) self.old self.new) }
        ensures err { OnErr result (IsAskedSome (wanted self.old.decls) self.old self.new) }
    {
        // No effect at run time. The proof reads here that each known key is wanted.
        let _ = self.live.work();
        self.is_readied = false;
        self.unsettled.report(alloc, &mut self.live, &self.book)
    }

    /// Evaluates each wanted key.
    pub(crate) fn evaluate_all(&mut self, alloc: Global) -> Result<(), AllocError>
        ensures wired { self.new.is_wired ≡ self.old.is_wired }
        ensures order { IsInOrder self.old.decls self.old.known }
        ensures asked { OnOk result (IsAsked (wanted self.old.decls) self.old self.new) }
        ensures err { OnErr result (IsAskedSome (wanted self.old.decls) self.old self.new) }
    {
        // No effect at run time. The proof reads here that each known key is wanted.
        let _ = self.live.work();
        self.is_readied = false;
        evaluate(alloc, &mut self.live)?;
        Ok(())
    }

    /// The injection points, whose answers are known.
    pub(crate) fn points(&self) -> Points<'_>
        requires { self.now.known ≡ wanted self.now.decls }
        ensures { points_lent result ≡ points_told self.now.decls }
    {
        Points::new(&self.live)
    }

    /// How many faults there are. Where there is none, the scene is there from now on.
    pub(crate) fn wire(&mut self, alloc: Global) -> Result<usize, AllocError>
        ensures count { IfOk result (λ count. count ≡ length (faults self.old.decls self.old.book)) }
        ensures wired { IfOk result (λ count. count ≡ 0 → self.new.is_wired ≡ true) }
        ensures decls { self.new.decls ≡ self.old.decls }
        ensures book { self.new.book ≡ self.old.book }
        ensures wired_still { self.old.is_wired ≡ true → self.new.is_wired ≡ true }
        ensures order { IsInOrder self.old.decls self.old.known }
        ensures asked { OnOk result (IsAsked (wanted self.old.decls) self.old self.new) }
        ensures err { OnErr result (IsAskedSome (wanted self.old.decls) self.old self.new) }
    {
        // No effect at run time. The proof reads here that each known key is wanted.
        let _ = self.live.work();
        if let Some(wiring) = &self.wiring {
            return Ok(wiring.count());
        }
        self.stale = Stale::none();
        self.is_readied = false;
        let wiring = find_wiring(alloc, &mut self.live, &mut self.unsettled, &self.book)?;
        let count = wiring.count();
        self.wiring = Some(wiring);
        Ok(count)
    }

    /// Where a lookup or a call leads. If it is not refused, the scene is there from now on.
    #[tactic(auto, unfolding(crate::specs::Asked::aim_of))]
    pub(crate) fn aim(
        &mut self,
        alloc: Global,
        bean_type: Name,
        quals: &Quals,
        message: Option<Message>,
    ) -> Result<Aim, Error>
        ensures answer { Answers result (aim_of self.old.decls self.old.book (asked_for bean_type quals.now message)) }
        ensures wired { OnOk result (self.new.is_wired ≡ true) }
        ensures there { IfOk result (λ aim. StandsIn (scene_of self.old.decls self.old.book) aim) }
        ensures decls { self.new.decls ≡ self.old.decls }
        ensures book { self.new.book ≡ self.old.book }
        ensures wired_still { self.old.is_wired ≡ true → self.new.is_wired ≡ true }
        ensures asked { Evaluates (keys_of_use self.old.decls self.old.book bean_type quals.now) result self.old self.new }
    {
        let count = self.wire(alloc)?;
        if count != 0 {
            return Err(Error::Refused(Refusal::Faulty(count)));
        }
        if !are_known(self.live.decls(), bean_type, quals) {
            return Err(Error::Refused(Refusal::UnknownName));
        }
        self.aim_wired(alloc, bean_type, quals, message)
    }

    /// Where a lookup or a call leads on the scene, which is there.
    #[tactic(auto, unfolding(crate::specs::Asked::aim_for))]
    fn aim_wired(
        &mut self,
        alloc: Global,
        bean_type: Name,
        quals: &Quals,
        message: Option<Message>,
    ) -> Result<Aim, Error>
        requires { self.old.is_wired ≡ true }
        ensures answer { Answers result (aim_for self.old.decls (asked_for bean_type quals.now message)) }
        ensures there { IfOk result (λ aim. StandsIn (scene_of self.old.decls self.old.book) aim) }
        ensures wired { self.new.is_wired ≡ true }
        ensures decls { self.new.decls ≡ self.old.decls }
        ensures book { self.new.book ≡ self.old.book }
        ensures asked { AsksOwn (choice_key bean_type quals.now) result self.old self.new }
    {
        if let Some(choice) = self.kept_choice(&bean_type, quals) {
            return Ok(self.aim_at(choice, message)?);
        }
        let choice = self.choose(alloc, bean_type, quals)?;
        Ok(self.aim_at(&choice, message)?)
    }

    /// The choice for a type and qualifiers where it is known. Nothing is computed for it then. It takes no memory.
    fn kept_choice(&self, bean_type: &Name, quals: &Quals) -> Option<&Choice>
        ensures choice { IfSome (option_copied result) (λ choice. choice
            ≡ chosen self.now.decls (beans self.now.decls) bean_type.now quals.now) }
        ensures asked { is_some result ≡ true → IsAsked (choice_key bean_type.now quals.now ∷ []) self.now self.now }
    {
        self.live.kept_choice(bean_type, quals)
    }

    /// Where a lookup or a call of what is chosen leads on the scene, which is there.
    fn aim_at(&self, choice: &Choice, message: Option<Message>) -> Result<Aim, Refusal>
        requires { self.now.is_wired ≡ true }
        ensures aim { result ≡ aim_of_choice self.now.decls message choice.now }
        ensures distinct { AreDistinct self.now.decls }
    {
        aim_of_choice(self.live.decls(), &self.listed_beans(), choice, message)
    }

    /// The observer methods that an event notifies. Where it is not refused, the scene is there from now on.
    #[tactic(auto, unfolding(crate::specs::Asked::fired_of))]
    pub(crate) fn notified(
        &mut self,
        alloc: Global,
        event_type: Name,
        quals: &Quals,
    ) -> Result<Seq<Notified>, Error>
        ensures answer { Answers result (fired_of self.old.decls self.old.book event_type quals.now) }
        ensures wired { OnOk result (self.new.is_wired ≡ true) }
        ensures there { IfOk result (λ list. AreObservers (scene_of self.old.decls self.old.book) list) }
        ensures decls { self.new.decls ≡ self.old.decls }
        ensures book { self.new.book ≡ self.old.book }
        ensures wired_still { self.old.is_wired ≡ true → self.new.is_wired ≡ true }
        ensures asked { Evaluates (keys_of_event self.old.decls self.old.book event_type quals.now) result self.old self.new }
    {
        let count = self.wire(alloc)?;
        if count != 0 {
            return Err(Error::Refused(Refusal::Faulty(count)));
        }
        if !can_be_fired(self.live.decls(), event_type, quals) {
            return Err(Error::Refused(Refusal::UnknownName));
        }
        self.notified_wired(alloc, event_type, quals)
    }

    /// The observer methods that an event notifies on the scene, which is there.
    #[tactic(auto, unfolding(cdi_staging::specs::Notifying::notified_at))]
    fn notified_wired(
        &mut self,
        alloc: Global,
        event_type: Name,
        quals: &Quals,
    ) -> Result<Seq<Notified>, Error>
        requires { self.old.is_wired ≡ true }
        ensures answer { Answers result (Ok (notified_at self.old.decls (beans self.old.decls) event_type quals.now)) }
        ensures there { IfOk result (λ list. AreObservers (scene_of self.old.decls self.old.book) list) }
        ensures wired { self.new.is_wired ≡ true }
        ensures decls { self.new.decls ≡ self.old.decls }
        ensures book { self.new.book ≡ self.old.book }
        ensures asked { AsksOwn (EventKey event_type quals.now) result self.old self.new }
    {
        if let Some(ids) = self.kept_observers(&event_type, quals) {
            return Ok(self.notified_as(alloc, ids.as_slice())?);
        }
        let ids = self.observers(alloc, event_type, quals)?;
        Ok(self.notified_as(alloc, ids.as_slice())?)
    }

    /// The observer methods that are notified of an event where they are known. Nothing is computed for them then. It takes
    /// no memory.
    fn kept_observers(&self, event_type: &Name, quals: &Quals) -> Option<&Shared<ObserverId>>
        ensures observers { IfSome (option_copied result) (λ ids. ids
            ≡ notified self.now.decls (beans self.now.decls) event_type.now quals.now) }
        ensures asked { is_some result ≡ true → IsAsked (EventKey event_type.now quals.now ∷ []) self.now self.now }
    {
        self.live.kept_observers(event_type, quals)
    }

    /// Some observer methods by their positions on the scene, which is there.
    fn notified_as(&self, alloc: Global, ids: &[ObserverId]) -> Result<Seq<Notified>, AllocError>
        requires { self.now.is_wired ≡ true }
        ensures list { IfOk result (λ list. list ≡ map (notified_as self.now.decls (beans self.now.decls)) ids.now) }
        ensures distinct { AreDistinct self.now.decls }
    {
        positions_of(alloc, self.live.decls(), &self.listed_beans(), ids)
    }

    /// The scene and its names, which are there.
    fn wired(&self) -> &Wired
        requires { self.now.is_wired ≡ true }
        ensures { IsWiredOf self.now.decls self.now.book result.now }
    {
        match &self.wiring {
            Some(Wiring::Sound(wired)) => wired,
            _ => unreachable!(),
        }
    }

    /// Where the beans of the scene are, which is there.
    fn listed_beans(&self) -> ListedBeans<'_>
        requires { self.now.is_wired ≡ true }
        ensures { result ≡ beans self.now.decls }
    {
        ListedBeans::new(self.live.decls(), &self.wired().positions)
    }

    /// Whether the scene is there.
    pub(crate) fn is_wired(&self) -> bool
        ensures { result ≡ self.now.is_wired }
    {
        match &self.wiring {
            Some(Wiring::Sound(_)) => true,
            _ => false,
        }
    }

    /// Who plays runs of this deployment.
    pub(crate) fn player(&self) -> Player<'_, B>
        requires { self.now.is_wired ≡ true }
        ensures scene { result.stage.scene ≡ scene_of self.now.decls self.now.book }
    {
        Player {
            stage: Stage::new(&self.wired().scene, &self.book),
        }
    }

    /// The names for traces of this deployment.
    pub(crate) fn names(&self) -> &Names
        requires { self.now.is_wired ≡ true }
        ensures { result.now ≡ names_of self.now.decls }
    {
        &self.wired().names
    }
}
