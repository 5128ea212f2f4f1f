//! The container.
ghost use Rattle.std.specs.Prelude.{◌≡◌, ◌≢◌, [], ◌∷◌, map, AllPairs, OnOk, OnErr, IfOk, IfErr};
ghost use Rattle.cdi_model.specs.declared.edit.Edit.TheVariants.{Put as PutEdit, Remove as RemoveEdit};
ghost use Rattle.cdi_model.specs.Edits.{answer_of_edit as answer_of_removal, answer_of_edit};
ghost use Rattle.cdi_model.specs.Answering.{Answers};
ghost use Rattle.cdi_model.specs.Short.{AreShort};
ghost use Rattle.cdi_admission.specs.Admission.{refusal_of_decl};
ghost use Rattle.cdi_text.specs.Reading.{decl_of};
ghost use Rattle.cdi_effective.specs.Beans.{beans};
ghost use Rattle.cdi_resolve.specs.Choices.{chosen, chosen_by_name};
ghost use Rattle.cdi_intercept.specs.Chains.{chain_of};
ghost use Rattle.cdi_observe.specs.Keys.{ChainKey, EventKey, choice_key};
ghost use Rattle.cdi_observe.specs.Observers.{notified};
ghost use Rattle.cdi_observe.specs.Wanted.{wanted};
ghost use Rattle.cdi_validate.specs.Faults.{faults};
ghost use Rattle.cdi_index.specs.State.{IsEdited};
ghost use Rattle.cdi_container.specs.Wired.{IsShortEdit, staged_by};
ghost use Rattle.cdi_staging.specs.Naming.{names_of};
ghost use Rattle.cdi_container.specs.History.{AsksSome, EditsFrom, Redeploys, History, asked, left_by, untold, RestsOnAcceptedEdits, CountsAcceptedEdits, HasLawfulTraces, SharesInstances};
ghost use Rattle.cdi_container.specs.Known.{work_with, worked};
ghost use Rattle.cdi_container.specs.Named.{NamesTrace};
ghost use Rattle.cdi_container.specs.Points.{points_told};
ghost use Rattle.cdi_container.specs.PointsLent.{points_lent};
ghost use Rattle.cdi_container.specs.Told.{IsTold};

use crate::answer::{
    Answer, PutDone, WorkDone, answer_of_batch, answer_of_begin, answer_of_chain, answer_of_choice,
    answer_of_edit, answer_of_observers, answer_of_report, answer_of_run, answer_of_stop, refused,
    without_put,
};
use crate::batch::BatchError;
use crate::beans::Beans;
use crate::deployment::Deployment;
use crate::instances::end_both;
use crate::points::Points;
use cdi_admission::check_decl;
use cdi_bodies::Bodies;
use cdi_contexts::Contexts;
use cdi_faults::Fault;
use cdi_index::{Counts, Draft};
use cdi_legal::{Entries, Run};
use cdi_lines::{Command, Edit};
use cdi_model::{
    BeanPlace, Decl, Decls, Edit as Change, Error, Iter as DeclIter, Kind, Name, Quals, Refusal,
};
use cdi_observe::{ObserverId, Shared};
use cdi_resolve::Choice;
use cdi_staging::Names;
use cdi_text::read_decl;
use cdi_trace::{NamedEntries, NamedInstances, push_entries};
use std::alloc::{AllocError, Global};
use std::fmt;
use std::marker::Model;

/// The present declarations, which are edited while the container runs, and questions about them; the instances that it
/// makes, calls and destroys with the stored bodies. What contracts see of it is its state: the declarations, how many
/// records were computed, which answers are known and how many were computed, the names and promises of the bodies, what is live between runs, and the trace of the last
/// command that was answered.
///
/// Each call is one step of a legal history: a refused call changes nothing but which answers are known. One that runs out of
/// memory changes nothing else either, but that a lookup, a call and an event leave no instance and no request. Beside that
/// step each call says by itself what it answers and what it leaves.
pub struct Container<B: Bodies> {
    pub(crate) alloc: Global,
    pub(crate) deployment: Deployment<B>,
    pub(crate) run: Run,
    /// The names for the trace of an edit: those of the declarations before it.
    pub(crate) told: Option<Names>,
}

impl<B: Bodies + Drop> Drop for Container<B> {
    fn drop(self) {
        let Container {
            alloc: _,
            deployment: _,
            run: _,
            told: _,
        } = self;
    }
}

impl<B: Bodies> Model for Container<B> {
    ghost use Rattle.cdi_trace.specs.TraceText.{text_of_entries};
    ghost use Rattle.cdi_container.specs.History.{State};
    ghost use Rattle.cdi_container.specs.Wired.{RestsOnScene, trace_names};

    ghost Value = { State };

    ghost view = { λ c. record {
      decls = c.deployment.decls;
      counts = c.deployment.counts;
      known = c.deployment.known;
      work = c.deployment.work;
      book = c.deployment.book;
      standing = c.run.moment.standing;
      trace = c.run.moment.trace;
      text = text_of_entries (trace_names c.deployment c.told) c.run.moment.trace;
    } };

    ghost invariant = { λ c. RestsOnScene c.deployment c.run.moment c.told };
}

impl<B: Bodies> Container<B> {
    ghost use Rattle.std.specs.Prelude.{◌++◌};
    ghost use Rattle.cdi_container.specs.History.{empty};
    ghost use Rattle.cdi_container.specs.Seen.{IsStep, EditStep, PutStep, PutDeclStep, RemoveStep, ChooseStep, NamedStep};
    ghost use Rattle.cdi_container.specs.Seen.{left_by_batch, AnswersBatch, BatchStep};
    ghost use Rattle.cdi_container.specs.Editing.{admitted, answer_of_put, put_of, changes_in, changes_of_all, refusal_of_batch};
    ghost use Rattle.cdi_container.specs.Seen.{ChainStep, ObserversStep};
    ghost use Rattle.cdi_container.specs.Seen.{EvaluateStep, ReportStep, CountsStep, WorkStep};
    ghost use Rattle.std.specs.Borrow.{sem};
    ghost use Rattle.cdi_container.specs.Evaluated.{EndsEvaluated};

    /// An empty container, which keeps this book of stored bodies. It keeps the allocator, and takes no memory yet.
    pub fn new(alloc: Global, book: B) -> Container<B>
        ensures { result ≡ empty (B.promises book) }
    {
        Container {
            alloc,
            deployment: Deployment::new(alloc, book),
            run: Run::new(alloc, Contexts::new(alloc)),
            told: None,
        }
    }

    /// Carries a command out, as the typed calls do.
    pub fn execute(&mut self, command: Command) -> Result<Answer, AllocError>
        ensures { IsStep self.old command result self.new }
    {
        match command {
            Command::Edit(edit) => answer_of_edit(self.make(edit)),
            Command::Batch(edits) => answer_of_batch(self.batch(edits.into_vec())),
            Command::Choose { bean_type, quals } => {
                answer_of_choice(self.choose(bean_type, &quals))
            }
            Command::Named { name } => answer_of_choice(self.named(name)),
            Command::Chain { bean, place } => answer_of_chain(self.chain(bean, &place)),
            Command::Observers { event_type, quals } => {
                answer_of_observers(self.observers(event_type, &quals))
            }
            Command::Report => answer_of_report(self.report()),
            Command::Counts => Ok(Answer::Counted(self.counts())),
            Command::Work => Ok(Answer::Worked(self.work())),
            Command::LookUp { bean_type, quals } => answer_of_run(self.lookup(bean_type, &quals)),
            Command::Call {
                method,
                arg,
                bean_type,
                quals,
            } => answer_of_run(self.call(bean_type, &quals, method, arg)),
            Command::Fire {
                arg,
                event_type,
                quals,
            } => answer_of_run(self.fire(event_type, &quals, arg)),
            Command::BeginRequest => answer_of_begin(self.begin_request()),
            Command::EndRequest => answer_of_edit(self.end_request()),
            Command::Stop => answer_of_stop(self.stop()),
            Command::Unreadable => {
                self.restart();
                Ok(refused(Refusal::BadCommand))
            }
        }
    }

    /// An edit, as `put` and `remove` make it.
    fn make(&mut self, edit: Edit) -> Result<(), Error>
        ensures { EditStep self.old edit result self.new }
    {
        match edit {
            Edit::Put { text } => without_put(self.put(text.as_slice())),
            Edit::PutDecl { decl } => without_put(self.put_decl(Box::into_inner(decl))),
            Edit::Remove { kind, name } => self.remove(kind, name),
        }
    }

    /// Puts the declaration that a TOML text spells in the place of the one of its kind and name, or at the end. First the
    /// request context, if a request is active, and the application context end, as they do at a `stop`, on the declarations
    /// from before (profile). It takes memory for the declaration, for a copy of the list, whose size does not grow with the
    /// number of declarations, after 64 changes for an entry a declaration, and for the entries of its trace, all of it
    /// before the first callback: if memory runs out, nothing has changed. It answers what was put.
    #[tactic(auto, using(crate::proofs::Putting::put_step))]
    pub fn put(&mut self, text: &[u8]) -> Result<PutDone, Error>
        ensures answer { Answers result (answer_of_put self.old.decls (decl_of text.now)) }
        ensures ok { OnOk result (EditsFrom self.old (changes_in (put_of (decl_of text.now))) self.new) }
        ensures nothing { OnOk result (self.new.standing.live ≡ []) }
        ensures err { IfErr result (λ error. self.new ≡ left_by error self.old) }
        ensures step { PutStep self.old text.now result self.new }
    {
        match read_decl(self.alloc, text) {
            Ok(decl) => self.put_admitted(decl),
            Err(error) => Err(self.leave(error)),
        }
    }

    /// Puts a declaration that a program made, as `put` puts one that a text spells.
    ///
    /// # Errors
    ///
    /// `OutOfMemory`, or the first of these refusals that applies: `BadName`, `Twice` and `ListTooLong`, of what a text could
    /// not spell either; `TooMany`.
    #[tactic(auto, using(crate::proofs::Putting::put_decl_step))]
    pub fn put_decl(&mut self, decl: Decl) -> Result<PutDone, Error>
        ensures answer { Answers result (answer_of_put self.old.decls (admitted (refusal_of_decl decl) decl)) }
        ensures ok { OnOk result (EditsFrom self.old (changes_in (put_of (admitted (refusal_of_decl decl) decl))) self.new) }
        ensures nothing { OnOk result (self.new.standing.live ≡ []) }
        ensures err { IfErr result (λ error. self.new ≡ left_by error self.old) }
        ensures step { PutDeclStep self.old decl result self.new }
    {
        match check_decl(self.alloc, &decl) {
            Ok(()) => self.put_admitted(decl),
            Err(error) => Err(self.leave(error)),
        }
    }

    /// Puts a declaration that nothing but its number may refuse.
    #[tactic(auto, using(crate::proofs::Putting::put_answered))]
    fn put_admitted(&mut self, decl: Decl) -> Result<PutDone, Error>
        requires { IsShortEdit (PutEdit decl) }
        ensures answer { Answers result (answer_of_put self.old.decls (Ok decl)) }
        ensures ok { OnOk result (EditsFrom self.old (PutEdit decl ∷ []) self.new) }
        ensures nothing { OnOk result (self.new.standing.live ≡ []) }
        ensures err { IfErr result (λ error. self.new ≡ left_by error self.old) }
    {
        let put = self.deployment.put_among(&decl);
        self.edit(Change::Put(decl))?;
        Ok(put)
    }

    /// Removes the declaration of a kind and name. Contexts end first, as `put` says. It takes memory as that does.
    pub fn remove(&mut self, kind: Kind, name: Name) -> Result<(), Error>
        ensures answer { Answers result (answer_of_removal self.old.decls (RemoveEdit kind name)) }
        ensures ok { OnOk result (EditsFrom self.old (RemoveEdit kind name ∷ []) self.new) }
        ensures nothing { OnOk result (self.new.standing.live ≡ []) }
        ensures err { IfErr result (λ error. self.new ≡ left_by error self.old) }
        ensures step { RemoveStep self.old kind name result self.new }
    {
        self.edit(Change::Remove(kind, name))
    }

    /// Makes some edits as one: all of them or none (profile). Each is judged on the declarations that those before it leave.
    /// If none is refused, both contexts end once, as `put` says, on the declarations before the batch. A batch without edits
    /// ends them too. It takes memory for what is put, for a copy of the list and for the entries of its trace, all of it
    /// before the first callback.
    ///
    /// # Errors
    ///
    /// `OutOfMemory`; `BatchTooLong` of more than 256 edits; or the refusal of the first edit that is refused, with its
    /// number.
    #[tactic(auto, using(crate::proofs::Putting::batch_step))]
    pub fn batch(&mut self, edits: Vec<Edit>) -> Result<(), BatchError>
        ensures answer { AnswersBatch result (refusal_of_batch self.old.decls edits.items) }
        ensures ok { OnOk result (EditsFrom self.old (changes_of_all edits.items) self.new) }
        ensures nothing { OnOk result (self.new.standing.live ≡ []) }
        ensures err { IfErr result (λ error. self.new ≡ left_by_batch error self.old) }
        ensures step { BatchStep self.old edits.items result self.new }
    {
        let draft = match self.deployment.draft_batch(self.alloc, edits) {
            Ok(draft) => draft,
            Err(error) => return Err(self.leave_batch(error)),
        };
        self.commit(draft)?;
        Ok(())
    }

    /// A change of the declarations. It is made on a draft, which may be refused or run out of memory, and committed.
    fn edit(&mut self, change: Change) -> Result<(), Error>
        requires { IsShortEdit change }
        ensures answer { Answers result (answer_of_edit self.old.decls change) }
        ensures ok { OnOk result (EditsFrom self.old (change ∷ []) self.new) }
        ensures nothing { OnOk result (self.new.standing.live ≡ []) }
        ensures err { IfErr result (λ error. self.new ≡ left_by error self.old) }
    {
        match self.deployment.draft(change) {
            Ok(draft) => {
                self.commit(draft)?;
                Ok(())
            }
            Err(error) => Err(self.leave(error)),
        }
    }

    /// A draft is staged, both contexts end, and then what is staged is present. At `Err` nothing has changed: what may be
    /// staged is seen by nobody.
    fn commit(&mut self, draft: Draft) -> Result<(), AllocError>
        requires edited { IsEdited self.old.decls draft }
        requires short { AreShort draft.decls }
        ensures ok { OnOk result (Redeploys self.old (staged_by self.old.decls self.old.counts draft) self.new) }
        ensures nothing { OnOk result (self.new.standing.live ≡ []) }
        ensures err { OnErr result (self.new ≡ self.old) }
    {
        self.deployment.stage(draft)?;
        end_both(&self.deployment, &mut self.run)?;
        self.told = self.deployment.commit();
        Ok(())
    }

    /// What is left of the trace where a command that is no run is refused, or finds no memory.
    fn leave(&mut self, error: Error) -> Error
        ensures same { result ≡ error }
        ensures left { self.new ≡ left_by error self.old }
    {
        if let Error::Refused(_) = error {
            self.restart();
        }
        error
    }

    /// The same of a batch.
    fn leave_batch(&mut self, error: BatchError) -> BatchError
        ensures same { result ≡ error }
        ensures left { self.new ≡ left_by_batch error self.old }
    {
        if let BatchError::Refused { .. } = error {
            self.restart();
        }
        error
    }

    /// A command begins: the trace of the one before it is cleared.
    pub(crate) fn restart(&mut self)
        ensures { self.new ≡ untold self.old }
    {
        self.run.restart();
        self.told = None;
    }

    /// Which bean is right for a type and qualifiers (CDI 4.0, Performing typesafe resolution). Where no qualifier is
    /// named, `Default` is asked for.
    ///
    /// An answer that is known is copied. Else it is computed, counted, and known from then on if an injection point asks for it:
    /// only the beans that have the type are looked at, and it takes memory for a list of them, for those that are right, and
    /// to keep the answer.
    pub fn choose(&mut self, bean_type: Name, quals: &Quals) -> Result<Choice, AllocError>
        ensures choice { IfOk result (λ choice. choice ≡ chosen self.old.decls (beans self.old.decls) bean_type quals.now) }
        ensures ok { OnOk result (self.new ≡ untold (asked self.old (choice_key bean_type quals.now ∷ []))) }
        ensures err { OnErr result (self.new ≡ self.old) }
        ensures step { ChooseStep self.old bean_type quals.now result self.new }
    {
        let choice = self.deployment.choose(self.alloc, bean_type, quals)?;
        self.restart();
        Ok(choice)
    }

    /// Which bean has a name (CDI 4.0, Name resolution). It looks only at the beans that have it, and takes memory as
    /// `choose` does.
    pub fn named(&mut self, name: Name) -> Result<Choice, AllocError>
        ensures choice { IfOk result (λ choice. choice ≡ chosen_by_name (beans self.old.decls) name) }
        ensures ok { OnOk result (self.new ≡ untold self.old) }
        ensures err { OnErr result (self.new ≡ self.old) }
        ensures step { NamedStep self.old name result self.new }
    {
        let choice = self.deployment.named(self.alloc, name)?;
        self.restart();
        Ok(choice)
    }

    /// The names of the interceptors around a place of the bean of a class, in the order in which they are called
    /// (Interceptors 2.1, Interceptor Ordering), whether the bean is enabled or not. It is refused with `UnknownName` where
    /// no such bean is declared, and with `NoMethod` where it has no such place, as of a static producer method. An answer that
    /// is known is shared. Else it is computed, counted, and known from then on: it takes memory for the bindings there, for the
    /// interceptors that have one of them, for the names, and to keep the answer.
    pub fn chain(&mut self, bean: Name, place: &BeanPlace) -> Result<Shared<Name>, Error>
        ensures answer { Answers result (chain_of self.old.decls bean place.now) }
        ensures ok { OnOk result (self.new ≡ untold (asked self.old (ChainKey bean place.now ∷ []))) }
        ensures err { IfErr result (λ error. self.new ≡ left_by error self.old) }
        ensures step { ChainStep self.old bean place.now result self.new }
    {
        match self.deployment.chain(self.alloc, bean, place) {
            Ok(names) => {
                self.restart();
                Ok(names)
            }
            Err(error) => Err(self.leave(error)),
        }
    }

    /// The observer methods that are notified of an event of a type with some qualifiers, in order (CDI 4.0, Observer
    /// resolution; Observer ordering). A type or a qualifier that is not declared is taken as it is. An answer that is known is
    /// shared. Else it is computed, counted, and known from then on if a body may fire the event: only the beans of which an
    /// observer method observes a type of the event are looked at, and it takes memory for lists of these and of the methods,
    /// and to keep the answer.
    pub fn observers(
        &mut self,
        event_type: Name,
        quals: &Quals,
    ) -> Result<Shared<ObserverId>, AllocError>
        ensures observers { IfOk result (λ ids. ids ≡ notified self.old.decls (beans self.old.decls) event_type quals.now) }
        ensures ok { OnOk result (self.new ≡ untold (asked self.old (EventKey event_type quals.now ∷ []))) }
        ensures err { OnErr result (self.new ≡ self.old) }
        ensures step { ObserversStep self.old event_type quals.now result self.new }
    {
        let ids = self.deployment.observers(self.alloc, event_type, quals)?;
        self.restart();
        Ok(ids)
    }

    /// All that is wrong with the present declarations (CDI 4.0, Problems detected automatically by the container), in
    /// the order of the declarations. Each answer that the declarations ask for is computed and counted, unless it is known,
    /// and known from then on. It takes memory for the faults, for these answers, and to keep them. If memory runs out, those
    /// that were computed before stay known.
    pub fn report(&mut self) -> Result<Vec<Fault>, AllocError>
        ensures faults { IfOk result (λ list. list.items ≡ faults self.old.decls self.old.book) }
        ensures once { IfOk result (λ list. AllPairs (λ f g. f ≢ g) list.items) }
        ensures ok { OnOk result (self.new ≡ untold (asked self.old (wanted self.old.decls))) }
        ensures known { OnOk result (self.new.known ≡ wanted self.old.decls) }
        ensures work { OnOk result (self.new.work ≡ work_with self.old.known (wanted self.old.decls) self.old.work) }
        ensures err { OnErr result (AsksSome self.old (wanted self.old.decls) self.new) }
        ensures step { ReportStep self.old result self.new }
    {
        let faults = self.deployment.report(self.alloc)?;
        self.restart();
        Ok(faults)
    }

    /// Evaluates all that `report` does, without its list: each answer that the declarations ask for is computed and counted,
    /// unless it is known, and known from then on. Its step is that of a report. It takes memory for the answers that it
    /// computes, and to keep them. If memory runs out, those that were computed before stay known.
    pub fn evaluate(&mut self) -> Result<(), AllocError>
        ensures ok { OnOk result (self.new ≡ untold (asked self.old (wanted self.old.decls))) }
        ensures known { OnOk result (self.new.known ≡ wanted self.new.decls) }
        ensures work { OnOk result (self.new.work ≡ work_with self.old.known (wanted self.old.decls) self.old.work) }
        ensures err { OnErr result (AsksSome self.old (wanted self.old.decls) self.new) }
        ensures step { EvaluateStep self.old result self.new }
    {
        self.deployment.evaluate_all(self.alloc)?;
        self.restart();
        Ok(())
    }

    /// Evaluates as `evaluate` does, and lends each injection point of the present declarations with what is chosen for it
    /// (CDI 4.0, Injection points; Performing typesafe resolution). What the container is once they are let go is said under
    /// `left`, at `Ok` and at `Err`. It takes memory as `evaluate` does.
    pub fn points(&mut self) -> Result<Points<'_>, AllocError>
        ensures* left { sem 𝓛 (EndsEvaluated B.row B.Bodies self.entry result) }
        ensures points { IfOk result (λ points. points_lent points ≡ points_told self.old.decls) }
    {
        self.evaluate()?;
        Ok(self.kept_points())
    }

    /// The injection points, where each wanted key is known.
    fn kept_points(&self) -> Points<'_>
        requires { self.now.known ≡ wanted self.now.decls }
        ensures { points_lent result ≡ points_told self.now.decls }
    {
        self.deployment.points()
    }

    /// How many closures of types and how many records of beans were computed. An edit or a batch computes each that it puts,
    /// or that read something that it edits. Nothing else computes any. It takes no memory.
    pub fn counts(&mut self) -> Counts
        ensures counts { result ≡ self.old.counts }
        ensures left { self.new ≡ untold self.old }
        ensures step { CountsStep self.old result self.new }
    {
        self.restart();
        self.deployment.counts()
    }

    /// How many answers were computed, up to the greatest `u64`, and of how many keys the answers are known: of those for which the
    /// present declarations ask, these are kept. A question of which the answer is not known computes one, a report and each
    /// lookup, call and event all that the declarations ask for. An edit keeps what it does not touch. It takes no memory.
    pub fn work(&mut self) -> WorkDone
        ensures work { result ≡ worked self.old.work self.old.known }
        ensures left { self.new ≡ untold self.old }
        ensures step { WorkStep self.old result self.new }
    {
        self.restart();
        self.deployment.work()
    }

    /// The entries of the last command that was answered, by positions. It takes no memory.
    pub fn trace(&self) -> Entries<'_>
        ensures { result ≡ self.now.trace }
    {
        self.run.trace()
    }

    /// The same entries with names in place of positions. Each prints as its line of the trace, without the two spaces. It
    /// takes no memory.
    pub fn entries(&self) -> NamedEntries<'_>
        ensures { NamesTrace self.now result }
    {
        if let Some(names) = &self.told {
            return NamedEntries::new(names, self.run.trace());
        }
        if !self.deployment.is_wired() {
            return NamedEntries::none();
        }
        NamedEntries::new(self.deployment.names(), self.run.trace())
    }

    /// Appends the text of the trace, each entry on a line of its own after two spaces. It takes memory for it; at `Err`
    /// nothing is appended.
    pub fn push_trace(&self, text: &mut Vec<u8>) -> Result<(), AllocError>
        ensures ok { OnOk result (text.new.items ≡ text.old.items ++ self.now.text) }
        ensures err { OnErr result (text.new.items ≡ text.old.items) }
    {
        if let Some(names) = &self.told {
            return push_entries(text, names, self.run.trace());
        }
        if !self.deployment.is_wired() {
            return Ok(());
        }
        push_entries(text, self.deployment.names(), self.run.trace())
    }

    /// The present declarations, in order. It is no command, and takes no memory.
    pub fn decls(&self) -> DeclIter<'_>
        ensures { result ≡ self.now.decls }
    {
        self.deployment.decls()
    }

    /// The same as a list, which finds a declaration by its kind and name. It is no command, and takes no memory.
    pub fn present(&self) -> &Decls
        ensures { result.now ≡ self.now.decls }
    {
        self.deployment.present()
    }

    /// The stored bodies. It is no command, and takes no memory.
    pub fn book(&self) -> &B
        ensures { B.promises result.now ≡ self.now.book }
    {
        self.deployment.book()
    }

    /// The records of the bean list, in order. It is no command, and takes no memory.
    pub fn beans(&self) -> Beans<'_>
        ensures { result ≡ beans self.now.decls }
    {
        self.deployment.beans()
    }

    /// The live instances, oldest first, those that are being created too. It is no command, and takes no memory.
    pub fn instances(&self) -> NamedInstances<'_>
        ensures { result ≡ map (λ instance. record { names = names_of self.now.decls; instance = instance }) self.now.standing.live }
    {
        if !self.deployment.is_wired() {
            return NamedInstances::none();
        }
        NamedInstances::new(self.deployment.names(), self.run.instances())
    }

    /// Whether a request is active. It is no command, and takes no memory.
    pub fn is_request_active(&self) -> bool
        ensures { result ≡ self.now.standing.active }
    {
        self.run.is_active()
    }
}

/// The laws of legal histories, for proofs: a proof that needs one calls this. It does nothing when it runs.
#[tactic(auto, using(crate::proofs::HistoryLemmas::rests_on_accepted_edits, crate::proofs::HistoryLemmas::counts_accepted_edits, crate::proofs::SharingLemmas::shares_instances, crate::proofs::LawfulLemmas::has_lawful_traces))]
pub fn history_laws()
    // The declarations after a legal history are what its accepted edits make of none, whatever else was asked.
    ensures edits { (history : History) → RestsOnAcceptedEdits history }

    // The counts after a legal history are what its accepted edits and batches, one after another, raise from none.
    ensures counts { (history : History) → CountsAcceptedEdits history }

    // At most one instance of each bean with a normal scope is live.
    ensures shared { (history : History) → SharesInstances history }

    // Traces keep the limits, each entry is in its place, and each failure of a run has its cause.
    ensures lawful { (history : History) → HasLawfulTraces history }

    // What is live, what it holds and whether a request is active follow from the commands, answers and traces.
    ensures told { (history : History) → IsTold history }
{}

impl<B: Bodies> fmt::Debug for Container<B> {
    fn fmt<W: fmt::Write>(&self, f: &mut fmt::Formatter<W>) -> fmt::Result {
        write!(f, "Container")
    }
}
