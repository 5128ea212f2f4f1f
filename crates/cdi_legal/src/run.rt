//! A run under way. Each entry that is pushed does to the contexts what it says, so the contexts follow from the trace.
ghost use Rattle.std.specs.Prelude.{◌≡◌, ◌+◌, ◌<◌, ◌≤◌, ◌↔◌, false, IsTrue, None, IfSome, IsSome, IsOk, OnOk, OnErr, IfOk};
ghost use Rattle.cdi_bodies.specs.Shown.{first_shown};
ghost use Rattle.cdi_contexts.specs.Standing.{IsFull, IsLive, numbered, found, made_for, last_of, last_in, state_of};
ghost use Rattle.cdi_contexts.specs.Standing.{begun, opened, closed, cleared};
ghost use Rattle.cdi_contexts.specs.Rising.{IsOwnerOf, IsRising};
ghost use Rattle.cdi_legal.specs.Laws.{BothEndsLeaveNothing, CommandsKeepBudget, CommandsKeepFurnished, CommandsKeepRooted};
ghost use Rattle.cdi_legal.specs.Laws.{CommandsKeepSingle, CommandsKeepThroughout, CommandsRaiseGiven, EmptyEnds};
ghost use Rattle.cdi_legal.specs.Laws.{CommandsAreFaultless, CommandsAreOrdered, CommandsFailForCauses};
ghost use Rattle.cdi_legal.specs.Moment.{Moment, Track, put, ask_more, beginning, is_create};
ghost use Rattle.cdi_legal.specs.declared.entry.Entry.TheVariants.{Create};

use crate::entry::Entry;
use crate::trace::{Entries, Trace};
use cdi_bodies::{Frame, SpareFrames};
use cdi_contexts::{Actor, Contexts, Instance, InstanceId, Owner, RequestError};
use cdi_model::{Scope, Val};
use std::alloc::{AllocError, Global};
use std::marker::Model;

/// How often a command may ask bodies outside destruction (profile).
pub const BUDGET: u32 = 20_000;

/// A run under way: the contexts, the entries that it has pushed, and how often it has asked bodies.
#[derive(Drop)]
pub struct Run {
    contexts: Contexts,
    trace: Trace,
    asked: u32,
    /// Frames that have ended, in this run and in runs before it: at most as many as were open at once.
    spare: SpareFrames,
}

impl Model for Run {
    ghost use Rattle.std.specs.Prelude.{min};
    ghost use Rattle.cdi_legal.specs.Moment.{Track};

    ghost Value = { Track };

    ghost view = { λ run. record {
      moment = record { standing = run.contexts.standing; trace = run.trace.entries; asked = run.asked };
      room = min run.trace.room run.contexts.room;
    } };
}

impl Run {
    /// The beginning of a run over some contexts. It takes no memory. The contexts that commands leave keep the laws of whole
    /// commands.
    pub fn new(alloc: Global, contexts: Contexts) -> Run
        ensures moment { result.moment ≡ beginning contexts.standing }
        ensures single { CommandsKeepSingle }
        ensures throughout { CommandsKeepThroughout }
        ensures budget { CommandsKeepBudget }
        ensures ordered { CommandsAreOrdered }
        ensures faultless { CommandsAreFaultless }
        ensures causes { CommandsFailForCauses }
        ensures given { CommandsRaiseGiven }
        ensures furnished { CommandsKeepFurnished }
        ensures empty { EmptyEnds }
        ensures rooted { CommandsKeepRooted }
        ensures nothing { BothEndsLeaveNothing }
    {
        Run {
            contexts,
            trace: Trace::new(alloc),
            asked: 0,
            spare: SpareFrames::new(alloc),
        }
    }

    /// A command begins: the entries of the command before and its askings are cleared, and of their memory what is beyond
    /// 4 MiB is given back. It takes no memory.
    pub fn restart(&mut self)
        ensures { self.new.moment ≡ beginning self.old.moment.standing }
    {
        self.trace.give_back();
        self.asked = 0;
    }

    /// The same, but the room stays.
    pub fn restart_in_room(&mut self)
        ensures moment { self.new.moment ≡ beginning self.old.moment.standing }
        ensures room { self.old.room ≤ self.new.room }
    {
        self.trace.clear();
        self.asked = 0;
    }

    /// A request is active from now on; an error where one is active already (profile). The entries of the command before
    /// are cleared in both cases. It takes no memory (CDI 4.0, Context management for built-in scopes).
    pub fn begin_request(&mut self) -> Result<(), RequestError>
        ensures answer { result ≡ begun self.old.moment.standing }
        ensures ok { OnOk result (self.new.moment ≡ beginning (opened self.old.moment.standing)) }
        ensures err { OnErr result (self.new.moment ≡ beginning self.old.moment.standing) }
    {
        self.restart();
        self.contexts.begin_request()
    }

    /// No request is active any more, whether one was or not. It takes no memory.
    pub fn close(&mut self)
        ensures { self.new.moment ≡ record self.old.moment { standing = closed self.old.moment.standing } }
    {
        let _ = self.contexts.close_request();
    }

    /// Pushes an entry that begins no instance, and does to the contexts what it says. It takes no memory where there is room.
    #[inline(always)]
    pub fn note(&mut self, entry: Entry) -> Result<(), AllocError>
        requires { is_create entry ≡ false }
        ensures ok { OnOk result (self.new.moment ≡ put entry self.old.moment) }
        ensures possible { 0 < self.old.room → IsOk result }
        ensures room { self.old.room ≤ self.new.room + 1 }
    {
        self.trace.push(entry)?;
        match entry {
            Entry::Ready { id, product } => self.contexts.finish(id.number, product),
            Entry::Broken { id, .. } | Entry::Gone { id } => self.contexts.abandon(id.number),
            Entry::Stored {
                number,
                actor,
                value,
            } => self.contexts.store(number, actor, value)?,
            _ => {}
        }
        Ok(())
    }

    /// Begins an instance, and pushes its entry; none where no further one may be made. It may take memory. What it leaves
    /// where memory runs out is not said.
    pub fn begin(&mut self, bean: u32, owner: Owner) -> Result<Option<InstanceId>, AllocError>
        requires owned { IsOwnerOf (self.old.moment.standing.given + 1) owner }
        ensures possible { IfOk result (λ id. IsSome id → IsFull self.old.moment.standing → ⊥) }
        ensures ok { let m = self.old.moment in
            IfOk result (λ id. IfSome id (λ i.
            (i.bean ≡ bean) × (i.number ≡ m.standing.given + 1) × (self.new.moment ≡ put (Create i owner) m))) }
        ensures limit { IfOk result (λ id. id ≡ None → IsFull self.old.moment.standing × (self.new.moment ≡ self.old.moment)) }
    {
        match self.contexts.start(bean, owner)? {
            None => Ok(None),
            Some(number) => {
                let id = InstanceId { bean, number };
                self.trace.push(Entry::Create { id, owner })?;
                Ok(Some(id))
            }
        }
    }

    /// Makes room for so many entries, and for as many states of interceptors.
    pub fn reserve(&mut self, count: usize) -> Result<(), AllocError>
        ensures moment { self.new.moment ≡ self.old.moment }
        ensures room { OnOk result (count ≤ self.new.room) }
    {
        self.trace.reserve(count)?;
        self.contexts.reserve(count)?;
        Ok(())
    }

    /// Whether the command may ask once more.
    pub fn may_ask(&self) -> bool
        ensures { IsTrue result ↔ self.now.moment.asked < 20000 }
    {
        self.asked < BUDGET
    }

    /// Counts an asking.
    pub fn count_asking(&mut self)
        requires { self.old.moment.asked < 20000 }
        ensures { self.new.moment ≡ ask_more self.old.moment }
    {
        self.asked += 1;
    }

    /// A frame that begins, before its first answer. It takes no memory where one is there that has ended.
    pub fn begin_frame(
        &mut self,
        argument: Val,
        calls: u8,
        fires: u8,
    ) -> Result<Box<Frame>, AllocError>
        ensures shown { IfOk result (λ frame. frame.value ≡ first_shown argument calls fires) }
        ensures same { self.new ≡ self.old }
    {
        self.spare.begin(argument, calls, fires)
    }

    /// The frame has ended: one that begins later takes its memory.
    pub fn end_frame(&mut self, frame: Box<Frame>)
        ensures { self.new ≡ self.old }
    {
        self.spare.end(frame);
    }

    /// The live instances, oldest first, those that are being created too.
    pub fn instances(&self) -> &[Instance]
        ensures { result.now ≡ self.now.moment.standing.live }
    {
        self.contexts.instances()
    }

    /// Whether a request is active.
    pub fn is_active(&self) -> bool
        ensures { result ≡ self.now.moment.standing.active }
    {
        self.contexts.is_active()
    }

    /// What an instance holds for an actor.
    pub fn load(&self, number: u64, actor: Actor) -> Val
        ensures { result ≡ state_of self.now.moment.standing number actor }
    {
        self.contexts.load(number, actor)
    }

    /// The instance of a bean in the context of its scope.
    pub fn find(&self, scope: Scope, bean: u32) -> Option<Instance>
        ensures { result ≡ found self.now.moment.standing.live scope bean }
    {
        self.contexts.find(scope, bean)
    }

    /// The instance that was made for this point of this actor of an instance.
    pub fn made_for(&self, owner: u64, actor: Actor, point: u32) -> Option<Instance>
        ensures { result ≡ made_for self.now.moment.standing.live owner actor point }
    {
        self.contexts.made_for(owner, actor, point)
    }

    /// The youngest dependent object of an instance, which is younger than the instance.
    pub fn last_dependent(&self, owner: u64) -> Option<InstanceId>
        ensures value { result ≡ last_of self.now.moment.standing.live owner }
        ensures younger { let s = self.now.moment.standing in
            IfSome result (λ id. (owner < id.number) × (id.number ≤ s.given) × IsSome (numbered s.live id.number)) }
    {
        self.contexts.last_dependent(owner)
    }

    /// The youngest instance in the context of a scope.
    pub fn last(&self, scope: Scope) -> Option<InstanceId>
        ensures value { result ≡ last_in self.now.moment.standing.live scope }
        ensures lives { let s = self.now.moment.standing in IfSome result (λ id. IsLive s.given s.live id.number) }
    {
        self.contexts.last(scope)
    }

    /// How many numbers were given. Along the live instances they rise, and owners are older than what was made for them.
    pub fn given(&self) -> u64
        ensures value { result ≡ self.now.moment.standing.given }
        ensures rising { let s = self.now.moment.standing in IsRising s.given s.live }
    {
        self.contexts.given()
    }

    /// The entries that it has pushed.
    pub fn trace(&self) -> Entries<'_>
        ensures { result ≡ self.now.moment.trace }
    {
        self.trace.iter()
    }

    /// No instance is live, no request active, and the trace is empty; numbers go on after this one. It takes no memory.
    pub fn clear(&mut self, given: u64)
        ensures { self.new.moment ≡ beginning (cleared given) }
    {
        self.contexts.clear(given);
        self.trace.give_back();
        self.asked = 0;
    }
}
