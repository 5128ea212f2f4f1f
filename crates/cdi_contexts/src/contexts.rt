//! The contexts.
ghost use Rattle.std.specs.Prelude.{◌≡◌, ◌+◌, ◌<◌, ◌≤◌, ◌↔◌, length, map, true, false, IsTrue};
ghost use Rattle.std.specs.Prelude.{None, IfSome, IsSome, IsOk, OnOk, OnErr, IfOk};
ghost use Rattle.cdi_contexts.specs.Standing.{IsFull, IsLive, numbered, found, made_for, last_of, last_in, state_of};
ghost use Rattle.cdi_contexts.specs.Standing.{started, gone, finished, without, stored, begun, closing, opened, closed, cleared};
ghost use Rattle.cdi_contexts.specs.Homes.{living_at};
ghost use Rattle.cdi_contexts.specs.Places.{IsPlace, younger_than};
ghost use Rattle.cdi_contexts.specs.Rising.{IsOwnerOf, IsRising};
ghost use Rattle.cdi_contexts.specs.declared.instance.Actor.TheVariants.{Target, Interceptor};

use crate::error::RequestError;
use crate::homes::{Home, Homes};
use crate::instance::{Actor, Instance, InstanceId, Owner};
use crate::states::States;
use cdi_model::{Scope, Val};
use std::alloc::{AllocError, Global};
use std::marker::Model;

/// How many instances may be live.
const MOST_LIVE: usize = 1024;

/// The live instances and what they hold.
pub struct Contexts {
    live: Vec<Instance>,
    homes: Homes,
    states: States,
    given: u64,
    is_active: bool,
}

impl Drop for Contexts {
    fn drop(self) {
        let Contexts {
            live: _,
            homes: _,
            states: _,
            given: _,
            is_active: _,
        } = self;
    }
}

impl Model for Contexts {
    ghost use Rattle.cdi_contexts.specs.Homes.{AreHomesOf};
    ghost use Rattle.cdi_contexts.specs.States.{states_in, room_in};
    ghost use Rattle.cdi_contexts.specs.Storage.{Storage};
    ghost use Rattle.cdi_contexts.specs.Rising.{IsRising};

    ghost Value = { Storage };

    ghost view = { λ c. record {
      standing = record { live = c.live.items; states = states_in c.states; given = c.given; active = c.is_active };
      room = room_in c.states;
    } };

    ghost invariant = { λ c. IsRising c.given c.live.items × AreHomesOf c.homes c.live.items };
}

fn last_of_among(live: &[Instance], owner: u64) -> Option<InstanceId>
    ensures { result ≡ last_of live.now owner }
{
    let last = live
        .iter()
        .rev()
        .find(|instance| instance.owner.is_part_of(owner));
    last.map(|instance| instance.id)
}

fn last_in_among(live: &[Instance], scope: Scope) -> Option<InstanceId>
    ensures { result ≡ last_in live.now scope }
{
    let last = live
        .iter()
        .rev()
        .find(|instance| instance.owner.is_of(scope));
    last.map(|instance| instance.id)
}

impl Contexts {
    /// No instance and no request. No number was given yet. It takes no memory.
    pub fn new(alloc: Global) -> Contexts
        ensures { result.standing ≡ cleared 0 }
    {
        Contexts {
            live: Vec::new(alloc),
            homes: Homes::new(alloc),
            states: States::new(alloc),
            given: 0,
            is_active: false,
        }
    }

    /// The live instances, oldest first, those that are being created too.
    pub fn instances(&self) -> &[Instance]
        ensures { result.now ≡ self.now.standing.live }
    {
        self.live.as_slice()
    }

    /// How many instances are live, those that are being created too.
    pub fn live(&self) -> usize
        ensures { result ≡ length self.now.standing.live }
    {
        self.live.len()
    }

    /// How many numbers were given. Along the live instances they rise, and owners are older than what was made for them.
    pub fn given(&self) -> u64
        ensures value { result ≡ self.now.standing.given }
        ensures rising { IsRising self.now.standing.given self.now.standing.live }
    {
        self.given
    }

    /// Whether a request is active.
    pub fn is_active(&self) -> bool
        ensures { result ≡ self.now.standing.active }
    {
        self.is_active
    }

    /// Whether no further instance may be made: 1,024 are live, or the numbers have run out (profile).
    pub fn is_full(&self) -> bool
        ensures { IsTrue result ↔ IsFull self.now.standing }
    {
        self.live.len() >= MOST_LIVE || self.given == u64::MAX
    }

    /// The instance with this number, by bisection. It takes no memory.
    pub fn numbered(&self, number: u64) -> Option<Instance>
        ensures { result ≡ numbered self.now.standing.live number }
    {
        let place = self.place_of(number)?;
        Some(self.live[place])
    }

    /// Where the instance with this number is in the list, by bisection.
    fn place_of(&self, number: u64) -> Option<usize>
        ensures { IsPlace self.now.standing.live number result }
    {
        let searched = self
            .live
            .binary_search_by_key(&number, |instance| instance.id.number);
        searched.ok()
    }

    /// The instance of a bean in the context of its scope, being created or ready; none for the dependent pseudo-scope
    /// (CDI 4.0, Normal scopes and pseudo-scopes). Its time is that of `numbered`. It takes no memory.
    pub fn find(&self, scope: Scope, bean: u32) -> Option<Instance>
        ensures { result ≡ found self.now.standing.live scope bean }
    {
        match scope {
            Scope::Dependent => None,
            Scope::Request => self.living_at(Home::Request(bean)),
            Scope::Application => self.living_at(Home::Application(bean)),
        }
    }

    /// The instance that was made for this point of this actor of an instance (CDI 4.0, Dependent objects). Its time is
    /// that of `numbered`. It takes no memory.
    pub fn made_for(&self, owner: u64, actor: Actor, point: u32) -> Option<Instance>
        ensures { result ≡ made_for self.now.standing.live owner actor point }
    {
        self.living_at(Home::Point {
            instance: owner,
            actor,
            point,
        })
    }

    /// The oldest instance that lives there.
    fn living_at(&self, home: Home) -> Option<Instance>
        ensures { result ≡ living_at home self.now.standing.live }
    {
        let number = self.homes.at(home)?;
        self.numbered(number)
    }

    /// The youngest instance that was made for a point of this one: it is younger than this one. So dependents are
    /// destroyed in falling order of number (CDI 4.0, Destruction of dependent objects; the order: profile). It goes from
    /// the youngest instance to the owner and takes no memory.
    pub fn last_dependent(&self, owner: u64) -> Option<InstanceId>
        ensures value { result ≡ last_of self.now.standing.live owner }
        ensures younger { let s = self.now.standing in
            IfSome result (λ id. (owner < id.number) × (id.number ≤ s.given) × IsSome (numbered s.live id.number)) }
    {
        last_of_among(self.younger(owner), owner)
    }

    /// The youngest instance in the context of a scope. It goes from the youngest instance on and takes no memory.
    pub fn last(&self, scope: Scope) -> Option<InstanceId>
        ensures value { result ≡ last_in self.now.standing.live scope }
        ensures lives { let s = self.now.standing in IfSome result (λ id. IsLive s.given s.live id.number) }
    {
        last_in_among(&self.live, scope)
    }

    /// The instances that are younger than this number, by bisection: the youngest that was made for that instance is among
    /// them.
    fn younger(&self, number: u64) -> &[Instance]
        ensures value { result.now ≡ younger_than number self.now.standing.live }
        ensures last { last_of result.now number ≡ last_of self.now.standing.live number }
        ensures lives { let s = self.now.standing in
            IfSome (last_of s.live number)
            (λ id. (number < id.number) × (id.number ≤ s.given) × IsSome (numbered s.live id.number)) }
    {
        let first = self
            .live
            .partition_point(|instance| instance.id.number <= number);
        &self.live[first..]
    }

    /// What an instance holds for an actor. It takes no memory.
    pub fn load(&self, number: u64, actor: Actor) -> Val
        ensures { result ≡ state_of self.now.standing number actor }
    {
        match actor {
            Actor::Target => match self.numbered(number) {
                Some(instance) => instance.state,
                None => Val::Null,
            },
            Actor::Interceptor(interceptor) => self.states.held_for(number, interceptor),
        }
    }

    /// Starts a new instance, which has the next number and is being created; none where no further one may be made. It
    /// may take memory; an error leaves all as it was.
    pub fn start(&mut self, bean: u32, owner: Owner) -> Result<Option<u64>, AllocError>
        requires owned { IsOwnerOf (self.old.standing.given + 1) owner }
        ensures possible { IfOk result (λ number. IsSome number → IsFull self.old.standing → ⊥) }
        ensures ok { let s = self.old.standing in
            IfOk result (λ number. IfSome number (λ n. (n ≡ s.given + 1) × (self.new.standing ≡ started bean owner s))) }
        ensures limit { let s = self.old.standing in
            IfOk result (λ number. number ≡ None → IsFull s × (self.new.standing ≡ s)) }
        ensures err { OnErr result (self.new.standing ≡ self.old.standing) }
        ensures room { self.new.room ≡ self.old.room }
    {
        if self.is_full() {
            return Ok(None);
        }
        let number = self.given + 1;
        let instance = Instance {
            id: InstanceId { bean, number },
            owner,
            is_ready: false,
            state: Val::Null,
        };
        self.live.reserve(1)?;
        self.homes.settle(&instance)?;
        self.live.push(instance)?;
        self.given = number;
        Ok(Some(number))
    }

    /// The creation of the instance is complete; that of a product holds what was produced (CDI 4.0, Lifecycle of
    /// producer methods). It takes no memory.
    pub fn finish(&mut self, number: u64, product: Option<Val>)
        ensures standing { self.new.standing ≡ finished number product self.old.standing }
        ensures room { self.new.room ≡ self.old.room }
    {
        if let Some(place) = self.place_of(number) {
            self.live[place] = self.live[place].finished(number, product);
        }
    }

    /// The instance broke or is gone. It takes no memory.
    pub fn abandon(&mut self, number: u64)
        ensures standing { self.new.standing ≡ gone number self.old.standing }
        ensures room { self.old.room ≤ self.new.room }
    {
        self.take_out(number);
        self.states.forget(number);
    }

    fn take_out(&mut self, number: u64)
        ensures live { self.new.standing ≡ record self.old.standing { live = without number self.old.standing.live } }
        ensures room { self.new.room ≡ self.old.room }
    {
        if let Some(place) = self.place_of(number) {
            let gone = self.live.remove(place);
            self.homes.leave(&gone, &self.live[place..]);
        }
    }

    /// Makes an instance hold this for an actor. It takes memory only for an interceptor for which nothing was stored,
    /// and none where there is room.
    pub fn store(&mut self, number: u64, actor: Actor, value: Val) -> Result<(), AllocError>
        ensures ok { OnOk result (self.new.standing ≡ stored number actor value self.old.standing) }
        ensures err { OnErr result (self.new.standing ≡ self.old.standing) }
        ensures possible { 0 < self.old.room → IsOk result }
        ensures own { actor ≡ Target → IsOk result }
        ensures room { self.old.room ≤ self.new.room + 1 }
    {
        match actor {
            Actor::Target => {
                self.store_own(number, value);
                Ok(())
            }
            Actor::Interceptor(interceptor) => self.states.store(number, interceptor, value),
        }
    }

    fn store_own(&mut self, number: u64, value: Val)
        ensures standing { self.new.standing ≡ stored number Target value self.old.standing }
        ensures room { self.new.room ≡ self.old.room }
    {
        if let Some(place) = self.place_of(number) {
            self.live[place] = self.live[place].keeping(number, value);
        }
    }

    /// Makes room for so many states of interceptors.
    pub fn reserve(&mut self, count: usize) -> Result<(), AllocError>
        ensures standing { self.new.standing ≡ self.old.standing }
        ensures room { OnOk result (count ≤ self.new.room) }
    {
        self.states.reserve(count)?;
        Ok(())
    }

    /// A request is active from now on; an error where one is active already. It takes no memory (CDI 4.0, Context
    /// management for built-in scopes).
    pub fn begin_request(&mut self) -> Result<(), RequestError>
        ensures answer { result ≡ begun self.old.standing }
        ensures ok { OnOk result (self.new.standing ≡ opened self.old.standing) }
        ensures err { OnErr result (self.new.standing ≡ self.old.standing) }
        ensures room { self.new.room ≡ self.old.room }
    {
        if self.is_active {
            return Err(RequestError::Active);
        }
        self.is_active = true;
        Ok(())
    }

    /// No request is active any more; an error where none is. The instances of its context are the caller's to destroy
    /// first: all that is live stays. It takes no memory (CDI 4.0, Context management for built-in scopes).
    pub fn close_request(&mut self) -> Result<(), RequestError>
        ensures answer { result ≡ closing self.old.standing }
        ensures ok { OnOk result (self.new.standing ≡ closed self.old.standing) }
        ensures err { OnErr result (self.new.standing ≡ self.old.standing) }
        ensures room { self.new.room ≡ self.old.room }
    {
        if !self.is_active {
            return Err(RequestError::Inactive);
        }
        self.is_active = false;
        Ok(())
    }

    /// No instance is live and no request active; numbers go on after this one. It takes no memory.
    pub fn clear(&mut self, given: u64)
        ensures standing { self.new.standing ≡ cleared given }
        ensures room { self.old.room ≤ self.new.room }
    {
        self.live.clear();
        self.homes.clear();
        self.states.clear();
        self.given = given;
        self.is_active = false;
    }
}
