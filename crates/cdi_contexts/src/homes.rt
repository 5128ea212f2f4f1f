//! Where instances are found without a walk.
ghost use Rattle.std.specs.Prelude.{◌≡◌, None, OnOk, OnErr};
ghost use Rattle.cdi_contexts.specs.SameHomes.{same_home};
ghost use Rattle.cdi_contexts.specs.Homes.{home_of, lives_at, oldest_at, kept_at, joined, left_of};
ghost use Rattle.cdi_contexts.specs.declared.homes.Home.{Home as AnyHome};

use crate::instance::{Actor, Instance, Owner};
use cdi_model::Scope;
use std::alloc::{AllocError, Global};
use std::collections::HashMap;
use std::hash::{Hash, Hasher};

/// Where an instance with an owner is found: in the context of a scope by its bean, or at the injection point of an actor
/// of an instance for which it was made.
#[derive(Clone, Copy, Debug)]
pub(crate) enum Home {
    Request(u32),
    Application(u32),
    Point {
        instance: u64,
        actor: Actor,
        point: u32,
    },
}

/// The number of the oldest live instance at each home.
#[derive(Drop)]
pub(crate) struct Homes {
    oldest: HashMap<Home, u64>,
}

impl Home {
    /// Where an instance of a bean lives, by its owner.
    pub(crate) fn of(bean: u32, owner: Owner) -> Option<Home>
        ensures { result ≡ home_of bean owner }
    {
        match owner {
            Owner::Request => Some(Home::Request(bean)),
            Owner::Application => Some(Home::Application(bean)),
            Owner::Point {
                instance,
                actor,
                point,
            } => Some(Home::Point {
                instance,
                actor,
                point,
            }),
            Owner::Nobody => None,
        }
    }

    /// Whether the instance lives there.
    fn is_of(self, instance: &Instance) -> bool
        ensures { result ≡ lives_at self instance.now }
    {
        match self {
            Home::Request(bean) => {
                instance.id.bean == bean && instance.owner.is_of(Scope::Request)
            }
            Home::Application(bean) => {
                instance.id.bean == bean && instance.owner.is_of(Scope::Application)
            }
            Home::Point {
                instance: number,
                actor,
                point,
            } => instance.owner.is_at(number, actor, point),
        }
    }
}

impl PartialEq for Home {
    ghost use Rattle.cdi_contexts.specs.SameHomes.{same_home};
    ghost use Rattle.cdi_contexts.specs.SameHomes.{same_home_equiv};
    ghost use Rattle.std.specs.Cmp.{partial_equiv_from_equiv};

    ghost eq = { same_home };

    ghost laws = { partial_equiv_from_equiv same_home_equiv };

    fn eq(&self, other: &Home) -> bool {
        match *self {
            Home::Request(bean) => match *other {
                Home::Request(another) => bean == another,
                _ => false,
            },
            Home::Application(bean) => match *other {
                Home::Application(another) => bean == another,
                _ => false,
            },
            Home::Point {
                instance,
                actor,
                point,
            } => match *other {
                Home::Point {
                    instance: number,
                    actor: who,
                    point: place,
                } => instance == number && actor.is(who) && point == place,
                _ => false,
            },
        }
    }
}

impl Eq for Home {
    ghost use Rattle.cdi_contexts.specs.SameHomes.{same_home_equiv};

    ghost laws = { same_home_equiv };
}

impl Hash for Home {
    ghost use Rattle.cdi_contexts.specs.SameHomes.{home_input};
    ghost use Rattle.cdi_contexts.specs.SameHomes.{same_homes_alike};

    ghost hash_input = { home_input };

    ghost respects_eq = { same_homes_alike };

    fn hash<H: Hasher>(&self, state: &mut H) {
        match *self {
            Home::Request(bean) | Home::Application(bean) => state.write_u32(bean),
            Home::Point {
                instance,
                actor,
                point,
            } => {
                state.write_u64(instance);
                state.write_u32(actor.place());
                state.write_u32(point);
            }
        }
    }
}

impl Homes {
    /// Nobody lives anywhere. It takes no memory.
    pub(crate) fn new(alloc: Global) -> Homes
        ensures { (home : AnyHome) → kept_at result home ≡ None }
    {
        Homes {
            oldest: HashMap::new(alloc),
        }
    }

    /// The number of the oldest instance that lives there.
    pub(crate) fn at(&self, home: Home) -> Option<u64>
        ensures { result ≡ kept_at self.now home }
    {
        self.oldest.get(&home).copied()
    }

    /// An instance lives at its home from now on, younger than all others. It takes memory for a home at which nobody lives;
    /// an error leaves all as it was.
    pub(crate) fn settle(&mut self, instance: &Instance) -> Result<(), AllocError>
        ensures ok { OnOk result ((h : AnyHome) → kept_at self.new h
            ≡ joined (kept_at self.old h) (lives_at h instance.now) instance.now.id.number) }
        ensures err { OnErr result ((h : AnyHome) → kept_at self.new h ≡ kept_at self.old h) }
    {
        match Home::of(instance.id.bean, instance.owner) {
            None => Ok(()),
            Some(home) => self.settle_at(home, instance.id.number),
        }
    }

    fn settle_at(&mut self, home: Home, number: u64) -> Result<(), AllocError>
        ensures ok { OnOk result ((h : AnyHome) → kept_at self.new h ≡ joined (kept_at self.old h) (same_home home h) number) }
        ensures err { OnErr result ((h : AnyHome) → kept_at self.new h ≡ kept_at self.old h) }
    {
        if self.oldest.get(&home).is_some() {
            return Ok(());
        }
        self.oldest.insert(home, number)?;
        Ok(())
    }

    /// An instance is gone; these are the younger ones. It takes no memory.
    pub(crate) fn leave(&mut self, gone: &Instance, younger: &[Instance])
        ensures { (h : AnyHome) → kept_at self.new h
            ≡ left_of (kept_at self.old h) (lives_at h gone.now) gone.now.id.number (oldest_at h younger.now) }
    {
        if let Some(home) = Home::of(gone.id.bean, gone.owner) {
            self.leave_from(home, gone.id.number, younger);
        }
    }

    fn leave_from(&mut self, home: Home, number: u64, younger: &[Instance])
        ensures { (h : AnyHome) → kept_at self.new h ≡ left_of (kept_at self.old h) (same_home home h) number (oldest_at home younger.now) }
    {
        if self.at(home) != Some(number) {
            return;
        }
        match oldest_among(younger, home) {
            None => {
                let _ = self.oldest.remove(&home);
            }
            Some(next) => {
                if self.oldest.insert(home, next).is_err() {
                    unreachable!()
                }
            }
        }
    }

    /// Nobody lives anywhere any more. It takes no memory.
    pub(crate) fn clear(&mut self)
        ensures { (home : AnyHome) → kept_at self.new home ≡ None }
    {
        self.oldest.clear();
    }
}

fn oldest_among(live: &[Instance], home: Home) -> Option<u64>
    ensures { result ≡ oldest_at home live.now }
{
    let oldest = live.iter().find(|instance| home.is_of(instance));
    oldest.map(|instance| instance.id.number)
}
