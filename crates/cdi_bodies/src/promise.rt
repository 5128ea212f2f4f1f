//! What a body promises.
ghost use Rattle.std.specs.Prelude.{⊤, [], ◌∷◌, ◌≡◌, ◌-◌, ◌==◌, ◌↔◌, IsTrue, codes, not};
ghost use Rattle.std.specs.Int.RustNames.{bit_and};
ghost use Rattle.cdi_bodies.specs.Flags as flags;
ghost use Rattle.cdi_bodies.specs.Within.{IsAllowed, CoversNoMore, keeps_to};

use bitflags::{Flag, Flags, bitflag_items};

/// The acts that a body may answer, one flag for each. To return needs no promise.
#[derive(Clone, Copy, PartialEq, Eq, Debug)]
pub struct Promise(u8);

bitflag_items! {
    impl Promise: u8 {
        const LOAD = 1;
        const STORE = 2;
        const CALL = 4;
        const FIRE = 8;
        const PROCEED = 16;
        const FAIL = 32;
    }
}

impl Promise {
    /// No act but to return.
    pub const NONE: Promise = Promise(0);

    pub const LOAD_STORE: Promise = Promise(Self::LOAD.0 | Self::STORE.0);

    pub const CALL_FAIL: Promise = Promise(Self::CALL.0 | Self::FAIL.0);

    pub const FIRE_FAIL: Promise = Promise(Self::FIRE.0 | Self::FAIL.0);

    pub const PROCEED_FAIL: Promise = Promise(Self::PROCEED.0 | Self::FAIL.0);

    pub const LOAD_STORE_FAIL: Promise = Promise(Self::LOAD.0 | Self::STORE.0 | Self::FAIL.0);
    /// What is allowed to a body that runs on an instance, but before its destruction: all but `PROCEED` (profile).
    pub const AT_INSTANCE: Promise = Promise(
        Self::LOAD.0 | Self::STORE.0 | Self::CALL.0 | Self::FIRE.0 | Self::FAIL.0,
    );
    /// What is allowed before the destruction of an instance: `LOAD`, `STORE` and `FAIL` (profile).
    pub const AT_DESTRUCTION: Promise = Promise(Self::LOAD.0 | Self::STORE.0 | Self::FAIL.0);
    /// What is allowed to a static producer method, which has no instance: `CALL`, `FIRE` and `FAIL` (profile).
    pub const AT_CLASS: Promise = Promise(Self::CALL.0 | Self::FIRE.0 | Self::FAIL.0);
    /// What is allowed to a disposer method: `FAIL` (profile).
    pub const AT_DISPOSAL: Promise = Promise(Self::FAIL.0);
    /// What is allowed to an interceptor, but before the destruction: all (profile).
    pub const AROUND: Promise = Promise(Self::AT_INSTANCE.0 | Self::PROCEED.0);
    /// What is allowed to an interceptor before the destruction: `LOAD`, `STORE`, `PROCEED` and `FAIL` (profile).
    pub const AROUND_DESTRUCTION: Promise = Promise(Self::AT_DESTRUCTION.0 | Self::PROCEED.0);

    /// Whether a body of this promise may stand where these acts are allowed: each of its flags is one of theirs. The
    /// clauses after the first three say which flags the sets above have.
    #[tactic(auto, using(crate::proofs::FlagLemmas::has_each, crate::proofs::FlagLemmas::has_all, crate::proofs::FlagLemmas::covers_each))]
    pub fn is_allowed(self, allowed: Promise) -> bool
        ensures value { result ≡ keeps_to self allowed.0 }
        ensures meaning { IsTrue result ↔ IsAllowed self allowed }
        ensures acts { IsTrue result → CoversNoMore self allowed }
        ensures none { Promise.NONE.0 ≡ flags.set_of_flags [] }
        ensures at_instance { Promise.AT_INSTANCE.0 ≡ flags.at_instance }
        ensures at_destruction { Promise.AT_DESTRUCTION.0 ≡ flags.at_destruction }
        ensures at_class { Promise.AT_CLASS.0 ≡ flags.at_class }
        ensures at_disposal { Promise.AT_DISPOSAL.0 ≡ flags.at_disposal }
        ensures around { Promise.AROUND.0 ≡ flags.around }
        ensures around_destruction { Promise.AROUND_DESTRUCTION.0 ≡ flags.around_destruction }
    {
        allowed.contains(self)
    }

    /// Whether it has this act.
    pub(crate) fn has(self, act: Promise) -> bool
        ensures { result ≡ not (bit_and self.0 act.0 == 0) }
    {
        self.0 & act.0 != 0
    }

    /// Whether it has an act whose flag is smaller.
    pub(crate) fn has_before(self, act: Promise) -> bool
        ensures { result ≡ not (bit_and self.0 (act.0 - 1) == 0) }
    {
        self.0 & act.0.saturating_sub(1) != 0
    }
}

impl Flags for Promise {
    type Bits = u8;

    ghost exact = { ⊤ };

    ghost table = { (codes "LOAD", flags.load) ∷ (codes "STORE", flags.store) ∷ (codes "CALL", flags.call) ∷ (codes "FIRE", flags.fire)
        ∷ (codes "PROCEED", flags.proceed) ∷ (codes "FAIL", flags.fail) ∷ [] };

    ghost set_of = { λ p. p.0 };

    fn flags<'a>() -> &'a [Flag<Promise>] {
        Promise::FLAGS
    }

    fn bits(&self) -> u8 {
        self.0
    }

    fn from_bits_retain(bits: u8) -> Promise {
        Promise(bits)
    }
}
