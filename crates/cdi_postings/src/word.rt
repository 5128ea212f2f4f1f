//! Under what a declaration is listed.
ghost use Rattle.std.specs.Prelude.{◌≡◌};
ghost use Rattle.cdi_postings.specs.Words.{reason_number, same_word};

use cdi_model::{Kind, Name};
use std::hash::{Hash, Hasher};

/// Why a declaration is listed under a name.
#[derive(Clone, Copy, Debug)]
pub enum Reason {
    /// What is made of it reads the declaration of a kind and the name.
    RestsOn(Kind),
    /// A bean of it has the type.
    HasType,
    /// An enabled alternative of it, or an enabled product of one, has the type.
    HasTypeAsAlternative,
    /// A bean of it has the name.
    HasName,
    /// It replaces the bean of the class.
    Replaces,
    /// An observer method of it has the type.
    Observes,
    /// A point of it asks for the type.
    Asks,
    /// A bean of it has the qualifier, a point of it asks for it, an observer method of it observes it, or a body of it may
    /// fire an event with it.
    Qualifies,
    /// A body of it may fire an event of the type.
    Fires,
    /// A bean of it, or a method of one, has a binding of the type, or it is an interceptor with one.
    Binds,
    /// It is an interceptor with a binding of the type.
    Intercepts,
    /// It writes the name as that of a declaration of a kind.
    Writes(Kind),
}

/// A reason and a name under which declarations are listed.
#[derive(Clone, Copy, Debug)]
pub struct Word {
    pub reason: Reason,
    pub name: Name,
}

impl Reason {
    /// Its place among the reasons.
    fn number(self) -> u8
        ensures { result ≡ reason_number self }
    {
        match self {
            Reason::RestsOn(Kind::Type) => 0,
            Reason::RestsOn(Kind::Qualifier) => 1,
            Reason::RestsOn(Kind::Binding) => 2,
            Reason::RestsOn(Kind::Stereotype) => 3,
            Reason::RestsOn(Kind::Bean) => 4,
            Reason::RestsOn(Kind::Interceptor) => 5,
            Reason::HasType => 6,
            Reason::HasName => 7,
            Reason::Replaces => 8,
            Reason::Observes => 9,
            Reason::Asks => 10,
            Reason::Qualifies => 11,
            Reason::Fires => 12,
            Reason::Binds => 13,
            Reason::Intercepts => 20,
            Reason::HasTypeAsAlternative => 21,
            Reason::Writes(Kind::Type) => 14,
            Reason::Writes(Kind::Qualifier) => 15,
            Reason::Writes(Kind::Binding) => 16,
            Reason::Writes(Kind::Stereotype) => 17,
            Reason::Writes(Kind::Bean) => 18,
            Reason::Writes(Kind::Interceptor) => 19,
        }
    }
}

impl PartialEq for Word {
    ghost use Rattle.cdi_postings.specs.Words.{same_word, same_word_equiv};
    ghost use Rattle.std.specs.Cmp.{partial_equiv_from_equiv};

    ghost eq = { same_word };

    ghost laws = { partial_equiv_from_equiv same_word_equiv };

    fn eq(&self, other: &Word) -> bool {
        self.reason.number() == other.reason.number() && self.name == other.name
    }
}

impl Eq for Word {
    ghost use Rattle.cdi_postings.specs.Words.{same_word_equiv};

    ghost laws = { same_word_equiv };
}

impl Hash for Word {
    ghost use Rattle.std.specs.Prelude.{◌++◌};
    ghost use Rattle.std.specs.Hash as fed;
    ghost use Rattle.std.specs.Cmp.Rules.{hashing};
    ghost use Rattle.std.proofs.Common.{rules};
    ghost use Rattle.cdi_postings.specs.Words.{reason_number};

    ghost hash_input = { λ w. fed.u8 (reason_number w.reason) ++ fed.slice fed.u8 w.name };

    ghost respects_eq = { Prim.search (hashing, rules) };

    fn hash<H: Hasher>(&self, state: &mut H) {
        state.write_u8(self.reason.number());
        self.name.hash(state);
    }
}
