//! A place of a bean as a part of what asks for a chain.
ghost use Rattle.std.specs.Prelude.{◌≡◌};

use cdi_model::BeanPlace;
use std::hash::{Hash, Hasher};
use std::marker::Model;

/// A place of a bean, by which chains are kept beside the class.
#[derive(Drop)]
pub(crate) struct ChainPlace {
    place: BeanPlace,
}

impl Model for ChainPlace {
    ghost use Rattle.cdi_model.specs.declared.place.BeanPlace.{BeanPlace as Place};

    ghost Value = { Place };

    ghost view = { λ p. p.place };
}

impl ChainPlace {
    pub(crate) fn new(place: BeanPlace) -> ChainPlace
        ensures { result ≡ place }
    {
        ChainPlace { place }
    }

    pub(crate) fn place(&self) -> BeanPlace
        ensures { result ≡ self.now }
    {
        self.place
    }
}

impl PartialEq for ChainPlace {
    ghost use Rattle.std.specs.Cmp.{partial_equiv_from_equiv};
    ghost use Rattle.cdi_observe.specs.Keys.{same_place};
    ghost use Rattle.cdi_live.specs.Places.{same_place_equiv};

    ghost eq = { same_place };

    ghost laws = { partial_equiv_from_equiv same_place_equiv };

    fn eq(&self, other: &ChainPlace) -> bool {
        match self.place {
            BeanPlace::Construct => matches!(other.place, BeanPlace::Construct),
            BeanPlace::Post => matches!(other.place, BeanPlace::Post),
            BeanPlace::Pre => matches!(other.place, BeanPlace::Pre),
            BeanPlace::Method(name) => match other.place {
                BeanPlace::Method(another) => name == another,
                _ => false,
            },
            BeanPlace::Producer(name) => match other.place {
                BeanPlace::Producer(another) => name == another,
                _ => false,
            },
            BeanPlace::Observer(name) => match other.place {
                BeanPlace::Observer(another) => name == another,
                _ => false,
            },
        }
    }
}

impl Eq for ChainPlace {
    ghost use Rattle.cdi_live.specs.Places.{same_place_equiv};

    ghost laws = { same_place_equiv };
}

impl Hash for ChainPlace {
    ghost use Rattle.cdi_live.specs.Places.{place_input, same_places_alike};

    ghost hash_input = { place_input };

    ghost respects_eq = { same_places_alike };

    fn hash<H: Hasher>(&self, state: &mut H) {
        match self.place {
            BeanPlace::Construct => state.write_u8(0),
            BeanPlace::Post => state.write_u8(1),
            BeanPlace::Pre => state.write_u8(2),
            BeanPlace::Method(name) => {
                state.write_u8(3);
                name.hash(state);
            }
            BeanPlace::Producer(name) => {
                state.write_u8(4);
                name.hash(state);
            }
            BeanPlace::Observer(name) => {
                state.write_u8(5);
                name.hash(state);
            }
        }
    }
}
