//! Declarations whose answers are kept, as a view.
ghost use Rattle.std.specs.Prelude.{option_map};
ghost use Rattle.cdi_live.specs.State.{kept_in};

use crate::live::Live;
use cdi_effective::Effective;
use cdi_model::{BeanPlace, Decls, Error, Name, Quals};
use cdi_observe::{Lent, ObserverId, Shared, View};
use cdi_resolve::Choice;
use std::alloc::{AllocError, Global};

impl View for Live {
    ghost list = { λ l. l.decls };

    ghost kept = { λ l. kept_in l };

    ghost staged = { λ l. option_map (λ s. s.decls) l.staged };

    ghost counts = { λ l. (l.counts.closures, l.counts.beans) };

    fn decls(&self) -> &Decls {
        Live::decls(self)
    }

    fn records(&self, class: &Name) -> &[Effective] {
        Live::records(self, class)
    }

    fn kept_choice(&self, bean_type: &Name, quals: &Quals) -> Option<&Choice> {
        Live::kept_choice(self, bean_type, quals)
    }

    fn kept_chain(&self, class: &Name, place: &BeanPlace) -> Option<&Shared<Name>> {
        Live::kept_chain(self, class, place)
    }

    fn kept_observers(&self, event_type: &Name, quals: &Quals) -> Option<&Shared<ObserverId>> {
        Live::kept_observers(self, event_type, quals)
    }

    fn keeps(&self) -> bool {
        true
    }

    fn lent_choice(
        &self,
        _alloc: Global,
        bean_type: &Name,
        quals: &Quals,
    ) -> Result<Lent<'_, Choice>, AllocError> {
        match Live::kept_choice(self, bean_type, quals) {
            Some(choice) => Ok(Lent::Kept(choice)),
            None => unreachable!(),
        }
    }

    fn lent_chain(
        &self,
        _alloc: Global,
        class: &Name,
        place: &BeanPlace,
    ) -> Result<Lent<'_, Shared<Name>>, AllocError> {
        match Live::kept_chain(self, class, place) {
            Some(names) => Ok(Lent::Kept(names)),
            None => unreachable!(),
        }
    }

    fn lent_observers(
        &self,
        _alloc: Global,
        event_type: &Name,
        quals: &Quals,
    ) -> Result<Lent<'_, Shared<ObserverId>>, AllocError> {
        match Live::kept_observers(self, event_type, quals) {
            Some(ids) => Ok(Lent::Kept(ids)),
            None => unreachable!(),
        }
    }

    fn choose(
        &mut self,
        alloc: Global,
        bean_type: Name,
        quals: &Quals,
    ) -> Result<Choice, AllocError> {
        Live::choose(self, alloc, bean_type, quals)
    }

    fn chain(
        &mut self,
        alloc: Global,
        class: Name,
        place: &BeanPlace,
    ) -> Result<Shared<Name>, Error> {
        Live::chain(self, alloc, class, place)
    }

    fn observers(
        &mut self,
        alloc: Global,
        event_type: Name,
        quals: &Quals,
    ) -> Result<Shared<ObserverId>, AllocError> {
        Live::observers(self, alloc, event_type, quals)
    }
}
