//! Where beans are in the bean list of a deployment.
ghost use Rattle.std.specs.Prelude.{◌≡◌, IfOk, OnOk, Some, None, map, if◌then◌else◌};
ghost use Rattle.std.specs.Option.{option_or};
ghost use Rattle.indexmap.specs.IndexMap.{get};
ghost use Rattle.cdi_staging.specs.Listed.{ArePositions};
ghost use Rattle.cdi_staging.specs.Positions.{same_id, ArePlaces};

use cdi_effective::{BeanId, Effective};
use cdi_model::{Ident, Name};
use indexmap::IndexMap;
use std::alloc::{AllocError, Global};

/// The position of each bean in a bean list, by its id.
pub struct Positions {
    places: IndexMap<BeanId, usize>,
    count: usize,
}

impl Drop for Positions {
    fn drop(self) {
        let Positions {
            places: _,
            count: _,
        } = self;
    }
}

impl Positions {
    /// Those of the beans with these records. It takes memory for each.
    pub fn of(alloc: Global, beans: &[&Effective]) -> Result<Positions, AllocError>
        ensures { IfOk result (λ positions. ArePositions (map (λ bean. bean.now) beans.now) positions) }
    {
        Ok(Positions {
            places: places_of(alloc, beans)?,
            count: beans.len(),
        })
    }

    /// How many beans there are.
    pub(crate) fn count(&self) -> usize
        ensures { result ≡ self.now.count }
    {
        self.count
    }

    /// The position of a bean, if it is there.
    pub(crate) fn place(&self, id: &BeanId) -> Option<usize>
        ensures { result ≡ get same_id self.now.places id.now }
    {
        self.places.get(id).copied()
    }
}

/// The place of each of some beans, by its id.
fn places_of(alloc: Global, beans: &[&Effective]) -> Result<IndexMap<BeanId, usize>, AllocError>
    ensures { IfOk result (λ places. ArePlaces (map (λ bean. bean.now) beans.now) places) }
{
    let mut places = IndexMap::new(alloc);
    for (place, bean) in beans.iter().enumerate() {
        add_place(&mut places, bean.id.class, bean.id.producer, place)?;
    }
    Ok(places)
}

/// Gives a bean a place, unless it has one.
fn add_place(
    places: &mut IndexMap<BeanId, usize>,
    class: Name,
    producer: Option<Ident>,
    place: usize,
) -> Result<(), AllocError>
    ensures { OnOk result ((i : _) → get same_id places.new i ≡ option_or (get same_id places.old i)
        (if same_id (record { class = class; producer = producer }) i then Some place else None)) }
{
    let id = BeanId { class, producer };
    if !places.contains_key(&id) {
        places.insert(id, place)?;
    }
    Ok(())
}
