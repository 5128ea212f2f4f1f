//! The bean list of a deployment.
ghost use Rattle.std.specs.Prelude.{◌≡◌, ◌<◌, ◌≤◌, All, Some, length, map, filter, position, slice_get};
ghost use Rattle.std.specs.Prelude.{IfOk, OnOk, OnErr};
ghost use Rattle.std.specs.List.{prefix_len};
ghost use Rattle.cdi_model.specs.Work.{with_one};
ghost use Rattle.cdi_effective.specs.Beans.{beans};
ghost use Rattle.cdi_effective.specs.Records.{is_of_class, is_product, with_products, records_among};
ghost use Rattle.cdi_resolve.specs.Choices.{chosen, offers};

use crate::choice::{Choice, choose_from};
use crate::places::{places_of_classes, places_of_types};
use cdi_effective::{Effective, beans};
use cdi_model::{Decls, Name, Quals, Work};
use indexmap::IndexMap;
use std::alloc::{AllocError, Global};
use std::marker::Model;

/// The beans of a deployment, in order, with lookups by the class that declares them and by the types that they have.
pub struct BeanList {
    beans: Vec<Effective>,
    /// For each class the place of its first bean, which is its managed one.
    classes: IndexMap<Name, usize>,
    /// For each type the places of the enabled beans that have it, rising.
    types: IndexMap<Name, Vec<usize>>,
}

impl Drop for BeanList {
    fn drop(self) {
        let BeanList {
            beans: _,
            classes: _,
            types: _,
        } = self;
    }
}

impl Model for BeanList {
    ghost use Rattle.std.specs.Prelude.{List};
    ghost use Rattle.cdi_effective.specs.declared.records.Effective.{Effective as AnyBean};
    ghost use Rattle.cdi_resolve.specs.Places.{ArePlacesOfClasses, ArePlacesOfTypes};

    ghost Value = { List AnyBean };

    ghost view = { λ l. l.beans.items };

    ghost invariant = { λ l. ArePlacesOfClasses l.beans.items l.classes × ArePlacesOfTypes l.beans.items l.types };
}

impl BeanList {
    /// The beans of some declarations. It takes memory for each record, class and type.
    pub fn of(alloc: Global, decls: &Decls) -> Result<BeanList, AllocError>
        ensures { IfOk result (λ list. list ≡ beans decls.now) }
    {
        let beans = beans(alloc, decls)?;
        Ok(BeanList {
            classes: places_of_classes(alloc, &beans)?,
            types: places_of_types(alloc, &beans)?,
            beans,
        })
    }

    /// The beans, in order.
    pub fn as_slice(&self) -> &[Effective]
        ensures { result.now ≡ self.now }
    {
        self.beans.as_slice()
    }

    /// The records of the bean declaration of a class: its managed bean, and after it its products in order. None
    /// where no such bean is declared. It takes no memory.
    pub fn records(&self, class: &Name) -> &[Effective]
        ensures { result.now ≡ records_among self.now class.now }
    {
        match self.place_of(class) {
            Some(place) => with_products(&self.beans[place..]),
            None => &[],
        }
    }

    /// The place of the first bean of a class.
    fn place_of(&self, class: &Name) -> Option<usize>
        ensures { result ≡ position (is_of_class class.now) self.now }
    {
        self.classes.get(class).copied()
    }

    /// The bean for a type and qualifiers, chosen as `choose_from` does from all. It takes memory for the beans that
    /// have the type, and where several eligible ones rank alike.
    pub fn choose(
        &self,
        alloc: Global,
        decls: &Decls,
        bean_type: Name,
        quals: &Quals,
        work: &mut Work,
    ) -> Result<Choice, AllocError>
        ensures choice { IfOk result (λ choice. choice ≡ chosen decls.now self.now bean_type quals.now) }
        ensures work { OnOk result (work.new ≡ with_one work.old) }
        ensures err { OnErr result (work.new ≡ work.old) }
    {
        let candidates = at_places(alloc, &self.beans, self.places_of(bean_type))?;
        choose_from(alloc, decls, &candidates, bean_type, quals, work)
    }

    /// The places of the enabled beans that have a type.
    fn places_of(&self, bean_type: Name) -> &[usize]
        ensures { map (slice_get self.now) result.now ≡ map Some (filter (offers bean_type) self.now) }
    {
        match self.types.get(&bean_type) {
            Some(places) => places.as_slice(),
            None => &[],
        }
    }
}

/// The beans at some places.
fn at_places<'a>(
    alloc: Global,
    beans: &'a [Effective],
    places: &[usize],
) -> Result<Vec<&'a Effective>, AllocError>
    requires { All (λ place. place < length beans.now) places.now }
    ensures { IfOk result (λ list. map (λ bean. Some bean.now) list.items ≡ map (slice_get beans.now) places.now) }
{
    let mut list = Vec::with_capacity(alloc, places.len())?;
    for place in places {
        list.push(&beans[*place])?;
    }
    Ok(list)
}

/// The first of some beans, with the products that follow it.
fn with_products(beans: &[Effective]) -> &[Effective]
    ensures { result.now ≡ with_products beans.now }
{
    let [_, behind @ ..] = beans else {
        return &[];
    };
    &beans[..1 + products(behind)]
}

/// The number of products before the first managed bean.
fn products(beans: &[Effective]) -> usize
    ensures value { result ≡ prefix_len is_product beans.now }
    ensures bound { result ≤ length beans.now }
{
    let mut count = 0;
    for bean in beans {
        if bean.id.producer.is_none() {
            return count;
        }
        count += 1;
    }
    count
}
