//! The chains of all beans of a deployment (CDI 4.0, Direct and indirect specialization).
ghost use Rattle.std.specs.Prelude.{◌≡◌, ◌||◌, ◌<◌, Some, ℕ, false, slice_index_or, length, map, nat_eq, option_map, IfOk, OnOk};
ghost use Rattle.std.specs.List.{list_any, slice_get, AllByRecursion};
ghost use Rattle.std.specs.Option.{option_copied};
ghost use Rattle.cdi_model.specs.Decl.{kind_of, name_of_decl};
ghost use Rattle.cdi_model.specs.DeclList.{find_decl};
ghost use Rattle.cdi_effective.specs.Disposers.{find_bean};
ghost use Rattle.cdi_effective.specs.Gained.{IsGained};
ghost use Rattle.cdi_effective.specs.Places.{is_offered_by, link_of, next_at, place_of_next};
ghost use Rattle.cdi_effective.specs.Places.{AddsGained, ArePlaces, IsPlace, MarksReplaced, TellReplaced};
ghost use Rattle.cdi_effective.specs.Specialized.{behind, chain, name_alone, specialized};
ghost use Rattle.cdi_model.specs.declared.decl.Decl.TheVariants as decls_are;

use crate::chain::specialized;
use crate::gained::{Gained, name_of};
use crate::given::{Given, given_to};
use crate::replaced::is_enabled;
use cdi_model::{BeanDecl, DECLS_LIMIT, Decl, Decls, Kind, Name};
use std::alloc::{AllocError, Global};

/// What chains take from a declaration.
#[derive(Clone, Copy)]
pub(crate) struct Link {
    /// The place of the bean that it specializes.
    pub(crate) next: Option<usize>,
    /// What its stereotypes give.
    pub(crate) given: Given,
    /// Its name by itself.
    pub(crate) name: Option<Name>,
}

impl Link {
    /// That of a bean.
    fn of_bean(alloc: Global, decls: &Decls, bean: &BeanDecl) -> Result<Link, AllocError>
        ensures { IfOk result (λ link. link ≡ link_of decls.now (decls_are.Bean bean.now)) }
    {
        let given = given_to(alloc, decls, bean.attributes.stereotypes.as_slice())?;
        Ok(Link {
            next: place_of_next(decls, specialized(decls, bean)),
            given,
            name: name_of(&bean.attributes, bean.default_name(), given),
        })
    }

    fn of(alloc: Global, decls: &Decls, decl: &Decl) -> Result<Link, AllocError>
        ensures { IfOk result (λ link. link ≡ link_of decls.now decl.now) }
    {
        match decl {
            Decl::Bean(bean) => Link::of_bean(alloc, decls, bean),
            _ => Ok(Link {
                next: None,
                given: Given::nothing(),
                name: None,
            }),
        }
    }
}

/// The place of the bean that is specialized, if there is one.
fn place_of_next(decls: &Decls, next: Option<&BeanDecl>) -> Option<usize>
    ensures { result ≡ place_of_next decls.now (option_copied next.entry) }
{
    match next {
        Some(bean) => decls.position(Kind::Bean, &bean.name),
        None => None,
    }
}

/// The links of all declarations, by their places. With them a chain is followed without looking a name up.
#[derive(Drop)]
pub(crate) struct Chains<'a> {
    decls: &'a Decls,
    links: Vec<Link>,
    ghost linked: { links.items ≡ map (link_of decls.now) decls.now },
}

impl<'a> Chains<'a> {
    /// It takes memory for the links, and for the searches of stereotypes.
    pub(crate) fn of(alloc: Global, decls: &'a Decls) -> Result<Chains<'a>, AllocError>
        ensures { IfOk result (λ chains. chains.decls.now ≡ decls.now) }
    {
        let links = links_of(alloc, decls)?;
        Ok(Chains { decls, links })
    }

    /// The link of the declaration at a place.
    pub(crate) fn link(&self, place: usize) -> Option<&Link>
        ensures { option_copied result ≡ option_map (link_of self.now.decls.now) (slice_get self.now.decls.now place) }
    {
        self.links.get(place)
    }

    /// The places of the beans after a declared bean in its chain.
    fn places_behind(&self, alloc: Global, bean: &BeanDecl) -> Result<Vec<usize>, AllocError>
        requires { find_bean bean.now.name self.now.decls.now ≡ Some bean.now }
        ensures { IfOk result (λ places. ArePlaces self.now.decls.now places.items (behind self.now.decls.now bean.now)) }
    {
        let mut places = Vec::new(alloc);
        if !bean.specializes {
            return Ok(places);
        }
        let Some(first) = self.decls.position(Kind::Bean, &bean.name) else {
            return Ok(places);
        };
        let mut met = vec![in alloc; false; self.decls.len()]?;
        met[first] = true;
        let mut last = first;
        for step in 0..DECLS_LIMIT {
            let Some(next) = self.next(last) else {
                return Ok(places);
            };
            if met[next] {
                return Ok(places);
            }
            met[next] = true;
            places.push(next)?;
            last = next;
        }
        Ok(places)
    }

    /// The place of the bean that the one at a place specializes.
    fn next(&self, place: usize) -> Option<usize>
        ensures { result ≡ next_at self.now.decls.now place }
    {
        match self.link(place) {
            Some(link) => link.next,
            None => None,
        }
    }

    /// What the chain of a declared bean gives it, which has this name by itself. It takes memory for the qualifiers, and for
    /// the places of the chain.
    pub(crate) fn gained_by(
        &self,
        alloc: Global,
        bean: &'a BeanDecl,
        name: Option<Name>,
    ) -> Result<Gained<'a>, AllocError>
        requires found { find_bean bean.now.name self.now.decls.now ≡ Some bean.now }
        requires name { name ≡ name_alone self.now.decls.now bean.now }
        ensures { IfOk result (λ gained. IsGained self.now.decls.now (chain self.now.decls.now bean.now) gained) }
    {
        let mut gained = Gained::by_itself(alloc, bean, name)?;
        for place in self.places_behind(alloc, bean)? {
            self.add_gained(place, &mut gained)?;
        }
        Ok(gained)
    }

    /// Adds what the bean at a place gives.
    fn add_gained(&self, place: usize, gained: &mut Gained<'a>) -> Result<(), AllocError>
        ensures { OnOk result ((bean : BeanDecl) → IsPlace self.now.decls.now place bean → AddsGained self.now.decls.now bean gained.old gained.new) }
    {
        if let (Some(Decl::Bean(bean)), Some(link)) = (self.decls.at(place), self.link(place)) {
            gained.add(bean, &link.name)?;
        }
        Ok(())
    }

    /// Whether the bean of each class is replaced, at its place. It takes memory for that, and for the places of chains.
    pub(crate) fn replaced(&self, alloc: Global) -> Result<Vec<bool>, AllocError>
        ensures { IfOk result (λ marks. TellReplaced self.now.decls.now marks.items) }
    {
        let mut marks = vec![in alloc; false; self.decls.len()]?;
        let mut place = 0;
        for decl in self.decls.iter() {
            self.mark_replaced(alloc, place, decl, &mut marks)?;
            place += 1;
        }
        Ok(marks)
    }

    /// Marks those that a declaration at a place replaces.
    fn mark_replaced(
        &self,
        alloc: Global,
        place: usize,
        decl: &Decl,
        marks: &mut Vec<bool>,
    ) -> Result<(), AllocError>
        requires there { slice_get self.now.decls.now place ≡ Some decl.now }
        requires found { find_decl (kind_of decl.now) (name_of_decl decl.now) self.now.decls.now ≡ Some decl.now }
        requires sized { length marks.old.items ≡ length self.now.decls.now }
        ensures sized { OnOk result (length marks.new.items ≡ length marks.old.items) }
        ensures marked { OnOk result (MarksReplaced self.now.decls.now decl.now marks.old.items marks.new.items) }
    {
        let Decl::Bean(bean) = decl else {
            return Ok(());
        };
        let Some(link) = self.link(place) else {
            return Ok(());
        };
        if !is_offered(bean, link.given) {
            return Ok(());
        }
        let places = self.places_behind(alloc, bean)?;
        mark_all(places, marks);
        Ok(())
    }
}

/// Whether a bean is offered, to which its stereotypes give this.
fn is_offered(bean: &BeanDecl, given: Given) -> bool
    ensures { result ≡ is_offered_by bean.now given }
{
    is_enabled(
        bean.attributes.is_alternative || given.is_alternative,
        bean.priority,
    )
}

/// Marks some places.
fn mark_all(places: Vec<usize>, marks: &mut Vec<bool>)
    requires { AllByRecursion (λ place. place < length marks.old.items) places.items }
    ensures sized { length marks.new.items ≡ length marks.old.items }
    ensures marked { (place : ℕ) → slice_index_or marks.new.items place false
        ≡ (slice_index_or marks.old.items place false || list_any (nat_eq place) places.items) }
{
    for place in places {
        marks[place] = true;
    }
}

fn links_of(alloc: Global, decls: &Decls) -> Result<Vec<Link>, AllocError>
    ensures { IfOk result (λ links. links.items ≡ map (link_of decls.now) decls.now) }
{
    let mut links = Vec::with_capacity(alloc, decls.len())?;
    for decl in decls.iter() {
        links.push(Link::of(alloc, decls, decl)?)?;
    }
    Ok(links)
}
