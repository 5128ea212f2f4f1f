//! Live instances, with names in place of positions.
ghost use Rattle.std.specs.Prelude.{◌≡◌, [], map, option_copied, option_map};
ghost use Rattle.std.specs.Iterator.{YieldsFirstBy, item_count};
ghost use Rattle.cdi_trace.specs.Instances.{bean_of_instance, shown};

use crate::lookup::bean_in;
use crate::parts::InstanceText;
use cdi_contexts::Instance;
use cdi_effective::BeanId;
use cdi_staging::Names;
use std::fmt;
use std::marker::Model;

/// A live instance. It prints as the id of its bean, `#` and its number.
#[derive(Clone, Copy)]
pub struct NamedInstance<'a> {
    names: &'a Names,
    instance: Instance,
}

impl NamedInstance<'_> {
    /// Its bean.
    pub fn bean(&self) -> Option<BeanId>
        ensures { result ≡ bean_of_instance (shown self.now) }
    {
        let bean = bean_in(self.names, self.instance.id.bean)?;
        Some(bean.id)
    }

    /// Its number: no other instance of the container has it, before or after.
    pub fn number(&self) -> u64
        ensures { result ≡ (shown self.now).instance.id.number }
    {
        self.instance.id.number
    }

    /// Whether its creation is complete.
    pub fn is_ready(&self) -> bool
        ensures { result ≡ (shown self.now).instance.is_ready }
    {
        self.instance.is_ready
    }
}

impl fmt::Display for NamedInstance<'_> {
    ghost use Rattle.std.specs.Prelude.{Some};
    ghost use Rattle.cdi_trace.specs.Instances.{shown, text_of_shown};

    ghost output = { λ i. Some (text_of_shown (shown i)) };

    fn fmt<W: fmt::Write>(&self, f: &mut fmt::Formatter<W>) -> fmt::Result {
        let text = InstanceText {
            names: self.names,
            id: self.instance.id,
        };
        write!(f, "{text}")
    }
}

impl fmt::Debug for NamedInstance<'_> {
    fn fmt<W: fmt::Write>(&self, f: &mut fmt::Formatter<W>) -> fmt::Result {
        write!(f, "{self}")
    }
}

/// The live instances, oldest first.
#[derive(Drop)]
pub struct NamedInstances<'a> {
    names: Option<&'a Names>,
    rest: &'a [Instance],
}

impl<'a> Model for NamedInstances<'a> {
    ghost use Rattle.std.specs.Prelude.{List, option_copied};
    ghost use Rattle.cdi_trace.specs.Instances.{Shown, all_shown};

    ghost Value = { List Shown };

    ghost view = { λ e. all_shown (option_copied e.names) e.rest.now };
}

impl<'a> NamedInstances<'a> {
    /// These instances, by these names.
    pub fn new(names: &'a Names, instances: &'a [Instance]) -> NamedInstances<'a>
        ensures { result ≡ map (λ instance. record { names = names.now; instance = instance }) instances.now }
    {
        NamedInstances {
            names: Some(names),
            rest: instances,
        }
    }

    /// No instance.
    pub fn none() -> NamedInstances<'a>
        ensures { result ≡ [] }
    {
        NamedInstances {
            names: None,
            rest: &[],
        }
    }
}

impl<'a> Iterator for NamedInstances<'a> {
    type Item = NamedInstance<'a>;

    ghost next_gives = { YieldsFirstBy shown (λ s. s) };

    ghost remaining = { item_count (λ s. s) };

    fn next(&mut self) -> Option<NamedInstance<'a>> {
        let names = self.names?;
        let (instance, rest) = self.rest.split_first()?;
        self.rest = rest;
        Some(NamedInstance {
            names,
            instance: *instance,
        })
    }
}

impl fmt::Debug for NamedInstances<'_> {
    fn fmt<W: fmt::Write>(&self, f: &mut fmt::Formatter<W>) -> fmt::Result {
        write!(f, "NamedInstances")
    }
}
