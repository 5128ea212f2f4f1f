//! What a managed bean gets by its chain (CDI 4.0, Direct and indirect specialization).
ghost use Rattle.std.specs.Prelude.{◌≡◌, [], ◌∷◌, ◌++◌, None, IfOk, OnOk};
ghost use Rattle.std.specs.Option.{option_or};
ghost use Rattle.cdi_match.specs.Bindings.{uses_in};
ghost use Rattle.cdi_effective.specs.Gained.{IsGained};
ghost use Rattle.cdi_effective.specs.Specialized.{chain, given_of, name_alone, name_of};

use crate::chain::behind;
use crate::given::{Given, given_to};
use cdi_match::push_uses;
use cdi_model::{Attributes, BeanDecl, Decls, Name, Qual};
use std::alloc::{AllocError, Global};

/// What the beans of a chain give the first of them.
#[derive(Drop)]
pub(crate) struct Gained<'a> {
    /// The name of the last of them that has one.
    pub(crate) name: Option<Name>,
    /// The qualifiers that they declare.
    pub(crate) declared: Vec<&'a Qual>,
    /// The qualifiers that the last of them declares.
    pub(crate) last: &'a [Qual],
}

impl<'a> Gained<'a> {
    /// What one bean gives, which has this name by itself.
    pub(crate) fn by_itself(
        alloc: Global,
        bean: &'a BeanDecl,
        name: Option<Name>,
    ) -> Result<Gained<'a>, AllocError>
        ensures name { IfOk result (λ gained. gained.name ≡ name) }
        ensures declared { IfOk result (λ gained. uses_in gained.declared.items ≡ bean.now.attributes.qualifiers) }
        ensures last { IfOk result (λ gained. gained.last.now ≡ bean.now.attributes.qualifiers) }
    {
        let last = bean.attributes.qualifiers.as_slice();
        let mut declared = Vec::new(alloc);
        push_uses(&mut declared, last)?;
        Ok(Gained {
            name,
            declared,
            last,
        })
    }

    /// Adds what the next bean of the chain gives, which has this name by itself.
    pub(crate) fn add(&mut self, bean: &'a BeanDecl, name: &Option<Name>) -> Result<(), AllocError>
        ensures name { OnOk result (self.new.name ≡ option_or name.now self.old.name) }
        ensures declared { OnOk result (uses_in self.new.declared.items
            ≡ uses_in self.old.declared.items ++ bean.now.attributes.qualifiers) }
        ensures last { OnOk result (self.new.last.now ≡ bean.now.attributes.qualifiers) }
    {
        let last = bean.attributes.qualifiers.as_slice();
        push_uses(&mut self.declared, last)?;
        self.last = last;
        if name.is_some() {
            self.name = *name;
        }
        Ok(())
    }

    /// What the chain of a bean gives it, which has this name by itself.
    pub(crate) fn of(
        alloc: Global,
        decls: &'a Decls,
        bean: &'a BeanDecl,
        name: Option<Name>,
    ) -> Result<Gained<'a>, AllocError>
        requires { name ≡ name_alone decls.now bean.now }
        ensures { IfOk result (λ gained. IsGained decls.now (chain decls.now bean.now) gained) }
    {
        let mut gained = Gained::by_itself(alloc, bean, name)?;
        for other in behind(alloc, decls, bean)? {
            gained.add(other, &name_alone(alloc, decls, other)?)?;
        }
        Ok(gained)
    }
}

/// The name that a bean gives itself, or else its default name where a stereotype gives that.
pub(crate) fn name_of(attributes: &Attributes, default: Name, given: Given) -> Option<Name>
    ensures { result ≡ name_of attributes.now default given }
{
    match attributes.own_name(default) {
        Some(name) => Some(name),
        None if given.is_named => Some(default),
        None => None,
    }
}

/// The name of a bean by itself.
fn name_alone(alloc: Global, decls: &Decls, bean: &BeanDecl) -> Result<Option<Name>, AllocError>
    ensures { IfOk result (λ name. name ≡ name_alone decls.now bean.now) }
{
    let given = given_to(alloc, decls, bean.attributes.stereotypes.as_slice())?;
    Ok(name_of(&bean.attributes, bean.default_name(), given))
}
