//! The bodies of a bean, and what is invoked at its places.
ghost use Rattle.std.specs.Prelude.{◌≡◌, map, true, Some, IfOk, IfSome, option_copied};
ghost use Rattle.std.specs.Option.{option_and_then};
ghost use Rattle.cdi_model.specs.DeclList.{find_decl};
ghost use Rattle.cdi_model.specs.declared.decl.Decl.TheVariants as decls;
ghost use Rattle.cdi_model.specs.declared.decl.Kind.TheVariants as kinds;
ghost use Rattle.cdi_intercept.specs.Sets.{has_place};
ghost use Rattle.cdi_staging.specs.Shown.{IsClassOf, IsFireable};
ghost use Rattle.cdi_staging.specs.Sites.{sight_in};
ghost use Rattle.cdi_staging.specs.Staged.{chain_at, empty_place, part_of, staged_method, staged_part, staged_place};

use crate::class::Class;
use crate::notifying::fired_at;
use crate::site::{Visible, sites_of};
use crate::stage::Stage;
use cdi_bodies::Bodies;
use cdi_model::{BeanDecl, BeanPlace, Ident, PartDecl, Seq};
use cdi_observe::View;
use cdi_scene::{CallSite, Invocable, Notified, Part};
use std::alloc::{AllocError, Global};

/// What is invoked where nothing is declared.
pub(crate) fn empty_place(alloc: Global) -> Invocable
    ensures { result ≡ empty_place }
{
    Invocable {
        chain: Seq::new(alloc),
        part: None,
    }
}

impl<'a, V: View, B: Bodies> Stage<'a, V, B> {
    /// The body of a name with some call sites and fire sites; none where the book has no such body.
    #[tactic(auto, unfolding(crate::specs::Staged::part_of))]
    pub(crate) fn part_of(
        &self,
        name: Ident,
        calls: Seq<CallSite>,
        fires: Seq<Seq<Notified>>,
    ) -> Option<Part>
        ensures { result ≡ part_of (B.promises self.now.book.now) calls fires name }
    {
        Some(Part {
            body: self.book.position(&name)?,
            promise: self.book.promise(&name)?,
            calls,
            fires,
        })
    }

    #[tactic(auto, unfolding(crate::specs::Staged::staged_part))]
    fn staged_part(&self, sight: Visible<'_>, part: &PartDecl) -> Result<Option<Part>, AllocError>
        requires { IsFireable (V.kept self.now.view.now) part.now }
        ensures { IfOk result (λ made. made
            ≡ staged_part (V.list self.now.view.now) (B.promises self.now.book.now) (sight_in sight.entry) part.now) }
    {
        let (decls, beans) = (self.view.decls(), self.beans);
        let calls = sites_of(self.alloc, decls, beans, sight, part.calls.as_slice())?;
        let fires = fired_at(self.alloc, self.view, beans, part.fires.as_slice())?;
        Ok(self.part_of(part.body, calls, fires))
    }

    /// The body of a part, where one is declared.
    pub(crate) fn optional_part(
        &self,
        sight: Visible<'_>,
        part: Option<&PartDecl>,
    ) -> Result<Option<Part>, AllocError>
        requires { IfSome (option_copied part) (IsFireable (V.kept self.now.view.now)) }
        ensures { IfOk result (λ made. made
            ≡ option_and_then (staged_part (V.list self.now.view.now) (B.promises self.now.book.now) (sight_in sight.entry))
            (option_copied part.entry)) }
    {
        match part {
            Some(part) => self.staged_part(sight, part),
            None => Ok(None),
        }
    }

    /// What is invoked at a place with this chain, where this part is declared or none.
    #[tactic(auto, unfolding(crate::specs::Staged::staged_place))]
    pub(crate) fn invocable(
        &self,
        sight: Visible<'_>,
        chain: Seq<u32>,
        part: Option<&PartDecl>,
    ) -> Result<Invocable, AllocError>
        requires { IfSome (option_copied part) (IsFireable (V.kept self.now.view.now)) }
        ensures { IfOk result (λ made. made
            ≡ staged_place (V.list self.now.view.now) (B.promises self.now.book.now) (sight_in sight.entry) chain
            (option_copied part.entry)) }
    {
        Ok(Invocable {
            chain,
            part: self.optional_part(sight, part)?,
        })
    }

    /// What is invoked at a place of a bean that is declared, where this part is declared or none.
    pub(crate) fn staged_place(
        &self,
        sight: Visible<'_>,
        bean: &BeanDecl,
        place: &BeanPlace,
        part: Option<&PartDecl>,
    ) -> Result<Invocable, AllocError>
        requires declared { find_decl kinds.Bean bean.now.name (V.list self.now.view.now) ≡ Some (decls.Bean bean.now) }
        requires place { has_place bean.now place.now ≡ true }
        requires part { IfSome (option_copied part) (IsFireable (V.kept self.now.view.now)) }
        ensures { IfOk result (λ made. made
            ≡ staged_place (V.list self.now.view.now) (B.promises self.now.book.now) (sight_in sight.entry)
            (chain_at (V.list self.now.view.now) bean.now place.now) (option_copied part.entry)) }
    {
        let chain = self.chain(bean, place)?;
        self.invocable(sight, chain, part)
    }

    /// What is invoked at each of the methods of a class.
    pub(crate) fn staged_methods(&self, class: Class<'_>) -> Result<Seq<Invocable>, AllocError>
        requires { IsClassOf (V.list self.now.view.now) class }
        ensures { IfOk result (λ made. made
            ≡ map (staged_method (V.list self.now.view.now) (B.promises self.now.book.now) class.entry.bean.now)
            class.entry.bean.now.methods) }
    {
        let (sight, bean) = (class.sight(), class.bean);
        let mut places = Seq::new(self.alloc);
        for method in bean.methods.as_slice() {
            let place = BeanPlace::Method(method.name);
            places.push(self.staged_place(sight, bean, &place, Some(&method.part))?)?;
        }
        Ok(places)
    }
}
