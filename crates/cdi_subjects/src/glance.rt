//! One look at all that a declaration names.
ghost use Rattle.std.specs.Prelude.{◌≡◌, ◌||◌, true, map, Some, IfOk};
ghost use Rattle.cdi_model.specs.Decl.{kind_of, name_of_decl};
ghost use Rattle.cdi_model.specs.DeclList.{find_decl};
ghost use Rattle.cdi_model.specs.Mentions.{shown};
ghost use Rattle.cdi_observe.specs.Lending.{are_answerable, IsEvaluated};
ghost use Rattle.cdi_observe.specs.Wanted.{key_of_point, point_named};
ghost use Rattle.cdi_subjects.specs.Glance.{glance_at, is_call, is_unresolved_in, is_wrong_in, may_find, requires_final_in, with_mention};
ghost use Rattle.cdi_subjects.specs.Glance.{MissesNothing};

use crate::bodies::unfit_in;
use crate::forms::bad_kind_in;
use crate::proxies::is_final;
use crate::specializing::is_specializing;
use crate::unknown::unknown_in;
use crate::used::is_bad_use;
use cdi_bodies::Bodies;
use cdi_faults::Code;
use cdi_model::{Decl, Decls, Mention};
use cdi_observe::View;
use cdi_resolve::Choice;
use std::alloc::{AllocError, Global};

/// What one look at all that a declaration names shows: of which codes none of its parts can have a fault.
#[derive(Clone, Copy, Debug)]
pub struct Glance {
    /// What is named in some place is at fault by itself.
    pub is_wrong: bool,
    /// Some injection point has no bean, or several.
    pub is_unresolved: bool,
    /// Some injection point requires a class that may have no subclass.
    pub requires_final: bool,
    /// Some body has a call site.
    pub calls: bool,
    /// It is of a bean that says that it specializes another.
    pub specializes: bool,
}

impl Glance {
    /// A look at a declaration where the bodies of a book are stored, and where all that the declarations ask for is known or the
    /// view keeps nothing. It goes through what the declaration names once, and takes memory for answers that are made.
    #[tactic(auto, using(crate::proofs::GlanceLemmas::misses_nothing, crate::proofs::Laws::asked))]
    pub fn at<V: View, B: Bodies>(
        alloc: Global,
        view: &V,
        book: &B,
        decl: &Decl,
    ) -> Result<Glance, AllocError>
        requires found { find_decl (kind_of decl.now) (name_of_decl decl.now) (V.list view.now) ≡ Some decl.now }
        requires evaluated { IsEvaluated (V.list view.now) (V.kept view.now) }
        ensures value { IfOk result (λ glance. glance ≡ glance_at (V.list view.now) (B.promises book.now) decl.now) }
        ensures nothing { MissesNothing }
    {
        let mut glance = Glance {
            is_wrong: false,
            is_unresolved: false,
            requires_final: false,
            calls: false,
            specializes: is_specializing(decl),
        };
        for mention in decl.mentions() {
            glance = glance.with(alloc, view, book, decl, &mention)?;
        }
        Ok(glance)
    }

    /// The same with what is named in one more place.
    fn with<V: View, B: Bodies>(
        self,
        alloc: Global,
        view: &V,
        book: &B,
        decl: &Decl,
        mention: &Mention<'_>,
    ) -> Result<Glance, AllocError>
        requires { are_answerable (V.kept view.now) (map key_of_point (point_named (shown mention.now))) ≡ true }
        ensures { IfOk result (λ glance. glance
            ≡ with_mention (V.list view.now) (B.promises book.now) decl.now self (shown mention.now)) }
    {
        let decls = view.decls();
        let is_unresolved = self.is_unresolved || is_unresolved_in(alloc, view, mention)?;
        Ok(Glance {
            is_wrong: self.is_wrong || is_wrong_in(decls, book, decl, mention),
            is_unresolved,
            requires_final: self.requires_final || requires_final_in(decls, mention),
            calls: self.calls || is_call(mention),
            specializes: self.specializes,
        })
    }

    /// Whether a part of the declaration may have a fault of a code.
    pub fn may_find(self, code: Code) -> bool
        ensures { result ≡ may_find self code }
    {
        match code {
            Code::UnknownName | Code::BadKind | Code::Member | Code::Body => self.is_wrong,
            Code::Unsatisfied | Code::Ambiguous => self.is_unresolved,
            Code::Unproxyable => self.requires_final,
            Code::Site => self.calls,
            Code::NoSpecialized | Code::SpecializedType | Code::SpecializedName => self.specializes,
            Code::NameClash | Code::NamePrefix | Code::Circular | Code::SpecializedTwice => false,
            _ => true,
        }
    }
}

/// Whether what is named in a place is at fault by itself, whatever is chosen for an injection point.
fn is_wrong_in<B: Bodies>(decls: &Decls, book: &B, decl: &Decl, mention: &Mention<'_>) -> bool
    ensures { result ≡ is_wrong_in decls.now (B.promises book.now) decl.now (shown mention.now) }
{
    match mention {
        Mention::Type(..) => {
            unknown_in(decls, mention).is_some() || bad_kind_in(decls, decl, mention).is_some()
        }
        Mention::Use(..) => unknown_in(decls, mention).is_some() || is_bad_use(decls, mention),
        Mention::Stereotype(_) => unknown_in(decls, mention).is_some(),
        Mention::Body(..) => unfit_in(book, decl, mention).is_some(),
        _ => false,
    }
}

/// Whether it is an injection point that has no bean, or several.
fn is_unresolved_in<V: View>(
    alloc: Global,
    view: &V,
    mention: &Mention<'_>,
) -> Result<bool, AllocError>
    requires { are_answerable (V.kept view.now) (map key_of_point (point_named (shown mention.now))) ≡ true }
    ensures { IfOk result (λ is. is ≡ is_unresolved_in (V.list view.now) (shown mention.now)) }
{
    let Mention::Point(_, point) = mention else {
        return Ok(false);
    };
    let answer = view.lent_choice(alloc, &point.required_type, &point.qualifiers)?;
    Ok(!matches!(answer.get(), Choice::One(_)))
}

fn requires_final_in(decls: &Decls, mention: &Mention<'_>) -> bool
    ensures { result ≡ requires_final_in decls.now (shown mention.now) }
{
    match mention {
        Mention::Point(_, point) => is_final(decls, &point.required_type),
        _ => false,
    }
}

fn is_call(mention: &Mention<'_>) -> bool
    ensures { result ≡ is_call (shown mention.now) }
{
    matches!(mention, Mention::Call(..))
}
