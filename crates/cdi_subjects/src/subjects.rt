//! What is at fault of a declaration, for each code.
ghost use Rattle.std.specs.Prelude.{◌≡◌, Some, IfOk};
ghost use Rattle.cdi_model.specs.Decl.{kind_of, name_of_decl};
ghost use Rattle.cdi_model.specs.DeclList.{find_decl};
ghost use Rattle.cdi_effective.specs.Beans.{entries};
ghost use Rattle.cdi_observe.specs.Lending.{IsEvaluated};
ghost use Rattle.cdi_subjects.specs.Rests.{FaultsRestOn};
ghost use Rattle.cdi_subjects.specs.Subjects.{subjects_at_fault};

use crate::bodies::unfit_parts;
use crate::conditional::conditional_dependents;
use crate::conflicts::binding_conflicts;
use crate::disposing::disposers_at_fault;
use crate::forms::{bad_kinds, cycles, unbound};
use crate::points::{Verdict, points_at_fault};
use crate::sites::lost_sites;
use crate::specializing::{lacked_types, renamed, without_specialized};
use crate::stereotyped::scope_conflicts;
use crate::typing::typed;
use crate::unknown::unknown_names;
use crate::used::bad_uses;
use cdi_bodies::Bodies;
use cdi_effective::Effective;
use cdi_faults::{Code, Subject};
use cdi_model::Decl;
use cdi_observe::View;
use std::alloc::{AllocError, Global};

/// The parts of a declaration that have a fault of a code (CDI 4.0, Problems detected automatically by the container),
/// in the order in which they are declared, where all that the declarations ask for is known or the view keeps nothing. Its
/// records are given in their order. No part has a fault of a name, of a circle or of two beans, which are no declaration's.
/// It takes memory for the parts that have one, and for answers that are made.
#[tactic(auto, using(crate::proofs::Laws::by_entries, crate::proofs::Laws::asked, crate::proofs::RestLemmas::faults_rest_on))]
pub fn subjects_at_fault<V: View, B: Bodies>(
    alloc: Global,
    code: Code,
    view: &V,
    book: &B,
    decl: &Decl,
    beans: &[Effective],
) -> Result<Vec<Subject>, AllocError>
    requires found { find_decl (kind_of decl.now) (name_of_decl decl.now) (V.list view.now) ≡ Some decl.now }
    requires evaluated { IsEvaluated (V.list view.now) (V.kept view.now) }
    requires beans { beans.now ≡ entries (V.list view.now) decl.now }
    ensures subjects { IfOk result (λ list. list.items ≡ subjects_at_fault code (V.list view.now) (B.promises book.now) decl.now) }
    ensures rests { FaultsRestOn }
{
    let decls = view.decls();
    match code {
        Code::UnknownName => unknown_names(alloc, decls, decl),
        Code::Cycle => cycles(alloc, decls, decl),
        Code::BadKind => bad_kinds(alloc, decls, decl),
        Code::Typed => typed(alloc, decl, beans),
        Code::ScopeConflict => scope_conflicts(alloc, beans),
        Code::BindingConflict => binding_conflicts(alloc, decls, decl, beans),
        Code::Member => bad_uses(alloc, decls, decl),
        Code::Disposer => disposers_at_fault(alloc, decls, decl, beans),
        Code::ConditionalDependent => conditional_dependents(alloc, decl, beans),
        Code::Body => unfit_parts(alloc, book, decl),
        Code::NoBinding => unbound(alloc, decl),
        Code::Unsatisfied => points_at_fault(alloc, view, decl, beans, Verdict::Unsatisfied),
        Code::Ambiguous => points_at_fault(alloc, view, decl, beans, Verdict::Ambiguous),
        Code::Unproxyable => points_at_fault(alloc, view, decl, beans, Verdict::Unproxyable),
        Code::Site => lost_sites(alloc, view, decl, beans),
        Code::NoSpecialized => without_specialized(alloc, decls, decl),
        Code::SpecializedType => lacked_types(alloc, view, decl, beans),
        Code::SpecializedName => renamed(alloc, view, decl),
        Code::NameClash | Code::NamePrefix | Code::Circular | Code::SpecializedTwice => {
            Ok(Vec::new(alloc))
        }
    }
}
