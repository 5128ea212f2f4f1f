//! A report.
ghost use Rattle.std.specs.Prelude.{◌≡◌, ◌≢◌, ◌&&◌, ◌++◌, AllPairs, true, flat_map, map, IfOk, OnOk, OnErr};
ghost use Rattle.std.specs.List.{list_all, list_any};
ghost use Rattle.indexmap.specs.IndexSet.{contains};
ghost use Rattle.cdi_model.specs.Decl.{key_of};
ghost use Rattle.cdi_model.specs.DeclKey.{same_key};
ghost use Rattle.cdi_model.specs.DeclList.{AreDistinct};
ghost use Rattle.cdi_observe.specs.Kept.{evaluated, EvaluatesSome};
ghost use Rattle.cdi_observe.specs.Lending.{IsEvaluated};
ghost use Rattle.cdi_observe.specs.Wanted.{wanted};
ghost use Rattle.cdi_validate.specs.Among.{faults_together, has_faults, looks_at_all};
ghost use Rattle.cdi_validate.specs.Faults.{faults, faults_of};
ghost use Rattle.cdi_report.specs.Settled.{open_of, unchanged_of, AreSettled, HaveNoneTogether};

use crate::unsettled::Unsettled;
use cdi_bodies::Bodies;
use cdi_faults::Fault;
use cdi_model::Decl;
use cdi_observe::{View, evaluate_rest};
use cdi_validate::{Found, faults_among};
use std::alloc::{AllocError, Global};

impl Unsettled {
    /// All that is wrong with the declarations of a view where the bodies of a book are stored, as `faults` of `cdi_validate`
    /// tells it (CDI 4.0, Problems detected automatically by the container). It asks for what is not known, and leaves those of these
    /// declarations that have faults. It looks at these alone, with one exception: for the faults that several declarations have
    /// together it looks at all, of names, of circles and of beans that specialize one each by itself, where one of these may have
    /// changed and may have such a fault, or where some were found before. It takes memory for the faults and for what they are found
    /// by, and where the view does. Where none is left, some of the keys were asked, and the same declarations are left. An edit that
    /// is staged stays where each of the keys is known.
    pub fn report<V: View, B: Bodies>(
        &mut self,
        alloc: Global,
        view: &mut V,
        book: &B,
    ) -> Result<Vec<Fault>, AllocError>
        requires keeps { (V.kept view.old).keeps ≡ true }
        requires settled { AreSettled (V.list view.old) (V.kept view.old).knows (B.promises book.now) self.old }
        ensures faults { IfOk result (λ list. list.items ≡ faults (V.list view.old) (B.promises book.now)) }
        ensures list { V.list view.new ≡ V.list view.old }
        ensures counts { V.counts view.new ≡ V.counts view.old }
        ensures ok { OnOk result (V.kept view.new ≡ evaluated (V.list view.old) (wanted (V.list view.old)) (V.kept view.old)) }
        ensures err { OnErr result (EvaluatesSome (V.list view.old) (V.kept view.old) (V.kept view.new)) }
        ensures staged { list_all (V.kept view.old).knows (wanted (V.list view.old)) ≡ true → V.staged view.new ≡ V.staged view.old }
        ensures once { IfOk result (λ list. AllPairs (λ f g. f ≢ g) list.items) }
        ensures settled { AreSettled (V.list view.new) (V.kept view.new).knows (B.promises book.now) self.new }
    {
        // The view is asked while its declarations are gone through, so these are a copy.
        let decls = view.decls().copy()?;
        let list = self.among(alloc, &decls)?;
        evaluate_rest(alloc, view, list.as_slice())?;
        let found = find(alloc, &*view, book, self, list.as_slice())?;
        self.settle(alloc, found.keys, found.together);
        Ok(found.faults)
    }
}

/// What is found among the declarations at which a report looks, where each wanted key is known or the view keeps nothing.
fn find<V: View, B: Bodies>(
    alloc: Global,
    view: &V,
    book: &B,
    open: &Unsettled,
    decls: &[&Decl],
) -> Result<Found, AllocError>
    requires distinct { AreDistinct (V.list view.now) }
    requires evaluated { IsEvaluated (V.list view.now) (V.kept view.now) }
    requires decls { map (λ d. d.now) decls.now ≡ open_of open.now (V.list view.now) }
    requires apart { HaveNoneTogether (V.list view.now) (unchanged_of open.now (V.list view.now)) open.now.anew }
    ensures faults { IfOk result (λ found. found.faults.items
        ≡ flat_map (faults_of (V.list view.now) (B.promises book.now)) (open_of open.now (V.list view.now))
        ++ faults_together (V.list view.now) looks_at_all) }
    ensures keys { IfOk result (λ found. (k : _) → contains same_key found.keys k
        ≡ list_any (λ d. same_key (key_of d) k && has_faults (V.list view.now) (B.promises book.now) d) (open_of open.now (V.list view.now))) }
    ensures together { IfOk result (λ found. HaveNoneTogether (V.list view.now) (V.list view.now) found.together) }
{
    let together = open.together(alloc, view, decls)?;
    faults_among(alloc, view, book, decls, together)
}
