//! The faults that several declarations have together.
ghost use Rattle.std.specs.Prelude.{◌≡◌, map, IfOk};
ghost use Rattle.cdi_model.specs.DeclList.{AreDistinct};
ghost use Rattle.cdi_observe.specs.Lending.{IsEvaluated};
ghost use Rattle.cdi_report.specs.Settled.{changed_of, open_of, unchanged_of, HaveNoneTogether};

use crate::unsettled::Unsettled;
use cdi_model::Decl;
use cdi_observe::View;
use cdi_validate::{Together, are_chainless, are_nameless, are_needless};
use std::alloc::{AllocError, Global};

impl Unsettled {
    /// For which faults that several declarations have together a report looks at all, as `together_by` tells it, where these are
    /// the declarations at which it looks. It takes memory for a list of those that may have changed, and for what these are
    /// looked at by.
    pub(crate) fn together<V: View>(
        &self,
        alloc: Global,
        view: &V,
        decls: &[&Decl],
    ) -> Result<Together, AllocError>
        requires distinct { AreDistinct (V.list view.now) }
        requires evaluated { IsEvaluated (V.list view.now) (V.kept view.now) }
        requires decls { map (λ d. d.now) decls.now ≡ open_of self.now (V.list view.now) }
        requires apart { HaveNoneTogether (V.list view.now) (unchanged_of self.now (V.list view.now)) self.now.anew }
        ensures { IfOk result (λ together. HaveNoneTogether (V.list view.now) (V.list view.now) together) }
    {
        if self.faulty.is_empty() {
            return self.together_by(alloc, view, decls);
        }
        let changed = self.changed(alloc, decls)?;
        self.together_by(alloc, view, changed.as_slice())
    }

    /// For which faults that several declarations have together a report looks at all: for names, for circles and for beans that
    /// specialize one each by itself, unless there were none and those that may have changed, which these are, can have none. For
    /// the others there are none. It takes memory for the names of interceptors, and looks at these declarations alone.
    fn together_by<V: View>(
        &self,
        alloc: Global,
        view: &V,
        decls: &[&Decl],
    ) -> Result<Together, AllocError>
        requires distinct { AreDistinct (V.list view.now) }
        requires evaluated { IsEvaluated (V.list view.now) (V.kept view.now) }
        requires decls { map (λ d. d.now) decls.now ≡ changed_of self.now (V.list view.now) }
        requires apart { HaveNoneTogether (V.list view.now) (unchanged_of self.now (V.list view.now)) self.now.anew }
        ensures { IfOk result (λ together. HaveNoneTogether (V.list view.now) (V.list view.now) together) }
    {
        let names = self.anew.names || !are_nameless(view, decls);
        let circles = self.anew.circles || !are_needless(alloc, view, decls)?;
        let chains = self.anew.chains || !are_chainless(view, decls);
        Ok(Together {
            names,
            circles,
            chains,
        })
    }
}
