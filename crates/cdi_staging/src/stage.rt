//! What a scene is made from.
ghost use Rattle.std.specs.Prelude.{◌≡◌, map};
ghost use Rattle.cdi_model.specs.DeclList.{AreDistinct};
ghost use Rattle.cdi_effective.specs.Beans.{beans as beans_of};
ghost use Rattle.cdi_observe.specs.Lending.{IsEvaluated};
ghost use Rattle.cdi_staging.specs.Shown.{around_in};
ghost use Rattle.cdi_staging.specs.Staged.{around_of};

use crate::around::Around;
use crate::listed_beans::ListedBeans;
use cdi_bodies::Bodies;
use cdi_observe::View;
use std::alloc::Global;

/// The declarations, with a view that may be asked for all that they ask for, their bean list, the interceptors that are
/// enabled, and the book of stored bodies.
#[derive(Drop)]
pub(crate) struct Stage<'a, V: View, B: Bodies> {
    pub(crate) alloc: Global,
    pub(crate) view: &'a V,
    pub(crate) beans: &'a ListedBeans<'a>,
    pub(crate) around: &'a [Around<'a>],
    pub(crate) book: &'a B,
    ghost distinct: { AreDistinct (V.list view.now) },
    ghost evaluated: { IsEvaluated (V.list view.now) (V.kept view.now) },
    ghost listed: { beans.now ≡ beans_of (V.list view.now) },
    ghost enabled: { map around_in around.now ≡ around_of (V.list view.now) },
}
