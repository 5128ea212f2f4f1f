//! Beans of classes, as their bodies see them.
ghost use Rattle.std.specs.Prelude.{◌≡◌};
ghost use Rattle.cdi_staging.specs.Sites.{method_sight, own_sight, sight_in};

use crate::site::Visible;
use crate::target::Target;
use cdi_model::{BeanDecl, PointDecl};

/// The declaration of a bean, with what is chosen for its injection points.
#[derive(Clone, Copy)]
pub(crate) struct Class<'a> {
    pub(crate) bean: &'a BeanDecl,
    pub(crate) targets: &'a [Target],
}

impl<'a> Class<'a> {
    /// What its parts see that have no parameters.
    pub(crate) fn sight(self) -> Visible<'a>
        ensures { sight_in result ≡ own_sight self.entry.bean.now.points self.entry.targets.now }
    {
        Visible {
            points: self.bean.points.as_slice(),
            targets: self.targets,
            params: &[],
            param_targets: &[],
        }
    }

    /// What a method with these parameters sees, where these beans are chosen for them.
    pub(crate) fn sight_with(
        self,
        is_static: bool,
        params: &'a [PointDecl],
        targets: &'a [Target],
    ) -> Visible<'a>
        ensures { sight_in result
            ≡ method_sight is_static (own_sight self.entry.bean.now.points self.entry.targets.now) params.now targets.now }
    {
        if is_static {
            return Visible {
                points: &[],
                targets: &[],
                params,
                param_targets: targets,
            };
        }
        Visible {
            params,
            param_targets: targets,
            ..self.sight()
        }
    }
}
