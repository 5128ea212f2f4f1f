//! The bean list of declarations, by positions.
ghost use Rattle.std.specs.Prelude.{◌≡◌, length, position};
ghost use Rattle.cdi_effective.specs.Beans.{beans as beans_of};
ghost use Rattle.cdi_staging.specs.Listed.{ArePositions};
ghost use Rattle.cdi_staging.specs.Positions.{is_told_by};

use crate::positions::Positions;
use cdi_effective::BeanId;
use cdi_model::Decls;
use std::marker::Model;

/// The bean list of some declarations, as far as a scene asks for it: where a bean is, and how many there are.
#[derive(Drop)]
pub struct ListedBeans<'a> {
    decls: &'a Decls,
    positions: &'a Positions,
}

impl<'a> Model for ListedBeans<'a> {
    ghost use Rattle.std.specs.Prelude.{List};
    ghost use Rattle.cdi_effective.specs.Beans.{beans as beans_of};
    ghost use Rattle.cdi_effective.specs.declared.records.Effective.{Effective as AnyBean};
    ghost use Rattle.cdi_staging.specs.Listed.{ArePositions};

    ghost Value = { List AnyBean };

    ghost view = { λ b. beans_of b.decls.now };

    ghost invariant = { λ b. ArePositions (beans_of b.decls.now) b.positions.now };
}

impl<'a> ListedBeans<'a> {
    /// That of these declarations, where their beans have these positions.
    pub fn new(decls: &'a Decls, positions: &'a Positions) -> ListedBeans<'a>
        requires { ArePositions (beans_of decls.now) positions.now }
        ensures { result ≡ beans_of decls.now }
    {
        ListedBeans { decls, positions }
    }

    /// How many beans there are.
    pub(crate) fn count(&self) -> usize
        ensures { result ≡ length self.now }
    {
        self.positions.count()
    }

    /// The position of a bean, if it is there.
    pub(crate) fn position(&self, id: &BeanId) -> Option<usize>
        ensures { result ≡ position (is_told_by id.now) self.now }
    {
        self.positions.place(id)
    }
}
