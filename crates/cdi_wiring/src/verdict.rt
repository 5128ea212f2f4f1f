//! What a deployment is found to be.
ghost use Rattle.std.specs.Prelude.{◌≡◌, length, IfOk};
ghost use Rattle.cdi_model.specs.Short.{AreShort};
ghost use Rattle.cdi_observe.specs.Lending.{IsEvaluated};
ghost use Rattle.cdi_validate.specs.Faults.{faults};
ghost use Rattle.cdi_wiring.specs.Laws.{FaultlessIsSound};
ghost use Rattle.cdi_wiring.specs.Wired.{IsWiringOf, count_of};

use cdi_bodies::Bodies;
use cdi_observe::{View, records_of_all};
use cdi_scene::Scene;
use cdi_staging::{ListedBeans, Names, Positions, names_of, scene_of};
use std::alloc::{AllocError, Global};

/// The scene of a deployment without faults, the positions by which it names beans, and the names of its traces.
#[derive(Drop)]
pub struct Wired {
    pub scene: Scene,
    pub positions: Positions,
    pub names: Names,
}

/// What a deployment is found to be.
#[derive(Drop)]
pub enum Wiring {
    /// The number of its faults. It runs nothing.
    Faulty(usize),
    /// It has none.
    Sound(Wired),
}

impl Wiring {
    /// What the declarations of a view are that have so many faults where the bodies of this book are stored. It takes
    /// memory and time for the scene, if there are no faults. The last clause says that a deployment without faults has a
    /// sound scene.
    #[tactic(auto, using(crate::proofs::FaultLemmas::faultless_is_sound))]
    pub fn of<V: View, B: Bodies>(
        alloc: Global,
        view: &V,
        book: &B,
        count: usize,
    ) -> Result<Wiring, AllocError>
        requires short { AreShort (V.list view.now) }
        requires count { count ≡ length (faults (V.list view.now) (B.promises book.now)) }
        requires evaluated { IsEvaluated (V.list view.now) (V.kept view.now) }
        ensures wiring { IfOk result (λ wiring. IsWiringOf (V.list view.now) (B.promises book.now) wiring) }
        ensures sound { FaultlessIsSound }
    {
        if count != 0 {
            return Ok(Wiring::Faulty(count));
        }
        let decls = view.decls();
        let positions = Positions::of(alloc, &records_of_all(alloc, view)?)?;
        let beans = ListedBeans::new(decls, &positions);
        Ok(Wiring::Sound(Wired {
            scene: scene_of(alloc, view, &beans, book)?,
            names: names_of(alloc, view)?,
            positions,
        }))
    }

    /// How many faults there are.
    pub fn count(&self) -> usize
        ensures { result ≡ count_of self.now }
    {
        match self {
            Wiring::Faulty(count) => *count,
            Wiring::Sound(_) => 0,
        }
    }
}
