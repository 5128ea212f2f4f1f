//! The scene of a deployment.
ghost use Rattle.std.specs.Prelude.{◌≡◌, ◌++◌, Some, map, IfOk, OnOk};
ghost use Rattle.std.specs.List.{flat_map};
ghost use Rattle.cdi_model.specs.Decl.{kind_of, name_of_decl};
ghost use Rattle.cdi_model.specs.DeclList.{find_decl};
ghost use Rattle.cdi_model.specs.declared.decl.Decl.TheVariants as decls;
ghost use Rattle.cdi_effective.specs.Beans.{beans as beans_of, product, records as records_of};
ghost use Rattle.cdi_observe.specs.Lending.{IsEvaluated};
ghost use Rattle.cdi_staging.specs.Lookups.{ChosenHasMethods, ChosenStands, NotifiedStand};
ghost use Rattle.cdi_staging.specs.Shown.{IsClassOf};
ghost use Rattle.cdi_staging.specs.Staged.{scene_of, staged_beans, staged_product};

use crate::around::around_of;
use crate::class::Class;
use crate::listed_beans::ListedBeans;
use crate::stage::Stage;
use crate::target::targets_of;
use cdi_bodies::Bodies;
use cdi_effective::Effective;
use cdi_model::{Decl, Seq};
use cdi_observe::{View, records_of_decl};
use cdi_scene::{Bean, Scene};
use std::alloc::{AllocError, Global};

/// The scene of some declarations whose bean list this is, with a book of stored bodies. A part whose body the book has not
/// is left out. What is chosen, what stands around places and whom events notify is asked of the view. It looks each name of
/// a body, a bean and a method up once for each place that writes it, so its time is near the size of the declarations; it
/// takes memory for the scene, and for what the view makes. The last clauses say that a bean which is chosen for a lookup
/// from outside is there and has its methods, and that the observer methods which an event notifies are there.
#[tactic(auto, using(crate::proofs::Laws::of_scenes), unfolding(crate::specs::Staged::scene_of))]
pub fn scene_of<V: View, B: Bodies>(
    alloc: Global,
    view: &V,
    beans: &ListedBeans<'_>,
    book: &B,
) -> Result<Scene, AllocError>
    requires beans { beans.now ≡ beans_of (V.list view.now) }
    requires evaluated { IsEvaluated (V.list view.now) (V.kept view.now) }
    ensures value { IfOk result (λ scene. scene ≡ scene_of (V.list view.now) (B.promises book.now)) }
    ensures stands { ChosenStands }
    ensures methods { ChosenHasMethods }
    ensures observers { NotifiedStand }
{
    let around = around_of(alloc, view, beans)?;
    let stage = Stage {
        alloc,
        view,
        beans,
        around: &around,
        book,
    };
    Ok(Scene {
        beans: Seq::from_vec(stage.staged_beans()?),
        interceptors: stage.interceptors()?,
    })
}

impl<'a, V: View, B: Bodies> Stage<'a, V, B> {
    /// The beans of all declarations, in order.
    fn staged_beans(&self) -> Result<Vec<Bean>, AllocError>
        ensures { IfOk result (λ list. list.items
            ≡ flat_map (staged_beans (V.list self.now.view.now) (B.promises self.now.book.now)) (V.list self.now.view.now)) }
    {
        let mut list = Vec::with_capacity(self.alloc, self.beans.count())?;
        for decl in self.view.decls().iter() {
            self.push_of_decl(decl, &mut list)?;
        }
        Ok(list)
    }

    /// Appends the beans of a declaration.
    #[tactic(auto, unfolding(crate::specs::Staged::staged_beans))]
    fn push_of_decl(&self, decl: &Decl, list: &mut Vec<Bean>) -> Result<(), AllocError>
        requires { find_decl (kind_of decl.now) (name_of_decl decl.now) (V.list self.now.view.now) ≡ Some decl.now }
        ensures { OnOk result (list.new.items
            ≡ list.old.items ++ staged_beans (V.list self.now.view.now) (B.promises self.now.book.now) decl.now) }
    {
        let Decl::Bean(bean) = decl else {
            return Ok(());
        };
        let points = bean.points.as_slice();
        let targets = targets_of(self.alloc, self.view, self.beans, points)?;
        let targets = targets.as_slice();
        self.push_beans(
            Class { bean, targets },
            records_of_decl(self.view, decl),
            list,
        )
    }

    /// Appends the beans of a class, which have these records.
    #[tactic(auto, unfolding(crate::specs::Staged::staged_beans))]
    fn push_beans(
        &self,
        class: Class<'_>,
        records: &[Effective],
        list: &mut Vec<Bean>,
    ) -> Result<(), AllocError>
        requires class { IsClassOf (V.list self.now.view.now) class }
        requires records { records.now ≡ records_of (V.list self.now.view.now) class.bean.now }
        ensures { OnOk result (list.new.items ≡ list.old.items
            ++ staged_beans (V.list self.now.view.now) (B.promises self.now.book.now) (decls.Bean class.entry.bean.now)) }
    {
        list.push(self.managed_bean(class, &records[0])?)?;
        self.push_products(class, &records[1..], list)
    }

    /// Appends the products of a class, which have these records.
    fn push_products(
        &self,
        class: Class<'_>,
        records: &[Effective],
        list: &mut Vec<Bean>,
    ) -> Result<(), AllocError>
        requires class { IsClassOf (V.list self.now.view.now) class }
        requires records { records.now ≡ map (product (V.list self.now.view.now) class.bean.now) class.bean.now.producers }
        ensures { OnOk result (list.new.items ≡ list.old.items
            ++ map (staged_product (V.list self.now.view.now) (B.promises self.now.book.now) class.entry.bean.now)
            class.entry.bean.now.producers) }
    {
        for (effective, producer) in records.iter().zip(class.bean.producers.as_slice()) {
            list.push(self.product_bean(class, effective, producer)?)?;
        }
        Ok(())
    }
}
