//! Room for the destruction of all that is live, which takes no memory after that.
ghost use Rattle.std.specs.Prelude.{◌≡◌, ◌≤◌, IfSome, OnOk};
ghost use Rattle.cdi_ending.specs.Room.{bean_cost, cost_from};

use crate::stage::Stage;
use cdi_bodies::Bodies;
use cdi_contexts::Instance;
use cdi_legal::Run;
use cdi_scene::Form;
use std::alloc::AllocError;

impl<'a, B: Bodies> Stage<'a, B> {
    /// Makes room for the destruction of all that is live, in time near the number of the live instances. The contexts and
    /// the trace stay as they were, also where memory runs out.
    pub fn reserve_ends(&self, run: &mut Run) -> Result<(), AllocError>
        ensures same { run.new.moment ≡ run.old.moment }
        ensures room { OnOk result (cost_from self.now.scene 0 run.old.moment.standing.live ≤ run.new.room) }
    {
        match self.live_cost(run.instances()) {
            Some(cost) => run.reserve(cost),
            None => Err(AllocError),
        }
    }

    /// How many entries the destruction of these instances takes at most; none where that is beyond all memory.
    fn live_cost(&self, live: &[Instance]) -> Option<usize>
        ensures { IfSome result (λ cost. cost ≡ cost_from self.now.scene 0 live.now) }
    {
        let mut cost: usize = 0;
        for instance in live {
            let own = self.bean_cost(instance.id.bean)?;
            cost = cost.checked_add(own)?;
        }
        Some(cost)
    }

    /// The same of an instance of a bean, without what was made for its points.
    fn bean_cost(&self, bean: u32) -> Option<usize>
        ensures { IfSome result (λ cost. cost ≡ bean_cost self.now.scene bean) }
    {
        match self.scene().bean(bean) {
            None => Some(2),
            Some(found) => match &found.form {
                Form::Product(_) => Some(4),
                Form::Managed(managed) => {
                    let own = usize::from(managed.pre.part.is_some());
                    let frames = managed.pre.chain.len().checked_add(own)?;
                    frames.checked_mul(11)?.checked_add(2)
                }
            },
        }
    }
}
