//! The destruction of instances (CDI 4.0, Destruction of dependent objects; Context management for built-in scopes). An error
//! leaves it where it was: whoever began the run clears it. Where there is room for the cost of the instances, no memory is
//! taken and nothing fails.
ghost use Rattle.std.specs.Prelude.{◌≡◌, ◌+◌, ◌<◌, ◌≤◌, OnOk, IsOk, IsSome, Some, length, slice_get};
ghost use Rattle.cdi_contexts.specs.Standing.{numbered};
ghost use Rattle.cdi_legal.specs.Ends.{Ends, destroy, dependents, held, context};
ghost use Rattle.cdi_ending.specs.Room.{Shrinks, IsCounted, Pays, cost_from};

use crate::stage::Stage;
use cdi_bodies::Bodies;
use cdi_contexts::InstanceId;
use cdi_legal::{Entry, Run};
use cdi_model::Scope;
use std::alloc::AllocError;

impl<'a, B: Bodies> Stage<'a, B> {
    /// Destroys an instance: its callbacks, then its dependent objects, which are younger.
    #[cycle(end)]
    pub fn destroy(&self, run: &mut Run, id: InstanceId) -> Result<(), AllocError>
        ensures legal { OnOk result (Ends self.now.scene (destroy id) run.old.moment run.new.moment) }
        ensures shrinks { OnOk result (Shrinks id.number run.old.moment.standing run.new.moment.standing) }
        ensures fewer { let before = run.old.moment.standing.live in
            OnOk result (IsSome (numbered before id.number) → length run.new.moment.standing.live < length before) }
        ensures possible { let live = run.old.moment.standing.live in
            IsCounted self.now.scene id live → cost_from self.now.scene id.number live ≤ run.old.room → IsOk result }
        ensures pays { let live = run.old.moment.standing.live in
            OnOk result (IsCounted self.now.scene id live → Pays self.now.scene id.number run.old run.new) }
    {
        run.note(Entry::Destroy { id })?;
        self.call_back(run, id)?;
        self.destroy_dependents(run, id.number)?;
        run.note(Entry::Gone { id })?;
        Ok(())
    }

    /// Destroys what was made for points of an instance, the youngest first (the order: profile).
    #[cycle(end)]
    pub fn destroy_dependents(&self, run: &mut Run, number: u64) -> Result<(), AllocError>
        ensures legal { OnOk result (Ends self.now.scene (dependents number) run.old.moment run.new.moment) }
        ensures shrinks { OnOk result (Shrinks (number + 1) run.old.moment.standing run.new.moment.standing) }
        ensures possible { let live = run.old.moment.standing.live in
            cost_from self.now.scene (number + 1) live ≤ run.old.room → IsOk result }
        ensures pays { OnOk result (Pays self.now.scene (number + 1) run.old run.new) }
    {
        while let Some(youngest) = run.last_dependent(number) {
            self.destroy(run, youngest)?;
        }
        Ok(())
    }

    /// Destroys what was made for the parameters of a method, the last first.
    pub fn destroy_held(&self, run: &mut Run, made: &[Option<InstanceId>]) -> Result<(), AllocError>
        ensures legal { OnOk result (Ends self.now.scene (held made.now (length made.now)) run.old.moment run.new.moment) }
    {
        let mut left = made.len();
        while left > 0 {
            left -= 1;
            if let Some(id) = made_at(made, left) {
                self.destroy(run, id)?;
            }
        }
        Ok(())
    }

    /// Ends the context of a scope: destroys its instances, the youngest first (the order: profile). Whether a request is
    /// active stays as it was.
    pub fn end_context(&self, run: &mut Run, scope: Scope) -> Result<(), AllocError>
        ensures legal { OnOk result (Ends self.now.scene (context scope) run.old.moment run.new.moment) }
        ensures possible { let live = run.old.moment.standing.live in
            cost_from self.now.scene 0 live ≤ run.old.room → IsOk result }
        ensures pays { OnOk result (Pays self.now.scene 0 run.old run.new) }
    {
        while let Some(youngest) = run.last(scope) {
            self.destroy(run, youngest)?;
        }
        Ok(())
    }
}

/// What was made for a parameter.
fn made_at(made: &[Option<InstanceId>], param: usize) -> Option<InstanceId>
    requires { param < length made.now }
    ensures { slice_get made.now param ≡ Some result }
{
    made[param]
}
