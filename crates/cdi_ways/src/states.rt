//! What is known of nodes.
ghost use Rattle.std.specs.Prelude.{◌≡◌, ◌≢◌, ◌<◌, ℕ, Some, None, map, replicate, Decides, MatchBool, IfOk, OnOk};
ghost use Rattle.cdi_ways.specs.Circles.{all_left, Changes, GivesBack, is_on_circle, IsSettled, Knows, Reaches, searches_left, state_of};
ghost use Rattle.cdi_ways.specs.Circles.{Stays, turn};

use crate::search::Ways;
use std::alloc::{AllocError, Global};

/// What is known of a node.
#[derive(Clone, Copy, PartialEq, Eq)]
enum State {
    /// Nothing yet.
    Unknown,
    /// A search that goes on has come to it.
    Ahead,
    /// It is on a circle.
    OnCircle,
    /// It is on no circle.
    OnNone,
}

/// What is known of each node.
#[derive(Drop)]
pub(crate) struct States {
    each: Vec<State>,
}

impl States {
    /// Nothing is known of the nodes below a number.
    pub(crate) fn new(alloc: Global, count: usize) -> Result<States, AllocError>
        ensures { IfOk result (λ states. states.each.items ≡ replicate count State.Unknown) }
    {
        Ok(States {
            each: vec![in alloc; State::Unknown; count]?,
        })
    }

    /// Whether a node is in a state.
    fn is(&self, node: usize, state: State) -> bool
        ensures { Decides result (state_of self.now node ≡ Some state) }
    {
        match self.each.get(node) {
            Some(known) => *known == state,
            None => false,
        }
    }

    /// Changes the state of a node, if it is the first one, and says whether it was.
    fn change(&mut self, node: usize, from: State, to: State) -> bool
        ensures { MatchBool result (Changes node from to self.old self.new) (Stays node from self.old self.new) }
    {
        if !self.is(node, from) {
            return false;
        }
        self.each[node] = to;
        true
    }

    /// Changes the state of the nodes to which ways lead from a node by nodes that are in the first state. It gives these nodes
    /// after the node itself. It takes memory for them, and time for the edges that leave them.
    fn reached(
        &mut self,
        alloc: Global,
        ways: &Ways,
        start: usize,
        from: State,
        to: State,
    ) -> Result<Vec<usize>, AllocError>
        requires { searches_left to < searches_left from }
        ensures { IfOk result (λ reached. Reaches ways.now start from to self.old self.new reached.items) }
    {
        let mut reached = Vec::new(alloc);
        reached.push(start)?;
        let mut place = 0;
        'taken: while place < reached.len() {
            let node = reached[place];
            for position in ways.leaving_of(node) {
                let next = ways.end_of(*position);
                if self.change(next, from, to) {
                    reached.push(next)?;
                }
            }
            place += 1;
        }
        Ok(reached)
    }

    /// Finds out whether a node is on a circle, and which others are on one with it, by the edges and these turned round.
    pub(crate) fn settle(
        &mut self,
        alloc: Global,
        forth: &Ways,
        back: &Ways,
        node: usize,
    ) -> Result<(), AllocError>
        requires turned { back.now ≡ map turn forth.now }
        requires settled { IsSettled forth.now self.old }
        ensures settled { OnOk result (IsSettled forth.now self.new) }
        ensures knows { OnOk result (Knows node self.old self.new) }
    {
        if !self.is(node, State::Unknown) {
            return Ok(());
        }
        let ahead = self.reached(alloc, forth, node, State::Unknown, State::Ahead)?;
        self.reached(alloc, back, node, State::Ahead, State::OnCircle)?;
        self.give_back(&ahead);
        self.change(node, State::Unknown, State::OnNone);
        Ok(())
    }

    /// Nothing is known any more of some nodes to which a search has come.
    fn give_back(&mut self, nodes: &[usize])
        ensures { GivesBack nodes.now self.old self.new }
    {
        for node in nodes {
            self.change(*node, State::Ahead, State::Unknown);
        }
    }

    /// Whether each node is on a circle.
    pub(crate) fn marks(&self, alloc: Global) -> Result<Vec<bool>, AllocError>
        ensures { IfOk result (λ marks. marks.items ≡ map is_on_circle self.now.each.items) }
    {
        self.each
            .iter()
            .map(|state| *state == State::OnCircle)
            .collect(alloc)
    }
}
