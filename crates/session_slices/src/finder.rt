// Slices, one after another, in one room.
ghost use Rattle.std.specs.Prelude.{◌≡◌, ◌<◌, ◌≤◌, All, AllPairs, Contains, IfOk, Ok, OnOk, vec_capacity};
ghost use Rattle.slicer_ids.specs.declared.ids.NodeId.{NodeId};
ghost use Rattle.slicer_ids.specs.Order.{StatementBefore};
ghost use Rattle.slicer_ids.specs.Sets.{IsOrderedListOf};
ghost use Rattle.dep_form.specs.Firsts.{node_count};
ghost use Rattle.dep_form.specs.Slices.{NodesOf, StatementsOf};
ghost use Rattle.graph_store.specs.Store.{IsPassOf, HasInputsOf, Keeps};
ghost use Rattle.summary_memo.specs.Memo.{facts_of, view_of, IsSeatOf};
ghost use Rattle.summary_memo.specs.Rule.{Knows};
ghost use Rattle.thin_slice.specs.Walks.{IsWalkOf, IsWalking, IsFresh, seeds_of};
ghost use Rattle.session_walk.specs.Knowledge.{HasRows};
ghost use Rattle.session_slices.specs.Needs.{SliceOf, HasNeeded};
ghost use Rattle.session_slices.specs.Rooms.{IsFinderOf, statements_in};

use crate::nodes::list_nodes;
use crate::statements::list_statements;
use dep_form::facts::Facts;
use graph_store::pass::GraphPass;
use graph_store::store::GraphStore;
use session_walk::walking::walk_on;
use slicer_ids::ids::{Mode, NoMemory, NodeId, Statement};
use slicer_ids::steps::Steps;
use std::alloc::Global;
use std::sync::ledger::Ledger;
use summary_memo::memo::{Memo, MemoSeat};
use thin_slice::walk::{Walk, count_nodes};

/// Finds slices, one after another, in room that it took when it was made: 17 bytes for each node of the facts.
#[derive(Drop)]
pub struct SliceFinder {
    walk: Walk,
    // how many nodes the facts have
    size: u32,
    nodes: Vec<NodeId>,
    found: Vec<Statement>,
}

// Goes on until the slice is found, and lists its statements.
fn finish<'s, L: Ledger>(
    alloc: Global,
    f: &Facts,
    store: &'s GraphStore,
    pass: &mut GraphPass<'s>,
    memo: &Memo,
    seat: &mut MemoSeat,
    walk: &mut Walk,
    size: u32,
    found: &mut Vec<Statement>,
    mode: Mode,
    steps: &mut Steps<L>,
) -> Result<(), NoMemory>
    requires pass { IsPassOf store.now.cells.items pass.old }
    requires inputs { HasInputsOf f.now pass.old }
    requires seat { IsSeatOf memo.now seat.old }
    requires facts { facts_of memo.now ≡ f.now }
    requires walking { IsWalking f.now mode walk.old }
    requires fresh { IsFresh walk.old }
    requires size { size ≡ node_count f.now.inputs }
    requires room { size ≤ vec_capacity found.old }
    ensures pass { IsPassOf store.now.cells.items pass.new }
    ensures inputs { HasInputsOf f.now pass.new }
    ensures keeps { Keeps pass.old pass.new }
    ensures seat { IsSeatOf memo.now seat.new }
    ensures knows { Knows (view_of seat.old) (view_of seat.new) }
    ensures walk { IsWalkOf f.now walk.new }
    ensures room { size ≤ vec_capacity found.new }
    ensures statements { OnOk result (IsOrderedListOf StatementBefore found.new.items (StatementsOf f.now.inputs (SliceOf f.now mode (Contains (seeds_of walk.old))))) }
    ensures needed { OnOk result (HasNeeded f.now mode (SliceOf f.now mode (Contains (seeds_of walk.old))) pass.new (view_of seat.new)) }
    ensures had { HasNeeded f.now mode (SliceOf f.now mode (Contains (seeds_of walk.old))) pass.old (view_of seat.old) → (result ≡ Ok tt) × (steps.new ≡ steps.old) }
    ensures rows { HasRows f.now mode (SliceOf f.now mode (Contains (seeds_of walk.old))) (view_of seat.old) → steps.new ≡ steps.old }
{
    walk_on(alloc, f, store, pass, memo, seat, walk, mode, steps)?;
    list_statements(f, walk, size, found);
    Ok(())
}

impl SliceFinder {
    /// A finder of slices of these facts. It takes all the memory that it will need.
    pub fn new(alloc: Global, f: &Facts) -> Result<SliceFinder, NoMemory>
        ensures { IfOk result (IsFinderOf f.now) }
    {
        let size = count_nodes(f);
        let walk = Walk::new(alloc, f)?;
        let nodes = Vec::with_capacity(alloc, size)?;
        let found = Vec::with_capacity(alloc, size)?;
        Ok(SliceFinder {
            walk,
            size: size as u32,
            nodes,
            found,
        })
    }

    /// The statements of the slice that was found last, in order.
    pub fn statements(&self) -> &[Statement]
        ensures { result.now ≡ statements_in self.now }
    {
        self.found.as_slice()
    }

    /// Finds the slice of some nodes in a mode: thin with no access expanded, or full. Each graph and row that it needs and that the
    /// session hasn't is fetched. Where the session has them all, the call takes no memory and no turn, and answers Ok; where it knows the
    /// rows alone, the call takes no turn.
    pub fn find_from<'s, L: Ledger>(
        &mut self,
        alloc: Global,
        f: &Facts,
        store: &'s GraphStore,
        pass: &mut GraphPass<'s>,
        memo: &Memo,
        seat: &mut MemoSeat,
        seeds: &[NodeId],
        mode: Mode,
        steps: &mut Steps<L>,
    ) -> Result<(), NoMemory>
        requires finder { IsFinderOf f.now self.old }
        requires pass { IsPassOf store.now.cells.items pass.old }
        requires inputs { HasInputsOf f.now pass.old }
        requires seat { IsSeatOf memo.now seat.old }
        requires facts { facts_of memo.now ≡ f.now }
        requires seeds { All (λ (n : NodeId). n.0 < node_count f.now.inputs) seeds.now }
        ensures finder { IsFinderOf f.now self.new }
        ensures pass { IsPassOf store.now.cells.items pass.new }
        ensures inputs { HasInputsOf f.now pass.new }
        ensures keeps { Keeps pass.old pass.new }
        ensures seat { IsSeatOf memo.now seat.new }
        ensures knows { Knows (view_of seat.old) (view_of seat.new) }
        ensures statements { OnOk result (IsOrderedListOf StatementBefore (statements_in self.new) (StatementsOf f.now.inputs (SliceOf f.now mode (Contains seeds.now)))) }
        ensures needed { OnOk result (HasNeeded f.now mode (SliceOf f.now mode (Contains seeds.now)) pass.new (view_of seat.new)) }
        ensures had { HasNeeded f.now mode (SliceOf f.now mode (Contains seeds.now)) pass.old (view_of seat.old) → (result ≡ Ok tt) × (steps.new ≡ steps.old) }
        ensures rows { HasRows f.now mode (SliceOf f.now mode (Contains seeds.now)) (view_of seat.old) → steps.new ≡ steps.old }
    {
        self.walk.start(seeds);
        finish(
            alloc,
            f,
            store,
            pass,
            memo,
            seat,
            &mut self.walk,
            self.size,
            &mut self.found,
            mode,
            steps,
        )
    }

    /// Finds the slice of the nodes of some statements, as `find_from` does that of nodes.
    pub fn find<'s, L: Ledger>(
        &mut self,
        alloc: Global,
        f: &Facts,
        store: &'s GraphStore,
        pass: &mut GraphPass<'s>,
        memo: &Memo,
        seat: &mut MemoSeat,
        seeds: &[Statement],
        mode: Mode,
        steps: &mut Steps<L>,
    ) -> Result<(), NoMemory>
        requires finder { IsFinderOf f.now self.old }
        requires pass { IsPassOf store.now.cells.items pass.old }
        requires inputs { HasInputsOf f.now pass.old }
        requires seat { IsSeatOf memo.now seat.old }
        requires facts { facts_of memo.now ≡ f.now }
        requires seeds { AllPairs StatementBefore seeds.now }
        ensures finder { IsFinderOf f.now self.new }
        ensures pass { IsPassOf store.now.cells.items pass.new }
        ensures inputs { HasInputsOf f.now pass.new }
        ensures keeps { Keeps pass.old pass.new }
        ensures seat { IsSeatOf memo.now seat.new }
        ensures knows { Knows (view_of seat.old) (view_of seat.new) }
        ensures statements { OnOk result (IsOrderedListOf StatementBefore (statements_in self.new) (StatementsOf f.now.inputs (SliceOf f.now mode (NodesOf f.now.inputs (Contains seeds.now))))) }
        ensures needed { OnOk result (HasNeeded f.now mode (SliceOf f.now mode (NodesOf f.now.inputs (Contains seeds.now))) pass.new (view_of seat.new)) }
        ensures had { HasNeeded f.now mode (SliceOf f.now mode (NodesOf f.now.inputs (Contains seeds.now))) pass.old (view_of seat.old) → (result ≡ Ok tt) × (steps.new ≡ steps.old) }
        ensures rows { HasRows f.now mode (SliceOf f.now mode (NodesOf f.now.inputs (Contains seeds.now))) (view_of seat.old) → steps.new ≡ steps.old }
    {
        list_nodes(f, self.size, seeds, &mut self.nodes);
        self.walk.start(self.nodes.as_slice());
        finish(
            alloc,
            f,
            store,
            pass,
            memo,
            seat,
            &mut self.walk,
            self.size,
            &mut self.found,
            mode,
            steps,
        )
    }
}
