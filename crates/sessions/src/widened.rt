// Slices that are kept and widened.
ghost use Rattle.std.specs.Prelude.{◌≡◌, ◌⊎◌, ◌++◌, ◌∷◌, [], ◌↔◌, List, AllPairs, Contains, IfOk, IfSome, OnOk, OnErr, Ok, Some, None};
ghost use Rattle.slicer_ids.specs.declared.ids.Statement.{Statement};
ghost use Rattle.slicer_ids.specs.Order.{StatementBefore};
ghost use Rattle.slicer_ids.specs.Sets.{IsOrderedListOf};
ghost use Rattle.dep_form.specs.Slices.{Slice, NodesOf, StatementsOf};
ghost use Rattle.graph_store.specs.Store.{IsPassOf, HasInputsOf, Keeps};
ghost use Rattle.session_form.specs.States.{SeedNodes, InSlice};
ghost use Rattle.widening.specs.Widened.{IsWide, seeds_of, expansions_of, AreTurned};
ghost use Rattle.sessions.specs.Turns.{TakesTurns};
ghost use Rattle.sessions.specs.Widened.{IsWidened, IsWidenedOf, IsKeptOf, accesses_in, AreAllIn, KeepsSlice};

use crate::nodes::{has, is_none, list_nodes, statements_of};
use dep_form::facts::Facts;
use graph_store::graphs::PassGraphs;
use graph_store::pass::GraphPass;
use graph_store::store::GraphStore;
use session_state::state::SessionState;
use slicer_ids::ids::{NoMemory, NodeId, Statement};
use slicer_ids::steps::Steps;
use std::alloc::Global;
use std::sync::ledger::Ledger;
use widening::wide::Wide;

/// The thin slice of some statements with some accesses expanded, which is kept to be widened.
#[derive(Drop)]
pub struct Widened {
    wide: Wide,
    // the accesses that are expanded, in order
    accesses: Vec<Statement>,
}

// The slice of some nodes with no access expanded.
fn begin<'s, L: Ledger>(
    alloc: Global,
    f: &Facts,
    store: &'s GraphStore,
    pass: &mut GraphPass<'s>,
    seeds: &[NodeId],
    steps: &mut Steps<L>,
) -> Result<Wide, NoMemory>
    requires pass { IsPassOf store.now.cells.items pass.old }
    requires inputs { HasInputsOf f.now pass.old }
    requires seeds { (list : List Statement) × ((n : _) → Contains seeds.now n ↔ NodesOf f.now.inputs (Contains list) n) }
    ensures pass { IsPassOf store.now.cells.items pass.new }
    ensures inputs { HasInputsOf f.now pass.new }
    ensures keeps { Keeps pass.old pass.new }
    ensures wide { IfOk result (IsWide f.now) }
    ensures seeds { IfOk result (λ w. seeds_of w ≡ seeds.now) }
    ensures expansions { IfOk result (λ w. expansions_of w ≡ []) }
    ensures turns { OnOk result (TakesTurns f.now (Contains []) (Contains seeds.now) None steps.old steps.new) }
{
    let mut graphs = PassGraphs {
        facts: f,
        store,
        pass,
    };
    Wide::new(alloc, f, &mut graphs, seeds, steps)
}

// Expands more accesses. After want of memory it is the slice that it was.
fn expand<'s, L: Ledger>(
    f: &Facts,
    store: &'s GraphStore,
    pass: &mut GraphPass<'s>,
    wide: &mut Wide,
    accesses: &[Statement],
    steps: &mut Steps<L>,
) -> Result<(), NoMemory>
    requires pass { IsPassOf store.now.cells.items pass.old }
    requires inputs { HasInputsOf f.now pass.old }
    requires wide { IsWide f.now wide.old }
    ensures pass { IsPassOf store.now.cells.items pass.new }
    ensures inputs { HasInputsOf f.now pass.new }
    ensures keeps { Keeps pass.old pass.new }
    ensures wide { IsWide f.now wide.new }
    ensures seeds { seeds_of wide.new ≡ seeds_of wide.old }
    ensures expansions { OnOk result (expansions_of wide.new ≡ expansions_of wide.old ++ accesses.now) }
    ensures unchanged { OnErr result (expansions_of wide.new ≡ expansions_of wide.old) }
    ensures turns { OnOk result (AreTurned f.now (seeds_of wide.old) (expansions_of wide.old) (expansions_of wide.old ++ accesses.now) steps.old steps.new) }
{
    let mut graphs = PassGraphs {
        facts: f,
        store,
        pass,
    };
    wide.expand_all(f, &mut graphs, accesses, steps)
}

// Adds a statement, unless it is among others, which are in order.
fn add_missing(had: &[Statement], s: Statement, more: &mut Vec<Statement>) -> Result<(), NoMemory>
    requires { AllPairs StatementBefore had.now }
    ensures { OnOk result ((t : Statement) → (Contains had.now t ⊎ Contains more.new.items t) ↔ ((Contains had.now t ⊎ Contains more.old.items t) ⊎ (t ≡ s))) }
{
    if has(had, s) {
        return Ok(());
    }
    more.push(s)?;
    Ok(())
}

// Those of the statements that aren't among others, which are in order.
fn missing(alloc: Global, all: &[Statement], had: &[Statement]) -> Result<Vec<Statement>, NoMemory>
    requires { AllPairs StatementBefore had.now }
    ensures { IfOk result (λ v. (s : Statement) → (Contains had.now s ⊎ Contains v.items s) ↔ (Contains had.now s ⊎ Contains all.now s)) }
{
    let mut more = Vec::new(alloc);
    for s in all {
        add_missing(had, *s, &mut more)?;
    }
    Ok(more)
}

impl Widened {
    /// The thin slice of some statements with no access expanded.
    pub fn new<'s, L: Ledger>(
        alloc: Global,
        f: &Facts,
        store: &'s GraphStore,
        pass: &mut GraphPass<'s>,
        seeds: &[Statement],
        steps: &mut Steps<L>,
    ) -> Result<Widened, NoMemory>
        requires pass { IsPassOf store.now.cells.items pass.old }
        requires inputs { HasInputsOf f.now pass.old }
        requires order { AllPairs StatementBefore seeds.now }
        ensures pass { IsPassOf store.now.cells.items pass.new }
        ensures inputs { HasInputsOf f.now pass.new }
        ensures keeps { Keeps pass.old pass.new }
        ensures widened { IfOk result (IsWidenedOf f.now (NodesOf f.now.inputs (Contains seeds.now))) }
        ensures none { IfOk result (λ w. w.accesses.items ≡ []) }
        ensures turns { OnOk result (TakesTurns f.now (Contains []) (NodesOf f.now.inputs (Contains seeds.now)) None steps.old steps.new) }
    {
        let nodes = list_nodes(alloc, f, seeds)?;
        let wide = begin(alloc, f, store, pass, nodes.as_slice(), steps)?;
        Ok(Widened {
            wide,
            accesses: Vec::new(alloc),
        })
    }

    // Expands the accesses that aren't expanded yet.
    fn widen_by<'s, L: Ledger>(
        &mut self,
        f: &Facts,
        store: &'s GraphStore,
        pass: &mut GraphPass<'s>,
        more: &[Statement],
        all: Vec<Statement>,
        steps: &mut Steps<L>,
    ) -> Result<(), NoMemory>
        requires pass { IsPassOf store.now.cells.items pass.old }
        requires inputs { HasInputsOf f.now pass.old }
        requires widened { IsWidened f.now self.old }
        requires order { AllPairs StatementBefore all.items }
        requires more { (s : Statement) → (Contains self.old.accesses.items s ⊎ Contains more.now s) ↔ Contains all.items s }
        ensures pass { IsPassOf store.now.cells.items pass.new }
        ensures inputs { HasInputsOf f.now pass.new }
        ensures keeps { Keeps pass.old pass.new }
        ensures widened { IsWidened f.now self.new }
        ensures seeds { seeds_of self.new.wide ≡ seeds_of self.old.wide }
        ensures accesses { OnOk result (self.new.accesses.items ≡ all.items) }
        ensures unchanged { OnErr result (self.new.accesses.items ≡ self.old.accesses.items) }
        ensures turns { OnOk result (TakesTurns f.now (Contains all.items) (Contains (seeds_of self.old.wide)) (Some self.old.accesses.items) steps.old steps.new) }
    {
        expand(f, store, pass, &mut self.wide, more, steps)?;
        self.accesses = all;
        Ok(())
    }

    /// Expands all of some accesses, those that are expanded among them. Where they are all expanded, nothing is looked for. After want
    /// of memory it is the slice that it was.
    pub fn widen<'s, L: Ledger>(
        &mut self,
        alloc: Global,
        f: &Facts,
        store: &'s GraphStore,
        pass: &mut GraphPass<'s>,
        accesses: &[Statement],
        steps: &mut Steps<L>,
    ) -> Result<(), NoMemory>
        requires pass { IsPassOf store.now.cells.items pass.old }
        requires inputs { HasInputsOf f.now pass.old }
        requires widened { IsWidened f.now self.old }
        requires order { AllPairs StatementBefore accesses.now }
        requires more { (s : Statement) → Contains self.old.accesses.items s → Contains accesses.now s }
        ensures pass { IsPassOf store.now.cells.items pass.new }
        ensures inputs { HasInputsOf f.now pass.new }
        ensures keeps { Keeps pass.old pass.new }
        ensures widened { IsWidened f.now self.new }
        ensures seeds { seeds_of self.new.wide ≡ seeds_of self.old.wide }
        ensures accesses { OnOk result ((s : Statement) → Contains self.new.accesses.items s ↔ Contains accesses.now s) }
        ensures unchanged { OnErr result (self.new.accesses.items ≡ self.old.accesses.items) }
        ensures turns { OnOk result (TakesTurns f.now (Contains accesses.now) (Contains (seeds_of self.old.wide)) (Some self.old.accesses.items) steps.old steps.new) }
    {
        let list = missing(alloc, accesses, self.accesses.as_slice())?;
        let more = list.as_slice();
        if is_none(more) {
            return Ok(());
        }
        let all = Vec::from_slice(alloc, accesses)?;
        self.widen_by(f, store, pass, more, all, steps)?;
        Ok(())
    }

    /// The statements of the slice, in order.
    pub fn statements(&self, alloc: Global, f: &Facts) -> Result<Vec<Statement>, NoMemory>
        requires { IsWidened f.now self.now }
        ensures { IfOk result (λ v. IsOrderedListOf StatementBefore v.items (StatementsOf f.now.inputs (Slice f.now.inputs (Contains self.now.accesses.items) (Contains (seeds_of self.now.wide))))) }
    {
        let statements = statements_of(alloc, f, &self.wide)?;
        Ok(statements)
    }
}

// What is kept, or the slice of the seeds with no access expanded.
fn begun<'s, L: Ledger>(
    alloc: Global,
    f: &Facts,
    store: &'s GraphStore,
    pass: &mut GraphPass<'s>,
    state: &SessionState,
    kept: Option<Widened>,
    steps: &mut Steps<L>,
) -> Result<Widened, NoMemory>
    requires pass { IsPassOf store.now.cells.items pass.old }
    requires inputs { HasInputsOf f.now pass.old }
    requires order { AllPairs StatementBefore state.now.seeds }
    requires kept { IsKeptOf f.now state.now kept }
    ensures pass { IsPassOf store.now.cells.items pass.new }
    ensures inputs { HasInputsOf f.now pass.new }
    ensures keeps { Keeps pass.old pass.new }
    ensures widened { IfOk result (λ w. IsKeptOf f.now state.now (Some w)) }
    ensures same { IfSome kept (λ w. (result ≡ Ok w) × (steps.new ≡ steps.old)) }
    ensures none { kept ≡ None → IfOk result (λ w. w.accesses.items ≡ []) }
    ensures turns { kept ≡ None → OnOk result (TakesTurns f.now (Contains []) (SeedNodes f.now state.now) None steps.old steps.new) }
{
    match kept {
        Some(widened) => Ok(widened),
        None => Widened::new(alloc, f, store, pass, state.seeds(), steps),
    }
}

/// Sees to it that the slice of the seeds with the expanded accesses is kept. After want of memory what was kept is the slice that it
/// was.
pub fn widen_kept<'s, L: Ledger>(
    alloc: Global,
    f: &Facts,
    store: &'s GraphStore,
    pass: &mut GraphPass<'s>,
    state: &SessionState,
    kept: &mut Option<Widened>,
    steps: &mut Steps<L>,
) -> Result<(), NoMemory>
    requires pass { IsPassOf store.now.cells.items pass.old }
    requires inputs { HasInputsOf f.now pass.old }
    requires seeds { AllPairs StatementBefore state.now.seeds }
    requires expanded { AllPairs StatementBefore state.now.expanded }
    requires kept { IsKeptOf f.now state.now kept.old }
    ensures pass { IsPassOf store.now.cells.items pass.new }
    ensures inputs { HasInputsOf f.now pass.new }
    ensures keeps { Keeps pass.old pass.new }
    ensures kept { IsKeptOf f.now state.now kept.new }
    ensures all { OnOk result (AreAllIn state.now.expanded kept.new) }
    ensures slice { KeepsSlice kept.old kept.new }
    ensures turns { OnOk result (TakesTurns f.now (Contains state.now.expanded) (SeedNodes f.now state.now) (accesses_in kept.old) steps.old steps.new) }
{
    let mut widened = begun(alloc, f, store, pass, state, kept.take(), steps)?;
    let grown = widened.widen(alloc, f, store, pass, state.expanded(), steps);
    *kept = Some(widened);
    grown
}

/// The statements of the slice that is kept, in order.
pub fn statements_kept(
    alloc: Global,
    f: &Facts,
    state: &SessionState,
    kept: &Option<Widened>,
) -> Result<Vec<Statement>, NoMemory>
    requires kept { IsKeptOf f.now state.now kept.now }
    requires all { AreAllIn state.now.expanded kept.now }
    ensures { IfOk result (λ v. IsOrderedListOf StatementBefore v.items (InSlice f.now state.now)) }
{
    let Some(widened) = kept else {
        unreachable!();
    };
    let statements = widened.statements(alloc, f)?;
    Ok(statements)
}
