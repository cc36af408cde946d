// What one session has seen of the cells.
ghost use Rattle.std.specs.Prelude.{◌≡◌, ◌<◌, ◌↔◌, ℕ, length, IfOk, IfErr, IfSome, IsTrue, IsFalse, Some, None, OnErr};
ghost use Rattle.std.specs.Option.{option_map};
ghost use Rattle.once_cell.specs.Once.{cell_name};
ghost use Rattle.dep_form.specs.declared.graph.Graph.{Graph};
ghost use Rattle.dep_form.specs.Graphs.{HasInput};
ghost use Rattle.dep_form.specs.Inputs.{IsInputOf};
ghost use Rattle.graph_store.specs.declared.published.Published.{Published};

use crate::input::is_same_input;
use crate::published::Published;
use crate::store::GraphStore;
use dep_form::facts::Facts;
use dep_form::graph::Graph;
use dep_form::input::MethodInput;
use method_graph::build::build_graph;
use once_cell::race::{Note, OnceBox};
use slicer_ids::ids::{MethodId, NoMemory};
use std::alloc::Global;

/// What a pass gives as the graph of a method.
#[derive(Drop)]
pub enum Seen<'s> {
    /// It hasn't seen the method.
    No,
    /// What the method's cell holds.
    Shared(&'s Published),
    /// A graph of its own, since the cell holds that of another input.
    Own(Graph),
}

impl<'s> Seen<'s> {
    ghost use Rattle.graph_store.specs.Pass.{graph_of, FitsSeen};

    // What the cell holds, where that is of this input, and else a graph of this input.
    fn of(
        published: &'s Published,
        alloc: Global,
        input: &MethodInput,
    ) -> Result<Seen<'s>, NoMemory>
        ensures fits { IfOk result (FitsSeen input.now (Some published.now)) }
        ensures graph { IfOk result (λ s. (g : Graph) × (graph_of s ≡ Some g)) }
    {
        if is_same_input(&published.input, input) {
            return Ok(Seen::Shared(published));
        }
        let own = build_graph(alloc, input)?;
        Ok(Seen::Own(own))
    }
}

/// What a pass knows of one cell, and what it gives as that method's graph.
#[derive(Drop)]
pub struct Slot<'s> {
    pub note: Note<Published>,
    pub seen: Seen<'s>,
}

impl<'s> Slot<'s> {
    ghost use Rattle.graph_store.specs.Pass.{graph_of, IsShared, Fits, KeepsSlot};

    // Sees the cell, and has a graph of this input.
    fn fetch(
        &mut self,
        cell: &'s OnceBox<Published>,
        alloc: Global,
        input: &MethodInput,
    ) -> Result<(), NoMemory>
        requires cell { self.old.note.cell ≡ cell_name cell.now }
        requires fits { Fits input.now self.old }
        ensures cell { self.new.note.cell ≡ cell_name cell.now }
        ensures fits { Fits input.now self.new }
        ensures keeps { KeepsSlot self.old self.new }
        ensures seen { IfOk result (λ _. (g : Graph) × (graph_of self.new.seen ≡ Some g)) }
        ensures memory { OnErr result (graph_of self.old.seen ≡ None) }
    {
        if let Seen::No = self.seen {
            let published = sight(cell, alloc, input, &mut self.note)?;
            self.seen = Seen::of(published, alloc, input)?;
        }
        Ok(())
    }

    // Looks once at the cell, where nothing was seen yet. Whether it holds the graph of this input.
    fn look(&mut self, cell: &'s OnceBox<Published>, input: &MethodInput) -> bool
        requires cell { self.old.note.cell ≡ cell_name cell.now }
        requires fits { Fits input.now self.old }
        ensures cell { self.new.note.cell ≡ cell_name cell.now }
        ensures fits { Fits input.now self.new }
        ensures keeps { KeepsSlot self.old self.new }
        ensures shared { IsTrue result ↔ ((x : Published) × (self.new.note.known ≡ Some x) × (x.input ≡ input.now)) }
        ensures seen { IsTrue result → (g : Graph) × (graph_of self.new.seen ≡ Some g) }
        ensures stays { IsFalse result → graph_of self.new.seen ≡ graph_of self.old.seen }
    {
        if let Seen::No = self.seen {
            if let Some(published) = cell.get_as(&mut self.note) {
                if is_same_input(&published.input, input) {
                    self.seen = Seen::Shared(published);
                    return true;
                }
            }
            return false;
        }
        self.is_shared()
    }

    // Whether it gives what the cell holds.
    fn is_shared(&self) -> bool
        ensures { IsTrue result ↔ IsShared self.now.seen }
    {
        matches!(self.seen, Seen::Shared(_))
    }

    // The graph that it gives.
    fn graph(&self) -> Option<&Graph>
        ensures { option_map (λ g. g.now) result ≡ graph_of self.now.seen }
    {
        match &self.seen {
            Seen::No => None,
            Seen::Shared(published) => Some(&published.graph),
            Seen::Own(graph) => Some(graph),
        }
    }
}

/// What one session has seen of the cells of a store. A graph that it gave once it always gives.
///
/// It takes a graph's memory for each cell that holds the graph of another input, and 40 bytes or so a method.
#[derive(Drop)]
pub struct GraphPass<'s> {
    pub(crate) slots: Vec<Slot<'s>>,
}

impl<'s> GraphPass<'s> {
    ghost use Rattle.graph_store.specs.Store.{gives, KnowsCell, IsPassOf, SawNothing, HasInputsOf, Keeps, HasSeen};

    // A pass that has seen nothing of these cells.
    pub(crate) fn open(
        alloc: Global,
        cells: &'s Vec<OnceBox<Published>>,
    ) -> Result<GraphPass<'s>, NoMemory>
        ensures pass { IfOk result (IsPassOf cells.now.items) }
        ensures nothing { IfOk result SawNothing }
    {
        let mut slots = Vec::new(alloc);
        for cell in cells {
            slots.push(Slot {
                note: cell.note(),
                seen: Seen::No,
            })?;
        }
        Ok(GraphPass { slots })
    }

    /// The graph of a method, where the pass has seen the method; none else.
    pub fn seen(&self, m: MethodId) -> Option<&Graph>
        requires { m.0 < length self.now.slots.items }
        ensures { option_map (λ g. g.now) result ≡ gives self.now m.0 }
    {
        self.slots[m.0 as usize].graph()
    }

    /// Sees the cell of a method, which is filled where it is empty. The pass then has the graph of the method's input: that of the cell
    /// where the cell's is of that input, and else one of its own. It takes no memory for a method that it has seen.
    pub fn fetch(&mut self, store: &'s GraphStore, f: &Facts, m: MethodId) -> Result<(), NoMemory>
        requires method { HasInput f.now.inputs m }
        requires pass { IsPassOf store.now.cells.items self.old }
        requires inputs { HasInputsOf f.now self.old }
        ensures pass { IsPassOf store.now.cells.items self.new }
        ensures inputs { HasInputsOf f.now self.new }
        ensures keeps { Keeps self.old self.new }
        ensures seen { IfOk result (λ _. (g : Graph) × HasSeen f.now self.new m g) }
        ensures memory { OnErr result (gives self.old m.0 ≡ None) }
    {
        let slot = &mut self.slots[m.0 as usize];
        slot.fetch(&store.cells[m.0 as usize], store.alloc, f.input(m))
    }
}

impl<'s> GraphPass<'s> {
    ghost use Rattle.std.specs.Prelude.{⊤};
    ghost use Rattle.std.specs.Borrow.{sem};
    ghost use mathlib.Core.Option.{none};
    ghost use mathlib.Core.List.{[]};
    ghost use mir.Syntax.{named};
    ghost use denote.Follow.{follows_so};
    ghost use Rattle.graph_store.specs.contracts.pass.GraphPass.{the_row};
    ghost use Rattle.graph_store.specs.Store.{gives, KnowsCell, IsPassOf, HasInputsOf, Keeps, HasSeen};

    /// The graph of a method. It sees the cell of the method and gives what the pass then has: see `fetch` and `seen`.
    pub fn graph<'a>(
        &'a mut self,
        store: &'s GraphStore,
        f: &Facts,
        m: MethodId,
    ) -> Result<&'a Graph, NoMemory>
        requires method { HasInput f.now.inputs m }
        requires pass { IsPassOf store.now.cells.items self.old }
        requires inputs { HasInputsOf f.now self.old }
        ensures memory { OnErr result (gives self.old m.0 ≡ None) }
        ensures* after { sem 𝓛 (follows_so (the_row (record { mir = named 1; lft = [] })) (the_row (record { mir = named 1; lft = [] })) self.entry.ghost_name none (λ _ _. ⊤) (λ n. IsPassOf store.now.cells.items n × HasInputsOf f.now n × Keeps self.old n × IfOk result (λ g. HasSeen f.now n m g.now))) }
    {
        self.fetch(store, f, m)?;
        match self.seen(m) {
            Some(graph) => Ok(graph),
            None => unreachable!(),
        }
    }

    // Looks once at the cell of a method, where it hasn't seen the method. Whether the cell holds the graph of its input.
    pub(crate) fn look(
        &mut self,
        cells: &'s Vec<OnceBox<Published>>,
        f: &Facts,
        m: MethodId,
    ) -> bool
        requires method { HasInput f.now.inputs m }
        requires pass { IsPassOf cells.now.items self.old }
        requires inputs { HasInputsOf f.now self.old }
        ensures pass { IsPassOf cells.now.items self.new }
        ensures inputs { HasInputsOf f.now self.new }
        ensures keeps { Keeps self.old self.new }
        ensures shared { IsTrue result ↔ ((x : Published) × KnowsCell self.new m.0 x × IsInputOf f.now.inputs m x.input) }
        ensures seen { IsTrue result → (g : Graph) × HasSeen f.now self.new m g }
        ensures stays { IsFalse result → (n : ℕ) → gives self.new n ≡ gives self.old n }
    {
        let slot = &mut self.slots[m.0 as usize];
        slot.look(&cells[m.0 as usize], f.input(m))
    }
}

// The value of the cell, which is made where the cell is empty.
fn sight<'s>(
    cell: &'s OnceBox<Published>,
    alloc: Global,
    input: &MethodInput,
    note: &mut Note<Published>,
) -> Result<&'s Published, NoMemory>
    requires { note.old.cell ≡ cell_name cell.now }
    ensures cell { note.new.cell ≡ note.old.cell }
    ensures value { IfOk result (λ r. note.new.known ≡ Some r.now) }
    ensures keeps { IfSome note.old.known (λ x. note.new.known ≡ Some x) }
{
    cell.get_or_try_init_as(
        move || Ok(Box::new(alloc, Published::new(alloc, input)?)?),
        note,
    )
}
