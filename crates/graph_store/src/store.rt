// The cells.
ghost use Rattle.std.specs.Prelude.{◌≡◌, ◌↔◌, ℕ, length, IfOk, IsTrue, IsFalse, None};
ghost use Rattle.dep_form.specs.declared.facts.Facts.{Facts};
ghost use Rattle.dep_form.specs.declared.graph.Graph.{Graph};
ghost use Rattle.dep_form.specs.Graphs.{HasInput};
ghost use Rattle.dep_form.specs.Inputs.{IsInputOf};
ghost use Rattle.graph_store.specs.declared.published.Published.{Published};

use crate::pass::GraphPass;
use crate::published::Published;
use dep_form::facts::Facts;
use once_cell::race::OnceBox;
use slicer_ids::ids::{MethodId, NoMemory};
use std::alloc::Global;

/// A cell for each method, which holds the graph of the input of whoever set it first. No call on it waits.
///
/// A cell takes 16 bytes, and a full one an input and its graph besides.
#[derive(Drop)]
pub struct GraphStore {
    pub(crate) cells: Vec<OnceBox<Published>>,
    pub(crate) alloc: Global,
}

impl GraphStore {
    ghost use Rattle.graph_store.specs.Store.{IsPassOf, SawNothing, HasInputsOf};

    /// An empty cell for each method of the facts.
    pub fn new(alloc: Global, f: &Facts) -> Result<GraphStore, NoMemory>
        ensures { IfOk result (λ s. length s.cells.items ≡ length f.now.inputs) }
    {
        let cells = empty_cells(alloc, f.inputs.items().len())?;
        Ok(GraphStore { cells, alloc })
    }

    /// A pass that has seen nothing.
    pub fn open_pass(&self) -> Result<GraphPass<'_>, NoMemory>
        ensures pass { IfOk result (IsPassOf self.now.cells.items) }
        ensures inputs { IfOk result (λ p. (f : Facts) → length f.inputs ≡ length self.now.cells.items → HasInputsOf f p) }
        ensures nothing { IfOk result SawNothing }
    {
        GraphPass::open(self.alloc, &self.cells)
    }
}

impl GraphStore {
    ghost use Rattle.graph_store.specs.Store.{gives, KnowsCell, IsPassOf, HasInputsOf, Keeps, HasSeen};

    /// Whether the cell of a method holds the graph of the method's input. It looks once, and builds nothing. Where it does, the pass has
    /// then seen the method.
    pub fn shared<'s>(&'s self, f: &Facts, m: MethodId, pass: &mut GraphPass<'s>) -> bool
        requires method { HasInput f.now.inputs m }
        requires pass { IsPassOf self.now.cells.items pass.old }
        requires inputs { HasInputsOf f.now pass.old }
        ensures pass { IsPassOf self.now.cells.items pass.new }
        ensures inputs { HasInputsOf f.now pass.new }
        ensures keeps { Keeps pass.old pass.new }
        ensures shared { IsTrue result ↔ ((x : Published) × KnowsCell pass.new m.0 x × IsInputOf f.now.inputs m x.input) }
        ensures seen { IsTrue result → (g : Graph) × HasSeen f.now pass.new m g }
        ensures stays { IsFalse result → (n : ℕ) → gives pass.new n ≡ gives pass.old n }
    {
        pass.look(&self.cells, f, m)
    }
}

// So many empty cells.
fn empty_cells(alloc: Global, count: usize) -> Result<Vec<OnceBox<Published>>, NoMemory>
    ensures { IfOk result (λ cells. length cells.items ≡ count) }
{
    let mut cells = Vec::new(alloc);
    for _ in 0..count {
        cells.push(OnceBox::new(alloc))?;
    }
    Ok(cells)
}
