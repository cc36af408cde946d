// What a cell holds.
ghost use Rattle.std.specs.Prelude.{◌≡◌, IfOk};
ghost use Rattle.dep_form.specs.Graphs.{IsGraphOf};

use crate::input::copy_input;
use dep_form::graph::Graph;
use dep_form::input::MethodInput;
use method_graph::build::build_graph;
use slicer_ids::ids::NoMemory;
use std::alloc::Global;

/// An input, and the graph of that input.
#[derive(Drop)]
pub struct Published {
    pub input: MethodInput,
    pub graph: Graph,
    pub ghost built: { ∥ IsGraphOf input graph ∥₁ },
}

impl Published {
    /// A copy of the input, and its graph.
    pub fn new(alloc: Global, input: &MethodInput) -> Result<Published, NoMemory>
        ensures { IfOk result (λ p. p.input ≡ input.now) }
    {
        let input = copy_input(alloc, input)?;
        let graph = build_graph(alloc, &input)?;
        Ok(Published { input, graph })
    }
}
