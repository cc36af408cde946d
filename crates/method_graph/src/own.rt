// Graphs that are built when they are asked for.
ghost use Rattle.std.specs.Prelude.{◌≡◌, ◌<◌, ◌↔◌, ◌++◌, ◌∷◌, [], ℕ, length, slice_get, Some, None, IfOk, OnOk};
ghost use Rattle.dep_form.specs.Graphs.{HasInput, IsGraphIn};
ghost use Rattle.slicer_ids.specs.declared.ids.MethodId.{MethodId};
ghost use Rattle.method_graph.specs.Own.{AreOwn, facts_of, AreKept, kept_refl, kept_trans, kept_facts, graph_at};

use crate::build::build_graph;
use dep_form::facts::Facts;
use dep_form::graph::Graph;
use dep_form::graphs::Graphs;
use slicer_ids::ids::{MethodId, NoMemory};
use std::alloc::Global;

/// The graphs of the methods of some facts: each is built when it is first asked for, and kept.
#[derive(Drop)]
pub struct OwnGraphs<'a> {
    pub facts: &'a Facts,
    /// By method; none that wasn't asked for.
    pub graphs: Vec<Option<Graph>>,
    pub alloc: Global,
}

fn push_none(graphs: &mut Vec<Option<Graph>>) -> Result<(), NoMemory>
    ensures { OnOk result (graphs.new.items ≡ graphs.old.items ++ None ∷ []) }
{
    match graphs.push(None) {
        Ok(()) => Ok(()),
        Err(_) => Err(NoMemory),
    }
}

// No graph, for so many methods.
fn no_graphs(alloc: Global, methods: usize) -> Result<Vec<Option<Graph>>, NoMemory>
    ensures { IfOk result (λ v. (length v.items ≡ methods) × ((m : ℕ) (g : Graph) → graph_at v.items m ≡ Some g → ⊥)) }
{
    let mut graphs = Vec::new(alloc);
    for _ in 0..methods {
        push_none(&mut graphs)?;
    }
    Ok(graphs)
}

impl<'a> OwnGraphs<'a> {
    /// No graph yet.
    pub fn new(alloc: Global, facts: &'a Facts) -> Result<OwnGraphs<'a>, NoMemory>
        ensures { IfOk result (λ g. AreOwn g × (facts_of g ≡ facts.now)) }
    {
        let graphs = no_graphs(alloc, facts.inputs.items().len())?;
        Ok(OwnGraphs {
            facts,
            graphs,
            alloc,
        })
    }

    // Builds the graph of a method, if there is none yet.
    fn make(&mut self, m: MethodId) -> Result<(), NoMemory>
        requires own { AreOwn self.old }
        requires inside { HasInput (facts_of self.old).inputs m }
        ensures own { AreOwn self.new }
        ensures kept { AreKept self.old self.new }
        ensures made { OnOk result ((g : Graph) × (graph_at self.new.graphs.items m.0 ≡ Some g)) }
    {
        if self.graphs[m.0 as usize].is_none() {
            let graph = build_graph(self.alloc, self.facts.input(m))?;
            self.graphs[m.0 as usize] = Some(graph);
        }
        Ok(())
    }
}

impl<'a> Graphs for OwnGraphs<'a> {
    ghost facts = { facts_of };

    ghost later = { AreKept };

    ghost sound = { AreOwn };

    ghost later_refl = { kept_refl };

    ghost later_trans = { kept_trans };

    ghost later_facts = { kept_facts };

    fn graph(&mut self, m: MethodId) -> Result<&Graph, NoMemory> {
        self.make(m)?;
        match &self.graphs[m.0 as usize] {
            Some(graph) => Ok(graph),
            None => unreachable!(),
        }
    }
}
