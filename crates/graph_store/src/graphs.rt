// The graphs of a session, as those ask for them that work with graphs.
ghost use Rattle.std.specs.Prelude.{◌≡◌, length};
ghost use Rattle.dep_form.specs.Graphs.{HasInput};

use crate::pass::GraphPass;
use crate::store::GraphStore;
use dep_form::facts::Facts;
use dep_form::graph::Graph;
use dep_form::graphs::Graphs;
use slicer_ids::ids::{MethodId, NoMemory};

/// The graphs of the methods of some facts, those of a store where its cells hold them, by way of a pass.
#[derive(Drop)]
pub struct PassGraphs<'a, 's> {
    pub facts: &'a Facts,
    pub store: &'s GraphStore,
    pub pass: &'a mut GraphPass<'s>,
}

impl<'a, 's> PassGraphs<'a, 's> {
    ghost use Rattle.graph_store.specs.Store.{IsPassOf, HasInputsOf};
    ghost use Rattle.graph_store.specs.PassGraphs.{IsSound};

    /// The graphs of these facts. It takes no memory.
    pub fn new(
        facts: &'a Facts,
        store: &'s GraphStore,
        pass: &'a mut GraphPass<'s>,
    ) -> PassGraphs<'a, 's>
        requires pass { IsPassOf store.now.cells.items pass.old }
        requires inputs { HasInputsOf facts.now pass.old }
        ensures sound { IsSound result }
        ensures facts { result.facts.now ≡ facts.now }
        ensures store { result.store.now.cells.items ≡ store.now.cells.items }
        ensures pass { result.pass.now ≡ pass.old }
    {
        PassGraphs { facts, store, pass }
    }
}

impl<'a, 's> Graphs for PassGraphs<'a, 's> {
    ghost use Rattle.graph_store.specs.PassGraphs.{facts_of_pass, IsLater, IsSound, later_refl, later_trans, later_facts};

    ghost facts = { facts_of_pass };

    ghost later = { IsLater };

    ghost sound = { IsSound };

    ghost later_refl = { later_refl };

    ghost later_trans = { later_trans };

    ghost later_facts = { later_facts };

    ghost use Rattle.std.specs.Prelude.{IfOk, ⊤};
    ghost use Rattle.std.specs.Borrow.{sem};
    ghost use mathlib.Core.Option.{none};
    ghost use mathlib.Core.List.{[]};
    ghost use mir.Syntax.{named};
    ghost use denote.Follow.{follows_so};
    ghost use Rattle.dep_form.specs.Graphs.{IsGraphIn};
    ghost use Rattle.graph_store.specs.contracts.graphs.PassGraphs.{the_row};

    fn graph(&mut self, m: MethodId) -> Result<&Graph, NoMemory>
        requires sound { IsSound self.old }
        requires inside { HasInput (facts_of_pass self.old).inputs m }
        ensures* after { sem 𝓛 (follows_so (the_row (record { mir = named 0; lft = [] }) (record { mir = named 1; lft = [] })) (the_row (record { mir = named 0; lft = [] }) (record { mir = named 1; lft = [] })) self.entry.ghost_name none (λ _ _. ⊤) (λ n. IsSound n × IsLater self.old n × IfOk result (λ g. IsGraphIn (facts_of_pass self.old).inputs m g.now))) }
    {
        self.pass.fetch(self.store, self.facts, m)?;
        match self.pass.seen(m) {
            Some(graph) => Ok(graph),
            None => unreachable!(),
        }
    }
}
