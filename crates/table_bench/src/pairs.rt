// Tabulation pair by pair: what tables are compared with.

use dep_form::facts::Facts;
use dep_form::graph::Graph;
use dep_form::node::{Edge, Label};
use method_graph::build::build_graph;
use slicer_ids::ids::{CallId, ExitId, Mode, NoMemory, NodeId};
use std::alloc::Global;
use std::collections::HashSet;

/// The path edges of an exit and of those that it demands (Horwitz, Reps and Binkley, TOPLAS 1990), each a node and an exit.
#[derive(Drop)]
pub struct Pairs {
    found: HashSet<(NodeId, ExitId)>,
    waiting: Vec<(NodeId, ExitId)>,
    // By exit: the formals that lead to it, and the calls that demand it, each with the exit that the call's result leads to.
    formals: Vec<Vec<NodeId>>,
    calls: Vec<Vec<(CallId, ExitId)>>,
    exits: usize,
}

// The graphs of all methods that have an input.
fn graphs_of(alloc: Global, facts: &Facts) -> Result<Vec<Graph>, NoMemory> {
    let mut graphs = Vec::new(alloc);
    for input in facts.inputs.items() {
        if let Some(input) = input {
            graphs.push(build_graph(alloc, input)?)?;
        }
    }
    Ok(graphs)
}

fn edges_in(graph: &Graph, n: NodeId) -> Option<&[Edge]> {
    if n.0 < graph.first.0 {
        return None;
    }
    match graph.incoming.items().get((n.0 - graph.first.0) as usize) {
        Some(edges) => Some(edges.items()),
        None => None,
    }
}

// The edges that end in a node.
fn incoming(graphs: &[Graph], n: NodeId) -> &[Edge] {
    for graph in graphs {
        if let Some(edges) = edges_in(graph, n) {
            return edges;
        }
    }
    &[]
}

fn is_call(edge: Edge, call: CallId) -> bool {
    edge.label == Label::Call(call)
}

fn ends_calls(edges: &[Edge]) -> bool {
    for edge in edges {
        if let Label::Call(_) = edge.label {
            return true;
        }
    }
    false
}

impl Pairs {
    /// All that leads to an exit.
    pub fn of(alloc: Global, facts: &Facts, exit: ExitId, mode: Mode) -> Result<Pairs, NoMemory> {
        let graphs = graphs_of(alloc, facts)?;
        let mut pairs = Pairs::none(alloc, facts.exits.items().len())?;
        pairs.demand(facts, exit)?;
        pairs.run(facts, mode, &graphs)?;
        Ok(pairs)
    }

    fn none(alloc: Global, exits: usize) -> Result<Pairs, NoMemory> {
        let mut formals = Vec::new(alloc);
        let mut calls = Vec::new(alloc);
        for _ in 0..exits {
            formals.push(Vec::new(alloc))?;
            calls.push(Vec::new(alloc))?;
        }
        Ok(Pairs {
            found: HashSet::new(alloc),
            waiting: Vec::new(alloc),
            formals,
            calls,
            exits: 0,
        })
    }

    /// How many there are.
    pub fn count(&self) -> usize {
        self.found.len()
    }

    /// How many exits were demanded, with the first.
    pub fn exit_count(&self) -> usize {
        self.exits
    }

    /// Whether a node leads to an exit.
    pub fn has(&self, n: NodeId, exit: ExitId) -> bool {
        self.found.contains(&(n, exit))
    }

    /// How many formals lead to an exit.
    pub fn formal_count(&self, exit: ExitId) -> usize {
        match self.formals.get(exit.0 as usize) {
            Some(formals) => formals.len(),
            None => 0,
        }
    }

    fn call_count(&self, exit: ExitId) -> usize {
        match self.calls.get(exit.0 as usize) {
            Some(calls) => calls.len(),
            None => 0,
        }
    }

    fn formal_at(&self, exit: ExitId, k: usize) -> Option<NodeId> {
        self.formals.get(exit.0 as usize)?.get(k).copied()
    }

    fn call_at(&self, exit: ExitId, k: usize) -> Option<(CallId, ExitId)> {
        self.calls.get(exit.0 as usize)?.get(k).copied()
    }

    fn add(&mut self, n: NodeId, exit: ExitId) -> Result<(), NoMemory> {
        if self.found.insert((n, exit))? {
            self.waiting.push((n, exit))?;
        }
        Ok(())
    }

    fn add_formal(&mut self, n: NodeId, exit: ExitId) -> Result<(), NoMemory> {
        if let Some(formals) = self.formals.get_mut(exit.0 as usize) {
            formals.push(n)?;
        }
        Ok(())
    }

    fn add_call(&mut self, demanded: ExitId, call: CallId, exit: ExitId) -> Result<(), NoMemory> {
        if let Some(calls) = self.calls.get_mut(demanded.0 as usize) {
            calls.push((call, exit))?;
        }
        Ok(())
    }

    // An exit's own node leads to it.
    fn demand(&mut self, facts: &Facts, exit: ExitId) -> Result<(), NoMemory> {
        if let Some(n) = facts.exits.items().get(exit.0 as usize) {
            if !self.has(*n, exit) {
                self.exits = self.exits.saturating_add(1);
                self.add(*n, exit)?;
            }
        }
        Ok(())
    }

    fn run(&mut self, facts: &Facts, mode: Mode, graphs: &[Graph]) -> Result<(), NoMemory> {
        for _ in 0..u64::MAX {
            match self.waiting.pop() {
                Some((n, exit)) => self.go_back(facts, mode, graphs, n, exit)?,
                None => return Ok(()),
            }
        }
        Ok(())
    }

    // Goes back over the edges that end in a node that leads to an exit.
    fn go_back(
        &mut self,
        facts: &Facts,
        mode: Mode,
        graphs: &[Graph],
        n: NodeId,
        exit: ExitId,
    ) -> Result<(), NoMemory> {
        let edges = incoming(graphs, n);
        if ends_calls(edges) {
            self.add_formal(n, exit)?;
        }
        for edge in edges {
            self.follow(facts, mode, graphs, *edge, exit)?;
        }
        Ok(())
    }

    fn follow(
        &mut self,
        facts: &Facts,
        mode: Mode,
        graphs: &[Graph],
        edge: Edge,
        exit: ExitId,
    ) -> Result<(), NoMemory> {
        match edge.label {
            Label::Thin => self.add(edge.from, exit),
            Label::Base => {
                if mode == Mode::Full {
                    self.add(edge.from, exit)?;
                }
                Ok(())
            }
            Label::Call(call) => self.leave(edge.from, call, exit),
            Label::Return(call) => self.enter(facts, graphs, edge.from, call, exit),
        }
    }

    // A formal leads to the exit, so its argument leads to what each demanding result of the same call leads to.
    fn leave(&mut self, argument: NodeId, call: CallId, exit: ExitId) -> Result<(), NoMemory> {
        for k in 0..self.call_count(exit) {
            if let Some((other, outer)) = self.call_at(exit, k) {
                if other == call {
                    self.add(argument, outer)?;
                }
            }
        }
        Ok(())
    }

    // A call's result demands an exit of the method called. What is known to lead to that has its argument passed at once.
    fn enter(
        &mut self,
        facts: &Facts,
        graphs: &[Graph],
        from: NodeId,
        call: CallId,
        exit: ExitId,
    ) -> Result<(), NoMemory> {
        let Some(demanded) = facts.exit_of(from) else {
            return Ok(());
        };
        self.demand(facts, demanded)?;
        self.add_call(demanded, call, exit)?;
        for k in 0..self.formal_count(demanded) {
            if let Some(formal) = self.formal_at(demanded, k) {
                self.pass(incoming(graphs, formal), call, exit)?;
            }
        }
        Ok(())
    }

    fn pass(&mut self, edges: &[Edge], call: CallId, exit: ExitId) -> Result<(), NoMemory> {
        for edge in edges {
            if is_call(*edge, call) {
                self.add(edge.from, exit)?;
            }
        }
        Ok(())
    }
}
