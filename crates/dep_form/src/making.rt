// Facts of their parts.
ghost use Rattle.std.specs.Prelude.{◌≡◌, ◌<◌, ◌≤◌, ◌^◌, ◌∷◌, ◌++◌, [], ℕ, length, IfOk, OnOk, vec_len, take};
ghost use Rattle.dep_form.specs.Firsts.{node_count, nodes_in};
ghost use Rattle.dep_form.specs.WithinFacts.{AreFacts};
ghost use Rattle.dep_form.specs.Making.{IsMadeOf, AreFirsts};

use crate::access::Access;
use crate::facts::Facts;
use crate::input::MethodInput;
use crate::texts::{MethodText, SiteName};
use slicer_ids::ids::{ClassId, NoMemory, NodeId, SiteId, Statement};
use slicer_ids::list::List;
use slicer_ids::name::Name;
use std::alloc::Global;

impl Facts {
    /// The facts of these parts. It takes 4 bytes a method.
    pub fn new(
        alloc: Global,
        inputs: List<Option<MethodInput>>,
        exits: List<NodeId>,
        classes: List<Name>,
        methods: List<MethodText>,
        sites: List<SiteName>,
        lines: List<(ClassId, u16, List<Statement>)>,
        accesses: List<(Statement, Access)>,
        values: List<(Statement, List<SiteId>)>,
    ) -> Result<Facts, NoMemory>
        requires { AreFacts inputs exits classes methods sites lines accesses values }
        ensures { IfOk result (IsMadeOf inputs exits classes methods sites lines accesses values) }
    {
        let firsts = firsts_of(alloc, inputs.items())?;
        Ok(Facts {
            inputs,
            firsts,
            exits,
            classes,
            methods,
            sites,
            lines,
            accesses,
            values,
        })
    }
}

// How many nodes the methods before each have.
fn firsts_of(alloc: Global, inputs: &[Option<MethodInput>]) -> Result<List<u32>, NoMemory>
    requires { node_count inputs.now ≤ 2 ^ 24 }
    ensures { IfOk result (AreFirsts inputs.now) }
{
    let mut firsts = Vec::new(alloc);
    let mut next = 0;
    for input in inputs {
        push_first(&mut firsts, next)?;
        next += count_nodes(input);
    }
    Ok(List::from_vec(firsts))
}

// Adds a number at the end.
fn push_first(firsts: &mut Vec<u32>, first: u32) -> Result<(), NoMemory>
    ensures { OnOk result (firsts.new.items ≡ firsts.old.items ++ first ∷ []) }
{
    match firsts.push(first) {
        Ok(()) => Ok(()),
        Err(_) => Err(NoMemory),
    }
}

// How many nodes an input has.
fn count_nodes(input: &Option<MethodInput>) -> u32
    ensures { result ≡ nodes_in input.now }
{
    match input {
        Some(input) => input.nodes.items().len() as u32,
        None => 0,
    }
}
