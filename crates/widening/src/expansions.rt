// The accesses whose bases are followed.
ghost use Rattle.std.specs.Prelude.{◌≡◌, ◌<◌, ◌++◌, ◌∷◌, [], ◌↔◌, OnOk, MatchOption, Contains, IsTrue, length};
ghost use Rattle.slicer_ids.specs.declared.ids.NodeId.{NodeId};
ghost use Rattle.dep_form.specs.declared.input.MethodInput.{MethodInput};
ghost use Rattle.dep_form.specs.Inputs.{BelongsTo, IsInputOf};
ghost use Rattle.dep_form.specs.Slices.{NodesOf};
ghost use Rattle.tabulate.specs.Frames.{count};
ghost use Rattle.widening.specs.Edges.{Opens};

use dep_form::facts::Facts;
use dep_form::input::MethodInput;
use slicer_ids::ids::{MethodId, NoMemory, NodeId, Statement};

/// The accesses that are expanded, and a mark for each node of theirs.
#[derive(Drop)]
pub struct Expansions {
    pub accesses: Vec<Statement>,
    pub marks: Vec<bool>,
}

// Whether both are one statement.
fn is_same(a: Statement, b: Statement) -> bool
    ensures { IsTrue result ↔ (a ≡ b) }
{
    a == b
}

// Whether the node belongs to the statement.
fn belongs(f: &Facts, n: NodeId, s: Statement) -> bool
    requires { n.0 < count f.now }
    ensures { IsTrue result ↔ BelongsTo f.now.inputs n s }
{
    match f.statement(n) {
        Some(t) => is_same(t, s),
        None => false,
    }
}

// Marks a node and adds it to a list, if it belongs to the statement.
fn add_if(
    f: &Facts,
    n: NodeId,
    s: Statement,
    marks: &mut Vec<bool>,
    into: &mut Vec<NodeId>,
) -> Result<(), NoMemory>
    requires node { n.0 < count f.now }
    requires marks { length marks.old.items ≡ count f.now }
    ensures { OnOk result (Opens (λ m. (m ≡ n) × BelongsTo f.now.inputs m s) marks.old.items marks.new.items into.old.items into.new.items) }
{
    if belongs(f, n, s) {
        marks[n.0 as usize] = true;
        into.push(n)?;
    }
    Ok(())
}

// Marks those nodes of a method that belong to the statement, and adds them to a list.
fn add_nodes(
    f: &Facts,
    input: &MethodInput,
    s: Statement,
    marks: &mut Vec<bool>,
    into: &mut Vec<NodeId>,
) -> Result<(), NoMemory>
    requires input { IsInputOf f.now.inputs s.method input.now }
    requires marks { length marks.old.items ≡ count f.now }
    ensures { OnOk result (Opens (λ m. BelongsTo f.now.inputs m s) marks.old.items marks.new.items into.old.items into.new.items) }
{
    let first = input.first.0;
    let size = input.nodes.items().len() as u32;
    for k in 0..size {
        add_if(f, NodeId(first + k), s, marks, into)?;
    }
    Ok(())
}

// The input of a method; none where it isn't reached.
fn input_at(f: &Facts, m: MethodId) -> Option<&MethodInput>
    ensures { MatchOption result ((i : MethodInput) → IsInputOf f.now.inputs m i → ⊥) (λ i. IsInputOf f.now.inputs m i.now) }
{
    match f.inputs.items().get(m.0 as usize) {
        Some(input) => input.as_ref(),
        None => None,
    }
}

// Marks the nodes of a statement, and adds them to a list.
fn add_statement(
    f: &Facts,
    s: Statement,
    marks: &mut Vec<bool>,
    into: &mut Vec<NodeId>,
) -> Result<(), NoMemory>
    requires { length marks.old.items ≡ count f.now }
    ensures { OnOk result (Opens (λ m. BelongsTo f.now.inputs m s) marks.old.items marks.new.items into.old.items into.new.items) }
{
    match input_at(f, s.method) {
        Some(input) => add_nodes(f, input, s, marks, into),
        None => Ok(()),
    }
}

/// Marks the nodes of some statements, and adds them to a list. It costs the nodes of their methods.
pub fn add_statements(
    f: &Facts,
    statements: &[Statement],
    marks: &mut Vec<bool>,
    into: &mut Vec<NodeId>,
) -> Result<(), NoMemory>
    requires { length marks.old.items ≡ count f.now }
    ensures { OnOk result (Opens (NodesOf f.now.inputs (Contains statements.now)) marks.old.items marks.new.items into.old.items into.new.items) }
{
    for statement in statements {
        add_statement(f, *statement, marks, into)?;
    }
    Ok(())
}

impl Expansions {
    /// Expands some accesses too, and adds their nodes to a list.
    pub fn add_all(
        &mut self,
        f: &Facts,
        accesses: &[Statement],
        into: &mut Vec<NodeId>,
    ) -> Result<(), NoMemory>
        requires { length self.old.marks.items ≡ count f.now }
        ensures accesses { OnOk result (self.new.accesses.items ≡ self.old.accesses.items ++ accesses.now) }
        ensures opens { OnOk result (Opens (NodesOf f.now.inputs (Contains accesses.now)) self.old.marks.items self.new.marks.items into.old.items into.new.items) }
    {
        add_statements(f, accesses, &mut self.marks, into)?;
        self.accesses.extend_from_slice(accesses)?;
        Ok(())
    }
}
