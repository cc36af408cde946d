// The facts of one method that hands on its argument.
ghost use Rattle.std.specs.Prelude.{IfOk, ◌≡◌, ◌∷◌, []};
ghost use Rattle.dep_form.specs.Graphs.{HasInput};
ghost use Rattle.sharing_tests.specs.OneMethod.{HandsOn, IsEmptyRoot, IsOneMethod};

use dep_form::facts::Facts;
use dep_form::input::MethodInput;
use dep_form::node::{Edge, Label, Node};
use dep_form::texts::MethodText;
use slicer_ids::ids::{ClassId, MethodId, NoMemory, NodeId};
use slicer_ids::list::List;
use slicer_ids::name::Name;
use std::alloc::Global;

/// A method that answers its argument, and a root that calls nothing.
pub fn one_method(alloc: Global) -> Result<Facts, NoMemory>
    ensures facts { IfOk result IsOneMethod }
    ensures method { IfOk result (λ f. HasInput f.inputs (record { 0 = 0 })) }
    ensures root { IfOk result (λ f. HasInput f.inputs (record { 0 = 1 })) }
{
    let method = hands_on(alloc)?;
    let root = empty_root(alloc);
    let inputs = vec![in alloc; Some(method), Some(root)]?;
    let exits = vec![in alloc; NodeId(1)]?;
    let classes = vec![in alloc; Name::from_bytes(alloc, b"A")?]?;
    let text = MethodText {
        class: ClassId(0),
        name: Name::from_bytes(alloc, b"same")?,
        descriptor: Name::from_bytes(alloc, b"(I)I")?,
        lines: List::from_vec(Vec::new(alloc)),
    };
    let methods = vec![in alloc; text]?;
    Facts::new(
        alloc,
        List::from_vec(inputs),
        List::from_vec(exits),
        List::from_vec(classes),
        List::from_vec(methods),
        List::from_vec(Vec::new(alloc)),
        List::from_vec(Vec::new(alloc)),
        List::from_vec(Vec::new(alloc)),
        List::from_vec(Vec::new(alloc)),
    )
}

// The method's argument, node 0, flows to what it answers, node 1.
fn hands_on(alloc: Global) -> Result<MethodInput, NoMemory>
    ensures { IfOk result HandsOn }
{
    let nodes = vec![in alloc; Node::Formal(0), Node::Return]?;
    let direct = vec![in alloc;
        Edge {
            from: NodeId(0),
            to: NodeId(1),
            label: Label::Thin
        },
    ]?;
    Ok(MethodInput {
        method: MethodId(0),
        first: NodeId(0),
        nodes: List::from_vec(nodes),
        points: 0,
        flow: List::from_vec(Vec::new(alloc)),
        direct: List::from_vec(direct),
        puts: List::from_vec(Vec::new(alloc)),
        gets: List::from_vec(Vec::new(alloc)),
    })
}

fn empty_root(alloc: Global) -> MethodInput
    ensures { IsEmptyRoot result }
{
    MethodInput {
        method: MethodId(1),
        first: NodeId(2),
        nodes: List::from_vec(Vec::new(alloc)),
        points: 0,
        flow: List::from_vec(Vec::new(alloc)),
        direct: List::from_vec(Vec::new(alloc)),
        puts: List::from_vec(Vec::new(alloc)),
        gets: List::from_vec(Vec::new(alloc)),
    }
}
