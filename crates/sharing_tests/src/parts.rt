// Facts of small programs, whose nodes and edges are written by hand.
ghost use Rattle.std.specs.Prelude.{◌≡◌, ◌∷◌, [], IsTrue, IfOk, All, length};
ghost use Rattle.dep_form.specs.declared.texts.MethodText.{MethodText};
ghost use Rattle.dep_form.specs.Keys.{key_of_text};
ghost use Rattle.dep_form.specs.Orders.{RiseBy, method_cmp};
ghost use Rattle.sharing_tests.specs.OneMethod.{HasParts};
ghost use Rattle.sharing_tests.specs.Parts.{IsSmallProgram, is_input};

use dep_form::facts::Facts;
use dep_form::input::MethodInput;
use dep_form::node::{Edge, Node};
use dep_form::texts::MethodText;
use slicer_ids::ids::{ClassId, MethodId, NoMemory, NodeId};
use slicer_ids::list::List;
use slicer_ids::name::Name;
use std::alloc::Global;

/// What the graph of a method is made of, with these nodes and edges and without locations.
pub fn input(
    alloc: Global,
    method: u32,
    first: u32,
    nodes: &[Node],
    edges: &[Edge],
) -> Result<MethodInput, NoMemory>
    requires { IsTrue (is_input first nodes.now edges.now) }
    ensures { IfOk result (HasParts method first nodes.now edges.now) }
{
    let mut all = Vec::new(alloc);
    all.extend_from_slice(nodes)?;
    let mut direct = Vec::new(alloc);
    direct.extend_from_slice(edges)?;
    Ok(MethodInput {
        method: MethodId(method),
        first: NodeId(first),
        nodes: List::from_vec(all),
        points: 0,
        flow: List::from_vec(Vec::new(alloc)),
        direct: List::from_vec(direct),
        puts: List::from_vec(Vec::new(alloc)),
        gets: List::from_vec(Vec::new(alloc)),
    })
}

/// A method of the one class, of this name.
pub fn text(alloc: Global, name: &[u8]) -> Result<MethodText, NoMemory>
    ensures { IfOk result (λ t. key_of_text t ≡ record { class = record { 0 = 0 }; name = name.now; descriptor = 40 ∷ 73 ∷ 41 ∷ 73 ∷ [] }) }
{
    Ok(MethodText {
        class: ClassId(0),
        name: Name::from_bytes(alloc, name)?,
        descriptor: Name::from_bytes(alloc, b"(I)I")?,
        lines: List::from_vec(Vec::new(alloc)),
    })
}

/// The facts of a small program with so many methods, all of one class.
pub fn facts_of(
    alloc: Global,
    inputs: Vec<Option<MethodInput>>,
    exits: Vec<NodeId>,
    texts: Vec<MethodText>,
) -> Result<Facts, NoMemory>
    requires program { IsSmallProgram (length texts.items) inputs.items exits.items }
    requires rise { RiseBy method_cmp key_of_text texts.items }
    requires classes { All (λ (t : MethodText). t.class.0 ≡ 0) texts.items }
    ensures { IfOk result (λ f. f.exits ≡ exits.items) }
{
    let classes = vec![in alloc; Name::from_bytes(alloc, b"A")?]?;
    Facts::new(
        alloc,
        List::from_vec(inputs),
        List::from_vec(exits),
        List::from_vec(classes),
        List::from_vec(texts),
        List::from_vec(Vec::new(alloc)),
        List::from_vec(Vec::new(alloc)),
        List::from_vec(Vec::new(alloc)),
        List::from_vec(Vec::new(alloc)),
    )
}
