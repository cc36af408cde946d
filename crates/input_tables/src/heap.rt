// The definitions and uses of locations in one method.
ghost use Rattle.std.specs.Prelude.{◌≡◌, ◌<◌, ◌≤◌, ◌+◌, ◌↔◌, ◌^◌, ℕ, true, false, All, AllPairs, Contains, IfOk, OnOk, Some, length};
ghost use Rattle.std.specs.Ordering.{nat_cmp};
ghost use Rattle.slicer_ids.specs.declared.ids.LocId.{LocId};
ghost use Rattle.class_form.specs.declared.body.Body.{Body};
ghost use Rattle.class_form.specs.declared.body.Point.{Point};
ghost use Rattle.dep_form.specs.Nodes.{ComesBefore};
ghost use Rattle.dep_form.specs.Orders.{RiseBy};
ghost use Rattle.fact_form.specs.FactTables.{UseBefore};
ghost use Rattle.mod_ref.specs.Gains.{Gains};
ghost use Rattle.node_tables.specs.Scenes.{IsInOrder};
ghost use Rattle.worklists.specs.Growth.{FromOne};
ghost use Rattle.input_tables.specs.declared.uses.Use.{Use};
ghost use Rattle.input_tables.specs.Effects.{IsHeapOf};
ghost use Rattle.input_tables.specs.Uses.{AreGetsOf, ArePutsOf, AreUsesOf, IsAnyUse, IsCalleeUse, IsEffectUse, callee_node, node_at};

use crate::effects::Effect;
use crate::gathering::Heap;
use crate::points::points_of;
use crate::runs::of_method;
use crate::scene::Scene;
use crate::uses::{Use, add_use, listed};
use class_form::body::{Body, Point};
use dep_form::node::Node;
use slicer_ids::ids::{LocId, MethodId, NoMemory, NodeId};
use std::alloc::Global;

// Points stand at program counters of 16 bits.
const MOST: usize = 65536;

fn node_at(answered: bool, pc: u16) -> Node
    ensures { result ≡ node_at answered pc }
{
    if answered {
        Node::Result(pc)
    } else {
        Node::Own(pc)
    }
}

fn changed_at(node: Node) -> Option<(u16, LocId)>
    ensures { (pc : ℕ) (n : LocId) → (result ≡ Some (pc, n)) ↔ (node ≡ callee_node true pc n) }
{
    match node {
        Node::HeapResult(pc, n) => Some((pc, n)),
        _ => None,
    }
}

fn used_at(node: Node) -> Option<(u16, LocId)>
    ensures { (pc : ℕ) (n : LocId) → (result ≡ Some (pc, n)) ↔ (node ≡ callee_node false pc n) }
{
    match node {
        Node::HeapArg(pc, n) => Some((pc, n)),
        _ => None,
    }
}

// The location after a call, or before it, that a node is.
fn callee_at(node: Node, write: bool) -> Option<(u16, LocId)>
    ensures { (pc : ℕ) (n : LocId) → (result ≡ Some (pc, n)) ↔ (node ≡ callee_node write pc n) }
{
    if write {
        changed_at(node)
    } else {
        used_at(node)
    }
}

fn add_effect(
    points: &[Point],
    first: u32,
    row: &[Node],
    answered: bool,
    effect: Effect,
    uses: &mut Vec<Use>,
) -> Result<(), NoMemory>
    requires order { RiseBy nat_cmp (λ (t : Point). t.pc) points.now }
    requires few { length points.now < 2 ^ 32 }
    requires row { AllPairs ComesBefore row.now }
    requires small { length row.now < 2 ^ 32 }
    requires numbers { first + length row.now ≤ 2 ^ 32 }
    ensures { OnOk result (Gains uses.old.items uses.new.items (IsEffectUse points.now first row.now answered effect)) }
{
    let node = node_at(answered, effect.at.pc);
    add_use(
        points,
        first,
        row,
        effect.at.pc,
        node,
        effect.location,
        uses,
    )
}

fn add_effects(
    points: &[Point],
    first: u32,
    row: &[Node],
    answered: bool,
    effects: &[Effect],
    uses: &mut Vec<Use>,
) -> Result<(), NoMemory>
    requires order { RiseBy nat_cmp (λ (t : Point). t.pc) points.now }
    requires few { length points.now < 2 ^ 32 }
    requires row { AllPairs ComesBefore row.now }
    requires small { length row.now < 2 ^ 32 }
    requires numbers { first + length row.now ≤ 2 ^ 32 }
    ensures { OnOk result (Gains uses.old.items uses.new.items (FromOne (IsEffectUse points.now first row.now answered) effects.now)) }
{
    for effect in effects {
        add_effect(points, first, row, answered, *effect, uses)?;
    }
    Ok(())
}

fn add_callee(
    points: &[Point],
    first: u32,
    row: &[Node],
    write: bool,
    node: Node,
    uses: &mut Vec<Use>,
) -> Result<(), NoMemory>
    requires order { RiseBy nat_cmp (λ (t : Point). t.pc) points.now }
    requires few { length points.now < 2 ^ 32 }
    requires row { AllPairs ComesBefore row.now }
    requires small { length row.now < 2 ^ 32 }
    requires numbers { first + length row.now ≤ 2 ^ 32 }
    ensures { OnOk result (Gains uses.old.items uses.new.items (IsCalleeUse points.now first row.now write node)) }
{
    match callee_at(node, write) {
        None => Ok(()),
        Some((pc, n)) => add_use(points, first, row, pc, node, n, uses),
    }
}

fn add_callees(
    points: &[Point],
    first: u32,
    row: &[Node],
    write: bool,
    uses: &mut Vec<Use>,
) -> Result<(), NoMemory>
    requires order { RiseBy nat_cmp (λ (t : Point). t.pc) points.now }
    requires few { length points.now < 2 ^ 32 }
    requires row { AllPairs ComesBefore row.now }
    requires small { length row.now < 2 ^ 32 }
    requires numbers { first + length row.now ≤ 2 ^ 32 }
    ensures { OnOk result (Gains uses.old.items uses.new.items (FromOne (IsCalleeUse points.now first row.now write) row.now)) }
{
    for node in row {
        add_callee(points, first, row, write, *node, uses)?;
    }
    Ok(())
}

// All definitions, or all uses: by own nodes, by results, and by calls.
fn all_of(
    alloc: Global,
    points: &[Point],
    first: u32,
    row: &[Node],
    write: bool,
    own: &[Effect],
    results: &[Effect],
) -> Result<Vec<Use>, NoMemory>
    requires order { RiseBy nat_cmp (λ (t : Point). t.pc) points.now }
    requires few { length points.now < 2 ^ 32 }
    requires row { AllPairs ComesBefore row.now }
    requires small { length row.now < 2 ^ 32 }
    requires numbers { first + length row.now ≤ 2 ^ 32 }
    ensures { IfOk result (λ v. (x : Use) → Contains v.items x ↔ IsAnyUse points.now first row.now write own.now results.now x) }
{
    let mut uses = Vec::new(alloc);
    add_effects(points, first, row, false, own, &mut uses)?;
    add_effects(points, first, row, true, results, &mut uses)?;
    add_callees(points, first, row, write, &mut uses)?;
    Ok(uses)
}

// .. in order, by method.
fn uses_of(
    alloc: Global,
    bodies: &[Body],
    m: MethodId,
    first: u32,
    row: &[Node],
    write: bool,
    own: &[Effect],
    results: &[Effect],
) -> Result<Vec<(u32, NodeId, LocId)>, NoMemory>
    requires bodies { RiseBy nat_cmp (λ (b : Body). b.method.0) bodies.now }
    requires ordered { All IsInOrder bodies.now }
    requires row { AllPairs ComesBefore row.now }
    requires small { length row.now < 2 ^ 32 }
    requires numbers { first + length row.now ≤ 2 ^ 32 }
    ensures order { IfOk result (λ v. AllPairs UseBefore v.items) }
    ensures members { IfOk result (λ v. AreUsesOf bodies.now m first row.now write own.now results.now v.items) }
{
    let points = points_of(bodies, m);
    if points.len() > MOST {
        return Err(NoMemory);
    }
    let uses = all_of(alloc, points, first, row, write, own, results)?;
    listed(alloc, uses)
}

/// Where a method defines locations: at which points, by which nodes, by their numbers, in order. Its nodes are those of the row, and
/// numbered from `first` on.
pub fn puts(
    alloc: Global,
    scene: &Scene<'_>,
    heap: &Heap,
    bodies: &[Body],
    m: MethodId,
    first: u32,
    row: &[Node],
) -> Result<Vec<(u32, NodeId, LocId)>, NoMemory>
    requires heap { IsHeapOf scene.now.system.now scene.now.effects.now heap.now.puts.items heap.now.fresh.items heap.now.gets.items heap.now.reads.items }
    requires bodies { RiseBy nat_cmp (λ (b : Body). b.method.0) bodies.now }
    requires ordered { All IsInOrder bodies.now }
    requires row { AllPairs ComesBefore row.now }
    requires small { length row.now < 2 ^ 32 }
    requires numbers { first + length row.now ≤ 2 ^ 32 }
    ensures order { IfOk result (λ v. AllPairs UseBefore v.items) }
    ensures members { IfOk result (λ v. ArePutsOf bodies.now scene.now.system.now scene.now.effects.now m first row.now v.items) }
{
    let own = of_method(heap.puts.as_slice(), m);
    let results = of_method(heap.fresh.as_slice(), m);
    uses_of(alloc, bodies, m, first, row, true, own, results)
}

/// .. and uses them.
pub fn gets(
    alloc: Global,
    scene: &Scene<'_>,
    heap: &Heap,
    bodies: &[Body],
    m: MethodId,
    first: u32,
    row: &[Node],
) -> Result<Vec<(u32, NodeId, LocId)>, NoMemory>
    requires heap { IsHeapOf scene.now.system.now scene.now.effects.now heap.now.puts.items heap.now.fresh.items heap.now.gets.items heap.now.reads.items }
    requires bodies { RiseBy nat_cmp (λ (b : Body). b.method.0) bodies.now }
    requires ordered { All IsInOrder bodies.now }
    requires row { AllPairs ComesBefore row.now }
    requires small { length row.now < 2 ^ 32 }
    requires numbers { first + length row.now ≤ 2 ^ 32 }
    ensures order { IfOk result (λ v. AllPairs UseBefore v.items) }
    ensures members { IfOk result (λ v. AreGetsOf bodies.now scene.now.system.now scene.now.effects.now m first row.now v.items) }
{
    let own = of_method(heap.gets.as_slice(), m);
    let results = of_method(heap.reads.as_slice(), m);
    uses_of(alloc, bodies, m, first, row, false, own, results)
}
