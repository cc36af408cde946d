// Tables of exits.
ghost use Rattle.std.specs.Prelude.{◌≡◌, ◌↔◌, ◌⊎◌, ◌<◌, ◌≤◌, ◌+◌, ◌∷◌, [], ℕ, List, Option, Some, None, IfOk, OnOk, MatchOption, All, Contains, length};
ghost use Rattle.dep_form.specs.declared.node.Edge.{Edge};
ghost use Rattle.tabulate.specs.Hands.{hand_of};
ghost use Rattle.tabulate.specs.Rules.{FromOne, Follows};
ghost use Rattle.slicer_ids.specs.declared.ids.NodeId.{NodeId};
ghost use Rattle.slicer_ids.specs.declared.ids.ExitId.{ExitId};
ghost use Rattle.slicer_ids.specs.declared.ids.CallId.{CallId};
ghost use Rattle.dep_form.specs.declared.node.Label.TheVariants.{Return};
ghost use Rattle.dep_form.specs.Inputs.{IsEdge};
ghost use Rattle.dep_form.specs.Summaries.{IsRow};
ghost use Rattle.tabulate.specs.declared.method.Method.{Method};
ghost use Rattle.tabulate.specs.Frames.{IsOf, method_of, count, width};
ghost use Rattle.tabulate.specs.Methods.{AreMethods, IsMet};
ghost use Rattle.tabulate.specs.Found.{Got, Todo, IsOpen, AreFound, IsQueue, Goes, total, waits_of};
ghost use Rattle.tabulate.specs.States.{Holds, IsDone, Meets, Open, OfNode, IsNext, IsTakenUp, AreWanting};
ghost use Rattle.tabulate.specs.Tables.{IsFirst, IsTable, IsTableFrom, IsCounted};

use crate::following::follow;
use crate::found::{Found, blank, take};
use crate::hands::Hands;
use crate::meeting::{begin, exits_of_returns, meet_all};
use crate::method::{Method, met_method, owner};
use crate::table::Table;
use crate::table_rows::rows_of;
use bit_rows::rows::is_empty;
use dep_form::facts::Facts;
use dep_form::graphs::Graphs;
use dep_form::node::Edge;
use dep_form::rows::Rows;
use slicer_ids::ids::{ExitId, MethodId, Mode, NoMemory, NodeId};
use slicer_ids::list::List;
use slicer_ids::steps::Steps;
use std::alloc::Global;
use std::collections::VecDeque;
use std::sync::ledger::Ledger;

// Buffers that are used again.
#[derive(Drop)]
struct Buffers {
    spare: Vec<u64>,
    edges: Vec<Edge>,
    exits: Vec<ExitId>,
}

/// No method was met.
pub fn none_met(alloc: Global, methods: usize) -> Result<Vec<Option<Method>>, NoMemory>
    ensures len { IfOk result (λ m. length m.items ≡ methods) }
    ensures none { IfOk result (λ m. All (λ (o : Option Method). o ≡ None) m.items) }
{
    let mut met = Vec::new(alloc);
    for _method in 0..methods {
        met.push(None)?;
    }
    Ok(met)
}

/// Copies the edges that end in a node.
pub fn copy_edges<G: Graphs>(
    f: &Facts,
    graphs: &mut G,
    m: MethodId,
    n: NodeId,
    into: &mut Vec<Edge>,
) -> Result<(), NoMemory>
    requires graphs { G.sound graphs.old × (G.facts graphs.old ≡ f.now) }
    requires node { IsOf f.now n.0 m.0 }
    ensures graphs { G.sound graphs.new × G.later graphs.old graphs.new }
    ensures edges { OnOk result ((e : Edge) → Contains into.new.items e ↔ (IsEdge f.now.inputs e × (e.to ≡ n))) }
{
    into.clear();
    let graph = graphs.graph(m)?;
    into.extend_from_slice(graph.incoming(n))?;
    Ok(())
}

/// Takes out the first node that waits, with its new bits.
pub fn take_next(
    f: &Facts,
    methods: &Vec<Option<Method>>,
    found: &mut Vec<Found>,
    queue: &mut VecDeque<NodeId>,
    delta: &mut Vec<u64>,
) -> Result<Option<NodeId>, NoMemory>
    requires methods { AreMethods f.now methods.now.items }
    requires met { (m : ℕ) → 0 < length (waits_of found.old.items m) → IsMet methods.now.items m }
    requires found { AreFound f.now found.old.items }
    requires queue { IsQueue f.now found.old.items queue.old.items }
    ensures taken { IfOk result (λ r. MatchOption r ((queue.old.items ≡ []) × (queue.new.items ≡ queue.old.items) × (found.new.items ≡ found.old.items)) (λ n. IsNext f.now found.old.items found.new.items queue.old.items queue.new.items n delta.new.items)) }
    ensures total { total found.new.items ≡ total found.old.items }
{
    let Some(n) = queue.pop_front() else {
        return Ok(None);
    };
    let method = met_method(f, methods, owner(f, n));
    take(f, method, n, found, delta)?;
    Ok(Some(n))
}

/// Back over the edges that end in a node of a method that was met.
pub fn follow_from<L: Ledger>(
    f: &Facts,
    mode: Mode,
    methods: &Vec<Option<Method>>,
    hands: &Hands,
    m: MethodId,
    n: NodeId,
    delta: &[u64],
    edges: &[Edge],
    spare: &mut Vec<u64>,
    found: &mut Vec<Found>,
    queue: &mut VecDeque<NodeId>,
    steps: &mut Steps<L>,
) -> Result<(), NoMemory>
    requires node { IsOf f.now n.0 m.0 }
    requires method { IsMet methods.now.items m.0 }
    requires delta { length delta.now ≡ width f.now m.0 }
    requires edges { (e : Edge) → Contains edges.now e → IsEdge f.now.inputs e × (e.to ≡ n) × ((k : CallId) → e.label ≡ Return k → IsMet methods.now.items (method_of f.now e.from.0)) }
    requires methods { AreMethods f.now methods.now.items }
    requires hands { (d : ExitId) (bits : List ℕ) → hand_of hands.now d.0 ≡ Some bits → IsRow f.now mode d bits }
    requires found { AreFound f.now found.old.items }
    requires queue { IsQueue f.now found.old.items queue.old.items }
    requires opened { IsOpen f.now found.old.items m.0 }
    requires met { (k : ℕ) → 0 < length (waits_of found.old.items k) → IsMet methods.now.items k }
    ensures goes { OnOk result (Goes f.now found.old.items found.new.items queue.old.items queue.new.items steps.old steps.new (FromOne (Follows f.now mode hands.now n delta.now) edges.now)) }
    ensures turns { steps.new + total found.old.items ≡ steps.old + total found.new.items }
{
    let method = met_method(f, methods, m);
    follow(
        f, mode, methods, hands, method, n, delta, edges, spare, found, queue, steps,
    )
}

// Goes back over the edges that end in a node, with its new bits: first the exits that these demand are met.
fn go_back<G: Graphs, R: Rows, L: Ledger>(
    alloc: Global,
    f: &Facts,
    graphs: &mut G,
    rows: &mut R,
    e: ExitId,
    more: &[ExitId],
    mode: Mode,
    n: NodeId,
    delta: &[u64],
    buffers: &mut Buffers,
    methods: &mut Vec<Option<Method>>,
    hands: &mut Hands,
    asked: &mut Vec<ExitId>,
    found: &mut Vec<Found>,
    queue: &mut VecDeque<NodeId>,
    steps: &mut Steps<L>,
) -> Result<(), NoMemory>
    requires graphs { G.sound graphs.old × (G.facts graphs.old ≡ f.now) }
    requires rows { R.sound rows.old × (R.facts rows.old ≡ f.now) }
    requires node { (n.0 < count f.now) × IsOpen f.now found.old.items (method_of f.now n.0) }
    requires delta { (length delta.now ≡ width f.now (method_of f.now n.0)) × IsTakenUp f.now found.old.items n delta.now }
    requires holds { Holds f.now mode (IsFirst e more.now) (λ d. R.surely rows.old d mode) methods.old.items hands.old asked.old.items found.old.items queue.old.items }
    requires done { IsDone f.now mode hands.old (Got f.now found.old.items) (Open (Todo f.now found.old.items) (OfNode n delta.now)) }
    ensures graphs { G.sound graphs.new × G.later graphs.old graphs.new }
    ensures rows { R.sound rows.new × R.later rows.old rows.new }
    ensures holds { OnOk result (Holds f.now mode (IsFirst e more.now) (λ d. R.surely rows.new d mode) methods.new.items hands.new asked.new.items found.new.items queue.new.items) }
    ensures done { OnOk result (IsDone f.now mode hands.new (Got f.now found.new.items) (Todo f.now found.new.items)) }
    ensures more { OnOk result ((d : ExitId) → Contains asked.old.items d → Contains asked.new.items d) }
    ensures wanting { OnOk result (AreWanting (λ d. R.surely rows.old d mode) asked.old.items asked.new.items) }
    ensures turns { steps.new + total found.old.items ≡ steps.old + total found.new.items }
    ensures work { OnOk result (length queue.new.items + steps.old ≤ length queue.old.items + steps.new) }
{
    if is_empty(delta) {
        return Ok(());
    }
    let m = owner(f, n);
    copy_edges(f, graphs, m, n, &mut buffers.edges)?;
    exits_of_returns(f, &buffers.edges, &mut buffers.exits)?;
    meet_all(
        alloc,
        f,
        graphs,
        rows,
        e,
        more,
        mode,
        &buffers.exits,
        methods,
        hands,
        asked,
        found,
        queue,
        steps,
    )?;
    follow_from(
        f,
        mode,
        methods,
        hands,
        m,
        n,
        delta,
        &buffers.edges,
        &mut buffers.spare,
        found,
        queue,
        steps,
    )?;
    Ok(())
}

// Takes up all that waits, and what follows from it.
fn run<G: Graphs, R: Rows, L: Ledger>(
    alloc: Global,
    f: &Facts,
    graphs: &mut G,
    rows: &mut R,
    e: ExitId,
    more: &[ExitId],
    mode: Mode,
    methods: &mut Vec<Option<Method>>,
    hands: &mut Hands,
    asked: &mut Vec<ExitId>,
    found: &mut Vec<Found>,
    queue: &mut VecDeque<NodeId>,
    steps: &mut Steps<L>,
) -> Result<(), NoMemory>
    requires graphs { G.sound graphs.old × (G.facts graphs.old ≡ f.now) }
    requires rows { R.sound rows.old × (R.facts rows.old ≡ f.now) }
    requires holds { Holds f.now mode (IsFirst e more.now) (λ d. R.surely rows.old d mode) methods.old.items hands.old asked.old.items found.old.items queue.old.items }
    requires done { IsDone f.now mode hands.old (Got f.now found.old.items) (Todo f.now found.old.items) }
    ensures graphs { G.sound graphs.new × G.later graphs.old graphs.new }
    ensures rows { R.sound rows.new × R.later rows.old rows.new }
    ensures holds { OnOk result (Holds f.now mode (IsFirst e more.now) (λ d. R.surely rows.new d mode) methods.new.items hands.new asked.new.items found.new.items queue.new.items) }
    ensures done { OnOk result (IsDone f.now mode hands.new (Got f.now found.new.items) (Todo f.now found.new.items)) }
    ensures idle { OnOk result (queue.new.items ≡ []) }
    ensures more { OnOk result ((d : ExitId) → Contains asked.old.items d → Contains asked.new.items d) }
    ensures wanting { OnOk result (AreWanting (λ d. R.surely rows.old d mode) asked.old.items asked.new.items) }
    ensures turns { steps.new + total found.old.items ≡ steps.old + total found.new.items }
{
    let mut delta = Vec::new(alloc);
    let mut buffers = Buffers {
        spare: Vec::new(alloc),
        edges: Vec::new(alloc),
        exits: Vec::new(alloc),
    };
    while let Some(n) = take_next(f, methods, found, queue, &mut delta)? {
        go_back(
            alloc,
            f,
            graphs,
            rows,
            e,
            more,
            mode,
            n,
            &delta,
            &mut buffers,
            methods,
            hands,
            asked,
            found,
            queue,
            steps,
        )?;
    }
    Ok(())
}

// Asks for the first exits: for the one itself, and for each of the others that has no row to hand.
fn start<G: Graphs, R: Rows, L: Ledger>(
    alloc: Global,
    f: &Facts,
    graphs: &mut G,
    rows: &mut R,
    e: ExitId,
    more: &[ExitId],
    mode: Mode,
    methods: &mut Vec<Option<Method>>,
    hands: &mut Hands,
    asked: &mut Vec<ExitId>,
    found: &mut Vec<Found>,
    queue: &mut VecDeque<NodeId>,
    steps: &mut Steps<L>,
) -> Result<(), NoMemory>
    requires graphs { G.sound graphs.old × (G.facts graphs.old ≡ f.now) }
    requires rows { R.sound rows.old × (R.facts rows.old ≡ f.now) }
    requires exit { e.0 < length f.now.exits }
    requires exits { (d : ExitId) → Contains more.now d → d.0 < length f.now.exits }
    requires holds { Holds f.now mode (IsFirst e more.now) (λ _. ⊥) methods.old.items hands.old asked.old.items found.old.items queue.old.items }
    requires none { asked.old.items ≡ [] }
    ensures graphs { G.sound graphs.new × G.later graphs.old graphs.new }
    ensures rows { R.sound rows.new × R.later rows.old rows.new }
    ensures holds { OnOk result (Holds f.now mode (IsFirst e more.now) (λ d. R.surely rows.new d mode) methods.new.items hands.new asked.new.items found.new.items queue.new.items) }
    ensures meets { OnOk result (Meets f.now hands.old hands.new asked.old.items asked.new.items found.old.items found.new.items) }
    ensures own { OnOk result (Contains asked.new.items e) }
    ensures known { OnOk result ((d : ExitId) → Contains more.now d → Contains asked.new.items d ⊎ R.surely rows.new d mode) }
    ensures wanting { OnOk result (AreWanting (λ d. R.surely rows.old d mode) (e ∷ []) asked.new.items) }
    ensures turns { steps.new + total found.old.items ≡ steps.old + total found.new.items }
{
    begin(
        alloc, f, graphs, e, more, mode, methods, hands, asked, found, queue, steps,
    )?;
    meet_all(
        alloc, f, graphs, rows, e, more, mode, more, methods, hands, asked, found, queue, steps,
    )?;
    Ok(())
}

/// The table of an exit, and of more exits at once: its row, those of the others that have no row to hand, and those of the exits that
/// these demand and that have none. It asks for the graphs of the methods of these exits alone. One turn is taken for each path edge
/// of the table's exits (Horwitz, Reps and Binkley, TOPLAS 1990; path edges after Reps, Horwitz and Sagiv, POPL 1995), and a step for
/// each word of a row and edge. Room is taken for a bit for each node and exit of a method once a call, so that many exits of one method
/// cost little more at once than one of them.
pub fn tabulate_with<G: Graphs, R: Rows, L: Ledger>(
    alloc: Global,
    f: &Facts,
    graphs: &mut G,
    rows: &mut R,
    e: ExitId,
    more: &[ExitId],
    mode: Mode,
    steps: &mut Steps<L>,
) -> Result<Table, NoMemory>
    requires graphs { G.sound graphs.old × (G.facts graphs.old ≡ f.now) }
    requires rows { R.sound rows.old × (R.facts rows.old ≡ f.now) }
    requires exit { e.0 < length f.now.exits }
    requires exits { (d : ExitId) → Contains more.now d → d.0 < length f.now.exits }
    ensures graphs { G.sound graphs.new × G.later graphs.old graphs.new }
    ensures rows { R.sound rows.new × R.later rows.old rows.new }
    ensures table { IfOk result (IsTableFrom f.now mode e (IsFirst e more.now) (λ d. R.surely rows.old d mode) (λ d. R.surely rows.new d mode)) }
    ensures turns { IfOk result (IsCounted f.now mode steps.old steps.new) }
{
    let count = f.inputs.items().len();
    let mut methods = none_met(alloc, count)?;
    let mut hands = Hands::new(alloc);
    let mut asked = Vec::new(alloc);
    let mut found = blank(alloc, count)?;
    let mut queue = VecDeque::new(alloc);
    start(
        alloc,
        f,
        graphs,
        rows,
        e,
        more,
        mode,
        &mut methods,
        &mut hands,
        &mut asked,
        &mut found,
        &mut queue,
        steps,
    )?;
    run(
        alloc,
        f,
        graphs,
        rows,
        e,
        more,
        mode,
        &mut methods,
        &mut hands,
        &mut asked,
        &mut found,
        &mut queue,
        steps,
    )?;
    let rows = rows_of(alloc, f, &methods, &asked, &found)?;
    Ok(Table {
        exit: e,
        mode,
        rows: List::from_vec(rows),
    })
}

/// The table of an exit: its row, and those of the exits that it demands and that have no row to hand. As `tabulate_with`, with no
/// more exits.
pub fn tabulate<G: Graphs, R: Rows, L: Ledger>(
    alloc: Global,
    f: &Facts,
    graphs: &mut G,
    rows: &mut R,
    e: ExitId,
    mode: Mode,
    steps: &mut Steps<L>,
) -> Result<Table, NoMemory>
    requires graphs { G.sound graphs.old × (G.facts graphs.old ≡ f.now) }
    requires rows { R.sound rows.old × (R.facts rows.old ≡ f.now) }
    requires exit { e.0 < length f.now.exits }
    ensures graphs { G.sound graphs.new × G.later graphs.old graphs.new }
    ensures rows { R.sound rows.new × R.later rows.old rows.new }
    ensures table { IfOk result (IsTable f.now mode e (λ d. R.surely rows.old d mode) (λ d. R.surely rows.new d mode)) }
    ensures turns { IfOk result (IsCounted f.now mode steps.old steps.new) }
{
    tabulate_with(alloc, f, graphs, rows, e, &[], mode, steps)
}
