// Exits that are demanded: each is asked for, or its row is to hand.
ghost use Rattle.std.specs.Prelude.{◌≡◌, ◌↔◌, ◌⊎◌, ◌+◌, ◌<◌, ◌≤◌, ◌++◌, ◌∷◌, [], ℕ, IfOk, OnOk, MatchOption, IsTrue, Contains, None, length};
ghost use Rattle.slicer_ids.specs.declared.ids.NodeId.{NodeId};
ghost use Rattle.slicer_ids.specs.declared.ids.ExitId.{ExitId};
ghost use Rattle.dep_form.specs.declared.node.Edge.{Edge};
ghost use Rattle.dep_form.specs.Graphs.{HasInput};
ghost use Rattle.dep_form.specs.Summaries.{IsExitAt, IsRow};
ghost use Rattle.tabulate.specs.Frames.{number_of, IsOf};
ghost use Rattle.tabulate.specs.Hands.{hand_of};
ghost use Rattle.tabulate.specs.Methods.{IsMethodOf, AreMethods, IsMet, IsMetAs};
ghost use Rattle.tabulate.specs.Found.{Got, AreFound, IsQueue, total, waits_of};
ghost use Rattle.tabulate.specs.Tables.{IsFirst};
ghost use Rattle.tabulate.specs.States.{Holds, Demands, IsReturnFrom, IsAskStep, Meets, MeetStep};

use crate::found::{Found, ask, is_got, open};
use crate::hands::Hands;
use crate::keeping::keep;
use crate::method::{Method, find_method, is_met, met_method, owner};
use dep_form::facts::Facts;
use dep_form::graphs::Graphs;
use dep_form::node::{Edge, Label};
use dep_form::rows::Rows;
use slicer_ids::ids::{ExitId, MethodId, Mode, NoMemory, NodeId};
use slicer_ids::steps::Steps;
use std::alloc::Global;
use std::collections::VecDeque;
use std::sync::ledger::Ledger;

/// Keeps a method, unless it was met before.
pub fn meet_method<G: Graphs>(
    alloc: Global,
    f: &Facts,
    graphs: &mut G,
    m: MethodId,
    methods: &mut Vec<Option<Method>>,
) -> Result<(), NoMemory>
    requires sound { G.sound graphs.old }
    requires facts { G.facts graphs.old ≡ f.now }
    requires method { HasInput f.now.inputs m }
    requires methods { AreMethods f.now methods.old.items }
    ensures graphs { G.sound graphs.new × G.later graphs.old graphs.new }
    ensures methods { AreMethods f.now methods.new.items }
    ensures kept { (k : ℕ) (x : Method) → IsMetAs methods.old.items k x → IsMetAs methods.new.items k x }
    ensures met { OnOk result (IsMet methods.new.items m.0) }
{
    if is_met(f, methods, m) {
        return Ok(());
    }
    let graph = graphs.graph(m)?;
    let method = keep(alloc, f, m, graph)?;
    methods[m.0 as usize] = Some(method);
    Ok(())
}

/// Asks for an exit that has no row to hand.
pub fn ask_for<L: Ledger>(
    alloc: Global,
    f: &Facts,
    method: &Method,
    exit: ExitId,
    asked: &mut Vec<ExitId>,
    found: &mut Vec<Found>,
    queue: &mut VecDeque<NodeId>,
    steps: &mut Steps<L>,
) -> Result<(), NoMemory>
    requires method { IsMethodOf f.now method.now }
    requires exit { (x : NodeId) × IsExitAt f.now exit x × IsOf f.now x.0 method.now.id.0 }
    requires found { AreFound f.now found.old.items }
    requires queue { IsQueue f.now found.old.items queue.old.items }
    ensures asked { OnOk result (asked.new.items ≡ asked.old.items ++ exit ∷ []) }
    ensures goes { OnOk result (IsAskStep f.now exit found.old.items found.new.items queue.old.items queue.new.items steps.old steps.new) }
    ensures lens { OnOk result ((m : ℕ) → (m ≡ method.now.id.0 → ⊥) → length (waits_of found.new.items m) ≡ length (waits_of found.old.items m)) }
    ensures turns { steps.new + total found.old.items ≡ steps.old + total found.new.items }
{
    open(alloc, f, method, found)?;
    let number = (exit.0 - method.first_exit) as usize;
    ask(f, method, f.exit_node(exit), number, found, queue, steps)?;
    asked.push(exit)?;
    Ok(())
}

/// Whether an exit was asked for.
pub fn is_asked(f: &Facts, method: &Method, exit: ExitId, found: &Vec<Found>) -> bool
    requires method { IsMethodOf f.now method.now }
    requires exit { (x : NodeId) × IsExitAt f.now exit x × IsOf f.now x.0 method.now.id.0 }
    requires found { AreFound f.now found.now.items }
    ensures { IsTrue result ↔ ((x : NodeId) × IsExitAt f.now exit x × Got f.now found.now.items (x.0, number_of f.now x.0)) }
{
    let number = (exit.0 - method.first_exit) as usize;
    is_got(f, method, f.exit_node(exit), number, found)
}

// The row of an exit, where it is to hand, in a vector of its own.
fn copy_hand<R: Rows>(
    alloc: Global,
    f: &Facts,
    rows: &mut R,
    exit: ExitId,
    mode: Mode,
) -> Result<Option<Vec<u64>>, NoMemory>
    requires sound { R.sound rows.old }
    requires facts { R.facts rows.old ≡ f.now }
    requires exit { exit.0 < length f.now.exits }
    ensures rows { R.sound rows.new × R.later rows.old rows.new }
    ensures row { IfOk result (λ r. MatchOption r (R.surely rows.old exit mode → ⊥) (λ v. R.surely rows.new exit mode × IsRow f.now mode exit v.items)) }
{
    match rows.row(exit, mode) {
        Some(row) => {
            let row = row.to_vec(alloc)?;
            Ok(Some(row))
        }
        None => Ok(None),
    }
}

// Asks for an exit that wasn't asked for, or takes its row where it is to hand.
fn meet_new<R: Rows, L: Ledger>(
    alloc: Global,
    f: &Facts,
    rows: &mut R,
    e: ExitId,
    more: &[ExitId],
    mode: Mode,
    method: &Method,
    exit: ExitId,
    methods: &Vec<Option<Method>>,
    hands: &mut Hands,
    asked: &mut Vec<ExitId>,
    found: &mut Vec<Found>,
    queue: &mut VecDeque<NodeId>,
    steps: &mut Steps<L>,
) -> Result<(), NoMemory>
    requires rows { R.sound rows.old × (R.facts rows.old ≡ f.now) }
    requires method { IsMethodOf f.now method.now }
    requires exit { (x : NodeId) × IsExitAt f.now exit x × IsOf f.now x.0 method.now.id.0 }
    requires met { IsMet methods.now.items method.now.id.0 }
    requires demanded { Demands f.now mode (IsFirst e more.now) (Contains asked.old.items) exit }
    requires no_hand { hand_of hands.old exit.0 ≡ None }
    requires not_asked { Contains asked.old.items exit → ⊥ }
    requires holds { Holds f.now mode (IsFirst e more.now) (λ d. R.surely rows.old d mode) methods.now.items hands.old asked.old.items found.old.items queue.old.items }
    ensures rows { R.sound rows.new × R.later rows.old rows.new }
    ensures step { OnOk result (MeetStep f.now mode (IsFirst e more.now) (λ d. R.surely rows.old d mode) (λ d. R.surely rows.new d mode) (λ d. d ≡ exit) methods.now.items hands.old hands.new asked.old.items asked.new.items found.old.items found.new.items queue.old.items queue.new.items steps.old steps.new) }
    ensures turns { steps.new + total found.old.items ≡ steps.old + total found.new.items }
{
    match copy_hand(alloc, f, rows, exit, mode)? {
        Some(row) => {
            hands.add(exit, row)?;
            Ok(())
        }
        None => {
            ask_for(alloc, f, method, exit, asked, found, queue, steps)?;
            Ok(())
        }
    }
}

// Asks for an exit that is demanded, or takes its row where it is to hand, unless that was done before.
fn meet<G: Graphs, R: Rows, L: Ledger>(
    alloc: Global,
    f: &Facts,
    graphs: &mut G,
    rows: &mut R,
    e: ExitId,
    more: &[ExitId],
    mode: Mode,
    exit: ExitId,
    methods: &mut Vec<Option<Method>>,
    hands: &mut Hands,
    asked: &mut Vec<ExitId>,
    found: &mut Vec<Found>,
    queue: &mut VecDeque<NodeId>,
    steps: &mut Steps<L>,
) -> Result<(), NoMemory>
    requires graphs { G.sound graphs.old × (G.facts graphs.old ≡ f.now) }
    requires rows { R.sound rows.old × (R.facts rows.old ≡ f.now) }
    requires exit { exit.0 < length f.now.exits }
    requires demanded { Demands f.now mode (IsFirst e more.now) (Contains asked.old.items) exit }
    requires holds { Holds f.now mode (IsFirst e more.now) (λ d. R.surely rows.old d mode) methods.old.items hands.old asked.old.items found.old.items queue.old.items }
    ensures graphs { G.sound graphs.new × G.later graphs.old graphs.new }
    ensures rows { R.sound rows.new × R.later rows.old rows.new }
    ensures step { OnOk result (MeetStep f.now mode (IsFirst e more.now) (λ d. R.surely rows.old d mode) (λ d. R.surely rows.new d mode) (λ d. d ≡ exit) methods.new.items hands.old hands.new asked.old.items asked.new.items found.old.items found.new.items queue.old.items queue.new.items steps.old steps.new) }
    ensures turns { steps.new + total found.old.items ≡ steps.old + total found.new.items }
{
    if hands.has(exit) {
        return Ok(());
    }
    let m = owner(f, f.exit_node(exit));
    meet_method(alloc, f, graphs, m, methods)?;
    let Some(method) = find_method(f, methods, m) else {
        return Ok(());
    };
    if is_asked(f, method, exit, found) {
        return Ok(());
    }
    meet_new(
        alloc, f, rows, e, more, mode, method, exit, methods, hands, asked, found, queue, steps,
    )?;
    Ok(())
}

/// Asks for exits that are demanded, or takes their rows where they are to hand.
pub fn meet_all<G: Graphs, R: Rows, L: Ledger>(
    alloc: Global,
    f: &Facts,
    graphs: &mut G,
    rows: &mut R,
    e: ExitId,
    more: &[ExitId],
    mode: Mode,
    exits: &[ExitId],
    methods: &mut Vec<Option<Method>>,
    hands: &mut Hands,
    asked: &mut Vec<ExitId>,
    found: &mut Vec<Found>,
    queue: &mut VecDeque<NodeId>,
    steps: &mut Steps<L>,
) -> Result<(), NoMemory>
    requires graphs { G.sound graphs.old × (G.facts graphs.old ≡ f.now) }
    requires rows { R.sound rows.old × (R.facts rows.old ≡ f.now) }
    requires demanded { (d : ExitId) → Contains exits.now d → (d.0 < length f.now.exits) × Demands f.now mode (IsFirst e more.now) (Contains asked.old.items) d }
    requires holds { Holds f.now mode (IsFirst e more.now) (λ d. R.surely rows.old d mode) methods.old.items hands.old asked.old.items found.old.items queue.old.items }
    ensures graphs { G.sound graphs.new × G.later graphs.old graphs.new }
    ensures rows { R.sound rows.new × R.later rows.old rows.new }
    ensures step { OnOk result (MeetStep f.now mode (IsFirst e more.now) (λ d. R.surely rows.old d mode) (λ d. R.surely rows.new d mode) (Contains exits.now) methods.new.items hands.old hands.new asked.old.items asked.new.items found.old.items found.new.items queue.old.items queue.new.items steps.old steps.new) }
    ensures turns { steps.new + total found.old.items ≡ steps.old + total found.new.items }
{
    for exit in exits {
        meet(
            alloc, f, graphs, rows, e, more, mode, *exit, methods, hands, asked, found, queue,
            steps,
        )?;
    }
    Ok(())
}

// Adds the exit of an edge, if it is a return's.
fn add_exit(f: &Facts, edge: Edge, into: &mut Vec<ExitId>) -> Result<(), NoMemory>
    ensures { OnOk result ((d : ExitId) → Contains into.new.items d ↔ (Contains into.old.items d ⊎ IsReturnFrom f.now d edge)) }
{
    match edge.label {
        Label::Return(_) => {
            let Some(exit) = f.exit_of(edge.from) else {
                return Ok(());
            };
            into.push(exit)?;
            Ok(())
        }
        Label::Thin => Ok(()),
        Label::Base => Ok(()),
        Label::Call(_) => Ok(()),
    }
}

/// The exits of the returns among some edges, in a buffer that is used again.
pub fn exits_of_returns(f: &Facts, edges: &[Edge], into: &mut Vec<ExitId>) -> Result<(), NoMemory>
    ensures { OnOk result ((d : ExitId) → Contains into.new.items d ↔ ((x : Edge) × Contains edges.now x × IsReturnFrom f.now d x)) }
{
    into.clear();
    for edge in edges {
        add_exit(f, *edge, into)?;
    }
    Ok(())
}

/// Asks for the exit whose table is made.
pub fn begin<G: Graphs, L: Ledger>(
    alloc: Global,
    f: &Facts,
    graphs: &mut G,
    e: ExitId,
    more: &[ExitId],
    mode: Mode,
    methods: &mut Vec<Option<Method>>,
    hands: &Hands,
    asked: &mut Vec<ExitId>,
    found: &mut Vec<Found>,
    queue: &mut VecDeque<NodeId>,
    steps: &mut Steps<L>,
) -> Result<(), NoMemory>
    requires graphs { G.sound graphs.old × (G.facts graphs.old ≡ f.now) }
    requires exit { e.0 < length f.now.exits }
    requires holds { Holds f.now mode (IsFirst e more.now) (λ _. ⊥) methods.old.items hands.now asked.old.items found.old.items queue.old.items }
    requires none { asked.old.items ≡ [] }
    ensures graphs { G.sound graphs.new × G.later graphs.old graphs.new }
    ensures holds { OnOk result (Holds f.now mode (IsFirst e more.now) (λ _. ⊥) methods.new.items hands.now asked.new.items found.new.items queue.new.items) }
    ensures meets { OnOk result (Meets f.now hands.now hands.now asked.old.items asked.new.items found.old.items found.new.items) }
    ensures asked { OnOk result (asked.new.items ≡ e ∷ []) }
    ensures turns { steps.new + total found.old.items ≡ steps.old + total found.new.items }
{
    let m = owner(f, f.exit_node(e));
    meet_method(alloc, f, graphs, m, methods)?;
    let method = met_method(f, methods, m);
    ask_for(alloc, f, method, e, asked, found, queue, steps)?;
    Ok(())
}
