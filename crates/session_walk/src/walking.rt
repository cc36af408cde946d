// A walk that goes on until its slice was found.
ghost use Rattle.std.specs.Prelude.{◌≡◌, ◌<◌, ◌↔◌, Ok, IfOk, OnOk, Contains, length, true, false};
ghost use Rattle.slicer_ids.specs.declared.ids.NodeId.{NodeId};
ghost use Rattle.slicer_ids.specs.declared.ids.ExitId.{ExitId};
ghost use Rattle.dep_form.specs.declared.facts.Facts.{Facts};
ghost use Rattle.graph_store.specs.Store.{IsPassOf, HasInputsOf, Keeps};
ghost use Rattle.summary_memo.specs.Memo.{facts_of, view_of, IsSeatOf};
ghost use Rattle.summary_memo.specs.Rule.{Knows};
ghost use Rattle.thin_slice.specs.Needs.{is_need};
ghost use Rattle.thin_slice.specs.Walks.{IsWalkOf, IsWalking, IsFresh, AreServed, IsFetched, IsCause, IsAllFetched, ModeSlice, WhenFinished, nodes_of, seeds_of};
ghost use Rattle.session_walk.specs.Missing.{all_missing};
ghost use Rattle.session_walk.specs.Knowledge.{Sees, KnowsRows, HasRows, IsNamed, IsNoRow};

use crate::known::SeatView;
use crate::seen::PassView;
use dep_form::facts::Facts;
use graph_store::graphs::PassGraphs;
use graph_store::pass::GraphPass;
use graph_store::store::GraphStore;
use slicer_ids::ids::{ExitId, Mode, NoMemory};
use slicer_ids::steps::Steps;
use std::alloc::Global;
use std::sync::ledger::Ledger;
use summary_memo::memo::{Memo, MemoSeat};
use thin_slice::Go;
use thin_slice::walk::Walk;

// Whether it names what is missing.
fn names(go: Go) -> bool
    ensures { result ≡ is_need go }
{
    match go {
        Go::Finished => false,
        _ => true,
    }
}

// Goes on as far as what the session has seen and knows allows.
fn advance<'s>(
    f: &Facts,
    store: &'s GraphStore,
    pass: &GraphPass<'s>,
    memo: &Memo,
    seat: &mut MemoSeat,
    walk: &mut Walk,
    mode: Mode,
) -> Go
    requires pass { IsPassOf store.now.cells.items pass.now }
    requires inputs { HasInputsOf f.now pass.now }
    requires seat { IsSeatOf memo.now seat.old }
    requires facts { facts_of memo.now ≡ f.now }
    requires walking { IsWalking f.now mode walk.old }
    requires served { AreServed f.now (Sees f.now pass.now) (KnowsRows f.now mode (view_of seat.old)) walk.old }
    requires last { IsFetched (Sees f.now pass.now) (KnowsRows f.now mode (view_of seat.old)) walk.old.last }
    ensures seat { IsSeatOf memo.now seat.new }
    ensures knows { Knows (view_of seat.old) (view_of seat.new) }
    ensures walking { IsWalking f.now mode walk.new }
    ensures seeds { seeds_of walk.new ≡ seeds_of walk.old }
    ensures served { AreServed f.now (Sees f.now pass.now) (KnowsRows f.now mode (view_of seat.new)) walk.new }
    ensures cause { IsCause f.now mode (seeds_of walk.old) (Sees f.now pass.now) (KnowsRows f.now mode (view_of seat.new)) result }
    ensures slice { WhenFinished result ((n : NodeId) → Contains (nodes_of walk.new) n ↔ ModeSlice f.now mode (seeds_of walk.old) n) }
    ensures fetched { WhenFinished result (IsAllFetched f.now mode (seeds_of walk.old) (Sees f.now pass.now) (KnowsRows (facts_of memo.now) mode (view_of seat.new))) }
    ensures last { walk.new.last ≡ result }
{
    let graphs = PassView {
        facts: f,
        store,
        pass,
    };
    let mut rows = SeatView { memo, seat };
    walk.go(f, &graphs, &mut rows, mode)
}

// The exits that the walk comes to next and whose rows the seat doesn't know.
fn ahead<'s>(
    alloc: Global,
    f: &Facts,
    store: &'s GraphStore,
    pass: &GraphPass<'s>,
    memo: &Memo,
    seat: &mut MemoSeat,
    walk: &Walk,
    mode: Mode,
) -> Result<Vec<ExitId>, NoMemory>
    requires pass { IsPassOf store.now.cells.items pass.now }
    requires inputs { HasInputsOf f.now pass.now }
    requires seat { IsSeatOf memo.now seat.old }
    requires facts { facts_of memo.now ≡ f.now }
    requires walk { IsWalkOf f.now walk.now }
    ensures seat { IsSeatOf memo.now seat.new }
    ensures knows { Knows (view_of seat.old) (view_of seat.new) }
    ensures exits { IfOk result (λ v. (d : ExitId) → Contains v.items d → d.0 < length f.now.exits) }
{
    let graphs = PassView {
        facts: f,
        store,
        pass,
    };
    let mut rows = SeatView { memo, seat };
    let mut exits = Vec::new(alloc);
    walk.ahead(f, &graphs, &mut rows, mode, &mut exits)?;
    Ok(exits)
}

// Sees to it that the seat knows the row of an exit. Where it has to be made, those of exits that the walk comes to next are made
// with it: one by one they would cost as much each.
fn fetch_row<'s, L: Ledger>(
    alloc: Global,
    f: &Facts,
    store: &'s GraphStore,
    pass: &mut GraphPass<'s>,
    memo: &Memo,
    seat: &mut MemoSeat,
    walk: &Walk,
    mode: Mode,
    steps: &mut Steps<L>,
    e: ExitId,
) -> Result<(), NoMemory>
    requires pass { IsPassOf store.now.cells.items pass.old }
    requires inputs { HasInputsOf f.now pass.old }
    requires seat { IsSeatOf memo.now seat.old }
    requires facts { facts_of memo.now ≡ f.now }
    requires walk { IsWalkOf f.now walk.now }
    requires exit { e.0 < length f.now.exits }
    ensures pass { IsPassOf store.now.cells.items pass.new }
    ensures inputs { HasInputsOf f.now pass.new }
    ensures keeps { Keeps pass.old pass.new }
    ensures seat { IsSeatOf memo.now seat.new }
    ensures knows { Knows (view_of seat.old) (view_of seat.new) }
    ensures known { OnOk result (KnowsRows f.now mode (view_of seat.new) e) }
{
    let more = ahead(alloc, f, store, pass, memo, seat, walk, mode)?;
    let mut graphs = PassGraphs {
        facts: f,
        store,
        pass,
    };
    memo.row_with(alloc, f, &mut graphs, seat, e, &more, mode, steps)?;
    Ok(())
}

// Fetches what was named.
fn fetch<'s, L: Ledger>(
    alloc: Global,
    f: &Facts,
    store: &'s GraphStore,
    pass: &mut GraphPass<'s>,
    memo: &Memo,
    seat: &mut MemoSeat,
    walk: &Walk,
    mode: Mode,
    steps: &mut Steps<L>,
    go: Go,
) -> Result<(), NoMemory>
    requires pass { IsPassOf store.now.cells.items pass.old }
    requires inputs { HasInputsOf f.now pass.old }
    requires seat { IsSeatOf memo.now seat.old }
    requires facts { facts_of memo.now ≡ f.now }
    requires walk { IsWalkOf f.now walk.now }
    requires named { IsNamed f.now go }
    ensures pass { IsPassOf store.now.cells.items pass.new }
    ensures inputs { HasInputsOf f.now pass.new }
    ensures keeps { Keeps pass.old pass.new }
    ensures seat { IsSeatOf memo.now seat.new }
    ensures knows { Knows (view_of seat.old) (view_of seat.new) }
    ensures fetched { OnOk result (IsFetched (Sees f.now pass.new) (KnowsRows f.now mode (view_of seat.new)) go) }
    ensures no_turn { IsNoRow go → steps.new ≡ steps.old }
{
    match go {
        Go::Finished => Ok(()),
        Go::NeedsGraph(m) => pass.fetch(store, f, m),
        Go::NeedsRow(e) => fetch_row(alloc, f, store, pass, memo, seat, walk, mode, steps, e),
    }
}

// Goes on as far as it can, and fetches what is named then; whether something was.
fn step<'s, L: Ledger>(
    alloc: Global,
    f: &Facts,
    store: &'s GraphStore,
    pass: &mut GraphPass<'s>,
    memo: &Memo,
    seat: &mut MemoSeat,
    walk: &mut Walk,
    mode: Mode,
    steps: &mut Steps<L>,
) -> Result<bool, NoMemory>
    requires pass { IsPassOf store.now.cells.items pass.old }
    requires inputs { HasInputsOf f.now pass.old }
    requires seat { IsSeatOf memo.now seat.old }
    requires facts { facts_of memo.now ≡ f.now }
    requires walking { IsWalking f.now mode walk.old }
    requires served { AreServed f.now (Sees f.now pass.old) (KnowsRows f.now mode (view_of seat.old)) walk.old }
    requires last { IsFetched (Sees f.now pass.old) (KnowsRows f.now mode (view_of seat.old)) walk.old.last }
    ensures pass { IsPassOf store.now.cells.items pass.new }
    ensures inputs { HasInputsOf f.now pass.new }
    ensures keeps { Keeps pass.old pass.new }
    ensures seat { IsSeatOf memo.now seat.new }
    ensures knows { Knows (view_of seat.old) (view_of seat.new) }
    ensures walking { IsWalking f.now mode walk.new }
    ensures seeds { seeds_of walk.new ≡ seeds_of walk.old }
    ensures served { OnOk result (AreServed f.now (Sees f.now pass.new) (KnowsRows f.now mode (view_of seat.new)) walk.new) }
    ensures last { OnOk result (IsFetched (Sees f.now pass.new) (KnowsRows f.now mode (view_of seat.new)) walk.new.last) }
    ensures less { result ≡ Ok true → all_missing f.now mode pass.new (view_of seat.new) < all_missing f.now mode pass.old (view_of seat.old) }
    ensures slice { result ≡ Ok false → (n : NodeId) → Contains (nodes_of walk.new) n ↔ ModeSlice f.now mode (seeds_of walk.old) n }
    ensures fetched { result ≡ Ok false → IsAllFetched f.now mode (seeds_of walk.old) (Sees f.now pass.new) (KnowsRows f.now mode (view_of seat.new)) }
    ensures had { IsAllFetched f.now mode (seeds_of walk.old) (Sees f.now pass.old) (KnowsRows f.now mode (view_of seat.old)) → (result ≡ Ok false) × (steps.new ≡ steps.old) }
    ensures rows { HasRows f.now mode (ModeSlice f.now mode (seeds_of walk.old)) (view_of seat.old) → steps.new ≡ steps.old }
{
    let go = advance(f, store, pass, memo, seat, walk, mode);
    if !names(go) {
        return Ok(false);
    }
    fetch(alloc, f, store, pass, memo, seat, walk, mode, steps, go)?;
    Ok(true)
}

/// Goes on from a start until the slice was found, and fetches each graph and row that it needs and that the session hasn't: a graph
/// from the method's cell or its input, a row from the shared words or by tabulation (after Horwitz, Reps and Binkley, TOPLAS 1990), with the
/// rows of the exits that it comes to next.
/// Where the session has all that the slice needs, the call takes no memory and no turn, and answers Ok; where it knows the rows alone,
/// the call takes no turn. What the session had it has after want of memory too.
pub fn walk_on<'s, L: Ledger>(
    alloc: Global,
    f: &Facts,
    store: &'s GraphStore,
    pass: &mut GraphPass<'s>,
    memo: &Memo,
    seat: &mut MemoSeat,
    walk: &mut Walk,
    mode: Mode,
    steps: &mut Steps<L>,
) -> Result<(), NoMemory>
    requires pass { IsPassOf store.now.cells.items pass.old }
    requires inputs { HasInputsOf f.now pass.old }
    requires seat { IsSeatOf memo.now seat.old }
    requires facts { facts_of memo.now ≡ f.now }
    requires walking { IsWalking f.now mode walk.old }
    requires fresh { IsFresh walk.old }
    ensures pass { IsPassOf store.now.cells.items pass.new }
    ensures inputs { HasInputsOf f.now pass.new }
    ensures keeps { Keeps pass.old pass.new }
    ensures seat { IsSeatOf memo.now seat.new }
    ensures knows { Knows (view_of seat.old) (view_of seat.new) }
    ensures walk { IsWalkOf f.now walk.new }
    ensures slice { OnOk result ((n : NodeId) → Contains (nodes_of walk.new) n ↔ ModeSlice f.now mode (seeds_of walk.old) n) }
    ensures fetched { OnOk result (IsAllFetched f.now mode (seeds_of walk.old) (Sees f.now pass.new) (KnowsRows f.now mode (view_of seat.new))) }
    ensures had { IsAllFetched f.now mode (seeds_of walk.old) (Sees f.now pass.old) (KnowsRows f.now mode (view_of seat.old)) → (result ≡ Ok tt) × (steps.new ≡ steps.old) }
    ensures rows { HasRows f.now mode (ModeSlice f.now mode (seeds_of walk.old)) (view_of seat.old) → steps.new ≡ steps.old }
{
    while step(alloc, f, store, pass, memo, seat, walk, mode, steps)? {}
    Ok(())
}
