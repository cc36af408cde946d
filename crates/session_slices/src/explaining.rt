// How two accesses come to one object, by slices of the session.
ghost use Rattle.std.specs.Prelude.{◌≡◌, Contains, IfOk, Ok, OnOk};
ghost use Rattle.slicer_ids.specs.declared.ids.Mode.TheVariants.{Thin};
ghost use Rattle.slicer_ids.specs.declared.ids.Statement.{Statement};
ghost use Rattle.slicer_ids.specs.Order.{StatementBefore};
ghost use Rattle.slicer_ids.specs.Sets.{IsOrderedListOf};
ghost use Rattle.dep_form.specs.Explaining.{IsExplanation};
ghost use Rattle.dep_form.specs.LookUps.{IsAccessAt};
ghost use Rattle.dep_form.specs.Slices.{StatementsOf};
ghost use Rattle.graph_store.specs.Store.{IsPassOf, HasInputsOf, Keeps};
ghost use Rattle.summary_memo.specs.Memo.{facts_of, view_of, IsSeatOf};
ghost use Rattle.summary_memo.specs.Rule.{Knows};
ghost use Rattle.session_walk.specs.Knowledge.{HasRows};
ghost use Rattle.session_slices.specs.Needs.{SliceOf, HasNeeded};
ghost use Rattle.session_slices.specs.Rooms.{IsFinderOf, statements_in};

use crate::finder::SliceFinder;
use dep_form::access::{Access, Explanation};
use dep_form::facts::Facts;
use explainers::explain::explain;
use graph_store::pass::GraphPass;
use graph_store::store::GraphStore;
use slicer_ids::ids::{Mode, NoMemory, Statement};
use slicer_ids::steps::Steps;
use std::alloc::Global;
use std::sync::ledger::Ledger;
use summary_memo::memo::{Memo, MemoSeat};

// A copy of the statements that were found last.
fn copy_found(alloc: Global, finder: &SliceFinder) -> Result<Vec<Statement>, NoMemory>
    ensures { IfOk result (λ v. v.items ≡ statements_in finder.now) }
{
    let statements = Vec::from_slice(alloc, finder.statements())?;
    Ok(statements)
}

// The statements of the thin slice of what produces an access's object, in order.
fn slice_of_access<'s, L: Ledger>(
    alloc: Global,
    f: &Facts,
    store: &'s GraphStore,
    pass: &mut GraphPass<'s>,
    memo: &Memo,
    seat: &mut MemoSeat,
    finder: &mut SliceFinder,
    a: &Access,
    steps: &mut Steps<L>,
) -> Result<Vec<Statement>, NoMemory>
    requires pass { IsPassOf store.now.cells.items pass.old }
    requires inputs { HasInputsOf f.now pass.old }
    requires seat { IsSeatOf memo.now seat.old }
    requires facts { facts_of memo.now ≡ f.now }
    requires finder { IsFinderOf f.now finder.old }
    requires access { (s : Statement) × IsAccessAt f.now s a.now }
    ensures pass { IsPassOf store.now.cells.items pass.new }
    ensures inputs { HasInputsOf f.now pass.new }
    ensures keeps { Keeps pass.old pass.new }
    ensures seat { IsSeatOf memo.now seat.new }
    ensures knows { Knows (view_of seat.old) (view_of seat.new) }
    ensures finder { IsFinderOf f.now finder.new }
    ensures statements { IfOk result (λ v. IsOrderedListOf StatementBefore v.items (StatementsOf f.now.inputs (SliceOf f.now Thin (Contains a.now.object)))) }
    ensures needed { OnOk result (HasNeeded f.now Thin (SliceOf f.now Thin (Contains a.now.object)) pass.new (view_of seat.new)) }
    ensures had { HasNeeded f.now Thin (SliceOf f.now Thin (Contains a.now.object)) pass.old (view_of seat.old) → steps.new ≡ steps.old }
    ensures rows { HasRows f.now Thin (SliceOf f.now Thin (Contains a.now.object)) (view_of seat.old) → steps.new ≡ steps.old }
{
    finder.find_from(
        alloc,
        f,
        store,
        pass,
        memo,
        seat,
        a.object.items(),
        Mode::Thin,
        steps,
    )?;
    let statements = copy_found(alloc, finder)?;
    Ok(statements)
}

/// How two accesses come to one object, by the thin slices of what produces their objects. Each graph and row that these need and
/// that the session hasn't is fetched; where the session knows the rows, no turn is taken.
pub fn explain_two<'s, L: Ledger>(
    alloc: Global,
    f: &Facts,
    store: &'s GraphStore,
    pass: &mut GraphPass<'s>,
    memo: &Memo,
    seat: &mut MemoSeat,
    finder: &mut SliceFinder,
    a: &Access,
    b: &Access,
    steps: &mut Steps<L>,
) -> Result<Explanation, NoMemory>
    requires pass { IsPassOf store.now.cells.items pass.old }
    requires inputs { HasInputsOf f.now pass.old }
    requires seat { IsSeatOf memo.now seat.old }
    requires facts { facts_of memo.now ≡ f.now }
    requires finder { IsFinderOf f.now finder.old }
    requires left { (s : Statement) × IsAccessAt f.now s a.now }
    requires right { (s : Statement) × IsAccessAt f.now s b.now }
    ensures pass { IsPassOf store.now.cells.items pass.new }
    ensures inputs { HasInputsOf f.now pass.new }
    ensures keeps { Keeps pass.old pass.new }
    ensures seat { IsSeatOf memo.now seat.new }
    ensures knows { Knows (view_of seat.old) (view_of seat.new) }
    ensures finder { IsFinderOf f.now finder.new }
    ensures explanation { IfOk result (IsExplanation f.now a.now b.now) }
    ensures left_needed { OnOk result (HasNeeded f.now Thin (SliceOf f.now Thin (Contains a.now.object)) pass.new (view_of seat.new)) }
    ensures right_needed { OnOk result (HasNeeded f.now Thin (SliceOf f.now Thin (Contains b.now.object)) pass.new (view_of seat.new)) }
    ensures had { HasNeeded f.now Thin (SliceOf f.now Thin (Contains a.now.object)) pass.old (view_of seat.old) → HasNeeded f.now Thin (SliceOf f.now Thin (Contains b.now.object)) pass.old (view_of seat.old) → steps.new ≡ steps.old }
    ensures rows { HasRows f.now Thin (SliceOf f.now Thin (Contains a.now.object)) (view_of seat.old) → HasRows f.now Thin (SliceOf f.now Thin (Contains b.now.object)) (view_of seat.old) → steps.new ≡ steps.old }
{
    let left = slice_of_access(alloc, f, store, pass, memo, seat, finder, a, steps)?;
    let right = slice_of_access(alloc, f, store, pass, memo, seat, finder, b, steps)?;
    explain(alloc, f, a, b, left.as_slice(), right.as_slice())
}
