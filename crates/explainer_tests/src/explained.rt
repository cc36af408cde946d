// How two accesses come to one object, by slices over new graphs and rows.
ghost use Rattle.std.specs.Prelude.{◌≡◌, Contains, IfOk};
ghost use Rattle.slicer_ids.specs.declared.ids.Statement.{Statement};
ghost use Rattle.slicer_ids.specs.Order.{StatementBefore};
ghost use Rattle.slicer_ids.specs.Sets.{IsOrderedListOf};
ghost use Rattle.dep_form.specs.LookUps.{IsAccessAt};
ghost use Rattle.dep_form.specs.Slices.{Slice, Nothing, StatementsOf};
ghost use Rattle.session_slices.specs.Rooms.{statements_in};

use dep_form::access::{Access, Explanation};
use dep_form::facts::Facts;
use explainers::explain::{accesses, explain};
use graph_store::store::GraphStore;
use session_slices::SliceFinder;
use slicer_ids::ids::{Mode, NoMemory, Statement};
use slicer_ids::steps::Steps;
use std::alloc::Global;
use std::sync::ledger::Ledger;
use summary_memo::memo::Memo;

// A copy of the statements that were found last.
fn copy_found(alloc: Global, finder: &SliceFinder) -> Result<Vec<Statement>, NoMemory>
    ensures { IfOk result (λ v. v.items ≡ statements_in finder.now) }
{
    let statements = Vec::from_slice(alloc, finder.statements())?;
    Ok(statements)
}

// The statements of the thin slice of what produces an access's object, in order.
fn produced<L: Ledger>(
    alloc: Global,
    f: &Facts,
    a: &Access,
    steps: &mut Steps<L>,
) -> Result<Vec<Statement>, NoMemory>
    requires access { (s : Statement) × IsAccessAt f.now s a.now }
    ensures statements { IfOk result (λ v. IsOrderedListOf StatementBefore v.items (StatementsOf f.now.inputs (Slice f.now.inputs Nothing (Contains a.now.object)))) }
{
    let store = GraphStore::new(alloc, f)?;
    let mut pass = store.open_pass()?;
    let (memo, mut seat) = Memo::new(alloc, f)?;
    let mut finder = SliceFinder::new(alloc, f)?;
    finder.find_from(
        alloc,
        f,
        &store,
        &mut pass,
        &memo,
        &mut seat,
        a.object.items(),
        Mode::Thin,
        steps,
    )?;
    let statements = copy_found(alloc, &finder)?;
    Ok(statements)
}

// How two accesses come to one object.
fn explain_both<L: Ledger>(
    alloc: Global,
    f: &Facts,
    a: &Access,
    b: &Access,
    steps: &mut Steps<L>,
) -> Result<Explanation, NoMemory>
    requires left { (s : Statement) × IsAccessAt f.now s a.now }
    requires right { (s : Statement) × IsAccessAt f.now s b.now }
{
    let left = produced(alloc, f, a, steps)?;
    let right = produced(alloc, f, b, steps)?;
    explain(alloc, f, a, b, left.as_slice(), right.as_slice())
}

/// How the accesses of two statements come to one object; none where one of the statements is no access.
pub fn explained<L: Ledger>(
    alloc: Global,
    f: &Facts,
    a: Statement,
    b: Statement,
    steps: &mut Steps<L>,
) -> Result<Option<Explanation>, NoMemory> {
    let Some(left) = accesses(f, a) else {
        return Ok(None);
    };
    let Some(right) = accesses(f, b) else {
        return Ok(None);
    };
    let explanation = explain_both(alloc, f, left, right, steps)?;
    Ok(Some(explanation))
}
