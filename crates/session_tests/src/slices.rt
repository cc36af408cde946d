// Slices, lines and explanations of one session, worked out by hand.
ghost use Rattle.std.specs.Prelude.{◌≡◌, ◌<◌, All, AllPairs, true};
ghost use Rattle.slicer_ids.specs.declared.ids.Statement.{Statement};
ghost use Rattle.slicer_ids.specs.Order.{StatementBefore};
ghost use Rattle.dep_form.specs.LookUps.{IsAccessAt, IsStatement};

use crate::facts::{at, one_method};
use dep_form::access::{Access, Explanation};
use dep_form::facts::Facts;
use graph_store::store::GraphStore;
use report::LinePlace;
use session_slices::SliceFinder;
use session_slices::explaining::explain_two;
use session_slices::lines::lines_of;
use slicer_ids::ids::{MethodId, Mode, NoMemory, SiteId, Statement};
use slicer_ids::steps::Steps;
use std::alloc::Global;
use std::marker::Brand;
use std::process::Abort;
use std::sync::ledger::{Blank, Ledger};
use std::test::Fail;
use summary_memo::memo::Memo;

// The statements of the slice of a statement, over a new store and new rows.
fn sliced<L: Ledger>(
    alloc: Global,
    f: &Facts,
    seeds: &[Statement],
    mode: Mode,
    steps: &mut Steps<L>,
) -> Result<Vec<Statement>, NoMemory>
    requires { AllPairs StatementBefore seeds.now }
{
    let store = GraphStore::new(alloc, f)?;
    let mut pass = store.open_pass()?;
    let (memo, mut seat) = Memo::new(alloc, f)?;
    let mut finder = SliceFinder::new(alloc, f)?;
    finder.find(
        alloc, f, &store, &mut pass, &memo, &mut seat, seeds, mode, steps,
    )?;
    let statements = Vec::from_slice(alloc, finder.statements())?;
    Ok(statements)
}

// The statements of the thin slice of what produces an access's object.
fn produced<L: Ledger>(
    alloc: Global,
    f: &Facts,
    a: &Access,
    steps: &mut Steps<L>,
) -> Result<Vec<Statement>, NoMemory>
    requires { (s : Statement) × IsAccessAt f.now s a.now }
{
    let store = GraphStore::new(alloc, f)?;
    let mut pass = store.open_pass()?;
    let (memo, mut seat) = Memo::new(alloc, f)?;
    let mut finder = SliceFinder::new(alloc, f)?;
    finder.find_from(
        alloc,
        f,
        &store,
        &mut pass,
        &memo,
        &mut seat,
        a.object.items(),
        Mode::Thin,
        steps,
    )?;
    let statements = Vec::from_slice(alloc, finder.statements())?;
    Ok(statements)
}

// How two accesses come to one object.
fn explained<L: Ledger>(
    alloc: Global,
    f: &Facts,
    a: &Access,
    b: &Access,
    steps: &mut Steps<L>,
) -> Result<Explanation, NoMemory>
    requires left { (s : Statement) × IsAccessAt f.now s a.now }
    requires right { (s : Statement) × IsAccessAt f.now s b.now }
{
    let store = GraphStore::new(alloc, f)?;
    let mut pass = store.open_pass()?;
    let (memo, mut seat) = Memo::new(alloc, f)?;
    let mut finder = SliceFinder::new(alloc, f)?;
    explain_two(
        alloc,
        f,
        &store,
        &mut pass,
        &memo,
        &mut seat,
        &mut finder,
        a,
        b,
        steps,
    )
}

// Whether all of these are statements of the facts.
fn are_statements(f: &Facts, statements: &[Statement]) -> bool
    ensures { result ≡ true → All (IsStatement f.now) statements.now }
{
    for s in statements {
        if !f.is_statement(*s) {
            return false;
        }
    }
    true
}

fn finds_lines(
    rt: &impl Abort,
    alloc: Global,
    f: &Facts,
    statements: &[Statement],
) -> Result<(), NoMemory> {
    assert!(rt; are_statements(f, statements));
    let lines = lines_of(alloc, f, statements)?;
    assert!(rt; lines.as_slice() == &[line(None), line(Some(7))][..]);
    Ok(())
}

// A line of the method.
fn line(line: Option<u16>) -> LinePlace {
    LinePlace {
        method: MethodId(0),
        line,
    }
}

fn finds_slices<L: Ledger>(
    rt: &impl Abort,
    alloc: Global,
    f: &Facts,
    steps: &mut Steps<L>,
) -> Result<(), NoMemory> {
    let seeds = [at(300)];
    let thin = sliced(alloc, f, &seeds, Mode::Thin, steps)?;
    assert!(rt; thin.as_slice() == &[at(4), at(300)][..]);
    let full = sliced(alloc, f, &seeds, Mode::Full, steps)?;
    assert!(rt; full.as_slice() == &[at(0), at(4), at(300)][..]);
    finds_lines(rt, alloc, f, full.as_slice())
}

fn explains<L: Ledger>(
    rt: &impl Abort,
    alloc: Global,
    f: &Facts,
    steps: &mut Steps<L>,
) -> Result<(), NoMemory> {
    let Some(read) = f.access(at(4)) else {
        assert!(rt; false);
        return Ok(());
    };
    let Some(put) = f.access(at(300)) else {
        assert!(rt; false);
        return Ok(());
    };
    let statements = produced(alloc, f, put, steps)?;
    assert!(rt; statements.as_slice() == &[at(0)][..]);
    let explanation = explained(alloc, f, read, put, steps)?;
    assert!(rt; explanation.objects.items() == &[SiteId(0)][..]);
    assert!(rt; explanation.left.items() == &[at(0)][..]);
    assert!(rt; explanation.right.items() == &[at(0)][..]);
    Ok(())
}

fn finds_all<L: Ledger>(
    rt: &impl Abort,
    alloc: Global,
    f: &Facts,
    blank: Blank,
) -> Result<(), NoMemory>
    requires { (blank.name ≡ L.name) × (blank.parts ≡ L.parts) × (0 < L.parts) }
{
    let mut steps = Steps::<L>::new(blank);
    finds_slices(rt, alloc, f, &mut steps)?;
    explains(rt, alloc, f, &mut steps)
}

// The same, with a count for nobody.
fn finds(rt: &impl Abort, alloc: Global, f: &Facts) -> Result<(), NoMemory> {
    finds_all::<Brand>(rt, alloc, f, Blank::new(1))
}

#[test]
fn slices_of_one_method(rt: HostRuntime) -> Result<(), Fail> {
    let f = one_method(rt.alloc())?.expect(&rt, "facts");
    finds(&rt, rt.alloc(), &f)?;
    Ok(())
}
