// The lines of statements.
ghost use Rattle.std.specs.Prelude.{◌≡◌, ◌⊎◌, ◌<◌, ◌≤◌, ◌+◌, ◌↔◌, List, All, AllPairs, Contains, IfOk, length, vec_len, vec_capacity};
ghost use Rattle.std.specs.List.{dedup};
ghost use Rattle.std.specs.List.Sorted.{IsPermutation, IsSorted};
ghost use Rattle.std.specs.Ordering.{eq_by_cmp};
ghost use Rattle.slicer_ids.specs.declared.ids.Statement.{Statement};
ghost use Rattle.slicer_ids.specs.Sets.{IsOrderedListOf};
ghost use Rattle.dep_form.specs.LookUps.{IsStatement};
ghost use Rattle.report.specs.declared.reply.LinePlace.{LinePlace};
ghost use Rattle.session_form.specs.States.{LineBefore};
ghost use Rattle.session_slices.specs.SliceLines.{place_cmp, IsLineOf, IsLineOfSome};

use crate::nodes::put;
use dep_form::facts::Facts;
use report::reply::LinePlace;
use slicer_ids::ids::{NoMemory, Statement};
use std::alloc::Global;
use std::cmp::Ordering;

// The line of a statement.
fn line_of(f: &Facts, s: Statement) -> LinePlace
    requires { IsStatement f.now s }
    ensures { IsLineOf f.now s result }
{
    LinePlace {
        method: s.method,
        line: f.line(s),
    }
}

// How two lines stand to one another.
fn compare(a: &LinePlace, b: &LinePlace) -> Ordering
    ensures { result ≡ place_cmp a.now b.now }
{
    a.method.cmp(&b.method).then(a.line.cmp(&b.line))
}

// Whether two are the same.
fn is_same(a: &LinePlace, b: &LinePlace) -> bool
    ensures { result ≡ eq_by_cmp place_cmp a.now b.now }
{
    compare(a, b).is_eq()
}

// Puts lines in order.
fn sort(lines: &mut [LinePlace])
    ensures same { IsPermutation lines.old lines.new }
    ensures sorted { IsSorted place_cmp lines.new }
{
    lines.sort_unstable_by(|a, b| compare(a, b));
}

// The lines in order.
fn sorted(lines: Vec<LinePlace>) -> Vec<LinePlace>
    ensures same { IsPermutation lines.items result.items }
    ensures sorted { IsSorted place_cmp result.items }
{
    let mut lines = lines;
    sort(lines.as_mut_slice());
    lines
}

// Keeps the first of those that are the same and stand side by side.
fn keep_first(lines: &mut Vec<LinePlace>)
    ensures { lines.new.items ≡ dedup (eq_by_cmp place_cmp) lines.old.items }
{
    lines.dedup_by(|a, b| is_same(a, b));
}

// The same lines, in order, each once.
fn in_order(lines: Vec<LinePlace>) -> Vec<LinePlace>
    ensures order { AllPairs LineBefore result.items }
    ensures members { (l : LinePlace) → Contains result.items l ↔ Contains lines.items l }
{
    let mut lines = sorted(lines);
    keep_first(&mut lines);
    lines
}

// Adds the line of each statement, for which there is room.
fn collect(f: &Facts, statements: &[Statement], lines: &mut Vec<LinePlace>)
    requires statements { All (IsStatement f.now) statements.now }
    requires room { length statements.now ≤ vec_capacity lines.old }
    requires none { vec_len lines.old ≡ 0 }
    ensures { (l : LinePlace) → Contains lines.new.items l ↔ IsLineOfSome f.now (Contains statements.now) l }
{
    for s in statements {
        let line = line_of(f, *s);
        put(lines, line);
    }
}

/// The lines of the statements, in order, each once. It takes 8 bytes a statement, and time n log n.
pub fn lines_of(
    alloc: Global,
    f: &Facts,
    statements: &[Statement],
) -> Result<Vec<LinePlace>, NoMemory>
    requires { All (IsStatement f.now) statements.now }
    ensures { IfOk result (λ v. IsOrderedListOf LineBefore v.items (IsLineOfSome f.now (Contains statements.now))) }
{
    let mut lines = Vec::with_capacity(alloc, statements.len())?;
    collect(f, statements, &mut lines);
    Ok(in_order(lines))
}
