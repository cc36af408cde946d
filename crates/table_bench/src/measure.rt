// The time that each way takes, and whether both find the same.
ghost use Rattle.std.specs.Prelude.{◌≡◌, ◌<◌, length};

use crate::generated::{Shape, Sizes, program};
use crate::pairs::Pairs;
use anyhow::{Result, bail};
use bench_tools::watch::Watch;
use dep_form::facts::Facts;
use dep_form::listed::NoRows;
use method_graph::own::OwnGraphs;
use slicer_ids::ids::{ExitId, Mode, NoMemory, NodeId};
use slicer_ids::list::List;
use slicer_ids::steps::Steps;
use std::alloc::Global;
use std::marker::Brand;
use std::sync::ledger::{Blank, Ledger};
use tabulate::table::Table;
use tabulate::tabulation::tabulate;

/// Which ways are taken.
#[derive(Clone, Copy, PartialEq, Eq, Debug, Drop)]
pub enum Ways {
    Words,
    Pairs,
    Both,
}

/// The table of an exit where no row is to hand.
fn table_of<L: Ledger>(
    alloc: Global,
    f: &Facts,
    e: ExitId,
    mode: Mode,
    blank: Blank,
) -> Result<Table, NoMemory>
    requires blank { (blank.name ≡ L.name) × (blank.parts ≡ L.parts) × (0 < L.parts) }
    requires exit { e.0 < length f.now.exits }
{
    let mut graphs = OwnGraphs::new(alloc, f)?;
    let mut rows = NoRows { facts: f };
    let mut steps = Steps::<L>::new(blank);
    tabulate(alloc, f, &mut graphs, &mut rows, e, mode, &mut steps)
}

fn bit_count(row: &List<u64>) -> usize {
    let mut count: usize = 0;
    for word in row.items() {
        count = count.saturating_add(word.count_ones() as usize);
    }
    count
}

fn row_count(table: &Table) -> usize {
    let mut count: usize = 0;
    for row in table.rows.items() {
        count = count.saturating_add(bit_count(&row.1));
    }
    count
}

fn has_bit(word: u64, bit: u32) -> bool
    requires { bit < 64 }
{
    (word >> bit) & 1 == 1
}

// Whether each formal of a word leads to the exit pair by pair. Formals of the method are its first nodes.
fn is_word_found(pairs: &Pairs, exit: ExitId, base: u32, word: u64) -> bool {
    for bit in 0..64u32 {
        let formal = NodeId(base.saturating_add(bit));
        if has_bit(word, bit) && !pairs.has(formal, exit) {
            return false;
        }
    }
    true
}

fn is_row_found(pairs: &Pairs, exit: ExitId, row: &List<u64>) -> bool {
    let mut base: u32 = 0;
    for word in row.items() {
        if !is_word_found(pairs, exit, base, *word) {
            return false;
        }
        base = base.saturating_add(64);
    }
    bit_count(row) == pairs.formal_count(exit)
}

fn are_rows_found(pairs: &Pairs, table: &Table) -> bool {
    for row in table.rows.items() {
        if !is_row_found(pairs, row.0, &row.1) {
            return false;
        }
    }
    true
}

fn by_words(rt: &HostRuntime, facts: &Facts, exit: ExitId) -> Result<Table>
    requires { exit.0 < length facts.now.exits }
{
    let watch = Watch::start(rt)?;
    let table = table_of::<Brand>(rt.alloc(), facts, exit, Mode::Thin, Blank::new(1))?;
    let spent = watch.spent(rt)?;
    let rows = table.rows.items().len();
    println!(rt;
        "  by words: {} summary edges in {rows} rows, {spent}",
        row_count(&table)
    )?;
    Ok(table)
}

fn by_pairs(rt: &HostRuntime, facts: &Facts, exit: ExitId) -> Result<Pairs> {
    let watch = Watch::start(rt)?;
    let pairs = Pairs::of(rt.alloc(), facts, exit, Mode::Thin)?;
    let spent = watch.spent(rt)?;
    println!(rt; "  by pairs: {} path edges, {spent}", pairs.count())?;
    Ok(pairs)
}

fn compare(rt: &HostRuntime, facts: &Facts, exit: ExitId) -> Result<()>
    requires { exit.0 < length facts.now.exits }
{
    let table = by_words(rt, facts, exit)?;
    let pairs = by_pairs(rt, facts, exit)?;
    if !are_rows_found(&pairs, &table) || pairs.exit_count() != table.rows.items().len() {
        bail!("the rows differ");
    }
    println!(rt; "  the same rows")?;
    Ok(())
}

/// Prints how long the ways take over a generated program of this shape with a method of so many nodes.
pub fn measure(rt: &HostRuntime, shape: Shape, nodes: u32, ways: Ways) -> Result<()> {
    let sizes = Sizes::of(nodes);
    let Some(facts) = program(rt.alloc(), shape, sizes)? else {
        bail!("the parts don't fit together");
    };
    let exit = ExitId(sizes.locations);
    if exit.0 as usize >= facts.exits.items().len() {
        bail!("there is no such exit");
    }
    println!(rt;
        "{} nodes, {} exits, edges {shape}",
        sizes.nodes, sizes.locations
    )?;
    match ways {
        Ways::Words => {
            let _table = by_words(rt, &facts, exit)?;
            Ok(())
        }
        Ways::Pairs => {
            let _pairs = by_pairs(rt, &facts, exit)?;
            Ok(())
        }
        Ways::Both => compare(rt, &facts, exit),
    }
}
