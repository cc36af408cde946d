// Tables and rows of exits, as the tests ask for them.
ghost use Rattle.std.specs.Prelude.{◌≡◌, ◌<◌, length};
ghost use Rattle.slicer_ids.specs.declared.ids.ExitId.{ExitId};
ghost use Rattle.tabulate.specs.OwnRows.{AreOwnRows, facts_of_rows};
ghost use Rattle.summary_memo.specs.Memo.{facts_of, IsSeatOf};

use dep_form::facts::Facts;
use dep_form::listed::NoRows;
use method_graph::own::OwnGraphs;
use slicer_ids::ids::{ExitId, Mode, NoMemory};
use slicer_ids::list::List;
use slicer_ids::steps::Steps;
use std::alloc::Global;
use std::sync::ledger::{Blank, Ledger};
use summary_memo::memo::{Memo, MemoSeat};
use summary_memo::row::How;
use tabulate::own_rows::OwnRows;
use tabulate::table::Table;
use tabulate::tabulation::tabulate;

/// The table of an exit where no row is to hand.
pub fn table_of<L: Ledger>(
    alloc: Global,
    f: &Facts,
    e: ExitId,
    mode: Mode,
    blank: Blank,
) -> Result<Table, NoMemory>
    requires blank { (blank.name ≡ L.name) × (blank.parts ≡ L.parts) × (0 < L.parts) }
    requires exit { e.0 < length f.now.exits }
{
    let mut graphs = OwnGraphs::new(alloc, f)?;
    let mut rows = NoRows { facts: f };
    let mut steps = Steps::<L>::new(blank);
    tabulate(alloc, f, &mut graphs, &mut rows, e, mode, &mut steps)
}

/// Makes the table of an exit over some rows, and adds it to them. Answers how many rows it has.
pub fn add_table<L: Ledger>(
    alloc: Global,
    f: &Facts,
    rows: &mut OwnRows<'_>,
    e: ExitId,
    mode: Mode,
    blank: Blank,
) -> Result<usize, NoMemory>
    requires blank { (blank.name ≡ L.name) × (blank.parts ≡ L.parts) × (0 < L.parts) }
    requires rows { AreOwnRows rows.old × (facts_of_rows rows.old ≡ f.now) }
    requires exit { e.0 < length f.now.exits }
    ensures rows { AreOwnRows rows.new × (facts_of_rows rows.new ≡ f.now) }
{
    let mut graphs = OwnGraphs::new(alloc, f)?;
    let mut steps = Steps::<L>::new(blank);
    let table = tabulate(alloc, f, &mut graphs, rows, e, mode, &mut steps)?;
    let count = table.rows.items().len();
    rows.add(table)?;
    Ok(count)
}

/// How the row of an exit was come by.
pub fn row_of<L: Ledger>(
    alloc: Global,
    f: &Facts,
    memo: &Memo,
    seat: &mut MemoSeat,
    e: ExitId,
    mode: Mode,
    blank: Blank,
) -> Result<How, NoMemory>
    requires blank { (blank.name ≡ L.name) × (blank.parts ≡ L.parts) × (0 < L.parts) }
    requires seat { IsSeatOf memo.now seat.old }
    requires facts { facts_of memo.now ≡ f.now }
    requires exit { e.0 < length f.now.exits }
    ensures seat { IsSeatOf memo.now seat.new }
{
    let mut graphs = OwnGraphs::new(alloc, f)?;
    let mut steps = Steps::<L>::new(blank);
    memo.row(alloc, f, &mut graphs, seat, e, mode, &mut steps)
}

/// Whether a table has a row of one word for this exit.
pub fn has_row(table: &Table, exit: u32, word: u64) -> bool {
    for row in table.rows.items() {
        if row.0.0 == exit {
            return is_word(row, word);
        }
    }
    false
}

fn is_word(row: &(ExitId, List<u64>), word: u64) -> bool {
    match row.1.items() {
        [one] => *one == word,
        _ => false,
    }
}
