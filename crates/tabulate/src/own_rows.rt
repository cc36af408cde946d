// Rows that lie in memory.
ghost use Rattle.std.specs.Prelude.{◌≡◌, ◌↔◌, ◌++◌, ◌∷◌, [], ℕ, List, OnOk, OnErr, MatchOption, IsTrue, Contains};
ghost use Rattle.slicer_ids.specs.declared.ids.ExitId.{ExitId};
ghost use Rattle.dep_form.specs.Summaries.{IsRow};
ghost use Rattle.tabulate.specs.OwnRows.{HasRow, IsRowOf, AreOwnRows, facts_of_rows, MoreRows};

use crate::table::Table;
use dep_form::facts::Facts;
use dep_form::rows::Rows;
use slicer_ids::ids::{ExitId, Mode, NoMemory};
use slicer_ids::list::List;
use std::alloc::Global;

/// The rows of the tables that were added: those that own tabulation found.
#[derive(Drop)]
pub struct OwnRows<'a> {
    pub facts: &'a Facts,
    pub tables: Vec<Table>,
}

// The row of an exit in a list; none where it isn't there.
fn find_in(rows: &[(ExitId, List<u64>)], e: ExitId) -> Option<&[u64]>
    ensures { MatchOption result ((row : List ℕ) → Contains rows.now (e, row) → ⊥) (λ r. Contains rows.now (e, r.now)) }
{
    for row in rows {
        if row.0 == e {
            return Some(row.1.items());
        }
    }
    None
}

// Whether two modes are one.
fn same_mode(a: Mode, b: Mode) -> bool
    ensures { IsTrue result ↔ (a ≡ b) }
{
    match a {
        Mode::Thin => matches!(b, Mode::Thin),
        Mode::Full => matches!(b, Mode::Full),
    }
}

// The row of an exit in a table, if that is of the mode; none where it isn't there.
fn row_in(table: &Table, e: ExitId, mode: Mode) -> Option<&[u64]>
    ensures { MatchOption result ((row : List ℕ) → IsRowOf table.now e mode row → ⊥) (λ r. IsRowOf table.now e mode r.now) }
{
    if !same_mode(table.mode, mode) {
        return None;
    }
    find_in(table.rows.items(), e)
}

// The row of an exit in some tables; none where none of them has it.
fn find_row(tables: &Vec<Table>, e: ExitId, mode: Mode) -> Option<&[u64]>
    ensures { MatchOption result ((row : List ℕ) → HasRow tables.now.items e mode row → ⊥) (λ r. HasRow tables.now.items e mode r.now) }
{
    for table in tables {
        if let Some(row) = row_in(table, e, mode) {
            return Some(row);
        }
    }
    None
}

impl<'a> OwnRows<'a> {
    /// No row.
    pub fn new(alloc: Global, facts: &'a Facts) -> OwnRows<'a>
        ensures facts { result.facts.now ≡ facts.now }
        ensures none { result.tables.items ≡ [] }
        ensures sound { AreOwnRows result }
    {
        OwnRows {
            facts,
            tables: Vec::new(alloc),
        }
    }

    /// Adds the rows of a table. Where there is no memory the rows are as before.
    pub fn add(&mut self, table: Table) -> Result<(), NoMemory>
        requires sound { AreOwnRows self.old }
        requires rows { (d : ExitId) (row : List ℕ) → Contains table.rows (d, row) → IsRow (facts_of_rows self.old) table.mode d row }
        ensures sound { AreOwnRows self.new }
        ensures later { MoreRows self.old self.new }
        ensures added { OnOk result (self.new.tables.items ≡ self.old.tables.items ++ table ∷ []) }
        ensures same { OnErr result (self.new.tables.items ≡ self.old.tables.items) }
    {
        self.tables.push(table)?;
        Ok(())
    }
}

impl<'a> Rows for OwnRows<'a> {
    ghost use Rattle.tabulate.specs.OwnRows.{facts_of_rows, MoreRows, HasSurely, AreOwnRows, more_refl, more_trans, more_facts, more_surely};

    ghost facts = { facts_of_rows };

    ghost later = { MoreRows };

    ghost surely = { HasSurely };

    ghost sound = { AreOwnRows };

    ghost later_refl = { more_refl };

    ghost later_trans = { more_trans };

    ghost later_facts = { more_facts };

    ghost later_surely = { more_surely };

    /// One step for each row that there is.
    fn row(&mut self, e: ExitId, mode: Mode) -> Option<&[u64]> {
        find_row(&self.tables, e, mode)
    }
}
