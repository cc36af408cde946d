// The row of an exit: found shut, or made.
ghost use Rattle.std.specs.Prelude.{◌≡◌, ◌<◌, ℕ, List, Ok, IfOk, OnOk, Contains, length};
ghost use Rattle.slicer_ids.specs.declared.ids.ExitId.{ExitId};
ghost use Rattle.dep_form.specs.Summaries.{IsRow};
ghost use Rattle.tabulate.specs.Tables.{HasExit};
ghost use Rattle.summary_memo.specs.Rule.{KnowsShut, Knows, FoundOpen, AreThere};
ghost use Rattle.summary_memo.specs.declared.row.How.TheVariants.{Found, Made};

use crate::memo::{Memo, MemoSeat};
use crate::rows::MemoRows;
use dep_form::facts::Facts;
use dep_form::graphs::Graphs;
use slicer_ids::ids::{ExitId, Mode, NoMemory};
use slicer_ids::list::List;
use slicer_ids::steps::Steps;
use std::alloc::Global;
use std::sync::ledger::Ledger;
use tabulate::table::Table;
use tabulate::tabulation::tabulate_with;

/// How a call came to a row that is shut.
#[derive(Clone, Copy, PartialEq, Eq, Debug, Drop)]
pub enum How {
    /// It was found shut.
    Found,
    /// It was found open: it was tabulated, and shut.
    Made,
}

impl Memo {
    ghost use Rattle.summary_memo.specs.Memo.{facts_of, view_of, IsSeatOf};

    /// Sees to it that the row of an exit is shut, and the seat knows it. Where a look finds it open, its table is made over the rows
    /// that are shut, with more exits at once, and all rows of the table are filled and shut: many rows of one method cost little more
    /// so than one. No lock is taken: threads may make one row at once, with the same bits. Where it is found shut the call takes one
    /// load, no memory and no turn, and looks at no other row.
    pub fn row_with<G: Graphs, L: Ledger>(
        &self,
        alloc: Global,
        f: &Facts,
        graphs: &mut G,
        seat: &mut MemoSeat,
        e: ExitId,
        more: &[ExitId],
        mode: Mode,
        steps: &mut Steps<L>,
    ) -> Result<How, NoMemory>
        requires seat { IsSeatOf self.now seat.old }
        requires facts { facts_of self.now ≡ f.now }
        requires graphs { G.sound graphs.old × (G.facts graphs.old ≡ f.now) }
        requires exit { e.0 < length f.now.exits }
        requires exits { (d : ExitId) → Contains more.now d → d.0 < length f.now.exits }
        ensures graphs { G.sound graphs.new × G.later graphs.old graphs.new }
        ensures seat { IsSeatOf self.now seat.new }
        ensures knows { Knows (view_of seat.old) (view_of seat.new) }
        ensures shut { OnOk result (KnowsShut (view_of seat.new) f.now e mode) }
        ensures more { result ≡ Ok Made → (d : ExitId) → Contains more.now d → KnowsShut (view_of seat.new) f.now d mode }
        ensures known { KnowsShut (view_of seat.old) f.now e mode → result ≡ Ok Found }
        ensures found { result ≡ Ok Found → steps.new ≡ steps.old }
        ensures open { (result ≡ Ok Found → ⊥) → FoundOpen (view_of seat.old) f.now e mode (view_of seat.new) }
    {
        if self.look(seat, e, mode) {
            return Ok(How::Found);
        }
        self.make(alloc, f, graphs, seat, e, more, mode, steps)?;
        Ok(How::Made)
    }

    /// Sees to it that the row of an exit is shut, and the seat knows it: as `row_with`, with no more exits.
    pub fn row<G: Graphs, L: Ledger>(
        &self,
        alloc: Global,
        f: &Facts,
        graphs: &mut G,
        seat: &mut MemoSeat,
        e: ExitId,
        mode: Mode,
        steps: &mut Steps<L>,
    ) -> Result<How, NoMemory>
        requires seat { IsSeatOf self.now seat.old }
        requires facts { facts_of self.now ≡ f.now }
        requires graphs { G.sound graphs.old × (G.facts graphs.old ≡ f.now) }
        requires exit { e.0 < length f.now.exits }
        ensures graphs { G.sound graphs.new × G.later graphs.old graphs.new }
        ensures seat { IsSeatOf self.now seat.new }
        ensures knows { Knows (view_of seat.old) (view_of seat.new) }
        ensures shut { OnOk result (KnowsShut (view_of seat.new) f.now e mode) }
        ensures known { KnowsShut (view_of seat.old) f.now e mode → result ≡ Ok Found }
        ensures found { result ≡ Ok Found → steps.new ≡ steps.old }
        ensures open { (result ≡ Ok Found → ⊥) → FoundOpen (view_of seat.old) f.now e mode (view_of seat.new) }
    {
        self.row_with(alloc, f, graphs, seat, e, &[], mode, steps)
    }

    // Makes the table of an exit and of more, and fills and shuts its rows.
    fn make<G: Graphs, L: Ledger>(
        &self,
        alloc: Global,
        f: &Facts,
        graphs: &mut G,
        seat: &mut MemoSeat,
        e: ExitId,
        more: &[ExitId],
        mode: Mode,
        steps: &mut Steps<L>,
    ) -> Result<(), NoMemory>
        requires seat { IsSeatOf self.now seat.old }
        requires facts { facts_of self.now ≡ f.now }
        requires graphs { G.sound graphs.old × (G.facts graphs.old ≡ f.now) }
        requires exit { e.0 < length f.now.exits }
        requires exits { (d : ExitId) → Contains more.now d → d.0 < length f.now.exits }
        ensures graphs { G.sound graphs.new × G.later graphs.old graphs.new }
        ensures seat { IsSeatOf self.now seat.new }
        ensures knows { Knows (view_of seat.old) (view_of seat.new) }
        ensures shut { OnOk result (KnowsShut (view_of seat.new) f.now e mode) }
        ensures more { OnOk result ((d : ExitId) → Contains more.now d → KnowsShut (view_of seat.new) f.now d mode) }
    {
        let table = self.table(alloc, f, graphs, seat, e, more, mode, steps)?;
        self.fill_all(seat, mode, table.rows.items());
        Ok(())
    }

    // The table of an exit and of more, over the rows that the seat finds shut.
    fn table<G: Graphs, L: Ledger>(
        &self,
        alloc: Global,
        f: &Facts,
        graphs: &mut G,
        seat: &mut MemoSeat,
        e: ExitId,
        more: &[ExitId],
        mode: Mode,
        steps: &mut Steps<L>,
    ) -> Result<Table, NoMemory>
        requires seat { IsSeatOf self.now seat.old }
        requires facts { facts_of self.now ≡ f.now }
        requires graphs { G.sound graphs.old × (G.facts graphs.old ≡ f.now) }
        requires exit { e.0 < length f.now.exits }
        requires exits { (d : ExitId) → Contains more.now d → d.0 < length f.now.exits }
        ensures graphs { G.sound graphs.new × G.later graphs.old graphs.new }
        ensures seat { IsSeatOf self.now seat.new }
        ensures knows { Knows (view_of seat.old) (view_of seat.new) }
        ensures own { IfOk result (λ t. HasExit t e) }
        ensures more { IfOk result (AreThere (view_of seat.new) f.now mode more.now) }
        ensures rows { IfOk result (λ t. (d : ExitId) (row : List ℕ) → Contains t.rows (d, row) → IsRow f.now mode d row) }
    {
        let buffer = Vec::from_elem(alloc, 0u64, self.longest())?;
        let mut rows = MemoRows {
            memo: self,
            seat,
            buffer,
        };
        let table = tabulate_with(alloc, f, graphs, &mut rows, e, more, mode, steps);
        let _seat = rows.into_seat();
        table
    }

    // Fills and shuts the row of an exit of a table.
    fn fill_one(&self, seat: &mut MemoSeat, mode: Mode, row: &(ExitId, List<u64>))
        requires seat { IsSeatOf self.now seat.old }
        requires row { IsRow (facts_of self.now) mode row.now.0 row.now.1 }
        ensures seat { IsSeatOf self.now seat.new }
        ensures knows { Knows (view_of seat.old) (view_of seat.new) }
        ensures shut { KnowsShut (view_of seat.new) (facts_of self.now) row.now.0 mode }
    {
        self.fill(seat, row.0, mode, row.1.items());
    }

    // Fills and shuts the rows of a table.
    fn fill_all(&self, seat: &mut MemoSeat, mode: Mode, rows: &[(ExitId, List<u64>)])
        requires seat { IsSeatOf self.now seat.old }
        requires rows { (d : ExitId) (row : List ℕ) → Contains rows.now (d, row) → IsRow (facts_of self.now) mode d row }
        ensures seat { IsSeatOf self.now seat.new }
        ensures knows { Knows (view_of seat.old) (view_of seat.new) }
        ensures shut { (d : ExitId) (row : List ℕ) → Contains rows.now (d, row) → KnowsShut (view_of seat.new) (facts_of self.now) d mode }
    {
        for row in rows {
            self.fill_one(seat, mode, row);
        }
    }
}
