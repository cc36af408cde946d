// The rows of a memo, as those ask for them that work with rows.
ghost use Rattle.std.specs.Prelude.{◌≡◌, IfOk};

use crate::memo::{Memo, MemoSeat};
use dep_form::rows::Rows;
use slicer_ids::ids::{ExitId, Mode, NoMemory};
use std::alloc::Global;

/// The rows of a memo that are shut, by way of a seat, and room for the longest. They are of the memo's facts.
#[derive(Drop)]
pub struct MemoRows<'a> {
    pub memo: &'a Memo,
    pub seat: &'a mut MemoSeat,
    pub buffer: Vec<u64>,
}

impl<'a> MemoRows<'a> {
    ghost use Rattle.summary_memo.specs.Memo.{IsSeatOf};
    ghost use Rattle.summary_memo.specs.MemoRows.{IsSound};

    /// The rows that this seat finds shut. It takes 8 bytes a word of the longest.
    pub fn new(
        alloc: Global,
        memo: &'a Memo,
        seat: &'a mut MemoSeat,
    ) -> Result<MemoRows<'a>, NoMemory>
        requires { IsSeatOf memo.now seat.old }
        ensures sound { IfOk result IsSound }
        ensures memo { IfOk result (λ m. m.memo.now ≡ memo.now) }
        ensures seat { IfOk result (λ m. m.seat.now ≡ seat.old) }
        ensures same { IfOk result (λ m. m.seat.ghost_name ≡ seat.entry.ghost_name) }
    {
        let buffer = Vec::from_elem(alloc, 0u64, memo.longest())?;
        Ok(MemoRows { memo, seat, buffer })
    }

    /// The seat, as these rows leave it. Who lent it learns by this what it knows.
    pub fn into_seat(self) -> &'a mut MemoSeat
        ensures name { result.ghost_name ≡ self.entry.seat.ghost_name }
        ensures now { result.now ≡ self.entry.seat.now }
    {
        let MemoRows {
            memo: _memo,
            seat,
            buffer: _buffer,
        } = self;
        seat
    }
}

impl<'a> Rows for MemoRows<'a> {
    ghost use Rattle.summary_memo.specs.MemoRows.{facts_of_rows, IsLater, HasSurely, IsSound, later_refl, later_trans, later_facts, later_surely};

    ghost facts = { facts_of_rows };

    ghost later = { IsLater };

    ghost surely = { HasSurely };

    ghost sound = { IsSound };

    ghost later_refl = { later_refl };

    ghost later_trans = { later_trans };

    ghost later_facts = { later_facts };

    ghost later_surely = { later_surely };

    fn row(&mut self, e: ExitId, mode: Mode) -> Option<&[u64]> {
        if self.memo.look(self.seat, e, mode) {
            let count = self.memo.width(e);
            self.memo.copy(self.seat, e, mode, &mut self.buffer);
            Some(&self.buffer[..count])
        } else {
            None
        }
    }
}
