// The rows that a session knows.
ghost use Rattle.std.specs.Prelude.{◌≡◌};

use slicer_ids::ids::{ExitId, Mode};
use summary_memo::memo::{Memo, MemoSeat};
use thin_slice::asked::KnownRows;

/// The rows of a memo that a seat knows shut. They are of the memo's facts.
#[derive(Drop)]
pub struct SeatView<'a> {
    pub memo: &'a Memo,
    pub seat: &'a mut MemoSeat,
}

impl<'a> KnownRows for SeatView<'a> {
    ghost use Rattle.session_walk.specs.Known.{facts_of_view, IsLater, KnowsRow, IsSound, later_refl, later_trans, later_facts, later_known};

    ghost facts = { facts_of_view };

    ghost later = { IsLater };

    ghost known = { KnowsRow };

    ghost sound = { IsSound };

    fn knows(&mut self, e: ExitId, mode: Mode) -> bool {
        self.memo.look(self.seat, e, mode)
    }

    fn word(&mut self, e: ExitId, mode: Mode, k: u32) -> u64 {
        self.memo.mask(self.seat, e, mode, k as usize)
    }

    ghost later_refl = { later_refl };

    ghost later_trans = { later_trans };

    ghost later_facts = { later_facts };

    ghost later_known = { later_known };
}
