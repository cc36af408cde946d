// Two threads that fill a row each, and what is known when both are back.
ghost use Rattle.std.specs.Prelude.{◌≡◌};
ghost use Rattle.sharing_tests.specs.OneMethod.{IsOneMethod, only_exit};
ghost use Rattle.slicer_ids.specs.declared.ids.Mode.TheVariants.{Thin, Full};
ghost use Rattle.summary_memo.specs.Memo.{facts_of, view_of, IsSeatOf};
ghost use Rattle.summary_memo.specs.Rule.{KnowsShut};

use slicer_ids::ids::{ExitId, Mode};
use std::thread::{Threads, join};
use summary_memo::memo::{Memo, MemoSeat};

// Fills the row of the exit: the argument flows to what is answered.
fn filled(memo: &Memo, seat: MemoSeat, mode: Mode) -> MemoSeat
    requires seat { IsSeatOf memo.now seat }
    requires facts { IsOneMethod (facts_of memo.now) }
    ensures seat { IsSeatOf memo.now result }
    ensures shut { KnowsShut (view_of result) (facts_of memo.now) only_exit mode }
{
    let mut seat = seat;
    memo.fill(&mut seat, ExitId(0), mode, &[1]);
    seat
}

/// Fills the rows of both modes at once. The seat that comes back knows both shut.
pub fn fill_both<R: Threads + Sync>(rt: &R, memo: &Memo, seat: MemoSeat) -> MemoSeat
    requires seat { IsSeatOf memo.now seat }
    requires facts { IsOneMethod (facts_of memo.now) }
    ensures seat { IsSeatOf memo.now result }
    ensures thin { KnowsShut (view_of result) (facts_of memo.now) only_exit Thin }
    ensures full { KnowsShut (view_of result) (facts_of memo.now) only_exit Full }
{
    let mut seat = seat;
    let other = memo.split(&mut seat);
    let (mut one, two) = join(
        rt,
        move || -> MemoSeat
            requires { IsSeatOf memo.now seat × IsOneMethod (facts_of memo.now) }
            ensures { IsSeatOf memo.entry.now result × KnowsShut (view_of result) (facts_of memo.entry.now) only_exit Thin }
        { filled(memo, seat, Mode::Thin) },
        move || -> MemoSeat
            requires { IsSeatOf memo.now other × IsOneMethod (facts_of memo.now) }
            ensures { IsSeatOf memo.entry.now result × KnowsShut (view_of result) (facts_of memo.entry.now) only_exit Full }
        { filled(memo, other, Mode::Full) },
    );
    memo.join(&mut one, two);
    one
}
