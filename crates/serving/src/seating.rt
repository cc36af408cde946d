// A desk for each script, its seat split from the first one.
ghost use Rattle.std.specs.Prelude.{◌≡◌, ◌<◌, ◌≤◌, ◌++◌, ◌∷◌, [], length, vec_len, vec_capacity};
ghost use Rattle.summary_memo.specs.Memo.{IsSeatOf};
ghost use Rattle.serving.specs.Seated.{AreSeated, IsNext};

use crate::room::keep;
use edge_io::sink::Sink;
use edge_io::source::Source;
use sessions::desk::Desk;
use sessions::shared::Shared;
use std::alloc::Global;
use summary_memo::memo::MemoSeat;

/// A fresh desk for each source and its sink, in order, put into a list that has room for them. Where one can't be opened for want of
/// memory, its sink and those behind it are kept back, and their sources are dropped.
pub fn seat_all<'s, S: Source + Drop, K: Sink + Drop>(
    alloc: Global,
    shared: &'s Shared,
    seat: MemoSeat,
    sources: Vec<S>,
    sinks: Vec<K>,
    desks: &mut Vec<Desk<'s, S, K>>,
    back: &mut Vec<K>,
)
    requires seat { IsSeatOf shared.now.memo seat }
    requires pairs { length sources.items ≡ length sinks.items }
    requires no_desk { desks.old.items ≡ [] }
    requires none_back { back.old.items ≡ [] }
    requires room_desks { length sinks.items ≤ vec_capacity desks.old }
    requires room_back { length sinks.items ≤ vec_capacity back.old }
    ensures { AreSeated shared.now sources.items sinks.items desks.new.items back.new.items }
{
    let mut seat = seat;
    for (source, sink) in sources.into_iter().zip(sinks) {
        seat_one(alloc, shared, &mut seat, source, sink, desks, back);
    }
}

// Opens a desk, unless one before it had no memory: the sinks from that one on are kept back.
fn seat_one<'s, S: Source + Drop, K: Sink + Drop>(
    alloc: Global,
    shared: &'s Shared,
    seat: &mut MemoSeat,
    source: S,
    sink: K,
    desks: &mut Vec<Desk<'s, S, K>>,
    back: &mut Vec<K>,
)
    requires seat { IsSeatOf shared.now.memo seat.old }
    requires desks { vec_len desks.old < vec_capacity desks.old }
    requires back { vec_len back.old < vec_capacity back.old }
    ensures seat { IsSeatOf shared.now.memo seat.new }
    ensures room_desks { vec_capacity desks.new ≡ vec_capacity desks.old }
    ensures room_back { vec_capacity back.new ≡ vec_capacity back.old }
    ensures step { IsNext shared.now source sink desks.old.items back.old.items desks.new.items back.new.items }
{
    if !back.is_empty() {
        keep(back, sink);
        return;
    }
    let own = shared.memo.split(seat);
    match Desk::open(alloc, shared, own, source, sink) {
        Ok(desk) => keep(desks, desk),
        Err(error) => keep(back, error.3),
    }
}
