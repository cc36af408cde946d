// The sessions of all scripts, from their desks to the last line that is said.
ghost use Rattle.std.specs.Prelude.{◌≡◌, ◌<◌, ◌≤◌, ◌^◌, [], ℕ, List, Bool, true, Option, IfOk, length, vec_capacity};
ghost use Rattle.edge_io.specs.Faults.{Rose};
ghost use Rattle.edge_io.specs.Files.{Files};
ghost use Rattle.dep_form.specs.declared.facts.Facts.{Facts};
ghost use Rattle.folder_reader.specs.Hosts.{Goes};
ghost use Rattle.session_form.specs.States.{AreListed};
ghost use Rattle.summary_memo.specs.Memo.{IsSeatOf};
ghost use Rattle.serving.specs.Ends.{AreApart};
ghost use Rattle.serving.specs.AllEnded.{AreReady, HaveAllEnded, RanOn};

use crate::closing::close_all;
use crate::ends::{Ends, close_empty};
use crate::saying::conclude;
use crate::seating::seat_all;
use crate::serve::serve;
use crate::taking::{outcomes_of, sinks_of};
use edge_io::host::Host;
use run_form::laws::ended_sessions_keep_files;
use sessions::desk::{Desk, Outcome};
use sessions::shared::Shared;
use std::alloc::{AllocError, Global};
use std::thread::Threads;
use summary_memo::memo::MemoSeat;

// Room that is taken before the sessions begin, so that their sinks can be closed whatever memory is left.
#[derive(Drop)]
struct Rooms<'s, S, K> {
    desks: Vec<Desk<'s, S, K>>,
    back: Vec<K>,
    sinks: Vec<K>,
    outcomes: Vec<Outcome>,
}

// Room for so many desks.
fn room_for<'s, S: Drop, K: Drop>(
    alloc: Global,
    count: usize,
) -> Result<Rooms<'s, S, K>, AllocError>
    ensures no_desk { IfOk result (λ r. r.desks.items ≡ []) }
    ensures none_back { IfOk result (λ r. r.back.items ≡ []) }
    ensures no_sink { IfOk result (λ r. r.sinks.items ≡ []) }
    ensures no_outcome { IfOk result (λ r. r.outcomes.items ≡ []) }
    ensures room_desks { IfOk result (λ r. count ≤ vec_capacity r.desks) }
    ensures room_back { IfOk result (λ r. count ≤ vec_capacity r.back) }
    ensures room_sinks { IfOk result (λ r. count ≤ vec_capacity r.sinks) }
    ensures room_outcomes { IfOk result (λ r. count ≤ vec_capacity r.outcomes) }
{
    let desks = Vec::with_capacity(alloc, count)?;
    let back = Vec::with_capacity(alloc, count)?;
    let sinks = Vec::with_capacity(alloc, count)?;
    let outcomes = Vec::with_capacity(alloc, count)?;
    Ok(Rooms {
        desks,
        back,
        sinks,
        outcomes,
    })
}

/// Attends a session for each script, closes the outputs, and says how each ended; the status.
pub fn attend_all<R: Threads + Sync, H: Host>(
    rt: &R,
    alloc: Global,
    host: &mut H,
    shared: &Shared,
    seat: MemoSeat,
    ends: Ends<H::In, H::Out>,
) -> u8
    requires listed { AreListed shared.now.facts }
    requires seat { IsSeatOf shared.now.memo seat }
    requires pairs { length ends.sources.items ≡ length ends.sinks.items }
    requires few { length ends.sinks.items ≤ 64 }
    requires apart { AreApart H.Out.written H.Out.label ends.sinks.items }
    ensures ran { (files : Option Files) (scripts : List (List ℕ)) → AreReady H.In.left H.In.steady H.Out.written H.Out.label H.Out.steady files (H.files host.old) (H.source_steady host.old) (H.sink_steady host.old) scripts ends.sources.items ends.sinks.items → RanOn shared.now.facts files (H.files host.new) (H.said host.old) (H.said host.new) (H.source_steady host.old) (H.sink_steady host.old) (H.steady host.old) scripts result }
    ensures fault { result ≡ 3 → Rose (H.faults host.old) (H.faults host.new) }
    ensures goes { Goes H.faults H.steady H.source_steady H.sink_steady host.old host.new }
{
    let Ends { sources, sinks } = ends;
    match room_for(alloc, sinks.len()) {
        Ok(rooms) => attend_in(rt, alloc, host, shared, seat, sources, sinks, rooms),
        Err(_) => {
            close_empty(host, sinks);
            1
        }
    }
}

// .. where there is room.
fn attend_in<'s, R: Threads + Sync, H: Host>(
    rt: &R,
    alloc: Global,
    host: &mut H,
    shared: &'s Shared,
    seat: MemoSeat,
    sources: Vec<H::In>,
    sinks: Vec<H::Out>,
    rooms: Rooms<'s, H::In, H::Out>,
) -> u8
    requires listed { AreListed shared.now.facts }
    requires seat { IsSeatOf shared.now.memo seat }
    requires pairs { length sources.items ≡ length sinks.items }
    requires few { length sinks.items ≤ 64 }
    requires apart { AreApart H.Out.written H.Out.label sinks.items }
    requires no_desk { rooms.desks.items ≡ [] }
    requires none_back { rooms.back.items ≡ [] }
    requires no_sink { rooms.sinks.items ≡ [] }
    requires no_outcome { rooms.outcomes.items ≡ [] }
    requires room_desks { length sinks.items ≤ vec_capacity rooms.desks }
    requires room_back { length sinks.items ≤ vec_capacity rooms.back }
    requires room_sinks { length sinks.items ≤ vec_capacity rooms.sinks }
    requires room_outcomes { length sinks.items ≤ vec_capacity rooms.outcomes }
    ensures ran { (files : Option Files) (scripts : List (List ℕ)) → AreReady H.In.left H.In.steady H.Out.written H.Out.label H.Out.steady files (H.files host.old) (H.source_steady host.old) (H.sink_steady host.old) scripts sources.items sinks.items → RanOn shared.now.facts files (H.files host.new) (H.said host.old) (H.said host.new) (H.source_steady host.old) (H.sink_steady host.old) (H.steady host.old) scripts result }
    ensures fault { result ≡ 3 → Rose (H.faults host.old) (H.faults host.new) }
    ensures goes { Goes H.faults H.steady H.source_steady H.sink_steady host.old host.new }
{
    let Rooms {
        mut desks,
        mut back,
        sinks: room,
        outcomes,
    } = rooms;
    seat_all(alloc, shared, seat, sources, sinks, &mut desks, &mut back);
    if !back.is_empty() {
        let kept = sinks_of(desks, back, room);
        close_empty(host, kept);
        return 1;
    }
    serve(rt, alloc, shared, &mut desks);
    let attended = desks.as_slice();
    let ended = outcomes_of(attended, outcomes);
    let taken = sinks_of(desks, back, room);
    let ends = ended.as_slice();
    finish(alloc, host, taken, ends)
}

// Closes the outputs of sessions that ended so, and says how each ended; the status.
fn finish<H: Host>(alloc: Global, host: &mut H, sinks: Vec<H::Out>, outcomes: &[Outcome]) -> u8
    requires few { length outcomes.now < 2 ^ 63 }
    requires apart { AreApart H.Out.written H.Out.label sinks.items }
    ensures ran { (f : Facts) (files : Option Files) (sources : List ℕ → Bool) (outputs : List ℕ → Bool) (scripts : List (List ℕ)) → HaveAllEnded H.Out.written H.Out.label f files (H.files host.old) sources outputs scripts outcomes.now sinks.items → RanOn f files (H.files host.new) (H.said host.old) (H.said host.new) sources outputs (H.steady host.old) scripts result }
    ensures fault { result ≡ 3 → Rose (H.faults host.old) (H.faults host.new) }
    ensures goes { Goes H.faults H.steady H.source_steady H.sink_steady host.old host.new }
{
    ended_sessions_keep_files();
    let all_closed = close_all(host, sinks);
    conclude(alloc, host, outcomes, all_closed)
}
