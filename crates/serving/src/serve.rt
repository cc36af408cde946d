// Every desk on a thread of its own.
ghost use Rattle.std.specs.Prelude.{◌≡◌, ℕ, ◌<◌, All, length, slice_index_or};
ghost use Rattle.session_form.specs.States.{AreListed};
ghost use Rattle.sessions.specs.Desks.{IsFresh};
ghost use Rattle.serving.specs.Attended.{IsAttended};

use edge_io::sink::Sink;
use edge_io::source::Source;
use sessions::attending::attend;
use sessions::desk::Desk;
use sessions::shared::Shared;
use std::alloc::Global;
use std::thread;
use std::thread::Threads;

/// Attends every desk, with as many threads as desks. Sharing them out takes no memory and can't be refused. Afterwards each desk has its
/// outcome, and all that `attend` says holds of it, whatever became of the others.
pub fn serve<'s, R: Threads + Sync, S: Source + Send, K: Sink + Send>(
    rt: &R,
    alloc: Global,
    shared: &'s Shared,
    desks: &mut Vec<Desk<'s, S, K>>,
)
    requires fresh { All (IsFresh shared.now) desks.old.items }
    requires listed { AreListed shared.now.facts }
    ensures len { length desks.new.items ≡ length desks.old.items }
    ensures each { (i : ℕ) (d : _) → i < length desks.old.items → IsAttended S.left S.faults S.steady K.written K.label K.faults K.steady shared.now (slice_index_or desks.old.items i d) (slice_index_or desks.new.items i d) }
{
    serve_all(rt, alloc, shared, desks.as_mut_slice());
}

fn serve_all<'s, R: Threads + Sync, S: Source + Send, K: Sink + Send>(
    rt: &R,
    alloc: Global,
    shared: &'s Shared,
    desks: &mut [Desk<'s, S, K>],
)
    requires fresh { All (IsFresh shared.now) desks.old }
    requires listed { AreListed shared.now.facts }
    ensures each { (i : ℕ) (d : _) → i < length desks.old → IsAttended S.left S.faults S.steady K.written K.label K.faults K.steady shared.now (slice_index_or desks.old i d) (slice_index_or desks.new i d) }
{
    let count = desks.len();
    if count == 0 {
        return;
    }
    thread::for_each_mut(
        rt,
        desks,
        count,
        &|_, desk: &mut Desk<S, K>|
            requires fresh { IsFresh shared.now desk.now }
            requires listed { AreListed shared.now.facts }
            ensures { IsAttended S.left S.faults S.steady K.written K.label K.faults K.steady shared.entry.now desk.old desk.new }
        {
            attend_one(alloc, shared, desk);
        },
    );
}

// Attends one desk, by the thread that has it.
fn attend_one<'s, S: Source, K: Sink>(alloc: Global, shared: &'s Shared, desk: &mut Desk<'s, S, K>)
    requires fresh { IsFresh shared.now desk.old }
    requires listed { AreListed shared.now.facts }
    ensures { IsAttended S.left S.faults S.steady K.written K.label K.faults K.steady shared.now desk.old desk.new }
{
    attend(alloc, shared, desk);
}
