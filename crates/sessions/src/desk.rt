// A session that attends a script.
ghost use Rattle.std.specs.Prelude.{◌≡◌, IfOk, IfErr, None, Some};
ghost use Rattle.summary_memo.specs.Memo.{view_of, IsSeatOf};
ghost use Rattle.sessions.specs.Desks.{IsFresh};

use crate::session::Session;
use crate::shared::Shared;
use edge_io::sink::Sink;
use edge_io::source::Source;
use script_lines::reader::ScriptReader;
use slicer_ids::ids::NoMemory;
use std::alloc::Global;
use summary_memo::memo::MemoSeat;

/// How a session ended, with the number of replies that were written whole.
#[derive(Clone, Copy, PartialEq, Eq, Debug, Drop)]
pub enum Outcome {
    /// The script was read to its end, or is too long; all was written.
    Done(u64),
    /// The source failed.
    ReadFault(u64),
    /// The sink failed.
    WriteFault(u64),
    /// The session, or the sink, had no memory.
    NoMemory(u64),
}

/// A session with the source of its script and the sink of its replies, and how it ended, once it did.
#[derive(Drop)]
pub struct Desk<'s, S, K> {
    pub source: S,
    pub sink: K,
    pub outcome: Option<Outcome>,
    pub(crate) session: Session<'s>,
    pub(crate) reader: ScriptReader,
}

impl<'s, S: Source, K: Sink> Desk<'s, S, K> {
    /// A desk that hasn't been attended. What it was given is given back where there is no memory.
    pub fn open(
        alloc: Global,
        shared: &'s Shared,
        seat: MemoSeat,
        source: S,
        sink: K,
    ) -> Result<Desk<'s, S, K>, (NoMemory, MemoSeat, S, K)>
        requires { IsSeatOf shared.now.memo seat }
        ensures fresh { IfOk result (IsFresh shared.now) }
        ensures seat { IfOk result (λ d. view_of d.session.seat ≡ view_of seat) }
        ensures ends { IfOk result (λ d. (d.source ≡ source) × (d.sink ≡ sink)) }
        ensures back { IfErr result (λ e. (e.1 ≡ seat) × (e.2 ≡ source) × (e.3 ≡ sink)) }
    {
        let reader = match ScriptReader::new(alloc) {
            Ok(reader) => reader,
            Err(error) => return Err((error, seat, source, sink)),
        };
        let session = match Session::open(alloc, shared, seat) {
            Ok(session) => session,
            Err(error) => return Err((error.0, error.1, source, sink)),
        };
        Ok(Desk {
            source,
            sink,
            outcome: None,
            session,
            reader,
        })
    }
}
