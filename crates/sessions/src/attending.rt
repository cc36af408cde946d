// A script, from its first line to its end.
ghost use Rattle.std.specs.Prelude.{◌≡◌, ◌≤◌, ◌+◌, ◌<◌, ◌^◌, ℕ, List, Some, None, true, IfSome, MatchOption, Option, take, if◌then◌else◌};
ghost use Rattle.session_form.specs.States.{AreListed};
ghost use Rattle.graph_store.specs.Store.{Keeps};
ghost use Rattle.script_lines.specs.Limits.{kept_bytes};
ghost use Rattle.summary_memo.specs.Memo.{view_of};
ghost use Rattle.summary_memo.specs.Rule.{Knows};
ghost use Rattle.sessions.specs.Sessions.{IsSessionOf};
ghost use Rattle.sessions.specs.Serving.{HasForLine, HasServed, IsServed, EndsServed};
ghost use Rattle.sessions.specs.Desks.{IsFresh, IsSinkLater, HasEnded, HasReadAll, HasCause, IsNoFault, IsTaken, IsStopped, IsLastTaken, IsTooLongTold, stopped_by};

use crate::desk::{Desk, Outcome};
use crate::replying::{answer_line, write_error};
use crate::session::Session;
use crate::shared::Shared;
use edge_io::sink::{Sink, SinkError};
use edge_io::source::Source;
use report::reply::CommandError;
use script_lines::next::Next;
use script_lines::reader::ScriptReader;
use slicer_ids::steps::Steps;
use std::alloc::Global;
use std::marker::Brand;
use std::sync::ledger::{Blank, Ledger};

// How a session ends by a refusal of its sink, or for want of memory.
fn stopped(error: SinkError, count: u64) -> Outcome
    ensures { result ≡ stopped_by error count }
{
    match error {
        SinkError::NoMemory => Outcome::NoMemory(count),
        SinkError::Fault => Outcome::WriteFault(count),
    }
}

// The replies that were written, and one more where there was one.
fn counted(count: u64, is_replied: bool) -> u64
    requires { count < 2 ^ 63 }
    ensures { result ≡ count + (if is_replied then 1 else 0) }
{
    if is_replied { count + 1 } else { count }
}

// Answers the line that was read, and writes its reply. None where the session goes on.
fn take_line<'s, K: Sink, L: Ledger>(
    alloc: Global,
    shared: &'s Shared,
    session: &mut Session<'s>,
    line: &[u8],
    sink: &mut K,
    steps: &mut Steps<L>,
    count: &mut u64,
) -> Option<Outcome>
    requires session { IsSessionOf shared.now session.old }
    requires listed { AreListed shared.now.facts }
    requires count { count.old < 2 ^ 63 }
    ensures session { IsSessionOf shared.now session.new }
    ensures keeps { Keeps session.old.pass session.new.pass }
    ensures knows { Knows (view_of session.old.seat) (view_of session.new.seat) }
    ensures needed { result ≡ None → (l : List ℕ) → line.now ≡ take kept_bytes l → HasForLine shared.now.facts l session.old.state session.new.pass (view_of session.new.seat) }
    ensures told { MatchOption result (IsTaken shared.now.facts line.now session.old.state session.new.state (K.written sink.old) (K.written sink.new) count.old count.new) (IsStopped shared.now.facts line.now session.old.state (K.written sink.old) (K.written sink.new) (K.faults sink.old) (K.faults sink.new) count.old) }
    ensures sink { IsSinkLater K.written K.label K.faults K.steady sink.old sink.new }
    ensures count { count.new ≤ count.old + 1 }
{
    match answer_line(alloc, shared, session, line, sink, steps) {
        Ok(is_replied) => {
            *count = counted(*count, is_replied);
            None
        }
        Err(error) => Some(stopped(error, *count)),
    }
}

// .. the last line.
fn take_last<'s, K: Sink, L: Ledger>(
    alloc: Global,
    shared: &'s Shared,
    session: &mut Session<'s>,
    line: &[u8],
    sink: &mut K,
    steps: &mut Steps<L>,
    count: u64,
) -> Outcome
    requires session { IsSessionOf shared.now session.old }
    requires listed { AreListed shared.now.facts }
    requires count { count < 2 ^ 63 }
    ensures session { IsSessionOf shared.now session.new }
    ensures keeps { Keeps session.old.pass session.new.pass }
    ensures knows { Knows (view_of session.old.seat) (view_of session.new.seat) }
    ensures needed { (m : ℕ) → result ≡ Outcome.Done m → (l : List ℕ) → line.now ≡ take kept_bytes l → HasForLine shared.now.facts l session.old.state session.new.pass (view_of session.new.seat) }
    ensures told { IsLastTaken shared.now.facts line.now session.old.state (K.written sink.old) (K.written sink.new) (K.faults sink.old) (K.faults sink.new) count result }
    ensures sink { IsSinkLater K.written K.label K.faults K.steady sink.old sink.new }
{
    let mut count = count;
    match take_line(alloc, shared, session, line, sink, steps, &mut count) {
        None => Outcome::Done(count),
        Some(outcome) => outcome,
    }
}

// Writes that the script is too long.
fn too_long<K: Sink>(shared: &Shared, sink: &mut K, count: u64) -> Outcome
    requires count { count < 2 ^ 63 }
    ensures told { IsTooLongTold shared.now.facts (K.written sink.old) (K.written sink.new) (K.faults sink.old) (K.faults sink.new) count result }
    ensures sink { IsSinkLater K.written K.label K.faults K.steady sink.old sink.new }
{
    match write_error(&shared.facts, CommandError::ScriptTooLong, sink) {
        Ok(_) => Outcome::Done(count + 1),
        Err(error) => stopped(error, count),
    }
}

// Reads what comes next of the script, and answers it. None where the session goes on.
fn turn<'s, S: Source, K: Sink, L: Ledger>(
    alloc: Global,
    shared: &'s Shared,
    session: &mut Session<'s>,
    reader: &mut ScriptReader,
    source: &mut S,
    sink: &mut K,
    steps: &mut Steps<L>,
    count: &mut u64,
) -> Option<Outcome>
    requires session { IsSessionOf shared.now session.old }
    requires listed { AreListed shared.now.facts }
    requires count { count.old ≤ reader.old.bytes }
    ensures session { IsSessionOf shared.now session.new }
    ensures keeps { Keeps session.old.pass session.new.pass }
    ensures knows { Knows (view_of session.old.seat) (view_of session.new.seat) }
    ensures served { (script : List ℕ) (start : Option (List ℕ)) → IsServed shared.now.facts script start reader.old (S.left source.old) session.old (K.written sink.old) count.old → MatchOption result (IsServed shared.now.facts script start reader.new (S.left source.new) session.new (K.written sink.new) count.new) (EndsServed shared.now.facts script start (S.left source.new) session.new (K.written sink.new)) }
    ensures cause { IfSome result (λ o. HasCause o (S.faults source.old) (S.faults source.new) (K.faults sink.old) (K.faults sink.new)) }
    ensures on { result ≡ None → reader.old.bytes < reader.new.bytes }
    ensures count { result ≡ None → count.new ≤ reader.new.bytes }
    ensures sink { IsSinkLater K.written K.label K.faults K.steady sink.old sink.new }
    ensures source { S.faults source.old ≤ S.faults source.new }
    ensures steady { S.steady source.new ≡ S.steady source.old }
    ensures still { S.steady source.old ≡ true → S.faults source.new ≡ S.faults source.old }
{
    match reader.next(source) {
        Next::Line => take_line(alloc, shared, session, reader.line(), sink, steps, count),
        Next::Last => Some(take_last(alloc, shared, session, reader.line(), sink, steps, *count)),
        Next::End => Some(Outcome::Done(*count)),
        Next::TooLong => Some(too_long(shared, sink, *count)),
        Next::Fault => Some(Outcome::ReadFault(*count)),
    }
}

// Attends a desk. The blank is for a count of turns that nobody reads.
fn attend_counted<'s, S: Source, K: Sink, T: Ledger>(
    alloc: Global,
    shared: &'s Shared,
    desk: &mut Desk<'s, S, K>,
    blank: Blank,
) -> Outcome
    requires blank { (blank.name ≡ T.name) × (blank.parts ≡ T.parts) × (0 < T.parts) }
    requires fresh { IsFresh shared.now desk.old }
    requires listed { AreListed shared.now.facts }
    ensures session { IsSessionOf shared.now desk.new.session }
    ensures keeps { Keeps desk.old.session.pass desk.new.session.pass }
    ensures knows { Knows (view_of desk.old.session.seat) (view_of desk.new.session.seat) }
    ensures ended { (script : List ℕ) → S.left desk.old.source ≡ Some script → HasEnded shared.now.facts script (K.written desk.old.sink) (K.written desk.new.sink) result }
    ensures read { (script : List ℕ) → S.left desk.old.source ≡ Some script → HasReadAll script (S.left desk.new.source) result }
    ensures served { (script : List ℕ) → S.left desk.old.source ≡ Some script → HasServed shared.now.facts script desk.new.session.pass (view_of desk.new.session.seat) result }
    ensures cause { HasCause result (S.faults desk.old.source) (S.faults desk.new.source) (K.faults desk.old.sink) (K.faults desk.new.sink) }
    ensures sink { IsSinkLater K.written K.label K.faults K.steady desk.old.sink desk.new.sink }
    ensures source { S.faults desk.old.source ≤ S.faults desk.new.source }
    ensures steady { S.steady desk.new.source ≡ S.steady desk.old.source }
    ensures still { S.steady desk.old.source ≡ true → S.faults desk.new.source ≡ S.faults desk.old.source }
{
    let mut steps = Steps::<T>::new(blank);
    let mut count: u64 = 0;
    loop {
        if let Some(outcome) = turn(
            alloc,
            shared,
            &mut desk.session,
            &mut desk.reader,
            &mut desk.source,
            &mut desk.sink,
            &mut steps,
            &mut count,
        ) {
            return outcome;
        }
    }
}

/// Attends a desk: reads its script line by line, answers each command, and writes each reply. It reads on only when each whole line
/// that was read is answered and its reply is written. `Done` says that the script was read to its end, and nothing is left of it,
/// or is too long, and that the text of its replies was written whole; then the session has seen the graphs, and knows the rows, that its replies needed. Else a
/// part of that text was written. What the session has seen it has seen, and what it knows it knows. A fault comes only where the count of that end
/// rose, so over steady ends it answers `Done` or `NoMemory`.
pub fn attend<'s, S: Source, K: Sink>(
    alloc: Global,
    shared: &'s Shared,
    desk: &mut Desk<'s, S, K>,
) -> Outcome
    requires fresh { IsFresh shared.now desk.old }
    requires listed { AreListed shared.now.facts }
    ensures outcome { desk.new.outcome ≡ Some result }
    ensures session { IsSessionOf shared.now desk.new.session }
    ensures keeps { Keeps desk.old.session.pass desk.new.session.pass }
    ensures knows { Knows (view_of desk.old.session.seat) (view_of desk.new.session.seat) }
    ensures ended { (script : List ℕ) → S.left desk.old.source ≡ Some script → HasEnded shared.now.facts script (K.written desk.old.sink) (K.written desk.new.sink) result }
    ensures read { (script : List ℕ) → S.left desk.old.source ≡ Some script → HasReadAll script (S.left desk.new.source) result }
    ensures served { (script : List ℕ) → S.left desk.old.source ≡ Some script → HasServed shared.now.facts script desk.new.session.pass (view_of desk.new.session.seat) result }
    ensures cause { HasCause result (S.faults desk.old.source) (S.faults desk.new.source) (K.faults desk.old.sink) (K.faults desk.new.sink) }
    ensures sure { S.steady desk.old.source ≡ true → K.steady desk.old.sink ≡ true → IsNoFault result }
    ensures sink { IsSinkLater K.written K.label K.faults K.steady desk.old.sink desk.new.sink }
    ensures source { S.faults desk.old.source ≤ S.faults desk.new.source }
    ensures steady { S.steady desk.new.source ≡ S.steady desk.old.source }
    ensures still { S.steady desk.old.source ≡ true → S.faults desk.new.source ≡ S.faults desk.old.source }
{
    let outcome = attend_counted::<S, K, Brand>(alloc, shared, desk, Blank::new(1));
    desk.outcome = Some(outcome);
    outcome
}
