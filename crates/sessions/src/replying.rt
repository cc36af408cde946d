// Lines of a script, each answered and its reply written.
ghost use Rattle.std.specs.Prelude.{◌≡◌, ◌≢◌, ◌<◌, ℕ, List, true, false, IfOk, IfErr, OnErr, OnOk, Ok, MatchOption, take, length};
ghost use Rattle.edge_io.specs.Faults.{Rose};
ghost use Rattle.edge_io.specs.Reads.{appended};
ghost use Rattle.report.specs.Replies.{Answer, Error, IsOfFacts, answer_of, text};
ghost use Rattle.script.specs.declared.command.Command.TheVariants.{Blank};
ghost use Rattle.script_lines.specs.Limits.{kept_bytes};
ghost use Rattle.session_form.specs.Answers.{Answers};
ghost use Rattle.session_form.specs.Scripts.{IsRefusal};
ghost use Rattle.session_form.specs.States.{AreListed, State};
ghost use Rattle.graph_store.specs.Store.{Keeps};
ghost use Rattle.summary_memo.specs.Memo.{view_of};
ghost use Rattle.summary_memo.specs.Rule.{Knows};
ghost use Rattle.sessions.specs.Sessions.{IsSessionOf, answer_in};
ghost use Rattle.sessions.specs.Needed.{HasForReply};
ghost use Rattle.sessions.specs.Serving.{HasForLine};
ghost use Rattle.sessions.specs.Desks.{IsSinkLater, IsLineTold, IsLinePart, IsShown, IsPartShown};

use crate::session::Session;
use crate::shared::Shared;
use dep_form::facts::Facts;
use edge_io::sink::{Sink, SinkError};
use report::reply::{CommandError, Reply};
use report::texts::write_reply;
use script::command::{Command, LineError};
use script_lines::commands::read_command;
use slicer_ids::steps::Steps;
use std::alloc::Global;
use std::sync::ledger::Ledger;

// The error of a line that is refused; none where there was no memory to read it.
fn refusal_of(error: LineError) -> Option<CommandError>
    ensures { MatchOption result (error ≡ LineError.NoMemory) (IsRefusal error) }
{
    match error {
        LineError::NoMemory => None,
        LineError::TooLong => Some(CommandError::LineTooLong),
        LineError::Unknown => Some(CommandError::UnknownCommand),
        LineError::Arity => Some(CommandError::WrongArity),
        LineError::BadNumber => Some(CommandError::BadNumber),
    }
}

// Writes a reply; true where that was written whole.
fn write_whole<K: Sink>(f: &Facts, reply: &Reply<'_>, sink: &mut K) -> Result<bool, SinkError>
    requires { IsOfFacts f.now (answer_of reply.now) }
    ensures told { IfOk result (λ b. (b ≡ true) × (K.written sink.new ≡ appended (text f.now (answer_of reply.now)) (K.written sink.old))) }
    ensures part { OnErr result ((k : ℕ) × (k < length (text f.now (answer_of reply.now))) × (K.written sink.new ≡ appended (take k (text f.now (answer_of reply.now))) (K.written sink.old))) }
    ensures sink { IsSinkLater K.written K.label K.faults K.steady sink.old sink.new }
    ensures fault { IfErr result (λ e. e ≡ SinkError.Fault → Rose (K.faults sink.old) (K.faults sink.new)) }
{
    match write_reply(f, reply, sink) {
        Ok(()) => Ok(true),
        Err(error) => Err(error),
    }
}

/// Writes an error.
pub fn write_error<K: Sink>(f: &Facts, error: CommandError, sink: &mut K) -> Result<bool, SinkError>
    ensures told { IfOk result (λ b. (b ≡ true) × (K.written sink.new ≡ appended (text f.now (Error error)) (K.written sink.old))) }
    ensures part { OnErr result ((k : ℕ) × (k < length (text f.now (Error error))) × (K.written sink.new ≡ appended (take k (text f.now (Error error))) (K.written sink.old))) }
    ensures sink { IsSinkLater K.written K.label K.faults K.steady sink.old sink.new }
    ensures fault { IfErr result (λ e. e ≡ SinkError.Fault → Rose (K.faults sink.old) (K.faults sink.new)) }
{
    let reply = Reply::Error(error);
    write_whole(f, &reply, sink)
}

// Writes why a line is refused.
fn refuse<K: Sink>(f: &Facts, error: LineError, sink: &mut K) -> Result<bool, SinkError>
    ensures told { IfOk result (λ b. (b ≡ true) × (e : CommandError) × IsRefusal error e × (K.written sink.new ≡ appended (text f.now (Error e)) (K.written sink.old))) }
    ensures part { OnErr result ((e : CommandError) → IsRefusal error e → IsPartShown f.now (Error e) (K.written sink.old) (K.written sink.new)) }
    ensures untold { error ≡ LineError.NoMemory → K.written sink.new ≡ K.written sink.old }
    ensures sink { IsSinkLater K.written K.label K.faults K.steady sink.old sink.new }
    ensures fault { IfErr result (λ e. e ≡ SinkError.Fault → Rose (K.faults sink.old) (K.faults sink.new)) }
{
    match refusal_of(error) {
        Some(reason) => write_error(f, reason, sink),
        None => Err(SinkError::NoMemory),
    }
}

// Writes the reply to the last command.
fn say<K: Sink>(f: &Facts, session: &Session<'_>, sink: &mut K) -> Result<bool, SinkError>
    requires { IsOfFacts f.now (answer_in session.now) }
    ensures told { IfOk result (λ b. (b ≡ true) × (K.written sink.new ≡ appended (text f.now (answer_in session.now)) (K.written sink.old))) }
    ensures part { OnErr result ((k : ℕ) × (k < length (text f.now (answer_in session.now))) × (K.written sink.new ≡ appended (take k (text f.now (answer_in session.now))) (K.written sink.old))) }
    ensures sink { IsSinkLater K.written K.label K.faults K.steady sink.old sink.new }
    ensures fault { IfErr result (λ e. e ≡ SinkError.Fault → Rose (K.faults sink.old) (K.faults sink.new)) }
{
    let reply = session.reply();
    write_whole(f, &reply, sink)
}

// Answers a command, and writes the reply.
fn show<'s, K: Sink, L: Ledger>(
    alloc: Global,
    shared: &'s Shared,
    session: &mut Session<'s>,
    command: &Command,
    sink: &mut K,
    steps: &mut Steps<L>,
) -> Result<bool, SinkError>
    requires session { IsSessionOf shared.now session.old }
    requires listed { AreListed shared.now.facts }
    requires command { command.now ≢ Blank }
    ensures session { IsSessionOf shared.now session.new }
    ensures keeps { Keeps session.old.pass session.new.pass }
    ensures knows { Knows (view_of session.old.seat) (view_of session.new.seat) }
    ensures told { IfOk result (λ b. (b ≡ true) × IsShown shared.now.facts session.old.state command.now session.new.state (K.written sink.old) (K.written sink.new)) }
    ensures part { OnErr result ((a : Answer) (after : State) → Answers shared.now.facts session.old.state command.now a after → IsPartShown shared.now.facts a (K.written sink.old) (K.written sink.new)) }
    ensures needed { OnOk result (HasForReply shared.now.facts session.old.state command.now session.new.pass (view_of session.new.seat)) }
    ensures sink { IsSinkLater K.written K.label K.faults K.steady sink.old sink.new }
    ensures fault { IfErr result (λ e. e ≡ SinkError.Fault → Rose (K.faults sink.old) (K.faults sink.new)) }
{
    match session.answer(alloc, shared, command, steps) {
        Ok(()) => say(&shared.facts, session, sink),
        Err(_) => Err(SinkError::NoMemory),
    }
}

// Answers a command, and writes the reply where there is one; whether there was.
fn reply_to<'s, K: Sink, L: Ledger>(
    alloc: Global,
    shared: &'s Shared,
    session: &mut Session<'s>,
    command: &Command,
    sink: &mut K,
    steps: &mut Steps<L>,
) -> Result<bool, SinkError>
    requires session { IsSessionOf shared.now session.old }
    requires listed { AreListed shared.now.facts }
    ensures session { IsSessionOf shared.now session.new }
    ensures keeps { Keeps session.old.pass session.new.pass }
    ensures knows { Knows (view_of session.old.seat) (view_of session.new.seat) }
    ensures needed { OnOk result (HasForReply shared.now.facts session.old.state command.now session.new.pass (view_of session.new.seat)) }
    ensures blank { command.now ≡ Blank → (result ≡ Ok false) × (session.new.state ≡ session.old.state) × (K.written sink.new ≡ K.written sink.old) }
    ensures told { command.now ≢ Blank → IfOk result (λ b. (b ≡ true) × IsShown shared.now.facts session.old.state command.now session.new.state (K.written sink.old) (K.written sink.new)) }
    ensures part { OnErr result ((a : Answer) (after : State) → Answers shared.now.facts session.old.state command.now a after → IsPartShown shared.now.facts a (K.written sink.old) (K.written sink.new)) }
    ensures sink { IsSinkLater K.written K.label K.faults K.steady sink.old sink.new }
    ensures fault { IfErr result (λ e. e ≡ SinkError.Fault → Rose (K.faults sink.old) (K.faults sink.new)) }
{
    match command {
        Command::Blank => Ok(false),
        _ => show(alloc, shared, session, command, sink, steps),
    }
}

/// Answers a line, and writes the reply where there is one; whether there was. `NoMemory` is the session's or the sink's.
pub fn answer_line<'s, K: Sink, L: Ledger>(
    alloc: Global,
    shared: &'s Shared,
    session: &mut Session<'s>,
    line: &[u8],
    sink: &mut K,
    steps: &mut Steps<L>,
) -> Result<bool, SinkError>
    requires session { IsSessionOf shared.now session.old }
    requires listed { AreListed shared.now.facts }
    ensures session { IsSessionOf shared.now session.new }
    ensures keeps { Keeps session.old.pass session.new.pass }
    ensures knows { Knows (view_of session.old.seat) (view_of session.new.seat) }
    ensures needed { OnOk result ((l : List ℕ) → line.now ≡ take kept_bytes l → HasForLine shared.now.facts l session.old.state session.new.pass (view_of session.new.seat)) }
    ensures told { IfOk result (λ b. (l : List ℕ) → line.now ≡ take kept_bytes l → IsLineTold shared.now.facts l b session.old.state session.new.state (K.written sink.old) (K.written sink.new)) }
    ensures part { OnErr result ((l : List ℕ) → line.now ≡ take kept_bytes l → IsLinePart shared.now.facts l session.old.state (K.written sink.old) (K.written sink.new)) }
    ensures sink { IsSinkLater K.written K.label K.faults K.steady sink.old sink.new }
    ensures fault { IfErr result (λ e. e ≡ SinkError.Fault → Rose (K.faults sink.old) (K.faults sink.new)) }
{
    match read_command(alloc, line) {
        Ok(command) => reply_to(alloc, shared, session, &command, sink, steps),
        Err(error) => refuse(&shared.facts, error, sink),
    }
}
