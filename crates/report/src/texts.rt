// The text of a reply.
ghost use Rattle.std.specs.Prelude.{◌≡◌, ◌<◌, ◌≤◌, ◌++◌, ℕ, All, Err, OnOk, OnErr, codes, length, take, true};
ghost use Rattle.edge_io.specs.Faults.{Rose};
ghost use Rattle.edge_io.specs.Reads.{appended};
ghost use Rattle.slicer_ids.specs.declared.ids.SiteId.{SiteId};
ghost use Rattle.dep_form.specs.LookUps.{IsStatement};
ghost use Rattle.report.specs.Writing.{Wrote};
ghost use Rattle.std.specs.List.{flat_map};
ghost use Rattle.report.specs.Texts.{statement_line, line_line, site_line};
ghost use Rattle.report.specs.declared.reply.LinePlace.{LinePlace};
ghost use Rattle.report.specs.Replies.{answer_of, text, error_text, IsOfFacts, statements_text, lines_text, sites_text, explanation_text};
ghost use Rattle.report.specs.Replies as answer;

use crate::places::{write_line, write_site, write_statement};
use crate::reply::{CommandError, LinePlace, Reply};
use crate::writing::{write, write_counted};
use dep_form::access::Explanation;
use dep_form::facts::Facts;
use edge_io::sink::{Sink, SinkError};
use slicer_ids::ids::{SiteId, Statement};

// Why a command is refused.
fn error_line(error: CommandError) -> &'static [u8]
    ensures { result.now ≡ error_text error }
{
    match error {
        CommandError::NoClass => b"error 1 no such class\n",
        CommandError::NoMethod => b"error 2 no such method\n",
        CommandError::NoStatement => b"error 3 no such statement\n",
        CommandError::NoLine => b"error 4 no such line\n",
        CommandError::NoAccess => b"error 5 not a heap access\n",
        CommandError::NoSeed => b"error 6 no seed\n",
        CommandError::ScriptTooLong => b"error 7 script too long\n",
        CommandError::LineTooLong => b"error 8 line too long\n",
        CommandError::UnknownCommand => b"error 9 unknown command\n",
        CommandError::WrongArity => b"error 10 wrong number of words\n",
        CommandError::BadNumber => b"error 11 bad number\n",
    }
}

// Writes a line for each statement.
fn write_each<K: Sink>(f: &Facts, statements: &[Statement], sink: &mut K) -> Result<(), SinkError>
    requires { All (IsStatement f.now) statements.now }
    ensures { Wrote K.written K.label K.faults K.steady (flat_map (statement_line f.now) statements.now) result sink.old sink.new }
{
    for s in statements {
        write_statement(f, *s, sink)?;
    }
    Ok(())
}

// Writes a word with the number of the statements, and a line for each.
fn write_statements<K: Sink>(
    f: &Facts,
    word: &[u8],
    statements: &[Statement],
    sink: &mut K,
) -> Result<(), SinkError>
    requires { All (IsStatement f.now) statements.now }
    ensures { Wrote K.written K.label K.faults K.steady (statements_text f.now word.now statements.now) result sink.old sink.new }
{
    write_counted(sink, word, statements.len() as u64)?;
    write_each(f, statements, sink)
}

// Writes each line of a method.
fn write_each_line<K: Sink>(f: &Facts, lines: &[LinePlace], sink: &mut K) -> Result<(), SinkError>
    ensures { Wrote K.written K.label K.faults K.steady (flat_map (λ (l : LinePlace). line_line f.now l.method l.line) lines.now) result sink.old sink.new }
{
    for place in lines {
        write_line(f, *place, sink)?;
    }
    Ok(())
}

// Writes the number of the lines, and each.
fn write_lines<K: Sink>(f: &Facts, lines: &[LinePlace], sink: &mut K) -> Result<(), SinkError>
    ensures { Wrote K.written K.label K.faults K.steady (lines_text f.now lines.now) result sink.old sink.new }
{
    write_counted(sink, b"lines", lines.len() as u64)?;
    write_each_line(f, lines, sink)
}

// Writes each site.
fn write_each_site<K: Sink>(f: &Facts, sites: &[SiteId], sink: &mut K) -> Result<(), SinkError>
    requires { All (λ (s : SiteId). s.0 < length f.now.sites) sites.now }
    ensures { Wrote K.written K.label K.faults K.steady (flat_map (site_line f.now) sites.now) result sink.old sink.new }
{
    for site in sites {
        write_site(f, *site, sink)?;
    }
    Ok(())
}

// Writes the number of the sites, and each.
fn write_sites<K: Sink>(f: &Facts, sites: &[SiteId], sink: &mut K) -> Result<(), SinkError>
    requires { All (λ (s : SiteId). s.0 < length f.now.sites) sites.now }
    ensures { Wrote K.written K.label K.faults K.steady (sites_text f.now sites.now) result sink.old sink.new }
{
    write_counted(sink, b"objects", sites.len() as u64)?;
    write_each_site(f, sites, sink)
}

// Writes the objects of an explanation.
fn write_objects<K: Sink>(f: &Facts, e: &Explanation, sink: &mut K) -> Result<(), SinkError>
    requires { IsOfFacts f.now (answer.Explained e.now) }
    ensures { Wrote K.written K.label K.faults K.steady (sites_text f.now e.now.objects) result sink.old sink.new }
{
    write_sites(f, e.objects.items(), sink)
}

// Writes how the first access comes to one of them.
fn write_left<K: Sink>(f: &Facts, e: &Explanation, sink: &mut K) -> Result<(), SinkError>
    requires { IsOfFacts f.now (answer.Explained e.now) }
    ensures { Wrote K.written K.label K.faults K.steady (statements_text f.now (codes "left") e.now.left) result sink.old sink.new }
{
    write_statements(f, b"left", e.left.items(), sink)
}

// Writes how the second access does.
fn write_right<K: Sink>(f: &Facts, e: &Explanation, sink: &mut K) -> Result<(), SinkError>
    requires { IsOfFacts f.now (answer.Explained e.now) }
    ensures { Wrote K.written K.label K.faults K.steady (statements_text f.now (codes "right") e.now.right) result sink.old sink.new }
{
    write_statements(f, b"right", e.right.items(), sink)
}

// Writes the objects of an explanation, and how each access comes to one.
fn write_explanation<K: Sink>(f: &Facts, e: &Explanation, sink: &mut K) -> Result<(), SinkError>
    requires { IsOfFacts f.now (answer.Explained e.now) }
    ensures { Wrote K.written K.label K.faults K.steady (explanation_text f.now e.now) result sink.old sink.new }
{
    write(sink, b"explain\n")?;
    write_objects(f, e, sink)?;
    write_left(f, e, sink)?;
    write_right(f, e, sink)
}

// Writes a reply.
fn write_answer<K: Sink>(f: &Facts, reply: &Reply<'_>, sink: &mut K) -> Result<(), SinkError>
    requires { IsOfFacts f.now (answer_of reply.now) }
    ensures { Wrote K.written K.label K.faults K.steady (text f.now (answer_of reply.now)) result sink.old sink.new }
{
    match reply {
        Reply::Done => write(sink, b"ok\n"),
        Reply::Statements(statements) => write_statements(f, b"statements", statements, sink),
        Reply::Lines(lines) => write_lines(f, lines, sink),
        Reply::Explained(explanation) => write_explanation(f, explanation, sink),
        Reply::Error(error) => write(sink, error_line(*error)),
    }
}

/// Writes the text of a reply, piece by piece. It takes no memory but what the sink takes. After a refusal of the sink a
/// proper prefix of the text is written.
pub fn write_reply<K: Sink>(f: &Facts, reply: &Reply<'_>, sink: &mut K) -> Result<(), SinkError>
    requires { IsOfFacts f.now (answer_of reply.now) }
    ensures whole { OnOk result (K.written sink.new ≡ appended (text f.now (answer_of reply.now)) (K.written sink.old)) }
    ensures part { OnErr result ((k : ℕ) × (k < length (text f.now (answer_of reply.now))) × (K.written sink.new ≡ appended (take k (text f.now (answer_of reply.now))) (K.written sink.old))) }
    ensures label { K.label sink.new ≡ K.label sink.old }
    ensures count { K.faults sink.old ≤ K.faults sink.new }
    ensures fault { result ≡ Err SinkError.Fault → Rose (K.faults sink.old) (K.faults sink.new) }
    ensures steady { K.steady sink.new ≡ K.steady sink.old }
    ensures still { K.steady sink.old ≡ true → K.faults sink.new ≡ K.faults sink.old }
    // A steady sink refuses for want of memory alone.
    ensures sure { K.steady sink.old ≡ true → result ≡ Err SinkError.Fault → ⊥ }
{
    write_answer(f, reply, sink)
}
