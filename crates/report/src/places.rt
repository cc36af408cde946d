// Methods, statements and sites as they are printed.
ghost use Rattle.std.specs.Prelude.{◌≡◌, ◌<◌, ◌++◌, codes, length, slice_get, Some, Option, ℕ};
ghost use Rattle.dep_form.specs.LookUps.{IsStatement};
ghost use Rattle.dep_form.specs.declared.texts.SiteName.{SiteName};
ghost use Rattle.slicer_ids.specs.Escapes.{printed};
ghost use Rattle.report.specs.Writing.{Wrote};
ghost use Rattle.report.specs.Texts.{method_words, place_words, statement_line, line_line, line_of, line_word, site_place, site_words, site_line};

use crate::reply::LinePlace;
use crate::writing::{write, write_last_line, write_last_number, write_name, write_spaced_number};
use dep_form::facts::Facts;
use dep_form::texts::SiteText;
use edge_io::sink::{Sink, SinkError};
use slicer_ids::ids::{MethodId, SiteId, Statement};

// Writes three names with spaces between them.
fn write_names<K: Sink>(
    sink: &mut K,
    class: &[u8],
    name: &[u8],
    descriptor: &[u8],
) -> Result<(), SinkError>
    ensures { Wrote K.written K.label K.faults K.steady (printed class.now ++ (codes " " ++ (printed name.now ++ (codes " " ++ printed descriptor.now)))) result sink.old sink.new }
{
    write_name(sink, class)?;
    write(sink, b" ")?;
    write_name(sink, name)?;
    write(sink, b" ")?;
    write_name(sink, descriptor)
}

// Writes the class, name and descriptor of a method.
fn write_method<K: Sink>(f: &Facts, method: MethodId, sink: &mut K) -> Result<(), SinkError>
    ensures { Wrote K.written K.label K.faults K.steady (method_words f.now method) result sink.old sink.new }
{
    write_names(
        sink,
        f.class_name(method),
        f.method_name(method),
        f.descriptor(method),
    )
}

// Writes a statement without its line.
fn write_place<K: Sink>(f: &Facts, s: Statement, sink: &mut K) -> Result<(), SinkError>
    ensures { Wrote K.written K.label K.faults K.steady (place_words f.now s) result sink.old sink.new }
{
    write_method(f, s.method, sink)?;
    write_spaced_number(sink, s.pc as u64)
}

// The line of a statement.
fn line_of(f: &Facts, s: Statement) -> Option<u16>
    requires { IsStatement f.now s }
    ensures { result ≡ line_of f.now s }
{
    f.line(s)
}

// Writes the line of a statement, and the end of the line.
fn write_line_of<K: Sink>(f: &Facts, s: Statement, sink: &mut K) -> Result<(), SinkError>
    requires { IsStatement f.now s }
    ensures { Wrote K.written K.label K.faults K.steady (line_word (line_of f.now s) ++ codes "\n") result sink.old sink.new }
{
    write_last_line(sink, line_of(f, s))
}

/// Writes a statement with its line.
pub fn write_statement<K: Sink>(f: &Facts, s: Statement, sink: &mut K) -> Result<(), SinkError>
    requires { IsStatement f.now s }
    ensures { Wrote K.written K.label K.faults K.steady (statement_line f.now s) result sink.old sink.new }
{
    write_place(f, s, sink)?;
    write(sink, b" ")?;
    write_line_of(f, s, sink)
}

/// Writes a line of a method.
pub fn write_line<K: Sink>(f: &Facts, place: LinePlace, sink: &mut K) -> Result<(), SinkError>
    ensures { Wrote K.written K.label K.faults K.steady (line_line f.now place.method place.line) result sink.old sink.new }
{
    write_method(f, place.method, sink)?;
    write(sink, b" ")?;
    write_last_line(sink, place.line)
}

// Writes where a site stands.
fn write_site_place<K: Sink>(
    f: &Facts,
    place: Option<Statement>,
    sink: &mut K,
) -> Result<(), SinkError>
    ensures { Wrote K.written K.label K.faults K.steady (site_place f.now place) result sink.old sink.new }
{
    match place {
        Some(s) => write_place(f, s, sink),
        None => write(sink, b"- - - 0"),
    }
}

// Writes the name of a site, where it stands, and its number there.
fn write_site_text<K: Sink>(
    f: &Facts,
    class: &[u8],
    place: Option<Statement>,
    k: u8,
    sink: &mut K,
) -> Result<(), SinkError>
    ensures { Wrote K.written K.label K.faults K.steady (site_words f.now class.now place k) result sink.old sink.new }
{
    write_name(sink, class)?;
    write(sink, b" ")?;
    write_site_place(f, place, sink)?;
    write(sink, b" ")?;
    write_last_number(sink, k as u64)
}

/// Writes a site.
pub fn write_site<K: Sink>(f: &Facts, site: SiteId, sink: &mut K) -> Result<(), SinkError>
    requires { site.0 < length f.now.sites }
    ensures { Wrote K.written K.label K.faults K.steady (site_line f.now site) result sink.old sink.new }
{
    let SiteText { class, place, k } = f.site(site);
    write_site_text(f, class, place, k, sink)
}
