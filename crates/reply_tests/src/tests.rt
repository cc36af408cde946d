// Texts of replies, worked out by hand.
ghost use Rattle.std.specs.Prelude.{◌≡◌, ◌<◌, All, true, length};
ghost use Rattle.slicer_ids.specs.declared.ids.SiteId.{SiteId};
ghost use Rattle.dep_form.specs.LookUps.{IsStatement};
ghost use Rattle.report.specs.Replies.{Explained, IsOfFacts};

use crate::facts::{at, one_method};
use dep_form::access::Explanation;
use dep_form::facts::Facts;
use edge_io::memory_sink::MemorySink;
use report::{CommandError, LinePlace, Reply, write_reply};
use slicer_ids::ids::{MethodId, SiteId, Statement};
use slicer_ids::list::List;
use slicer_ids::name::Name;
use std::alloc::Global;
use std::process::Abort;
use std::test::Fail;

fn sink(alloc: Global) -> Result<MemorySink, Fail> {
    let label = Name::from_bytes(alloc, b"out")?;
    Ok(MemorySink::new(alloc, label, List::from_vec(Vec::new(alloc))))
}

fn are_statements(f: &Facts, statements: &[Statement]) -> bool
    ensures { result ≡ true → All (IsStatement f.now) statements.now }
{
    for s in statements {
        if !f.is_statement(*s) {
            return false;
        }
    }
    true
}

fn are_sites(f: &Facts, sites: &[SiteId]) -> bool
    ensures { result ≡ true → All (λ (s : SiteId). s.0 < length f.now.sites) sites.now }
{
    for s in sites {
        if s.0 as usize >= f.sites.items().len() {
            return false;
        }
    }
    true
}

// Whether what the explanation names is of the facts.
fn fits(f: &Facts, e: &Explanation) -> bool
    ensures { result ≡ true → IsOfFacts f.now (Explained e.now) }
{
    if !are_sites(f, e.objects.items()) {
        return false;
    }
    if !are_statements(f, e.left.items()) {
        return false;
    }
    are_statements(f, e.right.items())
}

#[test]
fn statements_with_lines(rt: HostRuntime) -> Result<(), Fail> {
    let facts = one_method(rt.alloc())?;
    let Some(f) = facts else {
        assert!(rt; false);
        return Ok(());
    };
    let statements = [at(0), at(300)];
    let mut sink = sink(rt.alloc())?;
    let fits = are_statements(&f, &statements);
    assert!(rt; fits);
    if fits {
        let written = write_reply(&f, &Reply::Statements(&statements), &mut sink);
        assert!(rt; written.is_ok());
    }
    let text: &[u8] = b"statements 2\na/B\\5c run\\20me ([I)V 0 7\na/B\\5c run\\20me ([I)V 300 -\n";
    assert_eq!(rt; sink.bytes(), text);
    Ok(())
}

#[test]
fn lines_and_errors(rt: HostRuntime) -> Result<(), Fail> {
    let facts = one_method(rt.alloc())?;
    let Some(f) = facts else {
        assert!(rt; false);
        return Ok(());
    };
    let lines = [
        LinePlace {
            method: MethodId(0),
            line: None,
        },
        LinePlace {
            method: MethodId(0),
            line: Some(7),
        },
    ];
    let mut sink = sink(rt.alloc())?;
    assert!(rt; write_reply(&f, &Reply::Lines(&lines), &mut sink).is_ok());
    assert!(rt; write_reply(&f, &Reply::Done, &mut sink).is_ok());
    let refused = Reply::Error(CommandError::WrongArity);
    assert!(rt; write_reply(&f, &refused, &mut sink).is_ok());
    let text: &[u8] =
        b"lines 2\na/B\\5c run\\20me ([I)V -\na/B\\5c run\\20me ([I)V 7\nok\nerror 10 wrong number of words\n";
    assert_eq!(rt; sink.bytes(), text);
    Ok(())
}

#[test]
fn an_explanation(rt: HostRuntime) -> Result<(), Fail> {
    let facts = one_method(rt.alloc())?;
    let Some(f) = facts else {
        assert!(rt; false);
        return Ok(());
    };
    let objects = vec![in rt.alloc(); SiteId(0), SiteId(1)]?;
    let left = vec![in rt.alloc(); at(0)]?;
    let explanation = Explanation {
        objects: List::from_vec(objects),
        left: List::from_vec(left),
        right: List::from_vec(Vec::new(rt.alloc())),
    };
    let mut sink = sink(rt.alloc())?;
    let fits = fits(&f, &explanation);
    assert!(rt; fits);
    if fits {
        let written = write_reply(&f, &Reply::Explained(&explanation), &mut sink);
        assert!(rt; written.is_ok());
    }
    let text: &[u8] =
        b"explain\nobjects 2\n[[I a/B\\5c run\\20me ([I)V 300 1\njava/lang/String - - - 0 1\nleft 1\na/B\\5c run\\20me ([I)V 0 7\nright 0\n";
    assert_eq!(rt; sink.bytes(), text);
    Ok(())
}
