// What no clause says: that the calls succeed, and which of them fail by a plan.
ghost use Rattle.std.specs.Prelude.{◌<◌, length};

use crate::fail_plan::FailPlan;
use crate::host::{Entry, Host, HostError};
use crate::memory_host::{MemoryHost, are_paths};
use crate::memory_sink::MemorySink;
use crate::memory_source::MemorySource;
use crate::sink::{Sink, SinkError};
use crate::source::{Fault, Source};
use slicer_ids::list::List;
use slicer_ids::name::Name;
use std::test::Fail;

fn numbers(rt: &HostRuntime, of: &[u64]) -> Result<List<u64>, Fail> {
    Ok(List::from_vec(of.to_vec(rt.alloc())?))
}

fn calls(rt: &HostRuntime, path: &[u8], number: u64) -> Result<List<(Name, u64)>, Fail> {
    let mut all = Vec::new(rt.alloc());
    let name = Name::from_bytes(rt.alloc(), path)?;
    all.push((name, number))?;
    Ok(List::from_vec(all))
}

#[test]
fn source_gives_its_bytes_once(rt: HostRuntime) -> Result<(), Fail> {
    let bytes = Name::from_bytes(rt.alloc(), b"abc")?;
    let mut source = MemorySource::new(rt.alloc(), bytes, numbers(&rt, &[2])?);
    let mut into = [0u8; 2];
    assert_eq!(rt; source.read(&mut into), Ok(2));
    assert_eq!(rt; into.as_slice(), b"ab".as_slice());
    assert_eq!(rt; source.read(&mut into), Err(Fault));
    assert_eq!(rt; source.read(&mut into), Ok(1));
    assert_eq!(rt; into[0], b'c');
    assert_eq!(rt; source.read(&mut into), Ok(0));
    Ok(())
}

#[test]
fn sink_appends(rt: HostRuntime) -> Result<(), Fail> {
    let label = Name::from_bytes(rt.alloc(), b"out")?;
    let mut sink = MemorySink::new(rt.alloc(), label, numbers(&rt, &[1, 3])?);
    assert_eq!(rt; sink.write(b"ab"), Err(SinkError::Fault));
    assert_eq!(rt; sink.write(b"ab"), Ok(2));
    assert_eq!(rt; sink.write(b"c"), Err(SinkError::Fault));
    assert_eq!(rt; sink.write(b"d"), Ok(1));
    assert_eq!(rt; sink.bytes(), b"abd".as_slice());
    let (label, bytes) = sink.into_parts();
    assert_eq!(rt; label.bytes(), b"out".as_slice());
    assert_eq!(rt; bytes.bytes(), b"abd".as_slice());
    Ok(())
}

fn add_folder(rt: &HostRuntime, files: &mut Vec<(Name, Entry)>, path: &[u8]) -> Result<(), Fail> {
    let name = Name::from_bytes(rt.alloc(), path)?;
    files.push((name, Entry::Folder))?;
    Ok(())
}

fn add_file(rt: &HostRuntime, files: &mut Vec<(Name, Entry)>, path: &[u8]) -> Result<(), Fail> {
    let name = Name::from_bytes(rt.alloc(), path)?;
    let bytes = Name::from_bytes(rt.alloc(), b"xyz")?;
    files.push((name, Entry::File(bytes)))?;
    Ok(())
}

// A folder `d` with a file `a` and a folder `e`, in which a file `b` stands. The first read of `d/a` and the second write of
// `out` fail.
fn sample(rt: &HostRuntime, failing: &[u64]) -> Result<MemoryHost, Fail> {
    let mut files = Vec::new(rt.alloc());
    add_folder(rt, &mut files, b"d")?;
    add_file(rt, &mut files, b"d/a")?;
    add_folder(rt, &mut files, b"d/e")?;
    add_file(rt, &mut files, b"d/e/b")?;
    let host = numbers(rt, failing)?;
    let sources = calls(rt, b"d/a", 1)?;
    let sinks = calls(rt, b"out", 2)?;
    if !are_paths(files.as_slice()) {
        return Err("no paths".into());
    }
    let plan = FailPlan {
        host,
        sources,
        sinks,
    };
    Ok(MemoryHost::new(rt.alloc(), List::from_vec(files), plan)?)
}

#[test]
fn host_lists_a_folder(rt: HostRuntime) -> Result<(), Fail> {
    let mut host = sample(&rt, &[])?;
    let items = host.list("d")?;
    assert_eq!(rt; items.len(), 2);
    assert_eq!(rt; items[0].name.as_str(), "a");
    assert!(rt; !items[0].folder);
    assert_eq!(rt; items[1].name.as_str(), "e");
    assert!(rt; items[1].folder);
    for path in ["", "d/", "d/a", "x"] {
        assert!(rt; is_fault(host.list(path).err()), "{path}");
    }
    Ok(())
}

fn is_fault(error: Option<HostError>) -> bool {
    error == Some(HostError::Fault)
}

#[test]
fn host_reads_a_file(rt: HostRuntime) -> Result<(), Fail> {
    let mut host = sample(&rt, &[])?;
    assert_eq!(rt; host.read("d/a", 3)?.as_slice(), b"xyz".as_slice());
    assert_eq!(rt; host.read("d/a", 2).err(), Some(HostError::TooLong));
    let mut source = host.open("d/a")?;
    let mut into = [0u8; 4];
    assert_eq!(rt; source.read(&mut into), Err(Fault));
    assert_eq!(rt; source.read(&mut into), Ok(3));
    Ok(())
}

#[test]
fn host_refuses_a_wrong_path(rt: HostRuntime) -> Result<(), Fail> {
    let mut host = sample(&rt, &[])?;
    for path in ["d", "x"] {
        assert!(rt; is_fault(host.read(path, 9).err()), "{path}");
        assert!(rt; is_fault(host.open(path).err()), "{path}");
    }
    assert!(rt; is_fault(host.create("d").err()));
    let label = Name::from_bytes(rt.alloc(), b"nowhere")?;
    let stray = MemorySink::new(rt.alloc(), label, numbers(&rt, &[])?);
    assert!(rt; is_fault(host.close(stray).err()));
    Ok(())
}

// Makes the file `out` again, writes the piece, and then tries to write it once more.
fn is_rewritten(host: &mut MemoryHost, piece: &[u8]) -> Result<bool, Fail>
    requires { 0 < length piece.now }
{
    let mut out = host.create("out")?;
    let empty = host.file("out") == Some(b"".as_slice());
    let written = out.write(piece) == Ok(piece.len());
    let failed = out.write(piece) == Err(SinkError::Fault);
    host.close(out)?;
    Ok(empty && written && failed && host.file("out") == Some(piece))
}

#[test]
fn host_writes_a_file(rt: HostRuntime) -> Result<(), Fail> {
    let mut host = sample(&rt, &[])?;
    let first = is_rewritten(&mut host, b"ok")?;
    let second = is_rewritten(&mut host, b"no")?;
    assert!(rt; first && second);
    assert_eq!(rt; host.file("d"), None);
    Ok(())
}

#[test]
fn host_says(rt: HostRuntime) -> Result<(), Fail> {
    let mut host = sample(&rt, &[2])?;
    host.say(b"one ")?;
    assert!(rt; is_fault(host.say(b"lost").err()));
    host.say(b"two")?;
    assert_eq!(rt; host.said(), b"one two".as_slice());
    Ok(())
}

#[test]
fn host_fails_by_its_plan(rt: HostRuntime) -> Result<(), Fail> {
    let mut host = sample(&rt, &[1, 2, 3, 4, 6])?;
    assert!(rt; is_fault(host.list("d").err()));
    assert!(rt; is_fault(host.read("d/a", 9).err()));
    assert!(rt; is_fault(host.open("d/a").err()));
    assert!(rt; is_fault(host.create("out").err()));
    let out = host.create("out")?;
    assert!(rt; is_fault(host.close(out).err()));
    Ok(())
}

#[test]
fn paths_stand_once_and_are_texts(rt: HostRuntime) -> Result<(), Fail> {
    for (paths, holds) in [(["a", "b"], true), (["a", "a"], false)] {
        let mut files = Vec::new(rt.alloc());
        for path in paths {
            add_folder(&rt, &mut files, path.as_bytes())?;
        }
        assert_eq!(rt; are_paths(files.as_slice()), holds);
    }
    let mut files = Vec::new(rt.alloc());
    add_folder(&rt, &mut files, b"\xc3")?;
    assert!(rt; !are_paths(files.as_slice()));
    Ok(())
}

fn crosses<T: Send + Sync>(_value: Option<&T>) {}

#[test]
fn may_cross_threads() {
    crosses::<MemorySource>(None);
    crosses::<MemorySink>(None);
    crosses::<MemoryHost>(None);
    crosses::<HostError>(None);
}
