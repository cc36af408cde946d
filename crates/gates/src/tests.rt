// What no clause says: that the calls succeed, and what waits for what.

use crate::gate::Gate;
use crate::host::GateHost;
use crate::sink::GateSink;
use crate::source::GateSource;
use edge_io::fail_plan::FailPlan;
use edge_io::host::{Entry, Host, HostError};
use edge_io::memory_host::{MemoryHost, are_paths};
use edge_io::sink::Sink;
use edge_io::source::{Fault, Source};
use slicer_ids::list::List;
use slicer_ids::name::Name;
use std::alloc::Global;
use std::test::Fail;

fn source(alloc: Global, gate: &Gate, bytes: &[u8]) -> Result<GateSource, Fail> {
    Ok(gate.source(Name::from_bytes(alloc, bytes)?)?)
}

fn sink(alloc: Global, gate: &Gate) -> Result<GateSink, Fail> {
    Ok(gate.sink(Name::from_bytes(alloc, b"out")?)?)
}

#[test]
fn a_source_holds_its_second_line(rt: HostRuntime) -> Result<(), Fail> {
    let gate = Gate::new(rt.alloc(), 3)?;
    let mut source = source(rt.alloc(), &gate, b"ab\ncd\n")?;
    let mut sink = sink(rt.alloc(), &gate)?;
    let mut into = [0u8; 8];
    assert_eq!(rt; source.read(&mut into[..2]), Ok(2));
    assert_eq!(rt; source.read(&mut into), Ok(1));
    assert_eq!(rt; into[0], b'\n');
    assert_eq!(rt; source.read(&mut into), Err(Fault));
    assert_eq!(rt; source.read(&mut into), Err(Fault));
    assert_eq!(rt; sink.write(b"x"), Ok(1));
    assert_eq!(rt; source.read(&mut into), Ok(3));
    assert_eq!(rt; &into[..3], b"cd\n".as_slice());
    assert_eq!(rt; source.read(&mut into), Ok(0));
    Ok(())
}

#[test]
fn one_line_waits_for_nothing(rt: HostRuntime) -> Result<(), Fail> {
    let gate = Gate::new(rt.alloc(), 0)?;
    for line in [b"ab\n".as_slice(), b"ab"] {
        let mut source = source(rt.alloc(), &gate, line)?;
        let mut into = [0u8; 8];
        assert_eq!(rt; source.read(&mut into), Ok(line.len()));
        assert_eq!(rt; source.read(&mut into), Ok(0));
    }
    Ok(())
}

#[test]
fn a_sink_appends(rt: HostRuntime) -> Result<(), Fail> {
    let gate = Gate::new(rt.alloc(), 0)?;
    let mut sink = sink(rt.alloc(), &gate)?;
    assert_eq!(rt; sink.write(b"ab"), Ok(2));
    assert_eq!(rt; sink.write(b"c"), Ok(1));
    assert_eq!(rt; sink.bytes(), b"abc".as_slice());
    assert_eq!(rt; sink.label(), b"out".as_slice());
    Ok(())
}

// A folder `d` with a file `d/a` of two lines.
fn sample(alloc: Global, turns: u64) -> Result<GateHost, Fail> {
    let mut files = Vec::new(alloc);
    files.push((Name::from_bytes(alloc, b"d")?, Entry::Folder))?;
    let bytes = Name::from_bytes(alloc, b"a\nb\n")?;
    files.push((Name::from_bytes(alloc, b"d/a")?, Entry::File(bytes)))?;
    if !are_paths(files.as_slice()) {
        return Err("no paths".into());
    }
    let plan = FailPlan {
        host: List::from_vec(Vec::new(alloc)),
        sources: List::from_vec(Vec::new(alloc)),
        sinks: List::from_vec(Vec::new(alloc)),
    };
    let host = MemoryHost::new(alloc, List::from_vec(files), plan)?;
    Ok(GateHost::new(alloc, host, turns)?)
}

fn is_fault(error: Option<HostError>) -> bool {
    error == Some(HostError::Fault)
}

#[test]
fn a_host_passes_on(rt: HostRuntime) -> Result<(), Fail> {
    let mut host = sample(rt.alloc(), 0)?;
    assert_eq!(rt; host.list("d")?.len(), 1);
    assert!(rt; is_fault(host.list("x").err()));
    assert_eq!(rt; host.read("d/a", 4)?.as_slice(), b"a\nb\n".as_slice());
    assert_eq!(rt; host.read("d/a", 3).err(), Some(HostError::TooLong));
    host.say(b"one")?;
    assert_eq!(rt; host.said(), b"one".as_slice());
    Ok(())
}

// The second line of each source waits for the other's sink.
#[test]
fn a_host_crosses_its_ends(rt: HostRuntime) -> Result<(), Fail> {
    let mut host = sample(rt.alloc(), 3)?;
    assert!(rt; is_fault(host.open("x").err()));
    let mut first = host.open("d/a")?;
    let mut second = host.open("d/a")?;
    assert!(rt; is_fault(host.open("d/a").err()));
    let mut one = host.create("one")?;
    let mut other = host.create("other")?;
    assert!(rt; is_fault(host.create("third").err()));
    let mut into = [0u8; 8];
    assert_eq!(rt; first.read(&mut into), Ok(2));
    assert_eq!(rt; second.read(&mut into), Ok(2));
    assert_eq!(rt; one.write(b"1"), Ok(1));
    assert_eq!(rt; first.read(&mut into), Err(Fault));
    assert_eq!(rt; second.read(&mut into), Ok(2));
    assert_eq!(rt; other.write(b"2"), Ok(1));
    assert_eq!(rt; first.read(&mut into), Ok(2));
    host.close(other)?;
    assert_eq!(rt; host.written("one"), None);
    host.close(one)?;
    assert_eq!(rt; host.written("one"), Some(b"1".as_slice()));
    assert_eq!(rt; host.written("other"), Some(b"2".as_slice()));
    Ok(())
}

fn crosses<T: Send>(_value: Option<&T>) {}

#[test]
fn may_cross_threads() {
    crosses::<Gate>(None);
    crosses::<GateSource>(None);
    crosses::<GateSink>(None);
    crosses::<GateHost>(None);
}
