// A host whose two sessions wait for each other.
ghost use Rattle.std.specs.Prelude.{◌≡◌, ◌≤◌, ℕ, List, [], Err, IfOk, MatchOption};
ghost use Rattle.edge_io.specs.Faults.{Rose};
ghost use Rattle.gates.specs.Gates.{left_of, IsWritten};

use crate::gate::Gate;
use crate::sink::GateSink;
use crate::source::GateSource;
use edge_io::host::{Host, HostError, Item};
use edge_io::memory_host::MemoryHost;
use slicer_ids::ids::NoMemory;
use slicer_ids::name::Name;
use std::alloc::Global;

/// A host in memory whose sources wait for its sinks: the first source for the second sink, and the second source for the first sink.
/// So two sessions, each with a source and a sink in the order in which they are made, are served only where both run at once. There is
/// no third source and no third sink. What was written stays in the sinks, and not in the files.
#[derive(Drop)]
pub struct GateHost {
    alloc: Global,
    host: MemoryHost,
    first: Gate,
    second: Gate,
    opened: u8,
    created: u8,
    faults: u64,
    one: Option<GateSink>,
    other: Option<GateSink>,
}

impl GateHost {
    ghost use Rattle.std.specs.Prelude.{◌≡◌, ◌≤◌, ◌⊎◌, ℕ, List, [], None, Err, MatchOption, IfOk};
    ghost use Rattle.edge_io.specs.declared.host.HostError.{HostError};
    ghost use Rattle.gates.specs.Gates.{IsWritten};

    /// A host over these files, whose sources wait for so many turns at most, each time that they are read.
    pub fn new(alloc: Global, host: MemoryHost, turns: u64) -> Result<GateHost, NoMemory>
        ensures host { IfOk result (λ h. h.host ≡ host) }
        ensures start { IfOk result (λ h. h.faults ≡ 0) }
        ensures closed { IfOk result (λ h. (h.one ≡ None) × (h.other ≡ None)) }
    {
        let first = Gate::new(alloc, turns)?;
        let second = Gate::new(alloc, turns)?;
        Ok(GateHost {
            alloc,
            host,
            first,
            second,
            opened: 0,
            created: 0,
            faults: 0,
            one: None,
            other: None,
        })
    }

    /// The bytes said so far.
    pub fn said(&self) -> &[u8]
        ensures { result.now ≡ self.now.host.said.items }
    {
        self.host.said()
    }

    /// What was written to a closed sink with this label. `None` exactly where no such sink was closed.
    pub fn written(&self, label: &str) -> Option<&[u8]>
        ensures { MatchOption result ((b : List ℕ) → (IsWritten self.now.one label.now b → ⊥) × (IsWritten self.now.other label.now b → ⊥))
            (λ b. IsWritten self.now.one label.now b.now ⊎ IsWritten self.now.other label.now b.now) }
    {
        match written_to(&self.one, label) {
            Some(bytes) => Some(bytes),
            None => written_to(&self.other, label),
        }
    }

    // Counts a fault.
    fn fault(&mut self) -> HostError
        ensures fault { (result ≡ HostError.Fault) × Rose self.old.faults self.new.faults × (self.old.faults ≤ self.new.faults) }
        ensures host { self.new.host ≡ self.old.host }
    {
        self.faults = self.faults.saturating_add(1);
        HostError::Fault
    }

    // Counts the memory host's refusal where it is a fault.
    fn refused(&mut self, error: HostError) -> HostError
        ensures same { result ≡ error }
        ensures count { self.old.faults ≤ self.new.faults }
        ensures fault { result ≡ HostError.Fault → Rose self.old.faults self.new.faults }
    {
        match error {
            HostError::Fault => self.fault(),
            HostError::NoMemory => error,
            HostError::TooLong => error,
        }
    }

    // The next source, over these bytes.
    fn next_source(&mut self, bytes: Name) -> Result<GateSource, HostError>
        ensures left { IfOk result (λ s. left_of s ≡ bytes) }
        ensures kinds { result ≡ Err HostError.TooLong → ⊥ }
        ensures count { self.old.faults ≤ self.new.faults }
        ensures fault { result ≡ Err HostError.Fault → Rose self.old.faults self.new.faults }
    {
        let source = match self.opened {
            0 => self.first.source(bytes)?,
            1 => self.second.source(bytes)?,
            _ => return Err(self.fault()),
        };
        self.opened = self.opened.saturating_add(1);
        Ok(source)
    }

    // The next sink, with this label.
    fn next_sink(&mut self, label: Name) -> Result<GateSink, HostError>
        ensures label { IfOk result (λ s. s.label ≡ label) }
        ensures empty { IfOk result (λ s. s.bytes.items ≡ []) }
        ensures kinds { result ≡ Err HostError.TooLong → ⊥ }
        ensures count { self.old.faults ≤ self.new.faults }
        ensures fault { result ≡ Err HostError.Fault → Rose self.old.faults self.new.faults }
    {
        let sink = match self.created {
            0 => self.second.sink(label)?,
            1 => self.first.sink(label)?,
            _ => return Err(self.fault()),
        };
        self.created = self.created.saturating_add(1);
        Ok(sink)
    }
}

// What was written to the sink, where there is one with this label.
fn written_to<'a>(sink: &'a Option<GateSink>, label: &str) -> Option<&'a [u8]>
    ensures { MatchOption result ((b : List ℕ) → IsWritten sink.now label.now b → ⊥) (λ b. IsWritten sink.now label.now b.now) }
{
    match sink {
        Some(sink) if sink.label() == label.as_bytes() => Some(sink.bytes()),
        _ => None,
    }
}

impl Host for GateHost {
    type In = GateSource;

    type Out = GateSink;

    ghost use Rattle.std.specs.Prelude.{None, false};

    ghost files = { λ _. None };

    ghost said = { λ _. None };

    ghost faults = { λ h. h.faults };

    ghost steady = { λ _. false };

    ghost source_steady = { λ _ _. false };

    ghost sink_steady = { λ _ _. false };

    fn list(&mut self, path: &str) -> Result<Vec<Item>, HostError> {
        match self.host.list(path) {
            Ok(items) => Ok(items),
            Err(error) => Err(self.refused(error)),
        }
    }

    fn read(&mut self, path: &str, limit: u64) -> Result<Vec<u8>, HostError> {
        match self.host.read(path, limit) {
            Ok(bytes) => Ok(bytes),
            Err(error) => Err(self.refused(error)),
        }
    }

    fn open(&mut self, path: &str) -> Result<GateSource, HostError> {
        let Some(bytes) = self.host.file(path) else {
            return Err(self.fault());
        };
        let bytes = Name::from_bytes(self.alloc, bytes)?;
        self.next_source(bytes)
    }

    fn create(&mut self, path: &str) -> Result<GateSink, HostError> {
        let label = Name::from_bytes(self.alloc, path.as_bytes())?;
        self.next_sink(label)
    }

    fn close(&mut self, out: GateSink) -> Result<(), HostError> {
        if self.one.is_none() {
            self.one = Some(out);
        } else {
            self.other = Some(out);
        }
        Ok(())
    }

    fn say(&mut self, bytes: &[u8]) -> Result<(), HostError> {
        match self.host.say(bytes) {
            Ok(()) => Ok(()),
            Err(error) => Err(self.refused(error)),
        }
    }
}
