// A sink in memory.
ghost use Rattle.std.specs.Prelude.{◌≡◌, true};
ghost use Rattle.edge_io.specs.Plans.{is_nil};

use crate::calls::Calls;
use crate::sink::{Sink, SinkError};
use slicer_ids::list::List;
use slicer_ids::name::Name;
use std::alloc::Global;

/// Bytes that grow. It tells what was written, and is steady exactly where no call is to fail.
#[derive(Drop, Debug)]
pub struct MemorySink {
    label: Name,
    bytes: Vec<u8>,
    calls: Calls,
    ghost quiet: { is_nil calls.failing ≡ true → calls.faults ≡ 0 },
}

impl MemorySink {
    ghost use Rattle.std.specs.Prelude.{◌≡◌, []};

    /// A sink to which nothing is written yet. The calls of `write` with the numbers in `failing`, from 1, fail.
    pub fn new(alloc: Global, label: Name, failing: List<u64>) -> MemorySink
        ensures label { result.label ≡ label }
        ensures bytes { result.bytes.items ≡ [] }
        ensures failing { result.calls.failing ≡ failing }
        ensures start { (result.calls.count ≡ 0) × (result.calls.faults ≡ 0) }
    {
        MemorySink {
            label,
            bytes: Vec::new(alloc),
            calls: Calls::new(failing),
        }
    }

    /// What was written.
    pub fn bytes(&self) -> &[u8]
        ensures { result.now ≡ self.now.bytes.items }
    {
        self.bytes.as_slice()
    }

    /// The label and what was written, without memory.
    pub fn into_parts(self) -> (Name, Name)
        ensures label { result.0 ≡ self.label }
        ensures bytes { result.1 ≡ self.bytes.items }
    {
        let MemorySink {
            label,
            bytes,
            calls: _,
        } = self;
        (label, Name::from_vec(bytes))
    }
}

impl Sink for MemorySink {
    ghost use Rattle.std.specs.Prelude.{Some};
    ghost use Rattle.edge_io.specs.Memory.{is_steady_sink, sink_below};

    ghost label = { λ s. s.label };

    ghost written = { λ s. Some s.bytes.items };

    ghost faults = { λ s. s.calls.faults };

    ghost steady = { is_steady_sink };

    ghost steady_below = { sink_below };

    fn write(&mut self, piece: &[u8]) -> Result<usize, SinkError> {
        if self.calls.next().is_err() {
            return Err(SinkError::Fault);
        }
        match self.bytes.extend_from_slice(piece) {
            Ok(()) => Ok(piece.len()),
            Err(_) => Err(SinkError::NoMemory),
        }
    }
}
