// A sink that opens a gate.
use crate::gate::unlock;
use edge_io::sink::{Sink, SinkError};
use slicer_ids::name::Name;
use std::alloc::Global;
use std::sync::Arc;
use std::sync::atomic::AtomicU64;

/// Bytes that grow. The gate is open once a byte was taken. It never faults.
#[derive(Drop)]
pub struct GateSink {
    label: Name,
    bytes: Vec<u8>,
    word: Arc<AtomicU64, Global>,
}

impl GateSink {
    ghost use Rattle.std.specs.Prelude.{◌≡◌, ◌++◌, [], OnOk, OnErr};

    // A sink to which nothing is written yet, at the gate of this word.
    pub(crate) fn new(alloc: Global, label: Name, word: Arc<AtomicU64, Global>) -> GateSink
        ensures label { result.label ≡ label }
        ensures bytes { result.bytes.items ≡ [] }
    {
        GateSink {
            label,
            bytes: Vec::new(alloc),
            word,
        }
    }

    /// What was written.
    pub fn bytes(&self) -> &[u8]
        ensures { result.now ≡ self.now.bytes.items }
    {
        self.bytes.as_slice()
    }

    /// The name that it was made with.
    pub fn label(&self) -> &[u8]
        ensures { result.now ≡ self.now.label }
    {
        self.label.bytes()
    }

    // Puts the piece behind what was written.
    fn append(&mut self, piece: &[u8]) -> Result<(), SinkError>
        ensures written { OnOk result (self.new.bytes.items ≡ self.old.bytes.items ++ piece.now) }
        ensures unwritten { OnErr result (self.new.bytes.items ≡ self.old.bytes.items) }
        ensures label { self.new.label ≡ self.old.label }
        ensures kinds { result ≡ Err SinkError.Fault → ⊥ }
    {
        match self.bytes.extend_from_slice(piece) {
            Ok(()) => Ok(()),
            Err(_) => Err(SinkError::NoMemory),
        }
    }
}

impl Sink for GateSink {
    ghost use Rattle.std.specs.Prelude.{None, false};
    ghost use Rattle.gates.specs.Gates.{never_sink};

    ghost label = { λ s. s.label };

    ghost written = { λ _. None };

    ghost faults = { λ _. 0 };

    ghost steady = { λ _. false };

    ghost steady_below = { never_sink };

    fn write(&mut self, piece: &[u8]) -> Result<usize, SinkError> {
        self.append(piece)?;
        unlock(&self.word);
        Ok(piece.len())
    }
}
