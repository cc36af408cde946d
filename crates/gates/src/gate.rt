// A word that a sink sets, and that a source waits for.
ghost use Rattle.std.specs.Prelude.{◌≡◌, [], IfOk};
ghost use Rattle.gates.specs.Gates.{left_of};

use crate::sink::GateSink;
use crate::source::GateSource;
use slicer_ids::ids::NoMemory;
use slicer_ids::name::Name;
use std::alloc::Global;
use std::sync::Arc;
use std::sync::atomic::{AtomicU64, Ordering};
use std::thread;

/// A gate, shut until one of its sinks has taken a byte. It never shuts again.
#[derive(Drop)]
pub struct Gate {
    alloc: Global,
    word: Arc<AtomicU64, Global>,
    turns: u64,
}

impl Gate {
    /// A gate that is shut, whose sources wait for so many turns at most, each time that they are read.
    pub fn new(alloc: Global, turns: u64) -> Result<Gate, NoMemory>
        ensures { IfOk result (λ g. g.turns ≡ turns) }
    {
        let word = Arc::new(alloc, AtomicU64::new(0))?;
        Ok(Gate { alloc, word, turns })
    }

    /// A source over the bytes, which holds all but their first line while the gate is shut.
    pub fn source(&self, bytes: Name) -> Result<GateSource, NoMemory>
        ensures left { IfOk result (λ s. left_of s ≡ bytes) }
        ensures start { IfOk result (λ s. (s.faults ≡ 0) × (s.turns ≡ self.now.turns)) }
    {
        let word = Arc::try_clone(&self.word)?;
        Ok(GateSource::new(bytes, word, self.turns))
    }

    /// A sink to which nothing is written yet, and which opens the gate when it takes a byte.
    pub fn sink(&self, label: Name) -> Result<GateSink, NoMemory>
        ensures label { IfOk result (λ s. s.label ≡ label) }
        ensures bytes { IfOk result (λ s. s.bytes.items ≡ []) }
    {
        let word = Arc::try_clone(&self.word)?;
        Ok(GateSink::new(self.alloc, label, word))
    }
}

// Opens the gate.
pub(crate) fn unlock(word: &AtomicU64) {
    word.store(1, Ordering::SeqCst);
}

// Waits until the gate is open, for so many turns at most; whether it is. Another thread opens it, so no clause says which.
pub(crate) fn opens(word: &AtomicU64, turns: u64) -> bool {
    for _ in 0..turns {
        if word.load(Ordering::SeqCst) != 0 {
            return true;
        }
        thread::yield_now();
    }
    word.load(Ordering::SeqCst) != 0
}
