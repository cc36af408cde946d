// A source that waits behind its first line.
ghost use Rattle.std.specs.Prelude.{◌≡◌, ◌≤◌, ◌<◌, ◌↔◌, length, drop, IsTrue};
ghost use Rattle.edge_io.specs.Reads.{Reads};
ghost use Rattle.gates.specs.Lines.{IsLineEnd};

use crate::gate::opens;
use edge_io::source::{Fault, Source};
use slicer_ids::name::Name;
use std::alloc::Global;
use std::sync::Arc;
use std::sync::atomic::AtomicU64;

/// Bytes that are read once, of which all but the first line are held while a gate is shut. A call that comes to what is held waits,
/// and answers a fault where the gate is still shut after its turns; the next call waits anew.
#[derive(Drop)]
pub struct GateSource {
    bytes: Name,
    at: usize,
    first: usize,
    word: Arc<AtomicU64, Global>,
    turns: u64,
    faults: u64,
    ghost inside: { at ≤ length bytes },
    ghost line: { IsLineEnd bytes first },
}

impl GateSource {
    ghost use Rattle.std.specs.Prelude.{◌≡◌};
    ghost use Rattle.gates.specs.Gates.{left_of};

    // A source over the bytes, behind the gate of this word.
    pub(crate) fn new(bytes: Name, word: Arc<AtomicU64, Global>, turns: u64) -> GateSource
        ensures left { left_of result ≡ bytes }
        ensures start { (result.faults ≡ 0) × (result.turns ≡ turns) }
    {
        let first = line_end(bytes.bytes());
        GateSource {
            bytes,
            at: 0,
            first,
            word,
            turns,
            faults: 0,
        }
    }

    // Whether the first line is read, and not all.
    fn is_behind(&self) -> bool
        ensures { IsTrue result ↔ ((self.now.first ≤ self.now.at) × (self.now.at < length self.now.bytes)) }
    {
        self.first <= self.at && self.at < self.bytes.bytes().len()
    }

    // Up to where the next bytes are given: those of the first line before all others.
    fn bound(&self) -> usize
        ensures within { (self.now.at ≤ result) × (result ≤ length self.now.bytes) }
        ensures first { self.now.at < self.now.first → result ≡ self.now.first }
        ensures more { self.now.at < length self.now.bytes → self.now.at < result }
    {
        if self.at < self.first {
            self.first
        } else {
            self.bytes.bytes().len()
        }
    }

    // Gives the next bytes, and of the first line only what is left of it; how many.
    fn take(&mut self, into: &mut [u8]) -> usize
        requires { 0 < length into.old }
        ensures within { result ≤ length into.old }
        ensures reads { Reads result into.new (left_of self.old) }
        ensures left { left_of self.new ≡ drop result (left_of self.old) }
        ensures first { self.old.at < self.old.first → self.new.at ≤ self.old.first }
        ensures same { (self.new.first ≡ self.old.first) × (self.new.faults ≡ self.old.faults) × (self.new.turns ≡ self.old.turns) }
    {
        let bound = self.bound();
        let left = &self.bytes.bytes()[self.at..bound];
        let count = left.len().min(into.len());
        into[..count].copy_from_slice(&left[..count]);
        self.at += count;
        count
    }
}

// How many bytes the first line has, with its newline.
fn line_end(bytes: &[u8]) -> usize
    ensures { IsLineEnd bytes.now result }
{
    let mut at = 0;
    while at < bytes.len() {
        if bytes[at] == b'\n' {
            return at + 1;
        }
        at += 1;
    }
    at
}

impl Source for GateSource {
    ghost use Rattle.std.specs.Prelude.{None, false};
    ghost use Rattle.gates.specs.Gates.{never_source};

    ghost left = { λ _. None };

    ghost faults = { λ s. s.faults };

    ghost steady = { λ _. false };

    ghost steady_below = { never_source };

    fn read(&mut self, into: &mut [u8]) -> Result<usize, Fault> {
        if self.is_behind() && !opens(&self.word, self.turns) {
            self.faults = self.faults.saturating_add(1);
            return Err(Fault);
        }
        Ok(self.take(into))
    }
}
