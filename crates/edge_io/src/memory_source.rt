// A source in memory.
ghost use Rattle.std.specs.Prelude.{◌≡◌, ◌≤◌, true, length};
ghost use Rattle.edge_io.specs.Plans.{is_nil};

use crate::calls::Calls;
use crate::source::{Fault, Source};
use slicer_ids::list::List;
use slicer_ids::name::Name;
use std::alloc::Global;

/// Bytes that are read once. It tells what is left, and is steady exactly where no call is to fail.
#[derive(Drop, Debug)]
pub struct MemorySource {
    bytes: Name,
    at: usize,
    calls: Calls,
    ghost quiet: { is_nil calls.failing ≡ true → calls.faults ≡ 0 },
    ghost inside: { at ≤ length bytes },
}

impl MemorySource {
    ghost use Rattle.std.specs.Prelude.{◌≡◌};
    ghost use Rattle.edge_io.specs.Plans.{is_nil};
    ghost use Rattle.edge_io.specs.Memory.{left_of, is_steady_source};

    /// A source over the bytes. The calls of `read` with the numbers in `failing`, from 1, fail.
    pub fn new(alloc: Global, bytes: Name, failing: List<u64>) -> MemorySource
        ensures bytes { left_of result ≡ bytes }
        ensures failing { result.calls.failing ≡ failing }
        ensures start { (result.calls.count ≡ 0) × (result.calls.faults ≡ 0) }
    {
        let _ = alloc;
        MemorySource {
            bytes,
            at: 0,
            calls: Calls::new(failing),
        }
    }
}

impl Source for MemorySource {
    ghost use Rattle.std.specs.Prelude.{Some};
    ghost use Rattle.edge_io.specs.Memory.{left_of, is_steady_source, source_below};

    ghost left = { λ s. Some (left_of s) };

    ghost faults = { λ s. s.calls.faults };

    ghost steady = { is_steady_source };

    ghost steady_below = { source_below };

    fn read(&mut self, into: &mut [u8]) -> Result<usize, Fault> {
        self.calls.next()?;
        let left = &self.bytes.bytes()[self.at..];
        let count = left.len().min(into.len());
        into[..count].copy_from_slice(&left[..count]);
        self.at += count;
        Ok(count)
    }
}
