// Rows to hand, by exit.
ghost use Rattle.std.specs.Prelude.{◌≡◌, ℕ, List, OnOk, Some, None, true, false, MatchOption};
ghost use Rattle.tabulate.specs.Hands.{hand_of, IsPut};

use slicer_ids::ids::{ExitId, NoMemory};
use std::alloc::Global;
use std::collections::BTreeMap;

/// Rows by the numbers of their exits.
#[derive(Drop)]
pub struct Hands {
    pub rows: BTreeMap<u32, Vec<u64>>,
}

impl Hands {
    /// No row.
    pub fn new(alloc: Global) -> Hands
        ensures { (e : ℕ) → hand_of result e ≡ None }
    {
        Hands {
            rows: BTreeMap::new(alloc),
        }
    }

    /// The row of an exit, where there is one.
    pub fn find(&self, e: ExitId) -> Option<&[u64]>
        ensures { MatchOption result (hand_of self.now e.0 ≡ None) (λ r. hand_of self.now e.0 ≡ Some r.now) }
    {
        match self.rows.get(&e.0) {
            Some(row) => Some(row.as_slice()),
            None => None,
        }
    }

    /// Whether there is a row of this exit.
    pub fn has(&self, e: ExitId) -> bool
        ensures yes { result ≡ true → (bits : List ℕ) × (hand_of self.now e.0 ≡ Some bits) }
        ensures none { result ≡ false → hand_of self.now e.0 ≡ None }
    {
        match self.find(e) {
            Some(_) => true,
            None => false,
        }
    }

    /// Adds the row of an exit.
    pub fn add(&mut self, e: ExitId, row: Vec<u64>) -> Result<(), NoMemory>
        ensures { OnOk result (IsPut self.old self.new e.0 row.items) }
    {
        match self.rows.insert(e.0, row) {
            Ok(_) => Ok(()),
            Err(_) => Err(NoMemory),
        }
    }
}
