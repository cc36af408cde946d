// Where bytes go to.
ghost use Rattle.std.specs.Prelude.{◌≡◌, ℕ, ◌-◌, ◌^◌, ◌<◌, ◌≤◌, Bool, true, List, Option, length, take, ◌++◌, IfOk, OnErr, Err};
ghost use Rattle.std.specs.Option.{option_map};
ghost use Rattle.edge_io.specs.Faults.{Rose};

use thiserror::Error;

/// Why a piece wasn't written.
#[derive(Clone, Copy, PartialEq, Eq, Debug, Error)]
pub enum SinkError {
    /// The sink itself had no memory, as one that keeps its bytes may want it. A real file never answers it.
    #[error("out of memory")]
    NoMemory,
    /// The device failed, or took nothing.
    #[error("fault")]
    Fault,
}

/// Bytes that are appended.
pub trait Sink {
    // a name that no call changes: for a host's sink its path
    ghost label: { Self → List ℕ };
    // what was written, where it tells
    ghost written: { Self → Option (List ℕ) };
    // how often it failed; the count ends at 2^64 - 1
    ghost faults: { Self → ℕ };
    // it never fails again
    ghost steady: { Self → Bool };

    /// Appends the first bytes of the piece. `Ok` has their number, at least 1. A refusal leaves what was written.
    fn write(&mut self, piece: &[u8]) -> Result<usize, SinkError>
        requires { 0 < length piece.now }
        ensures within { IfOk result (λ n. (1 ≤ n) × (n ≤ length piece.now)) }
        ensures written { IfOk result (λ n. written self.new ≡ option_map (λ w. w ++ take n piece.now) (written self.old)) }
        ensures unwritten { OnErr result (written self.new ≡ written self.old) }
        ensures label { label self.new ≡ label self.old }
        ensures count { faults self.old ≤ faults self.new }
        ensures fault { result ≡ Err SinkError.Fault → Rose (faults self.old) (faults self.new) }
        ensures steady { steady self.new ≡ steady self.old }
        ensures still { steady self.old ≡ true → faults self.new ≡ faults self.old };

    // the count of a steady sink has not come to its end
    ghost steady_below: { (x : Self) → steady x ≡ true → faults x < 2 ^ 64 - 1 };
}
