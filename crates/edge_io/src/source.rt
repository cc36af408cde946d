// Where bytes come from.
ghost use Rattle.std.specs.Prelude.{◌≡◌, ℕ, ◌-◌, ◌^◌, ◌<◌, ◌≤◌, Bool, true, List, Option, length, drop, IfOk, IfSome, OnErr};
ghost use Rattle.std.specs.Option.{option_map};
ghost use Rattle.edge_io.specs.Faults.{Rose};
ghost use Rattle.edge_io.specs.Reads.{Reads};

use thiserror::Error;

/// A device failed.
#[derive(Clone, Copy, PartialEq, Eq, Debug, Error)]
#[error("fault")]
pub struct Fault;

/// Bytes that are read once, from the first to the last.
pub trait Source {
    // what is left, where it tells
    ghost left: { Self → Option (List ℕ) };
    // how often it failed; the count ends at 2^64 - 1
    ghost faults: { Self → ℕ };
    // it never fails again
    ghost steady: { Self → Bool };

    /// Puts the first bytes of what is left into the front of the buffer and takes them away. `Ok` has their number, which is 0
    /// only at the end. `Fault` leaves what is left.
    fn read(&mut self, into: &mut [u8]) -> Result<usize, Fault>
        requires { 0 < length into.old }
        ensures within { IfOk result (λ n. n ≤ length into.old) }
        ensures content { IfOk result (λ n. IfSome (left self.old) (Reads n into.new)) }
        ensures left { IfOk result (λ n. left self.new ≡ option_map (drop n) (left self.old)) }
        ensures unread { OnErr result (left self.new ≡ left self.old) }
        ensures count { faults self.old ≤ faults self.new }
        ensures fault { OnErr result (Rose (faults self.old) (faults self.new)) }
        ensures steady { steady self.new ≡ steady self.old }
        ensures still { steady self.old ≡ true → faults self.new ≡ faults self.old };

    // the count of a steady source has not come to its end
    ghost steady_below: { (x : Self) → steady x ≡ true → faults x < 2 ^ 64 - 1 };
}
