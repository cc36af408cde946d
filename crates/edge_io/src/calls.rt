// Calls that are counted, some of which are to fail.
ghost use Rattle.std.specs.Prelude.{◌≡◌, ◌+◌, ◌-◌, ◌^◌, ◌≤◌, min, is_err, OnOk, OnErr};
ghost use Rattle.edge_io.specs.Faults.{Rose};
ghost use Rattle.edge_io.specs.Plans.{is_planned};

use crate::source::Fault;
use slicer_ids::list::List;

/// The number of calls so far, of faults so far, and the numbers of the calls that are to fail. Both counts end at 2^64 - 1.
#[derive(Drop, Debug)]
pub struct Calls {
    pub failing: List<u64>,
    pub count: u64,
    pub faults: u64,
}

impl Calls {
    /// No call was made yet.
    pub fn new(failing: List<u64>) -> Calls
        ensures failing { result.failing ≡ failing }
        ensures start { (result.count ≡ 0) × (result.faults ≡ 0) }
    {
        Calls {
            failing,
            count: 0,
            faults: 0,
        }
    }

    /// Counts a call. It fails exactly where the call's number is one of those that are to fail.
    pub fn next(&mut self) -> Result<(), Fault>
        ensures number { self.new.count ≡ min (self.old.count + 1) (2 ^ 64 - 1) }
        ensures planned { is_err result ≡ is_planned self.old.failing self.new.count }
        ensures plan { self.new.failing ≡ self.old.failing }
        ensures fault { OnErr result (Rose self.old.faults self.new.faults × (self.old.faults ≤ self.new.faults)) }
        ensures fine { OnOk result (self.new.faults ≡ self.old.faults) }
    {
        self.count = self.count.saturating_add(1);
        if self.failing.items().contains(&self.count) {
            return Err(self.fault());
        }
        Ok(())
    }

    /// Counts a fault.
    pub fn fault(&mut self) -> Fault
        ensures fault { Rose self.old.faults self.new.faults × (self.old.faults ≤ self.new.faults) }
        ensures rest { (self.new.failing ≡ self.old.failing) × (self.new.count ≡ self.old.count) }
    {
        self.faults = self.faults.saturating_add(1);
        Fault
    }
}
