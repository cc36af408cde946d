// Which calls in memory are to fail.

use slicer_ids::list::List;
use slicer_ids::name::Name;

/// The numbers, from 1, of the calls that are to fail: of the host's own calls, and for a path of the read calls of each source
/// and of the write calls of each sink that the host makes for it.
#[derive(Drop, Debug)]
pub struct FailPlan {
    pub host: List<u64>,
    pub sources: List<(Name, u64)>,
    pub sinks: List<(Name, u64)>,
}
