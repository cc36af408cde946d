// Path edges as they grow.
use slicer_ids::ids::{ExitId, NodeId};
use std::collections::VecDeque;
use tabulate::found::Found;

/// The exits that were asked for, the path edges that lead to them, by method, and the nodes with path edges that wait to be
/// taken up.
#[derive(Drop)]
pub struct Pairs {
    pub asked: Vec<ExitId>,
    pub found: Vec<Found>,
    pub queue: VecDeque<NodeId>,
}
