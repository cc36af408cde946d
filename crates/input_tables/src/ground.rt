// What edges within a method are made with.

use class_form::body::Point;
use dep_form::node::Node;

/// The points of a method, which of them lead to which handlers, and its row of nodes, which are numbered from `first` on.
#[derive(Clone, Copy)]
pub struct Ground<'a> {
    pub points: &'a [Point],
    pub raises: &'a [(u32, u32)],
    pub first: u32,
    pub row: &'a [Node],
}
