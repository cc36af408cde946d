// What edges are read from.

use class_form::body::Body;
use dep_form::node::Node;
use dep_form::solution::Solution;
use dep_form::system::System;
use hierarchy::tree::Hierarchy;
use slicer_ids::ids::MethodId;

/// The classes and bodies of a program, its system with the solution, the methods that the root calls, in order, and by method, and last
/// of the root, the nodes and the number of the first of them.
#[derive(Clone, Copy)]
pub struct Scene<'a> {
    pub h: &'a Hierarchy,
    pub bodies: &'a [Body],
    pub system: &'a System,
    pub solution: &'a Solution,
    pub entries: &'a [MethodId],
    pub rows: &'a [Vec<Node>],
    pub firsts: &'a [u32],
}

/// The nodes of a method, which are numbered from `first` on.
#[derive(Clone, Copy)]
pub struct Row<'a> {
    pub first: u32,
    pub nodes: &'a [Node],
}
