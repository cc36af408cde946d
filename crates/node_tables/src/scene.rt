// What the nodes of a program are read from.

use class_form::body::Body;
use dep_form::effects::ModRef;
use dep_form::solution::Solution;
use dep_form::system::System;
use slicer_ids::ids::MethodId;

/// A system, its solution, what methods change and read, and the bodies; which methods answer something; the methods that the root
/// calls, in order, and to which of these it gives their first argument.
#[derive(Clone, Copy)]
pub struct Scene<'a> {
    pub system: &'a System,
    pub solution: &'a Solution,
    pub effects: &'a ModRef,
    pub bodies: &'a [Body],
    pub answering: &'a [bool],
    pub entries: &'a [MethodId],
    pub given: &'a [bool],
}
