// What definitions and uses of locations are read from.

use dep_form::effects::ModRef;
use dep_form::solution::Solution;
use dep_form::system::System;

/// A system, its solution, and what methods change and read.
#[derive(Clone, Copy)]
pub struct Scene<'a> {
    pub system: &'a System,
    pub solution: &'a Solution,
    pub effects: &'a ModRef,
}
