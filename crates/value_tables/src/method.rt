// What the values of a method are read from.

use class_form::body::Body;
use dep_form::rules::MethodVars;
use dep_form::solution::Solution;
use dep_form::system::System;

/// A system with its solution, and the body of one of its methods with its variables.
#[derive(Clone, Copy)]
pub struct Method<'a> {
    pub system: &'a System,
    pub solution: &'a Solution,
    pub body: &'a Body,
    pub vars: &'a MethodVars,
}
