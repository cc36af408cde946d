//! The facts of a program, from its classes, bodies, system of constraints, solution and effects.
#![tactic(auto)]

mod making;
mod tables;

pub use making::facts;
