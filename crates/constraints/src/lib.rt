//! The system of points-to constraints of a program (after Andersen), with the tables that its rules read.
#![tactic(auto)]

mod bodies;
mod call_sites;
mod initializers;
mod limits;
mod parts;
mod places;
mod references;
mod spots;
#[cfg(test)]
mod tests;
mod touches;
mod type_order;
pub mod whole;
