//! Points-to sets and the call graph.
#![tactic(auto)]

pub mod checked;
mod constraints;
mod edges;
mod fields;
mod filters;
mod flows;
mod found;
mod groups;
mod index;
mod look_ups;
mod marks;
mod order;
mod outside;
mod place;
mod places;
mod reading;
mod rounds;
mod row;
mod rows;
mod selection;
mod solving;
mod steps;

pub use solving::solve;
