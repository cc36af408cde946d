//! The points-to constraints of each statement of a program (after Andersen), rule by rule.
#![tactic(auto)]

mod calls;
mod classes;
mod definitions;
mod elements;
mod fields;
mod forms;
pub mod fresh;
mod handlers;
pub mod laws;
pub mod naming;
pub mod numbers;
pub mod root;
pub mod statement;
pub mod statics;
mod supers;
pub mod tables;
mod values;
