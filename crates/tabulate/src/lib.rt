//! Summaries of exits, by tabulation of path edges (Horwitz, Reps and Binkley, TOPLAS 1990), a row of bits a node.
#![tactic(auto)]

pub mod by_call;
pub mod following;
pub mod found;
pub mod hands;
pub mod keeping;
pub mod laws;
pub mod meeting;
pub mod method;
pub mod own_rows;
pub mod table;
pub mod table_rows;
pub mod tabulation;
