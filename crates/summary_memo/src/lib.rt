//! Summaries that sessions share: rows of bits on atomic words. What any thread may find in them is within the summary, and a
//! row that is shut is the summary.
#![tactic(auto)]

pub mod memo;
pub mod places;
pub mod row;
pub mod rows;
pub mod view;
