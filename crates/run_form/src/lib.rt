//! Runs of the program: what a run answers, says and leaves, over the words of its command line and the files.
#![tactic(auto)]

pub mod laws;
