//! A run of the program: from the words of its command line to the replies that it writes, what it says and its status.
#![tactic(auto)]

pub mod laws;
mod refusing;
mod running;
mod served;
#[cfg(test)]
mod tests;

pub use running::run;
