//! What the programs that measure have in common: generated numbers, a watch, and the memory of the process. Each call takes
//! constant time.
#![tactic(auto)]

pub mod memory;
pub mod numbers;
pub mod watch;
