//! What is found of a program that was loaded: its system of constraints, what follows from them, and what its methods change and
//! read on the heap; or the line with which the program is refused.
//!
//! The order is that of acceptance: the limits of methods and of sites, the first statement that is reached and refused, the limit
//! of locations. The limits of nodes and of the words of summaries come with the facts: what makes facts
//! takes what `load_analysed` answers, and proofs/Accepting says what its answers mean.
#![tactic(auto)]

mod analysing;
mod effects;
mod folders;
mod refusing;
mod statements;
mod system;

pub use analysing::{Analysed, analyse};
pub use folders::load_analysed;
pub use refusing::too_many;
pub use system::system_of;
