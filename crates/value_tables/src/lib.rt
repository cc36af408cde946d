//! What the value of each statement of a program may be.
#![tactic(auto)]

mod calls;
mod looking;
mod method;
mod operands;
mod sites;
mod table;

pub use method::Method;
pub use operands::operand_sites;
pub use table::value_table;
