//! The inputs of the graphs of methods: points and the flow of control, the edges to operands and exits, and where locations are defined and
//! used.
#![tactic(auto)]

mod controls;
mod definitions;
mod edges;
mod effects;
mod exits;
mod flow;
mod fresh;
mod gathering;
mod ground;
mod heap;
mod operands;
mod outside;
mod places;
mod points;
mod raises;
mod runs;
mod scene;
mod solved;
mod steps;
#[cfg(test)]
mod tests;
mod touches;
mod uses;

pub use controls::{Control, control_of};
pub use definitions::raised_node;
pub use edges::in_order as edges_in_order;
pub use exits::exit_edges;
pub use gathering::{Heap, gather};
pub use ground::Ground;
pub use heap::{gets, puts};
pub use operands::{add_use, operand_edges};
pub use places::place_in;
pub use points::{body_at, find_body};
pub use raises::raises_of;
pub use scene::Scene;
pub use solved::goes_outside;
