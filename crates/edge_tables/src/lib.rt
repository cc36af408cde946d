//! The edges of the graphs of methods that the operands of statements don't give: what leaves a method, what calls that go outside pass
//! on, what goes into the methods that are called and comes back, and how locations go round between the calls of the root.
#![tactic(auto)]

mod again;
mod between;
mod calls;
mod ends;
mod links;
mod outside;
mod rows;
mod scene;
mod table;

pub use links::{Link, Links, links_of};
pub use rows::{firsts_of, formals_of, row_of};
pub use scene::{Row, Scene};
pub use table::add_edges;
