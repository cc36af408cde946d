//! What each method, or a method that its calls lead to, defines and uses on the heap.
#![tactic(auto)]

mod callers;
mod collecting;
mod effects;
mod fields;
mod finding;
mod fresh;
mod leading;
mod locations;
mod outside;
mod rows;
mod sets;
mod solved;
mod sources;
mod touches;

pub use finding::mod_ref;
