//! The shape of a method's code: reachable instructions, depths of the stack, and what each instruction does to the slots.
#![tactic(auto)]

mod covers;
mod depths;
mod effects;
mod entries;
mod locals;
mod points;
mod search;
mod shaping;
mod slots;

pub use shaping::shape;
