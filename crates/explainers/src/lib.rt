//! How two accesses come to one object, after the explainers of thin slicing (Sridharan, Fink, Bodik, PLDI 2007).
#![tactic(auto)]

pub mod explain;
mod sites;
