//! The statements and heap accesses that commands name: each look-up gives the one that is named, or the first part of its name that
//! isn't there. They take no memory, and search by halving.
#![tactic(auto)]

pub mod naming;
