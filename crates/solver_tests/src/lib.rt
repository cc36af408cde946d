//! Tests of `points_to` on small systems, each with its least solution written down by hand from the rules.
#![tactic(auto)]

#[cfg(test)]
mod systems;
