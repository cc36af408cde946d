//! Tests of `mod_ref`, over small systems whose effects are written down by hand.
#![tactic(auto)]

#[cfg(test)]
mod effect_tests;
