//! Tests of `hierarchy`: trees of classes that are built or refused, and searches in them.
#![tactic(auto)]

#[cfg(test)]
mod class_tests;
#[cfg(test)]
mod look_up_tests;
