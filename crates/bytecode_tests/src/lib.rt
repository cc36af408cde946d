//! Tests of `bytecode`: instructions as the standard gives them, and codes that are refused.
#![tactic(auto)]

#[cfg(test)]
mod code_tests;
