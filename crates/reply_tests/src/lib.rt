//! Tests of the texts of replies, over facts that are written by hand.
#![tactic(auto)]

#[cfg(test)]
mod facts;
#[cfg(test)]
mod tests;
