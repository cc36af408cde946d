//! Tests of sessions, over facts that are written by hand.
#![tactic(auto)]

#[cfg(test)]
mod facts;
#[cfg(test)]
mod places;
#[cfg(test)]
mod reading;
#[cfg(test)]
mod slices;
#[cfg(test)]
mod states;
