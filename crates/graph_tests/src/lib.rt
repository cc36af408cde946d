//! Tests of node numbers and edges: small folders are loaded, and the graphs of all their methods are compared with what was worked out by
//! hand from the definitions.
#![tactic(auto)]

#[cfg(test)]
mod folders;
#[cfg(test)]
mod graphs;
#[cfg(test)]
mod into_node;
#[cfg(test)]
mod samples;
#[cfg(test)]
mod written;
