//! Tests of `call_graph`, over folders of one method a class and small systems.
#![tactic(auto)]

#[cfg(test)]
mod entry_tests;
#[cfg(test)]
mod refusal_tests;
#[cfg(test)]
mod test_classes;
