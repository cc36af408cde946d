//! Tests of `points_to` on generated small systems: its solution has exactly the facts of a plain reading of the rules.
#![tactic(auto)]

#[cfg(test)]
mod between;
#[cfg(test)]
mod facts;
#[cfg(test)]
mod generated;
#[cfg(test)]
mod numbers;
#[cfg(test)]
mod outside;
#[cfg(test)]
mod plain_reading;
#[cfg(test)]
mod rules;
#[cfg(test)]
mod selection;
#[cfg(test)]
mod solved_facts;
#[cfg(test)]
mod solver_tests;
