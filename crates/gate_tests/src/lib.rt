//! Tests of whole runs with two scripts: over ends that wait for each other, where only sessions that run side by side are served; and
//! over ends of which one fails.
#![tactic(auto)]

#[cfg(test)]
mod desks;
#[cfg(test)]
mod samples;
#[cfg(test)]
mod tests;
#[cfg(test)]
mod two_scripts;
