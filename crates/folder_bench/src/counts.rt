// How many of each thing there are.

use dep_form::facts::Facts;
use dep_form::solution::Solution;
use slicer_ids::name::Name;

/// The bytes of all contents.
pub fn count_bytes(contents: &[Name]) -> usize {
    let mut count: usize = 0;
    for content in contents {
        count = count.saturating_add(content.bytes().len());
    }
    count
}

/// The pairs of a variable and a site that it may be.
pub fn count_sites(solution: &Solution) -> usize {
    let mut count: usize = 0;
    for sites in solution.sites.items() {
        count = count.saturating_add(sites.items().len());
    }
    count
}

/// The methods that are reached.
pub fn count_reached(solution: &Solution) -> usize {
    let mut count: usize = 0;
    for reached in solution.reached.items() {
        if *reached {
            count = count.saturating_add(1);
        }
    }
    count
}

/// The nodes of all methods.
pub fn count_nodes(facts: &Facts) -> usize {
    let mut count: usize = 0;
    for input in facts.inputs.items() {
        if let Some(input) = input {
            count = count.saturating_add(input.nodes.items().len());
        }
    }
    count
}
