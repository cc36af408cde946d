//! Slices that are widened step by step: more and more accesses have their bases followed (Sridharan, Fink, Bodik, PLDI 2007),
//! and what was found before is kept. Over all steps each path edge of the exits that the slice needs is taken up once (Horwitz,
//! Reps and Binkley, TOPLAS 1990). A step also copies what is kept, and goes over the returns to the methods that were met.
#![tactic(auto)]

pub mod asking;
pub mod edges;
pub mod expansions;
pub mod following;
pub mod marking;
pub mod pairs;
pub mod passing;
pub mod state;
pub mod wide;
