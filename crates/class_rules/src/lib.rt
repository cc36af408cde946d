//! The rules on what stands behind the constant pool of a class file (JVMS SE 7 4.1 and 4.5 to 4.8), one test each.
#![tactic(auto)]

pub mod rules;
