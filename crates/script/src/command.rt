// What a line of a script asks for, or why it is refused.

use slicer_ids::name::Name;
use thiserror::Error;

/// A statement, as a script names it: a class, the name and descriptor of a method, and a program counter.
#[derive(Drop)]
pub struct Place {
    pub class: Name,
    pub name: Name,
    pub descriptor: Name,
    pub pc: u16,
}

/// A command of a script.
#[derive(Drop)]
pub enum Command {
    /// A line without words, or a comment.
    Blank,
    /// Adds a statement to the seeds.
    Seed(Place),
    /// Adds the statements of a class at a source line to the seeds.
    SeedLine(Name, u16),
    /// Drops all seeds and expansions.
    Reset,
    /// Asks for the thin slice with the expansions.
    Slice,
    /// Asks for the full slice.
    Full,
    /// Asks for the source lines of the slice.
    Lines,
    /// Expands a heap access.
    Expand(Place),
    /// Expands every heap access.
    ExpandAll,
    /// Asks why two heap accesses may touch the same object.
    Explain(Place, Place),
}

/// Why a line is refused. The first that applies, in this order, is the answer.
#[derive(Clone, Copy, PartialEq, Eq, Debug, Drop, Error)]
pub enum LineError {
    #[error("no memory")]
    NoMemory,
    #[error("line too long")]
    TooLong,
    #[error("unknown command")]
    Unknown,
    #[error("wrong number of words")]
    Arity,
    #[error("bad number")]
    BadNumber,
}
