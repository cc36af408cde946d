// What is replied to a command.

use dep_form::access::Explanation;
use slicer_ids::ids::{MethodId, Statement};

/// A line of a method's source, none where its line tables give none.
#[derive(Clone, Copy, PartialEq, Eq, Debug, Drop)]
pub struct LinePlace {
    pub method: MethodId,
    pub line: Option<u16>,
}

/// Why a command, or the rest of a script, is refused.
#[derive(Clone, Copy, PartialEq, Eq, Debug, Drop)]
pub enum CommandError {
    NoClass,
    NoMethod,
    NoStatement,
    NoLine,
    /// The statement accesses no field and no array.
    NoAccess,
    NoSeed,
    ScriptTooLong,
    LineTooLong,
    UnknownCommand,
    WrongArity,
    BadNumber,
}

/// The reply to a command.
#[derive(Clone, Copy, Drop)]
pub enum Reply<'a> {
    Done,
    /// A slice, in order.
    Statements(&'a [Statement]),
    /// The lines of a slice, each once, in order.
    Lines(&'a [LinePlace]),
    Explained(&'a Explanation),
    Error(CommandError),
}
