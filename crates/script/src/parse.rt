// What a line says.
ghost use Rattle.std.specs.Prelude.{◌≡◌, ◌↔◌, ℕ, codes, All, IfOk, Result, Ok, Err, IsTrue};
ghost use Rattle.script.specs.Words.{IsBlank};
ghost use Rattle.script.specs.Keywords.{name_of};
ghost use Rattle.script.specs.Steps.{Finishes, Answers};
ghost use Rattle.script.specs.Lines.{Says, NeedsMemory};

use crate::command::{Command, LineError};
use crate::escapes::class_name;
use crate::keyword::{Keyword, keyword_of};
use crate::numbers::number;
use crate::operands::{is_end, make_place, read_place, two_places, two_words};
use crate::words::first_word;
use std::alloc::Global;

/// How many bytes a line may have, without its end.
pub const LINE_BYTES: usize = 4096;

/// What a line of a script says. The line comes without its end: a line feed
/// or the end of the script, and one carriage return before it.
///
/// Words are separated by spaces and tabs. In a word, `\` and two lower-case hexadecimal digits stand for that byte,
/// and any other byte for itself; in the word of a class, each `.` that results stands for `/`. A number is one to
/// five decimal digits of value at most 65535. A line without words, or whose first byte that is no blank is `#`, is blank.
///
/// A line is refused for the first that applies: it is too long, its first word names no command, another number of
/// words follows, or a number is none. Memory is taken only for a command that keeps names, after all of it was found
/// in order. One pass over the line.
pub fn parse_line(alloc: Global, line: &[u8]) -> Result<Command, LineError>
    ensures ok { IfOk result (λ c. Says line.now (Ok c)) }
    ensures too_long { (result ≡ Err LineError.TooLong) ↔ Says line.now (Err LineError.TooLong) }
    ensures unknown { (result ≡ Err LineError.Unknown) ↔ Says line.now (Err LineError.Unknown) }
    ensures arity { (result ≡ Err LineError.Arity) ↔ Says line.now (Err LineError.Arity) }
    ensures bad_number { (result ≡ Err LineError.BadNumber) ↔ Says line.now (Err LineError.BadNumber) }
    ensures memory { (result ≡ Err LineError.NoMemory) → NeedsMemory line.now }
{
    read_line(alloc, line)
}

// What a line says, or that there was no memory for it.
fn read_line(alloc: Global, line: &[u8]) -> Result<Command, LineError>
    ensures { Answers line.now result }
{
    if line.len() > LINE_BYTES {
        return Err(LineError::TooLong);
    }
    let Some((word, rest)) = first_word(line) else {
        return Ok(Command::Blank);
    };
    if word[0] == b'#' {
        return Ok(Command::Blank);
    }
    let Some(keyword) = keyword_of(word) else {
        return Err(LineError::Unknown);
    };
    read_command(alloc, keyword, rest)
}

// The command of this name with the operands that a line holds.
fn read_command(alloc: Global, keyword: Keyword, line: &[u8]) -> Result<Command, LineError>
    ensures { Finishes (name_of keyword) line.now result }
{
    match keyword {
        Keyword::Seed => seed(alloc, line),
        Keyword::SeedLine => seed_line(alloc, line),
        Keyword::Reset => bare(line, Command::Reset),
        Keyword::Slice => bare(line, Command::Slice),
        Keyword::Full => bare(line, Command::Full),
        Keyword::Lines => bare(line, Command::Lines),
        Keyword::Expand => expand(alloc, line),
        Keyword::ExpandAll => bare(line, Command::ExpandAll),
        Keyword::Explain => explain(alloc, line),
    }
}

// A command without operands.
fn bare(line: &[u8], command: Command) -> Result<Command, LineError>
    ensures alone { All IsBlank line.now → result ≡ Ok command }
    ensures followed { (All IsBlank line.now → ⊥) → result ≡ Err LineError.Arity }
{
    if is_end(line) {
        Ok(command)
    } else {
        Err(LineError::Arity)
    }
}

fn seed(alloc: Global, line: &[u8]) -> Result<Command, LineError>
    ensures { Finishes (codes "seed") line.now result }
{
    match read_place(alloc, line) {
        Ok(place) => Ok(Command::Seed(place)),
        Err(error) => Err(error),
    }
}

fn expand(alloc: Global, line: &[u8]) -> Result<Command, LineError>
    ensures { Finishes (codes "expand") line.now result }
{
    match read_place(alloc, line) {
        Ok(place) => Ok(Command::Expand(place)),
        Err(error) => Err(error),
    }
}

fn seed_line(alloc: Global, line: &[u8]) -> Result<Command, LineError>
    ensures { Finishes (codes "seedline") line.now result }
{
    let Some((class, source_line)) = two_words(line) else {
        return Err(LineError::Arity);
    };
    let Some(source_line) = number(source_line) else {
        return Err(LineError::BadNumber);
    };
    match class_name(alloc, class) {
        Ok(class) => Ok(Command::SeedLine(class, source_line)),
        Err(_) => Err(LineError::NoMemory),
    }
}

fn explain(alloc: Global, line: &[u8]) -> Result<Command, LineError>
    ensures { Finishes (codes "explain") line.now result }
{
    let Some((first, second)) = two_places(line) else {
        return Err(LineError::Arity);
    };
    let Some(first_pc) = number(first.pc) else {
        return Err(LineError::BadNumber);
    };
    let Some(second_pc) = number(second.pc) else {
        return Err(LineError::BadNumber);
    };
    let Ok(first) = make_place(alloc, first, first_pc) else {
        return Err(LineError::NoMemory);
    };
    match make_place(alloc, second, second_pc) {
        Ok(second) => Ok(Command::Explain(first, second)),
        Err(_) => Err(LineError::NoMemory),
    }
}
