// Look-ups by the words of commands.
ghost use Rattle.std.specs.Prelude.{◌≡◌, ◌≢◌, [], MatchResult};
ghost use Rattle.dep_form.specs.LookUps.{IsClassNamed, AreAtLine};
ghost use Rattle.session_form.specs.Places.{NamesMethod, NamesStatement, NamesNone, NamesAccess, NamesNoAccess, NamesNoLine};

use dep_form::access::Access;
use dep_form::facts::Facts;
use report::reply::CommandError;
use script::command::Place;
use slicer_ids::ids::{ClassId, MethodId, Statement};

/// A heap access that a place names.
#[derive(Clone, Copy, Drop)]
pub struct NamedAccess<'f> {
    pub statement: Statement,
    /// What produces its object, and what that may be.
    pub access: &'f Access,
}

// The method that a place names.
fn method_at(f: &Facts, place: &Place) -> Result<MethodId, CommandError>
    ensures { MatchResult result (NamesMethod f.now place.now) (NamesNone f.now place.now) }
{
    let Some(class) = f.find_class(place.class.bytes()) else {
        return Err(CommandError::NoClass);
    };
    let Some(method) = f.find_method(class, place.name.bytes(), place.descriptor.bytes()) else {
        return Err(CommandError::NoMethod);
    };
    Ok(method)
}

// The method's statement at the pc of the place that names it.
fn statement_in(f: &Facts, place: &Place, method: MethodId) -> Result<Statement, CommandError>
    requires { NamesMethod f.now place.now method }
    ensures { MatchResult result (NamesStatement f.now place.now) (NamesNone f.now place.now) }
{
    let statement = Statement {
        method,
        pc: place.pc,
    };
    if !f.is_statement(statement) {
        return Err(CommandError::NoStatement);
    }
    Ok(statement)
}

/// The statement that a place names: of its class, by name, that class's method, by name and descriptor, and that method's
/// statement at the program counter. The error is of the first of these that isn't there.
pub fn statement_at(f: &Facts, place: &Place) -> Result<Statement, CommandError>
    ensures { MatchResult result (NamesStatement f.now place.now) (NamesNone f.now place.now) }
{
    match method_at(f, place) {
        Ok(method) => statement_in(f, place, method),
        Err(error) => Err(error),
    }
}

// What the facts say of a statement that a place names, as an access.
fn access_in<'f>(
    f: &'f Facts,
    place: &Place,
    statement: Statement,
) -> Result<NamedAccess<'f>, CommandError>
    requires { NamesStatement f.now place.now statement }
    ensures { MatchResult result (λ x. NamesAccess f.now place.now x.statement x.access.now) (NamesNoAccess f.now place.now) }
{
    match f.access(statement) {
        Some(access) => Ok(NamedAccess { statement, access }),
        None => Err(CommandError::NoAccess),
    }
}

/// The heap access that a place names. The error is of the first part of the place that isn't there, or that its statement
/// accesses no field and no array.
pub fn access_at<'f>(f: &'f Facts, place: &Place) -> Result<NamedAccess<'f>, CommandError>
    ensures { MatchResult result (λ x. NamesAccess f.now place.now x.statement x.access.now) (NamesNoAccess f.now place.now) }
{
    match statement_at(f, place) {
        Ok(statement) => access_in(f, place, statement),
        Err(error) => Err(error),
    }
}

// The statements of a class that has the name, at a line.
fn statements_in<'f>(
    f: &'f Facts,
    name: &[u8],
    class: ClassId,
    line: u16,
) -> Result<&'f [Statement], CommandError>
    requires { IsClassNamed f.now name.now class }
    ensures { MatchResult result (λ ss. AreAtLine f.now class line ss.now × (ss.now ≢ [])) (NamesNoLine f.now name.now line) }
{
    let statements = f.at_line(class, line);
    if statements.is_empty() {
        return Err(CommandError::NoLine);
    }
    Ok(statements)
}

/// The statements of a class, by its name, at a line of its source, one or more. The error is that no class has the name, or that
/// none of its statements is at the line.
pub fn statements_at<'f>(
    f: &'f Facts,
    name: &[u8],
    line: u16,
) -> Result<&'f [Statement], CommandError>
    ensures { MatchResult result (λ ss. (c : _) × IsClassNamed f.now name.now c × AreAtLine f.now c line ss.now × (ss.now ≢ [])) (NamesNoLine f.now name.now line) }
{
    match f.find_class(name) {
        Some(class) => statements_in(f, name, class, line),
        None => Err(CommandError::NoClass),
    }
}
