// What places name, worked out by hand.

use crate::facts::{at, one_method, place};
use dep_form::facts::Facts;
use report::CommandError;
use session_places::naming::{access_at, statement_at, statements_at};
use slicer_ids::ids::{NoMemory, Statement};
use std::alloc::Global;
use std::test::Fail;

// What a place names as a statement.
fn statement(
    alloc: Global,
    f: &Facts,
    class: &[u8],
    name: &[u8],
    descriptor: &[u8],
    pc: u16,
) -> Result<Result<Statement, CommandError>, NoMemory> {
    let place = place(alloc, class, name, descriptor, pc)?;
    Ok(statement_at(f, &place))
}

// What a place of the method names as an access.
fn access(alloc: Global, f: &Facts, pc: u16) -> Result<Result<Statement, CommandError>, NoMemory> {
    let place = place(alloc, b"a/B", b"run", b"()V", pc)?;
    match access_at(f, &place) {
        Ok(named) => Ok(Ok(named.statement)),
        Err(error) => Ok(Err(error)),
    }
}

#[test]
fn statements_are_named(rt: HostRuntime) -> Result<(), Fail> {
    let alloc = rt.alloc();
    let f = one_method(alloc)?.expect(&rt, "facts");
    assert!(rt; statement(alloc, &f, b"a/B", b"run", b"()V", 300)? == Ok(at(300)));
    assert!(rt; statement(alloc, &f, b"a/C", b"run", b"()V", 300)? == Err(CommandError::NoClass));
    assert!(rt; statement(alloc, &f, b"a/B", b"ran", b"()V", 300)? == Err(CommandError::NoMethod));
    assert!(rt; statement(alloc, &f, b"a/B", b"run", b"()I", 300)? == Err(CommandError::NoMethod));
    assert!(rt; statement(alloc, &f, b"a/B", b"run", b"()V", 1)? == Err(CommandError::NoStatement));
    Ok(())
}

#[test]
fn accesses_are_named(rt: HostRuntime) -> Result<(), Fail> {
    let alloc = rt.alloc();
    let f = one_method(alloc)?.expect(&rt, "facts");
    assert!(rt; access(alloc, &f, 4)? == Ok(at(4)));
    assert!(rt; access(alloc, &f, 0)? == Err(CommandError::NoAccess));
    assert!(rt; access(alloc, &f, 5)? == Err(CommandError::NoStatement));
    Ok(())
}

#[test]
fn lines_are_named(rt: HostRuntime) -> Result<(), Fail> {
    let f = one_method(rt.alloc())?.expect(&rt, "facts");
    assert!(rt; statements_at(&f, b"a/B", 7) == Ok(&[at(0), at(4)][..]));
    assert!(rt; statements_at(&f, b"a/B", 8) == Err(CommandError::NoLine));
    assert!(rt; statements_at(&f, b"a", 7) == Err(CommandError::NoClass));
    Ok(())
}
