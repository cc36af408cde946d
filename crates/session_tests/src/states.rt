// What a session has been told, step by step.

use crate::facts::{at, one_method, place};
use dep_form::facts::Facts;
use report::CommandError;
use session_state::{SessionState, Told};
use slicer_ids::ids::NoMemory;
use slicer_ids::name::Name;
use std::alloc::Global;
use std::test::Fail;

// The command that adds the method's statement at a pc.
fn seed(alloc: Global, f: &Facts, state: &mut SessionState, pc: u16) -> Result<Told, NoMemory> {
    let place = place(alloc, b"a/B", b"run", b"()V", pc)?;
    state.seed(f, &place)
}

// The command that adds the class's statements at a line.
fn seed_line(
    alloc: Global,
    f: &Facts,
    state: &mut SessionState,
    line: u16,
) -> Result<Told, NoMemory> {
    let name = Name::from_bytes(alloc, b"a/B")?;
    state.seed_line(f, &name, line)
}

// The command that expands the method's access at a pc.
fn expand(alloc: Global, f: &Facts, state: &mut SessionState, pc: u16) -> Result<Told, NoMemory> {
    let place = place(alloc, b"a/B", b"run", b"()V", pc)?;
    state.expand(f, &place)
}

#[test]
fn seeds_are_in_order(rt: HostRuntime) -> Result<(), Fail> {
    let alloc = rt.alloc();
    let f = one_method(alloc)?.expect(&rt, "facts");
    let mut state = SessionState::new(alloc);
    assert!(rt; seed(alloc, &f, &mut state, 300)? == Told::Other);
    assert!(rt; seed(alloc, &f, &mut state, 300)? == Told::Same);
    assert!(rt; seed_line(alloc, &f, &mut state, 7)? == Told::Other);
    assert!(rt; seed_line(alloc, &f, &mut state, 7)? == Told::Same);
    assert!(rt; state.seeds() == &[at(0), at(4), at(300)][..]);
    Ok(())
}

#[test]
fn a_refused_seed_changes_nothing(rt: HostRuntime) -> Result<(), Fail> {
    let alloc = rt.alloc();
    let f = one_method(alloc)?.expect(&rt, "facts");
    let mut state = SessionState::new(alloc);
    assert!(rt; seed(alloc, &f, &mut state, 4)? == Told::Other);
    let refused = Told::Refused(CommandError::NoStatement);
    assert!(rt; seed(alloc, &f, &mut state, 301)? == refused);
    assert!(rt; state.seeds() == &[at(4)][..]);
    Ok(())
}

#[test]
fn accesses_are_expanded(rt: HostRuntime) -> Result<(), Fail> {
    let alloc = rt.alloc();
    let f = one_method(alloc)?.expect(&rt, "facts");
    let mut state = SessionState::new(alloc);
    assert!(rt; expand(alloc, &f, &mut state, 300)? == Told::Same);
    let refused = Told::Refused(CommandError::NoAccess);
    assert!(rt; expand(alloc, &f, &mut state, 0)? == refused);
    assert!(rt; state.expanded() == &[at(300)][..]);
    Ok(())
}

// Expands all accesses.
fn expand_all(alloc: Global, f: &Facts, state: &mut SessionState) -> Result<(), NoMemory> {
    state.expand_all(alloc, f)
}

#[test]
fn all_are_expanded_until_a_reset(rt: HostRuntime) -> Result<(), Fail> {
    let alloc = rt.alloc();
    let f = one_method(alloc)?.expect(&rt, "facts");
    let mut state = SessionState::new(alloc);
    expand_all(alloc, &f, &mut state)?;
    assert!(rt; state.expanded() == &[at(4), at(300)][..]);
    state.reset();
    assert!(rt; state.expanded().is_empty());
    Ok(())
}
