// Lines of scripts, as a source in memory gives them.

use edge_io::memory_source::MemorySource;
use script::command::LineError;
use script_lines::commands::read_command;
use script_lines::{Next, ScriptReader};
use slicer_ids::list::List;
use slicer_ids::name::Name;
use std::alloc::Global;
use std::test::Fail;

fn source(alloc: Global, bytes: &[u8], failing: Vec<u64>) -> Result<MemorySource, Fail> {
    let bytes = Name::from_bytes(alloc, bytes)?;
    Ok(MemorySource::new(alloc, bytes, List::from_vec(failing)))
}

// What comes next.
fn next(reader: &mut ScriptReader, source: &mut MemorySource) -> Next {
    reader.next(source)
}

#[test]
fn lines_come_one_after_another(rt: HostRuntime) -> Result<(), Fail> {
    let alloc = rt.alloc();
    let mut source = source(alloc, b"seed\r\n\nlast", Vec::new(alloc))?;
    let mut reader = ScriptReader::new(alloc)?;
    assert!(rt; next(&mut reader, &mut source) == Next::Line);
    assert!(rt; reader.line() == b"seed\r".as_slice());
    assert!(rt; next(&mut reader, &mut source) == Next::Line);
    assert!(rt; reader.line().is_empty());
    assert!(rt; next(&mut reader, &mut source) == Next::Last);
    assert!(rt; reader.line() == b"last".as_slice());
    Ok(())
}

#[test]
fn a_fault_is_told(rt: HostRuntime) -> Result<(), Fail> {
    let alloc = rt.alloc();
    let failing = vec![in alloc; 1u64]?;
    let mut source = source(alloc, b"full\n", failing)?;
    let mut reader = ScriptReader::new(alloc)?;
    assert!(rt; next(&mut reader, &mut source) == Next::Fault);
    assert!(rt; next(&mut reader, &mut source) == Next::Line);
    assert!(rt; reader.line() == b"full".as_slice());
    assert!(rt; next(&mut reader, &mut source) == Next::End);
    Ok(())
}

// Whether so many lines come, and then this.
fn ends_after(
    reader: &mut ScriptReader,
    source: &mut MemorySource,
    count: u32,
    last: Next,
) -> bool {
    for _ in 0..count {
        if next(reader, source) != Next::Line {
            return false;
        }
    }
    next(reader, source) == last
}

// A script of so many lines with nothing in them.
fn empty_lines(alloc: Global, count: usize) -> Result<MemorySource, Fail> {
    let bytes = vec![in alloc; 10u8; count]?;
    source(alloc, bytes.as_slice(), Vec::new(alloc))
}

#[test]
fn a_script_has_its_lines(rt: HostRuntime) -> Result<(), Fail> {
    let alloc = rt.alloc();
    let mut reader = ScriptReader::new(alloc)?;
    let mut source = empty_lines(alloc, 1048576)?;
    assert!(rt; ends_after(&mut reader, &mut source, 1048576, Next::End));
    Ok(())
}

#[test]
fn a_script_has_no_more_lines(rt: HostRuntime) -> Result<(), Fail> {
    let alloc = rt.alloc();
    let mut reader = ScriptReader::new(alloc)?;
    let mut source = empty_lines(alloc, 1048577)?;
    assert!(rt; ends_after(&mut reader, &mut source, 1048576, Next::TooLong));
    Ok(())
}

// What is wrong with a line, where something is.
fn refused(alloc: Global, line: &[u8]) -> Option<LineError> {
    match read_command(alloc, line) {
        Ok(_command) => None,
        Err(error) => Some(error),
    }
}

// What is wrong with a script's one line of so many letters.
fn refused_at_length(alloc: Global, count: usize) -> Result<Option<LineError>, Fail> {
    let line = vec![in alloc; 120u8; count]?;
    let mut source = source(alloc, line.as_slice(), Vec::new(alloc))?;
    let mut reader = ScriptReader::new(alloc)?;
    if next(&mut reader, &mut source) != Next::Last {
        return Ok(None);
    }
    Ok(refused(alloc, reader.line()))
}

#[test]
fn lines_have_a_greatest_length(rt: HostRuntime) -> Result<(), Fail> {
    let alloc = rt.alloc();
    assert!(rt; refused_at_length(alloc, 4096)? == Some(LineError::Unknown));
    assert!(rt; refused_at_length(alloc, 4097)? == Some(LineError::TooLong));
    assert!(rt; refused_at_length(alloc, 9000)? == Some(LineError::TooLong));
    Ok(())
}

#[test]
fn one_return_before_the_end_is_dropped(rt: HostRuntime) -> Result<(), Fail> {
    let alloc = rt.alloc();
    assert!(rt; refused(alloc, b"full\r") == None);
    assert!(rt; refused(alloc, b"full\r\r") == Some(LineError::Unknown));
    assert!(rt; refused(alloc, b"seed\r") == Some(LineError::Arity));
    Ok(())
}
