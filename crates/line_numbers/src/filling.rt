// A table of lines by program counter: first where they begin, then where they go on.
ghost use Rattle.std.specs.Prelude.{◌≡◌, ◌<◌, ◌≤◌, ◌+◌, ◌++◌, ◌∷◌, [], ℕ, List, None, OnOk, length, slice_index_or};
ghost use Rattle.line_numbers.specs.LineTables.{AreLasts, IsLineAt, IsLastAt, IsLineBelow};

use slicer_ids::ids::NoMemory;

// Makes room for an entry, without a line.
fn grow(by_pc: &mut Vec<Option<u16>>, pc: usize) -> Result<(), NoMemory>
    ensures room { OnOk result (pc < length by_pc.new.items) }
    ensures same { OnOk result ((k : ℕ) → slice_index_or by_pc.new.items k None ≡ slice_index_or by_pc.old.items k None) }
{
    while by_pc.len() <= pc {
        by_pc.push(None)?;
    }
    Ok(())
}

// A pair more: its line stands where it begins.
fn put_line(by_pc: &mut Vec<Option<u16>>, start: u16, line: u16) -> Result<(), NoMemory>
    ensures { OnOk result ((before : List (ℕ × ℕ)) → AreLasts before by_pc.old.items → AreLasts (before ++ (start, line) ∷ []) by_pc.new.items) }
{
    let pc = start as usize;
    grow(by_pc, pc)?;
    by_pc[pc] = Some(line);
    Ok(())
}

/// More pairs, in their order.
pub fn put_lines(lines: &[(u16, u16)], by_pc: &mut Vec<Option<u16>>) -> Result<(), NoMemory>
    ensures { OnOk result ((before : List (ℕ × ℕ)) → AreLasts before by_pc.old.items → AreLasts (before ++ lines.now) by_pc.new.items) }
{
    for (start, line) in lines {
        put_line(by_pc, *start, *line)?;
    }
    Ok(())
}

// The line at a program counter, from the one that begins there and the one that goes on.
fn later(begins: Option<u16>, goes_on: Option<u16>) -> Option<u16>
    ensures { (lines : List (ℕ × ℕ)) (pc : ℕ) → IsLastAt lines pc begins → IsLineBelow lines pc goes_on → IsLineAt lines pc result }
{
    match begins {
        Some(line) => Some(line),
        None => goes_on,
    }
}

/// Lets each line go on to where the next begins.
pub fn fill(by_pc: &mut Vec<Option<u16>>)
    ensures size { length by_pc.new.items ≡ length by_pc.old.items }
    ensures filled { (lines : List (ℕ × ℕ)) → AreLasts lines by_pc.old.items → (pc : ℕ) → pc < length by_pc.old.items → IsLineAt lines pc (slice_index_or by_pc.new.items pc None) }
{
    let mut line = None;
    for pc in 0..by_pc.len() {
        line = later(by_pc[pc], line);
        by_pc[pc] = line;
    }
}
