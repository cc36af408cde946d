// The line of each program counter.
ghost use Rattle.std.specs.Prelude.{◌≡◌, ◌++◌, ℕ, List, IfOk, OnOk};
ghost use Rattle.std.specs.List.{flat_map};
ghost use Rattle.line_numbers.specs.LineTables.{lines_of, lines_in, lines_of_one, IsLineAt, AreLasts, line_in};

use crate::filling::{fill, put_lines};
use class_form::class_file::{CodeAttribute, CodeBody, CodeContent};
use slicer_ids::ids::NoMemory;
use slicer_ids::list::List;
use std::alloc::Global;

/// The line of source of each program counter of a body, up to the last at which a line begins.
#[derive(Drop)]
pub struct LineNumbers {
    pub by_pc: List<Option<u16>>,
}

// The lines of a table that is one.
fn put_content(content: &CodeContent, by_pc: &mut Vec<Option<u16>>) -> Result<(), NoMemory>
    ensures { OnOk result ((before : List (ℕ × ℕ)) → AreLasts before by_pc.old.items → AreLasts (before ++ lines_in content.now) by_pc.new.items) }
{
    match content {
        CodeContent::Lines(lines) => put_lines(lines.items(), by_pc),
        CodeContent::Other(_) => Ok(()),
    }
}

// The lines of all tables.
fn put_tables(attributes: &[CodeAttribute], by_pc: &mut Vec<Option<u16>>) -> Result<(), NoMemory>
    ensures { OnOk result ((before : List (ℕ × ℕ)) → AreLasts before by_pc.old.items → AreLasts (before ++ flat_map lines_of_one attributes.now) by_pc.new.items) }
{
    for attribute in attributes {
        put_content(&attribute.content, by_pc)?;
    }
    Ok(())
}

impl LineNumbers {
    /// The lines of a body by its line tables (JVMS SE 7, 4.7.12), of which there may be several, in any order. Takes time for their
    /// pairs, and memory for the program counters up to the last at which a line begins.
    pub fn of(alloc: Global, body: &CodeBody) -> Result<LineNumbers, NoMemory>
        ensures { IfOk result (λ n. (pc : ℕ) → IsLineAt (lines_of body.now) pc (line_in n pc)) }
    {
        let mut by_pc = Vec::new(alloc);
        put_tables(body.attributes.items(), &mut by_pc)?;
        fill(&mut by_pc);
        Ok(LineNumbers {
            by_pc: List::from_vec(by_pc),
        })
    }

    /// The line of a program counter: that which begins at the greatest one not above it, and of those the last in the order of the
    /// file; none where no line begins there or before.
    pub fn at(&self, pc: u16) -> Option<u16>
        ensures { result ≡ line_in self.now pc }
    {
        let lines = self.by_pc.items();
        let pc = pc as usize;
        if pc < lines.len() {
            lines[pc]
        } else {
            lines.last().copied().flatten()
        }
    }
}
