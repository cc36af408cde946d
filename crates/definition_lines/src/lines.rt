// How the definitions that hold in a slot before an instruction are printed.
ghost use Rattle.std.specs.Prelude.{◌≡◌, ◌++◌, OnOk};
ghost use Rattle.std.specs.Fmt.{decimal};
ghost use Rattle.std.specs.List.{flat_map};
ghost use Rattle.definition_lines.specs.Lines.{definition_text, later_text, definitions_text, slot_text, definitions_line};

use class_form::body::Def;
use refusal_lines::push_number;
use std::alloc::{AllocError, Global};

/// A slot before an instruction of a body with so many locals.
#[derive(Clone, Copy)]
pub struct Place {
    pub pc: u16,
    pub slot: u32,
    pub locals: u16,
}

/// Appends the line of a slot of a method, which is printed so, and of the definitions that hold there.
pub fn push_line(
    alloc: Global,
    text: &mut Vec<u8>,
    method: &[u8],
    place: Place,
    defs: &[Def],
) -> Result<(), AllocError>
    ensures { OnOk result (text.new.items ≡ text.old.items ++ definitions_line method.now place.locals place.pc place.slot defs.now) }
{
    text.extend_from_slice(method)?;
    push_word(alloc, text, b" ", place.pc as u64)?;
    text.extend_from_slice(b" ")?;
    push_slot(alloc, text, place.locals, place.slot)?;
    text.extend_from_slice(b": ")?;
    push_definitions(alloc, text, defs)?;
    text.extend_from_slice(b"\n")
}

fn push_slot(alloc: Global, text: &mut Vec<u8>, locals: u16, slot: u32) -> Result<(), AllocError>
    ensures { OnOk result (text.new.items ≡ text.old.items ++ slot_text locals slot) }
{
    let locals = locals as u32;
    if slot < locals {
        push_word(alloc, text, b"local ", slot as u64)
    } else {
        push_word(alloc, text, b"stack ", (slot - locals) as u64)
    }
}

fn push_definitions(alloc: Global, text: &mut Vec<u8>, defs: &[Def]) -> Result<(), AllocError>
    ensures { OnOk result (text.new.items ≡ text.old.items ++ definitions_text defs.now) }
{
    match defs {
        [] => text.extend_from_slice(b"none"),
        [first, later @ ..] => push_several(alloc, text, *first, later),
    }
}

fn push_several(
    alloc: Global,
    text: &mut Vec<u8>,
    first: Def,
    later: &[Def],
) -> Result<(), AllocError>
    ensures { OnOk result (text.new.items ≡ text.old.items ++ (definition_text first ++ flat_map later_text later.now)) }
{
    push_definition(alloc, text, first)?;
    for def in later {
        push_later(alloc, text, *def)?;
    }
    Ok(())
}

fn push_later(alloc: Global, text: &mut Vec<u8>, def: Def) -> Result<(), AllocError>
    ensures { OnOk result (text.new.items ≡ text.old.items ++ later_text def) }
{
    text.extend_from_slice(b", ")?;
    push_definition(alloc, text, def)
}

fn push_definition(alloc: Global, text: &mut Vec<u8>, def: Def) -> Result<(), AllocError>
    ensures { OnOk result (text.new.items ≡ text.old.items ++ definition_text def) }
{
    match def {
        Def::Formal(number) => push_word(alloc, text, b"formal ", number as u64),
        Def::Value(pc) => push_word(alloc, text, b"value ", pc as u64),
        Def::Caught(pc) => push_word(alloc, text, b"caught ", pc as u64),
    }
}

// A word and a number behind it.
fn push_word(alloc: Global, text: &mut Vec<u8>, word: &[u8], number: u64) -> Result<(), AllocError>
    ensures { OnOk result (text.new.items ≡ text.old.items ++ (word.now ++ decimal number)) }
{
    text.extend_from_slice(word)?;
    push_number(alloc, text, number)
}
