// Code, its exception table and its attributes.
ghost use Rattle.std.specs.Prelude.{◌≡◌, ◌<◌, ◌^◌, ◌++◌, length, All, OnOk};
ghost use Rattle.std.specs.List.{flat_map};
ghost use Rattle.class_form.specs.Spelling.{spell_boxed, spell_counted, spell_handler, spell_line, spell_code_content, spell_code_attribute, spell_code};
ghost use Rattle.class_writer.specs.Sizes.{FitsCodeContent, FitsCodeAttribute, FitsBody};

use crate::output::Output;
use crate::sizes::code_content_size;
use class_form::class_file::{CodeAttribute, CodeBody, CodeContent, Handler};
use slicer_ids::ids::NoMemory;

fn handler(output: &mut Output, handler: &Handler) -> Result<(), NoMemory>
    ensures { OnOk result (output.new ≡ output.old ++ spell_handler handler.now) }
{
    output.u2(handler.start)?;
    output.u2(handler.end)?;
    output.u2(handler.handler)?;
    output.u2(handler.catch_type)
}

fn handlers(output: &mut Output, handlers: &[Handler]) -> Result<(), NoMemory>
    ensures { OnOk result (output.new ≡ output.old ++ flat_map spell_handler handlers.now) }
{
    for next in handlers {
        handler(output, next)?;
    }
    Ok(())
}

fn line(output: &mut Output, pc: u16, number: u16) -> Result<(), NoMemory>
    ensures { OnOk result (output.new ≡ output.old ++ spell_line (pc, number)) }
{
    output.u2(pc)?;
    output.u2(number)
}

fn lines(output: &mut Output, lines: &[(u16, u16)]) -> Result<(), NoMemory>
    ensures { OnOk result (output.new ≡ output.old ++ flat_map spell_line lines.now) }
{
    for (pc, number) in lines {
        line(output, *pc, *number)?;
    }
    Ok(())
}

fn line_table(output: &mut Output, table: &[(u16, u16)]) -> Result<(), NoMemory>
    requires { length table.now < 2 ^ 16 }
    ensures { OnOk result (output.new ≡ output.old ++ spell_counted spell_line table.now) }
{
    output.u2(table.len() as u16)?;
    lines(output, table)
}

fn content(output: &mut Output, content: &CodeContent) -> Result<(), NoMemory>
    requires { FitsCodeContent content.now }
    ensures { OnOk result (output.new ≡ output.old ++ spell_code_content content.now) }
{
    match content {
        CodeContent::Lines(lines) => line_table(output, lines.items()),
        CodeContent::Other(content) => output.bytes(content.bytes()),
    }
}

fn attribute(output: &mut Output, attribute: &CodeAttribute) -> Result<(), NoMemory>
    requires { FitsCodeAttribute attribute.now }
    ensures { OnOk result (output.new ≡ output.old ++ spell_code_attribute attribute.now) }
{
    output.u2(attribute.name)?;
    output.u4(code_content_size(&attribute.content) as u32)?;
    content(output, &attribute.content)
}

fn attributes(output: &mut Output, attributes: &[CodeAttribute]) -> Result<(), NoMemory>
    requires { All FitsCodeAttribute attributes.now }
    ensures { OnOk result (output.new ≡ output.old ++ flat_map spell_code_attribute attributes.now) }
{
    for next in attributes {
        attribute(output, next)?;
    }
    Ok(())
}

// The exception table, behind its count.
fn exception_table(output: &mut Output, table: &[Handler]) -> Result<(), NoMemory>
    requires { length table.now < 2 ^ 16 }
    ensures { OnOk result (output.new ≡ output.old ++ spell_counted spell_handler table.now) }
{
    output.u2(table.len() as u16)?;
    handlers(output, table)
}

// The attributes, behind their count.
fn attribute_table(output: &mut Output, table: &[CodeAttribute]) -> Result<(), NoMemory>
    requires count { length table.now < 2 ^ 16 }
    requires fit { All FitsCodeAttribute table.now }
    ensures { OnOk result (output.new ≡ output.old ++ spell_counted spell_code_attribute table.now) }
{
    output.u2(table.len() as u16)?;
    attributes(output, table)
}

// The code, behind its length.
fn instructions(output: &mut Output, code: &[u8]) -> Result<(), NoMemory>
    requires { length code.now < 2 ^ 32 }
    ensures { OnOk result (output.new ≡ output.old ++ spell_boxed code.now) }
{
    output.u4(code.len() as u32)?;
    output.bytes(code)
}

/// Writes code.
pub fn code(output: &mut Output, body: &CodeBody) -> Result<(), NoMemory>
    requires { FitsBody body.now }
    ensures { OnOk result (output.new ≡ output.old ++ spell_code body.now) }
{
    output.u2(body.max_stack)?;
    output.u2(body.max_locals)?;
    instructions(output, body.code.bytes())?;
    exception_table(output, body.handlers.items())?;
    attribute_table(output, body.attributes.items())
}
