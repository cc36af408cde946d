// Line tables, and the other attributes of code.
ghost use Rattle.std.specs.Prelude.{◌≡◌, []};
ghost use Rattle.byte_form.specs.States.{state};
ghost use Rattle.byte_form.specs.Reading.{Gives, list_at};
ghost use Rattle.class_form.specs.ClassReading.{read_counted, read_line, read_lines, read_other_code_content, read_code_content, read_code_attribute};

use crate::attributes::kept;
use byte_form::cursor::Cursor;
use byte_form::error::ItemError;
use class_form::class_file::{CodeAttribute, CodeContent};
use class_form::pool::Pool;
use class_rules::rules::is_named;
use const_pool::is_utf;
use slicer_ids::list::List;
use std::alloc::Global;

#[tactic(auto, unfolding(class_form::specs::ClassReading::read_line))]
fn line(len: u32, cursor: &mut Cursor<'_>) -> Result<(u16, u16), ItemError>
    ensures { Gives (λ x. x) result (state cursor.new) (read_line len (state cursor.old)) }
{
    let at = cursor.at();
    let pc = cursor.u2()?;
    let number = cursor.u2()?;
    if u32::from(pc) >= len {
        return Err(ItemError::Broken { rule: 16, at });
    }
    Ok((pc, number))
}

fn line_list(
    alloc: Global,
    count: u16,
    len: u32,
    cursor: &mut Cursor<'_>,
) -> Result<Vec<(u16, u16)>, ItemError>
    ensures { Gives (λ v. v.items) result (state cursor.new) (list_at (λ _. read_line len) count [] (state cursor.old)) }
{
    let mut items = Vec::new(alloc);
    for _ in 0..count {
        let next = line(len, cursor)?;
        items.push(next)?;
    }
    Ok(items)
}

fn pairs(alloc: Global, len: u32, cursor: &mut Cursor<'_>) -> Result<List<(u16, u16)>, ItemError>
    ensures { Gives (λ x. x) result (state cursor.new) (read_counted (λ _. read_line len) (state cursor.old)) }
{
    let count = cursor.u2()?;
    let items = line_list(alloc, count, len, cursor)?;
    Ok(List::from_vec(items))
}

// The content of a line table whose attribute stands at the offset.
#[tactic(auto, unfolding(class_form::specs::ClassReading::read_lines, byte_form::specs::Reading::inside_at))]
fn lines(
    alloc: Global,
    len: u32,
    at: u32,
    cursor: &mut Cursor<'_>,
) -> Result<CodeContent, ItemError>
    ensures { Gives (λ x. x) result (state cursor.new) (read_lines len at (state cursor.old)) }
{
    let size = cursor.u4()?;
    let mut part = cursor.part(size as usize)?;
    match pairs(alloc, len, &mut part) {
        Err(ItemError::NoMemory) => Err(ItemError::NoMemory),
        Err(ItemError::Truncated) => Err(ItemError::Broken { rule: 12, at }),
        Err(ItemError::Broken { rule, at }) => Err(ItemError::Broken { rule, at }),
        Ok(pairs) => {
            if part.is_at_end() {
                Ok(CodeContent::Lines(pairs))
            } else {
                Err(ItemError::Broken { rule: 12, at })
            }
        }
    }
}

#[tactic(auto, unfolding(class_form::specs::ClassReading::read_other_code_content))]
fn other(alloc: Global, cursor: &mut Cursor<'_>) -> Result<CodeContent, ItemError>
    ensures { Gives (λ x. x) result (state cursor.new) (read_other_code_content (state cursor.old)) }
{
    let content = kept(alloc, cursor)?;
    Ok(CodeContent::Other(content))
}

#[tactic(auto, unfolding(class_form::specs::ClassReading::read_code_content))]
fn content(
    alloc: Global,
    pool: &Pool,
    len: u32,
    at: u32,
    name: u16,
    cursor: &mut Cursor<'_>,
) -> Result<CodeContent, ItemError>
    ensures { Gives (λ x. x) result (state cursor.new) (read_code_content pool.now len at name (state cursor.old)) }
{
    if is_named(pool, name, b"LineNumberTable") {
        lines(alloc, len, at, cursor)
    } else {
        other(alloc, cursor)
    }
}

#[tactic(auto, unfolding(class_form::specs::ClassReading::read_code_attribute))]
fn code_attribute(
    alloc: Global,
    pool: &Pool,
    len: u32,
    cursor: &mut Cursor<'_>,
) -> Result<CodeAttribute, ItemError>
    ensures { Gives (λ x. x) result (state cursor.new) (read_code_attribute pool.now len (state cursor.old)) }
{
    let at = cursor.at();
    let name = cursor.u2()?;
    if !is_utf(pool, name) {
        return Err(ItemError::Broken { rule: 11, at });
    }
    let content = content(alloc, pool, len, at, name, cursor)?;
    Ok(CodeAttribute { name, content })
}

fn attribute_list(
    alloc: Global,
    count: u16,
    pool: &Pool,
    len: u32,
    cursor: &mut Cursor<'_>,
) -> Result<Vec<CodeAttribute>, ItemError>
    ensures { Gives (λ v. v.items) result (state cursor.new) (list_at (λ _. read_code_attribute pool.now len) count [] (state cursor.old)) }
{
    let mut items = Vec::new(alloc);
    for _ in 0..count {
        let next = code_attribute(alloc, pool, len, cursor)?;
        items.push(next)?;
    }
    Ok(items)
}

/// The attributes of code of this length.
pub fn code_attributes(
    alloc: Global,
    pool: &Pool,
    len: u32,
    cursor: &mut Cursor<'_>,
) -> Result<List<CodeAttribute>, ItemError>
    ensures { Gives (λ x. x) result (state cursor.new) (read_counted (λ _. read_code_attribute pool.now len) (state cursor.old)) }
{
    let count = cursor.u2()?;
    let items = attribute_list(alloc, count, pool, len, cursor)?;
    Ok(List::from_vec(items))
}
