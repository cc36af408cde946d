// Code.
ghost use Rattle.std.specs.Prelude.{◌≡◌, []};
ghost use Rattle.byte_form.specs.States.{state};
ghost use Rattle.byte_form.specs.Reading.{Gives, list_at};
ghost use Rattle.class_form.specs.ClassReading.{read_counted, read_handler, read_body, read_code};

use crate::lines::code_attributes;
use byte_form::cursor::Cursor;
use byte_form::error::ItemError;
use class_form::class_file::{Attribute, CodeBody, Content, Handler};
use class_form::pool::Pool;
use class_rules::rules::{has_code, is_handler};
use slicer_ids::list::List;
use std::alloc::Global;

#[tactic(auto, unfolding(class_form::specs::ClassReading::read_handler))]
fn handler(pool: &Pool, len: u32, cursor: &mut Cursor<'_>) -> Result<Handler, ItemError>
    ensures { Gives (λ x. x) result (state cursor.new) (read_handler pool.now len (state cursor.old)) }
{
    let at = cursor.at();
    let start = cursor.u2()?;
    let end = cursor.u2()?;
    let handler = cursor.u2()?;
    let catch_type = cursor.u2()?;
    let entry = Handler {
        start,
        end,
        handler,
        catch_type,
    };
    if !is_handler(pool, len, &entry) {
        return Err(ItemError::Broken { rule: 15, at });
    }
    Ok(entry)
}

fn handler_list(
    alloc: Global,
    count: u16,
    pool: &Pool,
    len: u32,
    cursor: &mut Cursor<'_>,
) -> Result<Vec<Handler>, ItemError>
    ensures { Gives (λ v. v.items) result (state cursor.new) (list_at (λ _. read_handler pool.now len) count [] (state cursor.old)) }
{
    let mut items = Vec::new(alloc);
    for _ in 0..count {
        let next = handler(pool, len, cursor)?;
        items.push(next)?;
    }
    Ok(items)
}

fn handlers(
    alloc: Global,
    pool: &Pool,
    len: u32,
    cursor: &mut Cursor<'_>,
) -> Result<List<Handler>, ItemError>
    ensures { Gives (λ x. x) result (state cursor.new) (read_counted (λ _. read_handler pool.now len) (state cursor.old)) }
{
    let count = cursor.u2()?;
    let items = handler_list(alloc, count, pool, len, cursor)?;
    Ok(List::from_vec(items))
}

#[tactic(auto, unfolding(class_form::specs::ClassReading::read_body))]
fn body(alloc: Global, pool: &Pool, cursor: &mut Cursor<'_>) -> Result<CodeBody, ItemError>
    ensures { Gives (λ x. x) result (state cursor.new) (read_body pool.now (state cursor.old)) }
{
    let max_stack = cursor.u2()?;
    let max_locals = cursor.u2()?;
    let at = cursor.at();
    let len = cursor.u4()?;
    if len == 0 || len > 65535 {
        return Err(ItemError::Broken { rule: 14, at });
    }
    let code = cursor.name(alloc, len as usize)?;
    let handlers = handlers(alloc, pool, len, cursor)?;
    let attributes = code_attributes(alloc, pool, len, cursor)?;
    Ok(CodeBody {
        max_stack,
        max_locals,
        code,
        handlers,
        attributes,
    })
}

/// The content of a Code whose attribute stands at the offset, behind these attributes of its method.
#[tactic(auto, unfolding(class_form::specs::ClassReading::read_code, byte_form::specs::Reading::inside_at))]
pub fn code(
    alloc: Global,
    pool: &Pool,
    at: u32,
    before: &[Attribute],
    cursor: &mut Cursor<'_>,
) -> Result<Content, ItemError>
    ensures { Gives (λ x. x) result (state cursor.new) (read_code pool.now at before.now (state cursor.old)) }
{
    let size = cursor.u4()?;
    let mut part = cursor.part(size as usize)?;
    if has_code(before) {
        return Err(ItemError::Broken { rule: 13, at });
    }
    match body(alloc, pool, &mut part) {
        Err(ItemError::NoMemory) => Err(ItemError::NoMemory),
        Err(ItemError::Truncated) => Err(ItemError::Broken { rule: 12, at }),
        Err(ItemError::Broken { rule, at }) => Err(ItemError::Broken { rule, at }),
        Ok(body) => {
            if part.is_at_end() {
                Ok(Content::Code(body))
            } else {
                Err(ItemError::Broken { rule: 12, at })
            }
        }
    }
}
