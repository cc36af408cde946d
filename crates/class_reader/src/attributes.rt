// Attributes of fields and classes, and content that is kept as it is.
ghost use Rattle.std.specs.Prelude.{◌≡◌, []};
ghost use Rattle.byte_form.specs.States.{state};
ghost use Rattle.byte_form.specs.Reading.{Gives, list_at};
ghost use Rattle.class_form.specs.ClassReading.{read_counted, read_kept, read_plain_attribute};

use byte_form::cursor::Cursor;
use byte_form::error::ItemError;
use class_form::class_file::{Attribute, Content};
use class_form::pool::Pool;
use const_pool::is_utf;
use slicer_ids::list::List;
use slicer_ids::name::Name;
use std::alloc::Global;

/// A length, and that many bytes.
#[tactic(auto, unfolding(class_form::specs::ClassReading::read_kept))]
pub fn kept(alloc: Global, cursor: &mut Cursor<'_>) -> Result<Name, ItemError>
    ensures { Gives (λ x. x) result (state cursor.new) (read_kept (state cursor.old)) }
{
    let len = cursor.u4()?;
    cursor.name(alloc, len as usize)
}

#[tactic(auto, unfolding(class_form::specs::ClassReading::read_plain_attribute))]
fn plain_attribute(
    alloc: Global,
    pool: &Pool,
    cursor: &mut Cursor<'_>,
) -> Result<Attribute, ItemError>
    ensures { Gives (λ x. x) result (state cursor.new) (read_plain_attribute pool.now (state cursor.old)) }
{
    let at = cursor.at();
    let name = cursor.u2()?;
    if !is_utf(pool, name) {
        return Err(ItemError::Broken { rule: 11, at });
    }
    let content = kept(alloc, cursor)?;
    Ok(Attribute {
        name,
        content: Content::Other(content),
    })
}

fn plain_list(
    alloc: Global,
    count: u16,
    pool: &Pool,
    cursor: &mut Cursor<'_>,
) -> Result<Vec<Attribute>, ItemError>
    ensures { Gives (λ v. v.items) result (state cursor.new) (list_at (λ _. read_plain_attribute pool.now) count [] (state cursor.old)) }
{
    let mut items = Vec::new(alloc);
    for _ in 0..count {
        let next = plain_attribute(alloc, pool, cursor)?;
        items.push(next)?;
    }
    Ok(items)
}

/// The attributes of a field or a class.
pub fn plain_attributes(
    alloc: Global,
    pool: &Pool,
    cursor: &mut Cursor<'_>,
) -> Result<List<Attribute>, ItemError>
    ensures { Gives (λ x. x) result (state cursor.new) (read_counted (λ _. read_plain_attribute pool.now) (state cursor.old)) }
{
    let count = cursor.u2()?;
    let items = plain_list(alloc, count, pool, cursor)?;
    Ok(List::from_vec(items))
}
