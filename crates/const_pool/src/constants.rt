// All constants of a pool, index by index.
ghost use Rattle.std.specs.Prelude.{◌≡◌, ◌<◌, [], length};
ghost use Rattle.byte_form.specs.States.{state};
ghost use Rattle.byte_form.specs.Reading.{Gives, list_at};
ghost use Rattle.class_form.specs.PoolReading.{is_wide, ends_wide, read_index};

use crate::constant::constant;
use byte_form::cursor::Cursor;
use byte_form::error::ItemError;
use class_form::pool::Constant;
use std::alloc::Global;

/// Whether a constant takes two indices.
pub fn is_wide(constant: &Constant) -> bool
    ensures { result ≡ is_wide constant.now }
{
    matches!(constant, Constant::Long(_) | Constant::Double(_))
}

// Whether the last constant takes another index.
fn ends_wide(before: &[Constant]) -> bool
    ensures { result ≡ ends_wide before.now }
{
    match before.last() {
        Some(constant) => is_wide(constant),
        None => false,
    }
}

// What stands at the next of so many indices.
#[tactic(auto, unfolding(class_form::specs::PoolReading::read_index))]
fn index(
    alloc: Global,
    major: u16,
    count: u16,
    before: &[Constant],
    cursor: &mut Cursor<'_>,
) -> Result<Constant, ItemError>
    requires { length before.now < count }
    ensures { Gives (λ c. c) result (state cursor.new) (read_index major count before.now (state cursor.old)) }
{
    if ends_wide(before) {
        return Ok(Constant::Second);
    }
    let left = count - before.len() as u16 - 1;
    constant(alloc, major, left, cursor)
}

/// The constants of so many indices.
pub fn constants(
    alloc: Global,
    major: u16,
    count: u16,
    cursor: &mut Cursor<'_>,
) -> Result<Vec<Constant>, ItemError>
    ensures { Gives (λ v. v.items) result (state cursor.new) (list_at (read_index major count) count [] (state cursor.old)) }
{
    let mut constants = Vec::new(alloc);
    for _ in 0..count {
        let next = index(alloc, major, count, &constants, cursor)?;
        constants.push(next)?;
    }
    Ok(constants)
}
