// The constant pool at a place in a class file, and alone.
ghost use Rattle.std.specs.Prelude.{◌≡◌, ◌<◌, ◌^◌, ℕ, length, IfOk, Ok, Err};
ghost use Rattle.byte_form.specs.States.{state};
ghost use Rattle.byte_form.specs.Forms.{Fault};
ghost use Rattle.byte_form.specs.Reading.{Gives, Answers, IfFault};
ghost use Rattle.class_form.specs.declared.pool.Pool.{Pool};
ghost use Rattle.class_form.specs.PoolFaults.{SpellsPool, IsFirstPoolFault};
ghost use Rattle.class_form.specs.PoolReading.{read_pool};
ghost use Rattle.const_pool.specs.Texts.{AreKindsOf};

use crate::constants::constants;
use crate::links::links;
use crate::texts::{TextKinds, kinds};
use byte_form::cursor::Cursor;
use byte_form::error::ItemError;
use class_form::pool::Pool;
use slicer_ids::list::List;
use std::alloc::Global;

/// The constants behind their count, as a pool of this major version, and where they begin.
#[tactic(auto, unfolding(class_form::specs::PoolReading::read_pool))]
pub fn pool_at(
    alloc: Global,
    major: u16,
    cursor: &mut Cursor<'_>,
) -> Result<(Pool, Vec<TextKinds>), ItemError>
    ensures gives { Gives (λ x. x.0) result (state cursor.new) (read_pool major (state cursor.old)) }
    ensures kinds { IfOk result (λ x. AreKindsOf x.0 x.1.items) }
{
    let at = cursor.at();
    let count = cursor.u2()?;
    if count == 0 {
        return Err(ItemError::Broken { rule: 3, at });
    }
    let first = cursor.at();
    let constants = constants(alloc, major, count - 1, cursor)?;
    let kinds = kinds(alloc, &constants)?;
    let pool = Pool {
        constants: List::from_vec(constants),
        major,
    };
    links(&pool, &kinds, first)?;
    Ok((pool, kinds))
}

/// Reads the constant pool of a class file of this major version (JVMS SE 7 4.4) from its count on, and answers how many bytes it takes.
/// Broken rules are named by their number, at the offset from the start of the bytes of the count (rule 3) or of a constant's tag:
/// 1 a tag that is none, 2 a text that isn't modified UTF-8, 3 a count of 0 or a Long or Double at the last index, 4 an index that isn't of
/// its kind, 5 a text that isn't of its kind. Linear in the bytes.
pub fn read_pool(alloc: Global, bytes: &[u8], major: u16) -> Result<(Pool, usize), ItemError>
    requires { length bytes.now < 2 ^ 32 }
    // What is read is spelled so.
    ensures found { IfOk result (λ x. SpellsPool major bytes.now x.0 x.1) }
    // What is spelled so is read, unless memory runs out.
    ensures only { (p : Pool) (len : ℕ) → SpellsPool major bytes.now p len → Answers (λ x. x) result (Ok (p, len)) }
    // A fault is the first one.
    ensures fault { IfFault result (IsFirstPoolFault major bytes.now) }
    // The first fault is answered, unless memory runs out.
    ensures refused { (fault : Fault) → IsFirstPoolFault major bytes.now fault → Answers (λ x. x) result (Err fault) }
{
    let mut cursor = Cursor::new(bytes);
    let (pool, _kinds) = pool_at(alloc, major, &mut cursor)?;
    Ok((pool, cursor.at() as usize))
}
