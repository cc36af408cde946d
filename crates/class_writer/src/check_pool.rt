// Which values are constant pools.
ghost use Rattle.std.specs.Prelude.{◌≡◌, false};
ghost use Rattle.std.specs.List.{list_all};
ghost use Rattle.class_form.specs.PoolReading.{has_kinds, has_texts};
ghost use Rattle.class_writer.specs.Tests.{is_of_version, is_info, is_second, are_indices, is_constant, is_pool};
ghost use Rattle.const_pool.specs.Texts.{AreKindsOf};

use crate::numbers;
use class_form::pool::{Constant, Pool};
use const_pool::texts::TextKinds;
use const_pool::{has_kinds, has_texts, is_wide};
use jvm_names::check_utf;

// Whether a pool of this major version may have the constant.
fn is_of_version(major: u16, constant: &Constant) -> bool
    ensures { result ≡ is_of_version major constant.now }
{
    match constant {
        Constant::Handle(_, _) | Constant::MethodType(_) | Constant::Dynamic(_, _) => 51 <= major,
        _ => true,
    }
}

// Whether a text can be written, and is one.
fn is_info(constant: &Constant) -> bool
    ensures { result ≡ is_info constant.now }
{
    match constant {
        Constant::Utf8(text) => text.bytes().len() <= 65535 && check_utf(text.bytes()),
        _ => true,
    }
}

fn is_second(constant: &Constant) -> bool
    ensures { result ≡ is_second constant.now }
{
    matches!(constant, Constant::Second)
}

// Whether second indices stand behind each Long and Double, and nowhere else.
fn are_indices(constants: &[Constant]) -> bool
    ensures { result ≡ are_indices false constants.now }
{
    let mut wide = false;
    for constant in constants {
        if is_second(constant) != wide {
            return false;
        }
        wide = is_wide(constant);
    }
    !wide
}

// The rules on one constant.
fn is_constant(pool: &Pool, kinds: &[TextKinds], constant: &Constant) -> bool
    requires { AreKindsOf pool.now kinds.now }
    ensures { result ≡ is_constant pool.now constant.now }
{
    numbers::of_constant(constant);
    is_of_version(pool.major, constant)
        && is_info(constant)
        && has_kinds(pool, constant)
        && has_texts(pool, kinds, constant)
}

fn each_is_constant(pool: &Pool, kinds: &[TextKinds], constants: &[Constant]) -> bool
    requires { AreKindsOf pool.now kinds.now }
    ensures { result ≡ list_all (is_constant pool.now) constants.now }
{
    constants
        .iter()
        .all(|constant| is_constant(pool, kinds, constant))
}

/// Whether the pool can be written, and keeps its rules.
pub fn is_pool(pool: &Pool, kinds: &[TextKinds]) -> bool
    requires { AreKindsOf pool.now kinds.now }
    ensures { result ≡ is_pool pool.now }
{
    let constants = pool.constants.items();
    constants.len() <= 65534 && are_indices(constants) && each_is_constant(pool, kinds, constants)
}
