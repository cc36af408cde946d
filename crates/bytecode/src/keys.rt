// The numbers that an instruction names: a primitive type, dimensions, and the keys of a switch.
ghost use Rattle.std.specs.Prelude.{◌≡◌, ◌↔◌, ◌<◌, ◌≤◌, ◌+◌, ◌*◌, ℕ, List, Some, IsTrue, length, slice_index};
ghost use Rattle.std.specs.List.Sorted.{IsStrictlyIncreasing};
ghost use Rattle.class_form.specs.Pools.{class_at};
ghost use Rattle.class_form.specs.Bytes.{words_at, aligned};
ghost use Rattle.class_form.specs.Instructions.{brackets, size_of, lookup_keys, HasNumbers};
ghost use Rattle.class_form.specs.declared.opcode.Form.TheVariants.{LookupSwitch};

use crate::numbers::{aligned, short_at, signed_word_at, word_at};
use class_form::opcode::Form;
use class_form::pool::Pool;

/// Whether the numbers of the instruction at a place are right.
pub(crate) fn has_numbers(code: &[u8], pool: &Pool, pc: usize, form: Form) -> bool
    requires fits { length code.now < 65536 }
    requires within { pc + size_of code.now pc form ≤ length code.now }
    ensures { IsTrue result ↔ HasNumbers code.now pool.now pc form }
{
    match form {
        Form::ElementType => 4 <= code[pc + 1] && code[pc + 1] <= 11,
        Form::Dimensions => has_dimensions(pool, short_at(code, pc + 1), code[pc + 3]),
        Form::LookupSwitch => has_ordered_keys(code, pc),
        _ => true,
    }
}

// Whether a class has at least so many dimensions, and these are some.
fn has_dimensions(pool: &Pool, index: u16, dims: u8) -> bool
    ensures { IsTrue result ↔ ((0 < dims) × ((text : List ℕ) × (class_at pool.now index ≡ Some text) × (dims ≤ brackets text))) }
{
    if dims == 0 {
        return false;
    }
    match pool.class(index) {
        Some(text) => dims as usize <= brackets(text),
        None => false,
    }
}

/// The dimensions of a type, as the text of a class constant names it.
pub(crate) fn brackets(text: &[u8]) -> usize
    ensures { result ≡ brackets text.now }
{
    text.iter().take_while(|b| **b == 91).count()
}

// Whether the keys of a lookupswitch ascend.
fn has_ordered_keys(code: &[u8], pc: usize) -> bool
    requires fits { length code.now < 65536 }
    requires within { pc + size_of code.now pc LookupSwitch ≤ length code.now }
    ensures { IsTrue result ↔ IsStrictlyIncreasing (words_at code.now (aligned pc + 8) 8 (lookup_keys code.now (aligned pc))) }
{
    let start = aligned(pc);
    let keys = word_at(code, start + 4) as usize;
    ascend(code, start + 8, keys)
}

// Whether so many numbers of four bytes ascend, each 8 bytes after the one before.
fn ascend(code: &[u8], from: usize, count: usize) -> bool
    requires fits { length code.now < 65536 }
    requires within { from + 8 * count ≤ length code.now }
    ensures { IsTrue result ↔ IsStrictlyIncreasing (words_at code.now from 8 count) }
{
    for k in 1..count {
        let here = signed_word_at(code, from + 8 * k);
        let before = signed_word_at(code, from + 8 * k - 8);
        if here <= before {
            return false;
        }
    }
    true
}
