// Equal texts of a pool under one number, so that the names and descriptors of members are compared as numbers.
ghost use Rattle.std.specs.Prelude.{◌≡◌, ◌<◌, ◌^◌, ◌∷◌, ◌++◌, [], length, IfOk, OnOk, IsSome, not};
ghost use Rattle.class_form.specs.ClassReading.{is_new};
ghost use Rattle.class_form.specs.Pools.{utf_at};
ghost use Rattle.class_reader.specs.Numbers.{first_in, IsFirst, IsNumbered, number_at, AreNumbersOf, has_pair, numbers_of, names_of, IsSeen, AreTexts};

use class_form::class_file::Member;
use class_form::pool::{Constant, Pool};
use std::alloc::{AllocError, Global};
use std::collections::{BTreeMap, BTreeSet};

fn first_of<'a>(
    text: &'a [u8],
    next: usize,
    firsts: &mut BTreeMap<&'a [u8], usize>,
) -> Result<usize, AllocError>
    ensures { IfOk result (λ n. IsFirst text.now next (first_in firsts.old) (first_in firsts.new) n) }
{
    if let Some(first) = firsts.get(text) {
        return Ok(*first);
    }
    let _ = firsts.insert(text, next)?;
    Ok(next)
}

fn number_of<'a>(
    constant: &'a Constant,
    next: usize,
    firsts: &mut BTreeMap<&'a [u8], usize>,
) -> Result<usize, AllocError>
    ensures { IfOk result (λ n. IsNumbered constant.now next (first_in firsts.old) (first_in firsts.new) n) }
{
    match constant {
        Constant::Utf8(text) => first_of(text.bytes(), next, firsts),
        _ => Ok(next),
    }
}

/// A number for each constant; texts are equal exactly where their numbers are. n log n comparisons.
pub fn numbers(alloc: Global, pool: &Pool) -> Result<Vec<usize>, AllocError>
    ensures { IfOk result (λ v. AreNumbersOf pool.now v.items) }
{
    let mut firsts = BTreeMap::new(alloc);
    let mut numbers = Vec::new(alloc);
    for constant in pool.constants.items() {
        let number = number_of(constant, numbers.len(), &mut firsts)?;
        numbers.push(number)?;
    }
    Ok(numbers)
}

fn number_at(numbers: &[usize], i: u16) -> usize
    ensures { result ≡ number_at numbers.now i }
{
    if i == 0 {
        return 0;
    }
    match numbers.get(i as usize - 1) {
        Some(number) => *number,
        None => 0,
    }
}

/// Whether none of the members before has this name and descriptor; they are seen from then on. `seen` has the numbers of those before.
/// Logarithmic in their number.
pub fn is_new(
    pool: &Pool,
    numbers: &[usize],
    before: &[Member],
    seen: &mut BTreeSet<(usize, usize)>,
    name: u16,
    descriptor: u16,
) -> Result<bool, AllocError>
    requires numbers { AreNumbersOf pool.now numbers.now }
    requires seen { IsSeen numbers.now seen.old (names_of before.now) }
    requires texts { AreTexts pool.now (names_of before.now) }
    requires name { IsSome (utf_at pool.now name) }
    requires descriptor { IsSome (utf_at pool.now descriptor) }
    ensures value { IfOk result (λ b. b ≡ is_new pool.now before.now name descriptor) }
    ensures seen { OnOk result (IsSeen numbers.now seen.new (names_of before.now ++ (name, descriptor) ∷ [])) }
{
    Ok(seen.insert((number_at(numbers, name), number_at(numbers, descriptor)))?)
}
