// A set of numbers as a row of bits.
ghost use Rattle.std.specs.Prelude.{◌≡◌, ◌<◌, ◌≤◌, ◌*◌, ◌+◌, ◌/◌, ◌%◌, ◌^◌, ◌↔◌, ◌⊎◌, ℕ, false, IsTrue, length, slice_index, max, min, bit_or, OnOk, IfOk};
ghost use Rattle.std.specs.Int.{bit_at};
ghost use Rattle.slicer_ids.specs.Sets.{IsOrderedListOf};
ghost use Rattle.points_to.specs.Bits.{IsMember, AddsTo, ListsBelow};

use slicer_ids::ids::NoMemory;
use std::alloc::Global;

/// Whether the row has the number.
pub fn has(row: &[u64], number: u32) -> bool
    ensures { IsTrue result ↔ IsMember row.now number }
{
    let place = (number / 64) as usize;
    if place < row.len() {
        (row[place] >> (number % 64)) & 1 == 1
    } else {
        false
    }
}

/// Lengthens the row by empty words.
fn widen(row: &mut Vec<u64>, len: usize) -> Result<(), NoMemory>
    ensures words { OnOk result ((i : ℕ) → slice_index row.new.items i ≡ slice_index row.old.items i) }
    ensures len { OnOk result (length row.new.items ≡ max (length row.old.items) len) }
{
    while row.len() < len {
        row.push(0)?;
    }
    Ok(())
}

// Lists a place whose word is new.
fn touch(touched: &mut Vec<usize>, place: usize, new: bool) -> Result<(), NoMemory> {
    if new {
        touched.push(place)?;
    }
    Ok(())
}

/// Adds the words' bits, and says whether that changed a word. The places of words that changed are added to a list.
fn or_words(to: &mut Vec<u64>, from: &[u64], touched: &mut Vec<usize>) -> Result<bool, NoMemory>
    requires { length from.now ≤ length to.old.items }
    ensures bits { OnOk result ((i b : ℕ) → bit_at (slice_index to.new.items i) b ≡ max (bit_at (slice_index to.old.items i) b) (bit_at (slice_index from.now i) b)) }
    ensures len { OnOk result (length to.new.items ≡ length to.old.items) }
    ensures quiet { IfOk result (λ changed. changed ≡ false → to.new.items ≡ to.old.items) }
{
    let mut changed = false;
    for k in 0..from.len() {
        let old = to[k];
        let word = old | from[k];
        changed = changed || word != old;
        to[k] = word;
        touch(touched, k, word != old)?;
    }
    Ok(changed)
}

// Whether a word has bits that aren't in the one at its place.
fn adds_some(to: &[u64], from: &[u64]) -> bool
    requires { length from.now ≤ length to.now }
    ensures { result ≡ false → (i : ℕ) → i < length from.now → slice_index to.now i ≡ bit_or (slice_index to.now i) (slice_index from.now i) }
{
    let mut some = false;
    for k in 0..from.len() {
        let word = to[k];
        some = some || word | from[k] != word;
    }
    some
}

/// Adds the members of a row, and says whether one of them was new. The places of words that changed are added to a list.
pub fn union(to: &mut Vec<u64>, from: &[u64], touched: &mut Vec<usize>) -> Result<bool, NoMemory>
    ensures adds { OnOk result (AddsTo to.old.items to.new.items (IsMember from.now)) }
    ensures len { OnOk result (length to.new.items ≡ max (length to.old.items) (length from.now)) }
    ensures quiet { IfOk result (λ changed. changed ≡ false → (k : ℕ) → IsMember to.new.items k → IsMember to.old.items k) }
{
    widen(to, from.len())?;
    if adds_some(to.as_slice(), from) {
        let changed = or_words(to, from, touched)?;
        Ok(changed)
    } else {
        Ok(false)
    }
}

/// Adds a number, and says whether it was new.
pub fn add(row: &mut Vec<u64>, number: u32) -> Result<bool, NoMemory>
    ensures adds { OnOk result (AddsTo row.old.items row.new.items (λ k. k ≡ number)) }
    ensures len { OnOk result (length row.new.items ≡ max (length row.old.items) (number / 64 + 1)) }
    ensures quiet { IfOk result (λ changed. changed ≡ false → (k : ℕ) → IsMember row.new.items k → IsMember row.old.items k) }
{
    let place = (number / 64) as usize;
    widen(row, place + 1)?;
    let old = row[place];
    let word = old | (1 << (number % 64));
    row[place] = word;
    Ok(word != old)
}

/// Adds the bits of a word at a place, and says whether one of them was new.
pub fn add_word(row: &mut Vec<u64>, place: usize, bits: u64) -> Result<bool, NoMemory>
    requires { place < 2 ^ 63 }
    ensures keeps { OnOk result ((k : ℕ) → IsMember row.old.items k → IsMember row.new.items k) }
    ensures only { OnOk result ((k : ℕ) → IsMember row.new.items k → IsMember row.old.items k ⊎ ((k / 64 ≡ place) × (bit_at bits (k % 64) ≡ 1))) }
    ensures len { OnOk result (length row.new.items ≡ max (length row.old.items) (place + 1)) }
{
    widen(row, place + 1)?;
    let old = row[place];
    let word = old | bits;
    row[place] = word;
    Ok(word != old)
}

fn shorter(a: &[u64], b: &[u64]) -> usize
    ensures { result ≡ min (length a.now) (length b.now) }
{
    if a.len() < b.len() { a.len() } else { b.len() }
}

/// The members of both rows.
pub fn meet(alloc: Global, a: &[u64], b: &[u64]) -> Result<Vec<u64>, NoMemory>
    ensures members { IfOk result (λ v. (k : ℕ) → IsMember v.items k ↔ (IsMember a.now k × IsMember b.now k)) }
    ensures len { IfOk result (λ v. length v.items ≤ length a.now) }
{
    let count = shorter(a, b);
    let mut both = Vec::new(alloc);
    for k in 0..count {
        both.push(a[k] & b[k])?;
    }
    Ok(both)
}

fn list_number(row: &[u64], number: u32, list: &mut Vec<u32>) -> Result<(), NoMemory>
    requires { ListsBelow row.now number list.old.items }
    ensures { OnOk result (ListsBelow row.now (number + 1) list.new.items) }
{
    if has(row, number) {
        list.push(number)?;
        Ok(())
    } else {
        Ok(())
    }
}

fn list_each(row: &[u64], place: u32, list: &mut Vec<u32>) -> Result<(), NoMemory>
    requires place { place < 2 ^ 26 }
    requires before { ListsBelow row.now (64 * place) list.old.items }
    ensures { OnOk result (ListsBelow row.now (64 * (place + 1)) list.new.items) }
{
    for b in 0..64 {
        list_number(row, 64 * place + b, list)?;
    }
    Ok(())
}

fn list_word(row: &[u64], place: u32, list: &mut Vec<u32>) -> Result<(), NoMemory>
    requires place { place < 2 ^ 26 }
    requires within { place < length row.now }
    requires before { ListsBelow row.now (64 * place) list.old.items }
    ensures { OnOk result (ListsBelow row.now (64 * (place + 1)) list.new.items) }
{
    if row[place as usize] == 0 {
        Ok(())
    } else {
        list_each(row, place, list)
    }
}

/// The members of the row, in order.
pub fn members(alloc: Global, row: &[u64]) -> Result<Vec<u32>, NoMemory>
    requires { length row.now ≤ 2 ^ 26 }
    ensures { IfOk result (λ v. IsOrderedListOf (λ a b. a < b) v.items (IsMember row.now)) }
{
    let mut list = Vec::new(alloc);
    for place in 0..row.len() {
        list_word(row, place as u32, &mut list)?;
    }
    Ok(list)
}
