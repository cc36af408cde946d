// The bytes that a word stands for.
ghost use Rattle.std.specs.Prelude.{◌≡◌, ◌<◌, ◌≤◌, ℕ, List, [], ◌∷◌, ◌++◌, OnOk, length, slice_index, slice_range, IsTrue, ◌↔◌, MatchOption, IfOk, IsSome};
ghost use Rattle.slicer_ids.specs.Escapes.{IsHexDigit, BeginsEscape, BeginsPlain, BeginsWith, StandsFor};
ghost use Rattle.script.specs.Operands.{IsClassName};

use slicer_ids::ids::NoMemory;
use slicer_ids::name::Name;
use std::alloc::{AllocError, Global};

// The value of a lower-case hexadecimal digit.
fn hex_value(digit: u8) -> Option<u8>
    ensures { MatchOption result ((v : ℕ) → IsHexDigit digit v → ⊥) (λ v. IsHexDigit digit v) }
{
    match digit {
        b'0'..=b'9' => Some(digit - b'0'),
        b'a'..=b'f' => Some(digit - b'a' + 10),
        _ => None,
    }
}

// The byte of the escape that a word of three bytes or more begins with.
fn escaped_byte(word: &[u8]) -> Option<u8>
    requires { 3 ≤ length word.now }
    ensures { MatchOption result (BeginsPlain word.now) (λ b. BeginsEscape word.now b (slice_range word.now 3 (length word.now))) }
{
    if word[0] != b'\\' {
        return None;
    }
    let Some(high) = hex_value(word[1]) else {
        return None;
    };
    let Some(low) = hex_value(word[2]) else {
        return None;
    };
    Some(16 * high + low)
}

// The escape that a word begins with, and the rest of the word.
fn escape(word: &[u8]) -> Option<(u8, &[u8])>
    ensures { MatchOption result (BeginsPlain word.now) (λ p. BeginsEscape word.now p.0 p.1.now) }
{
    if word.len() < 3 {
        return None;
    }
    match escaped_byte(word) {
        Some(b) => Some((b, &word[3..])),
        None => None,
    }
}

// The first byte that a word stands for, and the rest of the word; none where the word is empty.
pub fn next_byte(word: &[u8]) -> Option<(u8, &[u8])>
    ensures { MatchOption result (word.now ≡ []) (λ p. BeginsWith word.now p.0 p.1.now) }
{
    if word.is_empty() {
        return None;
    }
    match escape(word) {
        Some(found) => Some(found),
        None => Some((word[0], &word[1..])),
    }
}

// The rest of a word whose first byte stands for this one; none where it stands for another, or the word is empty.
fn after_byte(word: &[u8], byte: u8) -> Option<&[u8]>
    ensures { MatchOption result ((r : List ℕ) → BeginsWith word.now byte r → ⊥) (λ r. BeginsWith word.now byte r.now) }
{
    match next_byte(word) {
        Some((b, rest)) => { if b == byte { Some(rest) } else { None } }
        None => None,
    }
}

// Whether a word stands for a text.
pub fn is_text(word: &[u8], text: &[u8]) -> bool
    ensures { IsTrue result ↔ StandsFor word.now text.now }
{
    let mut rest = word;
    for b in text {
        match after_byte(rest, *b) {
            Some(more) => rest = more,
            None => return false,
        }
    }
    rest.is_empty()
}

// Adds a byte.
fn push(bytes: &mut Vec<u8>, b: u8) -> Result<(), NoMemory>
    ensures { OnOk result (bytes.new.items ≡ bytes.old.items ++ b ∷ []) }
{
    match bytes.push(b) {
        Ok(()) => Ok(()),
        Err(_) => Err(NoMemory),
    }
}

// The bytes that a word stands for.
fn unescaped(alloc: Global, word: &[u8]) -> Result<Vec<u8>, NoMemory>
    ensures { IfOk result (λ v. StandsFor word.now v.items) }
{
    let mut bytes = Vec::new(alloc);
    let mut rest = word;
    while let Some((b, more)) = next_byte(rest) {
        push(&mut bytes, b)?;
        rest = more;
    }
    Ok(bytes)
}

// The name that a word stands for.
pub fn name(alloc: Global, word: &[u8]) -> Result<Name, NoMemory>
    ensures { IfOk result (λ n. StandsFor word.now n) }
{
    let bytes = unescaped(alloc, word)?;
    Name::from_bytes(alloc, bytes.as_slice())
}

// The name of a class that a word stands for.
pub fn class_name(alloc: Global, word: &[u8]) -> Result<Name, NoMemory>
    ensures { IfOk result (λ n. IsClassName word.now n) }
{
    let bytes = unescaped(alloc, word)?;
    let slashed: Result<Vec<u8>, AllocError> = bytes
        .iter()
        .map(|b| if *b == b'.' { b'/' } else { *b })
        .collect(alloc);
    match slashed {
        Ok(name) => Name::from_bytes(alloc, name.as_slice()),
        Err(_) => Err(NoMemory),
    }
}
