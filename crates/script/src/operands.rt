// The words after the name of a command.
ghost use Rattle.std.specs.Prelude.{◌≡◌, ◌↔◌, ℕ, [], ◌∷◌, All, IsTrue, IfOk, MatchOption};
ghost use Rattle.script.specs.Words.{IsBlank, BeginsWithWords, HasWords};
ghost use Rattle.script.specs.Operands.{IsNumber, IsPlace};
ghost use Rattle.script.specs.Steps.{HasFewerWords, HasOtherCount, GivesPlace};

use crate::command::{LineError, Place};
use crate::escapes::{class_name, name};
use crate::numbers::number;
use crate::words::first_word;
use slicer_ids::ids::NoMemory;
use std::alloc::Global;

// The four words of a place.
#[derive(Clone, Copy)]
pub struct PlaceWords<'a> {
    pub class: &'a [u8],
    pub name: &'a [u8],
    pub descriptor: &'a [u8],
    pub pc: &'a [u8],
}

// Whether no word follows.
pub fn is_end(line: &[u8]) -> bool
    ensures { IsTrue result ↔ All IsBlank line.now }
{
    match first_word(line) {
        Some(_) => false,
        None => true,
    }
}

// The next four words, and what follows them; none where there are fewer.
fn place_words(line: &[u8]) -> Option<(PlaceWords<'_>, &[u8])>
    ensures { MatchOption result (HasFewerWords line.now 4)
        (λ p. BeginsWithWords line.now (p.0.class.now ∷ p.0.name.now ∷ p.0.descriptor.now ∷ p.0.pc.now ∷ []) p.1.now) }
{
    let Some((class, rest)) = first_word(line) else {
        return None;
    };
    let Some((name, rest)) = first_word(rest) else {
        return None;
    };
    let Some((descriptor, rest)) = first_word(rest) else {
        return None;
    };
    let Some((pc, rest)) = first_word(rest) else {
        return None;
    };
    let words = PlaceWords {
        class,
        name,
        descriptor,
        pc,
    };
    Some((words, rest))
}

// The words, where there are just four.
fn one_place(line: &[u8]) -> Option<PlaceWords<'_>>
    ensures { MatchOption result (HasOtherCount line.now 4)
        (λ p. HasWords line.now (p.class.now ∷ p.name.now ∷ p.descriptor.now ∷ p.pc.now ∷ [])) }
{
    match place_words(line) {
        Some((words, rest)) => { if is_end(rest) { Some(words) } else { None } }
        None => None,
    }
}

// The words, where there are just eight.
pub fn two_places(line: &[u8]) -> Option<(PlaceWords<'_>, PlaceWords<'_>)>
    ensures { MatchOption result (HasOtherCount line.now 8)
        (λ p. HasWords line.now (p.0.class.now ∷ p.0.name.now ∷ p.0.descriptor.now ∷ p.0.pc.now ∷ p.1.class.now ∷ p.1.name.now ∷ p.1.descriptor.now ∷ p.1.pc.now ∷ [])) }
{
    let Some((first, rest)) = place_words(line) else {
        return None;
    };
    match one_place(rest) {
        Some(second) => Some((first, second)),
        None => None,
    }
}

// The words, where there are just two.
pub fn two_words(line: &[u8]) -> Option<(&[u8], &[u8])>
    ensures { MatchOption result (HasOtherCount line.now 2) (λ p. HasWords line.now (p.0.now ∷ p.1.now ∷ [])) }
{
    let Some((first, rest)) = first_word(line) else {
        return None;
    };
    match first_word(rest) {
        Some((second, rest)) => {
            if is_end(rest) {
                Some((first, second))
            } else {
                None
            }
        }
        None => None,
    }
}

// The place that four words stand for, the last a number that was read.
pub fn make_place(alloc: Global, words: PlaceWords<'_>, pc: u16) -> Result<Place, NoMemory>
    requires { IsNumber words.pc.now pc }
    ensures { IfOk result (λ p. IsPlace words.entry.class.now words.entry.name.now words.entry.descriptor.now words.entry.pc.now p) }
{
    let class = class_name(alloc, words.class)?;
    let descriptor = name(alloc, words.descriptor)?;
    let name = name(alloc, words.name)?;
    Ok(Place {
        class,
        name,
        descriptor,
        pc,
    })
}

// The place that the words of a line stand for, where there are four.
pub fn read_place(alloc: Global, line: &[u8]) -> Result<Place, LineError>
    ensures { GivesPlace line.now result }
{
    let Some(words) = one_place(line) else {
        return Err(LineError::Arity);
    };
    let Some(pc) = number(words.pc) else {
        return Err(LineError::BadNumber);
    };
    match make_place(alloc, words, pc) {
        Ok(place) => Ok(place),
        Err(_) => Err(LineError::NoMemory),
    }
}
