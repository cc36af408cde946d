// Which command a word names.
ghost use Rattle.std.specs.Prelude.{MatchOption};
ghost use Rattle.slicer_ids.specs.Escapes.{StandsFor};
ghost use Rattle.script.specs.Commands.{IsUnknown};
ghost use Rattle.script.specs.Keywords.{name_of};

use crate::escapes::is_text;

// A command without its operands.
#[derive(Clone, Copy)]
pub enum Keyword {
    Seed,
    SeedLine,
    Reset,
    Slice,
    Full,
    Lines,
    Expand,
    ExpandAll,
    Explain,
}

// The command that a word names; none where it names none.
pub fn keyword_of(word: &[u8]) -> Option<Keyword>
    ensures { MatchOption result (IsUnknown word.now) (λ k. StandsFor word.now (name_of k)) }
{
    if is_text(word, b"seed") {
        return Some(Keyword::Seed);
    }
    if is_text(word, b"seedline") {
        return Some(Keyword::SeedLine);
    }
    if is_text(word, b"reset") {
        return Some(Keyword::Reset);
    }
    if is_text(word, b"slice") {
        return Some(Keyword::Slice);
    }
    if is_text(word, b"full") {
        return Some(Keyword::Full);
    }
    if is_text(word, b"lines") {
        return Some(Keyword::Lines);
    }
    if is_text(word, b"expand") {
        return Some(Keyword::Expand);
    }
    if is_text(word, b"expand-all") {
        return Some(Keyword::ExpandAll);
    }
    if is_text(word, b"explain") {
        return Some(Keyword::Explain);
    }
    None
}
