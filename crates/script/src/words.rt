// Splits a line at its blanks.
ghost use Rattle.std.specs.Prelude.{◌≡◌, ◌<◌, ◌≤◌, ℕ, length, slice_index, All, IsTrue, ◌↔◌, MatchOption};
ghost use Rattle.script.specs.Words.{IsBlank, HasFirstWord};

// Whether a byte is a space or a tab.
fn is_blank(b: u8) -> bool
    ensures { IsTrue result ↔ IsBlank b }
{
    b == b' ' || b == b'\t'
}

// How many blanks a line begins with.
fn blanks(line: &[u8]) -> usize
    ensures within { result ≤ length line.now }
    ensures before { (k : ℕ) → k < result → IsBlank (slice_index line.now k) }
    ensures stop { result < length line.now → IsBlank (slice_index line.now result) → ⊥ }
{
    for (i, b) in line.iter().enumerate() {
        if !is_blank(*b) {
            return i;
        }
    }
    line.len()
}

// How many bytes that are no blanks a line begins with.
fn word_len(line: &[u8]) -> usize
    ensures within { result ≤ length line.now }
    ensures before { (k : ℕ) → k < result → IsBlank (slice_index line.now k) → ⊥ }
    ensures stop { result < length line.now → IsBlank (slice_index line.now result) }
{
    for (i, b) in line.iter().enumerate() {
        if is_blank(*b) {
            return i;
        }
    }
    line.len()
}

// The first word of a line, and what follows it; none where the line is blank.
pub fn first_word(line: &[u8]) -> Option<(&[u8], &[u8])>
    ensures { MatchOption result (All IsBlank line.now) (λ p. HasFirstWord line.now p.0.now p.1.now) }
{
    let start = blanks(line);
    let line = &line[start..];
    let len = word_len(line);
    if len == 0 {
        return None;
    }
    Some((&line[..len], &line[len..]))
}
