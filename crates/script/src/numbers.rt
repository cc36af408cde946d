// Numbers in words.
ghost use Rattle.std.specs.Prelude.{◌≡◌, ◌<◌, ◌≤◌, ℕ, MatchOption};
ghost use Rattle.script.specs.Operands.{IsNumber};

use crate::escapes::next_byte;

// The number that a word stands for: one to five decimal digits of value at most 65535.
pub fn number(word: &[u8]) -> Option<u16>
    ensures { MatchOption result ((n : ℕ) → IsNumber word.now n → ⊥) (λ n. IsNumber word.now n) }
{
    let mut value: u32 = 0;
    let mut count: usize = 0;
    let mut rest = word;
    while let Some((b, more)) = next_byte(rest) {
        if count == 5 || b < b'0' || b > b'9' {
            return None;
        }
        value = 10 * value + (b - b'0') as u32;
        count += 1;
        rest = more;
    }
    if count == 0 || value > 65535 {
        return None;
    }
    Some(value as u16)
}
