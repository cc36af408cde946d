// What the lines of a script say.
ghost use Rattle.std.specs.Prelude.{◌≡◌, ◌≢◌, ◌++◌, ◌∷◌, [], ℕ, List, Err, IfSome, IfNone, MatchOption, take};
ghost use Rattle.script.specs.Lines.{Says};
ghost use Rattle.session_form.specs.Scripts.{IsTrimmed};
ghost use Rattle.script_lines.specs.Limits.{kept_bytes};

use script::command::{Command, LineError};
use script::parse::parse_line;
use std::alloc::Global;

// The line without a byte 13 at its end; none where it has none.
fn before_return(line: &[u8]) -> Option<&[u8]>
    ensures { MatchOption result ((k : List ℕ) → line.now ≢ k ++ 13 ∷ []) (λ k. line.now ≡ k.now ++ 13 ∷ []) }
{
    line.strip_suffix(b"\r")
}

// The line without a byte 13 at its end.
fn trimmed(line: &[u8]) -> &[u8]
    ensures { IsTrimmed line.now result.now }
{
    match before_return(line) {
        Some(front) => front,
        None => line,
    }
}

/// What a line of a script says, of which the first bytes are at hand, or that there is no memory for it.
pub fn read_command(alloc: Global, line: &[u8]) -> Result<Command, LineError>
    ensures { result ≢ Err LineError.NoMemory → (l : List ℕ) → line.now ≡ take kept_bytes l → (t : List ℕ) × IsTrimmed l t × Says t result }
{
    parse_line(alloc, trimmed(line))
}
