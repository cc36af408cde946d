// The line on a limit.
ghost use Rattle.std.specs.Prelude.{◌≡◌, ℕ, List};
ghost use Rattle.refusal_lines.specs.Refusals.{limit_refusal};
ghost use Rattle.analysis.specs.Analysed.{IsManyLine};

use dep_form::rules::TooMany;
use folder_loader::LoadError;
use refusal_lines::limit_refusal;
use slicer_ids::limits::LimitKind;
use std::alloc::Global;

fn limit(alloc: Global, kind: LimitKind, count: u64) -> LoadError
    ensures line { (line : List ℕ) → result ≡ LoadError.Refused line → line ≡ limit_refusal kind count }
    ensures host { result ≡ LoadError.Host → ⊥ }
{
    match limit_refusal(alloc, kind, count) {
        Ok(line) => LoadError::Refused(line),
        Err(_) => LoadError::NoMemory,
    }
}

/// There are too many of something, or there was no memory.
pub fn too_many(alloc: Global, error: TooMany) -> LoadError
    ensures line { (line : List ℕ) → result ≡ LoadError.Refused line → IsManyLine error line }
    ensures host { result ≡ LoadError.Host → ⊥ }
{
    match error {
        TooMany::NoMemory => LoadError::NoMemory,
        TooMany::Limit(kind, count) => limit(alloc, kind, count),
    }
}
