// Tables of rows.
ghost use Rattle.std.specs.Prelude.{◌≡◌, ◌<◌, ℕ, [], IfOk, OnOk, length};
ghost use Rattle.mod_ref.specs.Rows.{RowsGain, row_of};

use slicer_ids::ids::{MethodId, NoMemory};
use std::alloc::Global;

/// As many rows without methods.
pub fn no_rows(alloc: Global, count: usize) -> Result<Vec<Vec<MethodId>>, NoMemory>
    ensures len { IfOk result (λ rows. length rows.items ≡ count) }
    ensures none { IfOk result (λ rows. (k : ℕ) → row_of rows.items k ≡ []) }
{
    let mut rows = Vec::new(alloc);
    for _made in 0..count {
        rows.push(Vec::new(alloc))?;
    }
    Ok(rows)
}

/// Puts a method at the end of a row.
pub fn push_to(rows: &mut Vec<Vec<MethodId>>, row: usize, method: MethodId) -> Result<(), NoMemory>
    requires { row < length rows.old.items }
    ensures len { OnOk result (length rows.new.items ≡ length rows.old.items) }
    ensures gain { OnOk result (RowsGain rows.old.items rows.new.items (λ k m. (k ≡ row) × (m ≡ method))) }
{
    rows[row].push(method)?;
    Ok(())
}
