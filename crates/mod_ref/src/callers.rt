// By method, the methods with a call that may go to it.
ghost use Rattle.std.specs.Prelude.{◌≡◌, ◌<◌, ◌^◌, IfOk, OnOk, length};
ghost use Rattle.worklists.specs.Growth.{FromOne};
ghost use Rattle.dep_form.specs.Solutions.{IsSolutionOf};
ghost use Rattle.mod_ref.specs.Rows.{AreCallers, AtCaller, RowsGain};

use crate::outside::place_of;
use crate::rows::{no_rows, push_to};
use crate::solved::targets_of;
use dep_form::solution::Solution;
use dep_form::system::System;
use slicer_ids::ids::{CallId, MethodId, NoMemory};
use std::alloc::Global;

fn add_caller(
    target: MethodId,
    caller: MethodId,
    rows: &mut Vec<Vec<MethodId>>,
) -> Result<(), NoMemory>
    ensures len { OnOk result (length rows.new.items ≡ length rows.old.items) }
    ensures gain { OnOk result (RowsGain rows.old.items rows.new.items (λ n m. (target.0 ≡ n) × (m ≡ caller))) }
{
    let row = target.0 as usize;
    if row < rows.len() {
        push_to(rows, row, caller)?;
        Ok(())
    } else {
        Ok(())
    }
}

fn add_targets(
    targets: &[MethodId],
    caller: MethodId,
    rows: &mut Vec<Vec<MethodId>>,
) -> Result<(), NoMemory>
    ensures len { OnOk result (length rows.new.items ≡ length rows.old.items) }
    ensures gain { OnOk result (RowsGain rows.old.items rows.new.items (λ n. FromOne (λ t m. (t.0 ≡ n) × (m ≡ caller)) targets.now)) }
{
    for target in targets {
        add_caller(*target, caller, rows)?;
    }
    Ok(())
}

fn add_call(
    system: &System,
    solution: &Solution,
    number: CallId,
    rows: &mut Vec<Vec<MethodId>>,
) -> Result<(), NoMemory>
    requires solved { IsSolutionOf system.now solution.now }
    requires number { number.0 < length system.now.calls }
    ensures len { OnOk result (length rows.new.items ≡ length rows.old.items) }
    ensures gain { OnOk result (RowsGain rows.old.items rows.new.items (AtCaller system.now number)) }
{
    match place_of(system, number) {
        None => Ok(()),
        Some(place) => {
            add_targets(targets_of(solution, number), place.method, rows)?;
            Ok(())
        }
    }
}

/// By method, the methods with a call that may go to it; some of them perhaps more than once.
pub fn callers(
    alloc: Global,
    system: &System,
    solution: &Solution,
) -> Result<Vec<Vec<MethodId>>, NoMemory>
    requires solved { IsSolutionOf system.now solution.now }
    requires few { length system.now.calls < 2 ^ 32 }
    ensures { IfOk result (λ rows. AreCallers system.now rows.items) }
{
    let mut rows = no_rows(alloc, system.methods.items().len())?;
    for number in 0..system.calls.items().len() {
        add_call(system, solution, CallId(number as u32), &mut rows)?;
    }
    Ok(rows)
}
