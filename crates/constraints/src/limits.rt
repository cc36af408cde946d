// How many methods there may be, and how many of other things.
ghost use Rattle.std.specs.Prelude.{◌≡◌, ◌<◌, ◌+◌, ◌^◌, length, IfErr, OnOk, IfOk};
ghost use Rattle.program_form.specs.Programs.{Program};
ghost use Rattle.signature_tables.specs.Programs.{IsOfClasses};
ghost use Rattle.slicer_ids.specs.declared.limits.LimitKind.TheVariants.{Methods};
ghost use Rattle.dep_form.specs.declared.rules.TooMany.TheVariants.{Limit};
ghost use Rattle.constraints.specs.Whole.{IsRoot};

use dep_form::rules::TooMany;
use hierarchy::Hierarchy;
use slicer_ids::ids::{MethodId, NoMemory};
use slicer_ids::limits::{LimitKind, METHODS};

/// The root, which has the number after those of the methods; tries the limit on these.
pub(crate) fn root_of(h: &Hierarchy) -> Result<MethodId, TooMany>
    ensures root { IfOk result (IsRoot h.now) }
    ensures limit { (p : Program) → IsOfClasses h.now p → IfErr result (λ e. (e ≡ Limit Methods (length p.methods)) × (2 ^ 16 < length p.methods)) }
{
    let count = h.method_places().len() as u64;
    if count > METHODS {
        return Err(TooMany::Limit(LimitKind::Methods, count));
    }
    Ok(MethodId(count as u32))
}

/// Tries whether numbers of 32 bits are enough for so many. No folder within its limits has as many of anything that is numbered
/// here.
pub(crate) fn few(count: usize) -> Result<(), NoMemory>
    ensures { OnOk result (count < 2 ^ 32) }
{
    if count > u32::MAX as usize {
        return Err(NoMemory);
    }
    Ok(())
}

/// The number of fields, with the elements, the length and the state of objects.
pub(crate) fn count_fields(h: &Hierarchy) -> Result<u32, NoMemory>
    ensures { IfOk result (λ n. (p : Program) → IsOfClasses h.now p → n ≡ length p.fields + 3) }
{
    let count = h.field_places().len();
    few(count)?;
    match (count as u32).checked_add(3) {
        Some(all) => Ok(all),
        None => Err(NoMemory),
    }
}
