// What is kept of classes for filters and virtual calls.
ghost use Rattle.std.specs.Prelude.{◌<◌, ◌^◌, map, length, IfOk};
ghost use Rattle.slicer_ids.specs.Sets.{IsOrderedListOf};
ghost use Rattle.program_form.specs.Programs.{Program};
ghost use Rattle.program_form.specs.Systems.{ForeignBefore};
ghost use Rattle.constraint_form.specs.Signatures.{IsSignature};
ghost use Rattle.constraint_form.specs.ConstraintSystems.{AreTypes};
ghost use Rattle.signature_tables.specs.Programs.{IsOfClasses};
ghost use Rattle.signature_tables.specs.TextPairs.{pair_of};

use crate::selects::selects;
use crate::subclasses::subclasses;
use crate::texts::Texts;
use hierarchy::Hierarchy;
use slicer_ids::ids::{ClassId, MethodId, NoMemory};
use slicer_ids::list::List;
use std::alloc::Global;

/// Which classes are subclasses of which, and what they select.
#[derive(Drop)]
pub struct TypeTables {
    pub subclasses: List<(ClassId, ClassId)>,
    pub selects: List<(u32, ClassId, Option<MethodId>)>,
}

/// The tables of the classes of a program, where these are the signatures of its virtual calls, in order.
pub fn type_tables(
    alloc: Global,
    h: &Hierarchy,
    signatures: &[Texts<'_>],
) -> Result<TypeTables, NoMemory>
    requires classes { length h.now < 2 ^ 32 }
    requires few { length signatures.now < 2 ^ 32 }
    ensures { IfOk result (λ t. (p : Program) → IsOfClasses h.now p → IsOrderedListOf ForeignBefore (map pair_of signatures.now) (IsSignature p) → AreTypes p t.subclasses t.selects) }
{
    let subclasses = subclasses(alloc, h)?;
    let selects = selects(alloc, h, signatures)?;
    Ok(TypeTables {
        subclasses,
        selects,
    })
}
