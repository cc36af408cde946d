// The program counters of the statements of a kind.
ghost use Rattle.std.specs.Prelude.{◌≡◌, ◌↔◌, IsTrue, IfOk, OnOk};
ghost use Rattle.slicer_ids.specs.Sets.{IsOrderedListOf};
ghost use Rattle.signature_tables.specs.Statements.{AreInOrder};
ghost use Rattle.variable_tables.specs.Growth.{GrowsInOrder};
ghost use Rattle.variable_tables.specs.Statements.{Rises, ArePoints, HasKind, PointHas, BodyHas};

use crate::kinds::{Kind, is_of};
use class_form::body::{Body, Instr, Point};
use signature_tables::code::instr_at;
use slicer_ids::ids::NoMemory;
use std::alloc::Global;

// Whether an instruction of the kind stands at the program counter.
fn has_kind(instrs: &[Instr], kind: Kind, pc: u16) -> bool
    requires { AreInOrder instrs.now }
    ensures { IsTrue result ↔ HasKind kind instrs.now pc }
{
    match instr_at(instrs, pc) {
        Some(instr) => is_of(kind, instr.op),
        None => false,
    }
}

// Adds the program counter of a point, where its instruction is of the kind.
fn push_point(
    instrs: &[Instr],
    kind: Kind,
    point: &Point,
    pcs: &mut Vec<u16>,
) -> Result<(), NoMemory>
    requires { AreInOrder instrs.now }
    ensures { OnOk result (GrowsInOrder Rises pcs.old.items pcs.new.items (PointHas kind instrs.now point.now)) }
{
    if has_kind(instrs, kind, point.pc) {
        pcs.push(point.pc)?;
    }
    Ok(())
}

/// The program counters of the reachable instructions of a kind, in order. Each is looked up in a logarithmic number of steps.
pub(crate) fn pcs_of(alloc: Global, body: &Body, kind: Kind) -> Result<Vec<u16>, NoMemory>
    requires instrs { AreInOrder body.now.instrs }
    requires points { ArePoints body.now.shape.points }
    ensures { IfOk result (λ pcs. IsOrderedListOf Rises pcs.items (BodyHas kind body.now)) }
{
    let mut pcs = Vec::new(alloc);
    for point in body.shape.points.items() {
        push_point(body.instrs.items(), kind, point, &mut pcs)?;
    }
    Ok(pcs)
}
