// The calls of bodies.
ghost use Rattle.std.specs.Prelude.{◌≡◌, AllPairs, Contains, IfOk, OnOk};
ghost use Rattle.slicer_ids.specs.Sets.{IsOrderedListOf};
ghost use Rattle.slicer_ids.specs.Order.{StatementBefore};
ghost use Rattle.worklists.specs.Growth.{FromOne};
ghost use Rattle.signature_tables.specs.Statements.{AreInOrder};
ghost use Rattle.variable_tables.specs.Growth.{GrowsInOrder};
ghost use Rattle.variable_tables.specs.Statements.{Rises, ArePoints};
ghost use Rattle.variable_tables.specs.Members.{AreBodies, IsAmong, IsCallIn};

use crate::kinds::Kind;
use crate::statements::pcs_of;
use class_form::body::Body;
use slicer_ids::ids::{MethodId, NoMemory, Statement};
use std::alloc::Global;

// Adds the statements of a method at program counters in order.
fn push_all(method: MethodId, pcs: &[u16], calls: &mut Vec<Statement>) -> Result<(), NoMemory>
    requires { AllPairs Rises pcs.now }
    ensures { OnOk result (GrowsInOrder StatementBefore calls.old.items calls.new.items (IsAmong method pcs.now)) }
{
    for pc in pcs {
        calls.push(Statement { method, pc: *pc })?;
    }
    Ok(())
}

// Adds the calls of a body.
fn push_body(alloc: Global, body: &Body, calls: &mut Vec<Statement>) -> Result<(), NoMemory>
    requires instrs { AreInOrder body.now.instrs }
    requires points { ArePoints body.now.shape.points }
    ensures { OnOk result (GrowsInOrder StatementBefore calls.old.items calls.new.items (IsCallIn body.now)) }
{
    let pcs = pcs_of(alloc, body, Kind::Calls)?;
    push_all(body.method, pcs.as_slice(), calls)?;
    Ok(())
}

/// The calls of bodies, in order.
pub(crate) fn calls_of(alloc: Global, bodies: &[Body]) -> Result<Vec<Statement>, NoMemory>
    requires { AreBodies bodies.now }
    ensures { IfOk result (λ calls. IsOrderedListOf StatementBefore calls.items (FromOne IsCallIn bodies.now)) }
{
    let mut calls = Vec::new(alloc);
    for body in bodies {
        push_body(alloc, body, &mut calls)?;
    }
    Ok(calls)
}
