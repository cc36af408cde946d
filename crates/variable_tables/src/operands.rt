// Operands whose objects have a variable of their own.
ghost use Rattle.std.specs.Prelude.{◌≡◌, ◌↔◌, ◌++◌, ◌∷◌, [], All, Contains, IsTrue, IfOk, OnOk};
ghost use Rattle.worklists.specs.Growth.{FromOne};
ghost use Rattle.program_form.specs.Programs.{Program};
ghost use Rattle.signature_tables.specs.Programs.{IsOfClasses};
ghost use Rattle.signature_tables.specs.Statements.{HasBody, HasBodies};
ghost use Rattle.variable_tables.specs.Growth.{IsChosen, GrowsBut};
ghost use Rattle.variable_tables.specs.Statements.{IsFollowed};
ghost use Rattle.variable_tables.specs.Members.{AreBodies};
ghost use Rattle.variable_tables.specs.Operands.{AreInOrder, Reads, IsRead, IsReadAt, IsReadBy, IsReadThere, IsDefined, HasDefinition, OperandBefore};

use crate::arguments::arguments;
use crate::kinds::{is_put_field, is_reference_store, reads_first};
use crate::look_ups::defined_as;
use crate::tables::OperandPlace;
use class_form::body::{Body, Point};
use dep_form::rules::MethodVars;
use hierarchy::Hierarchy;
use signature_tables::code::{file_of, instr_at};
use slicer_ids::ids::{MethodId, NoMemory, Statement};
use std::alloc::Global;

// Whether an instruction with so many arguments reads the operand as an object.
fn reads(op: u8, arguments: usize, operand: usize) -> bool
    ensures { IsTrue result ↔ Reads op arguments operand }
{
    match operand {
        0 => arguments > 0 || reads_first(op),
        1 => arguments > 1 || is_put_field(op),
        2 => arguments > 2 || is_reference_store(op),
        _ => operand < arguments,
    }
}

// Adds an operand.
fn push_place(
    method: MethodId,
    pc: u16,
    operand: usize,
    operands: &mut Vec<OperandPlace>,
) -> Result<(), NoMemory>
    ensures { OnOk result (operands.new.items ≡ operands.old.items ++ record { statement = record { method = method; pc = pc }; operand = operand } ∷ []) }
{
    let statement = Statement { method, pc };
    operands.push(OperandPlace { statement, operand })?;
    Ok(())
}

// Adds the operand of the instruction at a point, where it is read as an object and no definition that alone holds there has a
// variable.
fn push_operand(
    methods: &[MethodVars],
    body: &Body,
    point: &Point,
    op: u8,
    arguments: usize,
    operand: usize,
    operands: &mut Vec<OperandPlace>,
) -> Result<(), NoMemory>
    requires order { All AreInOrder methods.now }
    requires body { IsFollowed body.now }
    requires point { Contains body.now.shape.points point.now }
    ensures { OnOk result (GrowsBut OperandBefore (IsDefined methods.now body.now) operands.old.items operands.new.items (IsReadAt body.now point.now.pc op arguments operand)) }
{
    if !reads(op, arguments, operand) {
        return Ok(());
    }
    match defined_as(methods, body, point, operand) {
        Some(_) => Ok(()),
        None => push_place(body.method, point.pc, operand, operands),
    }
}

// Adds those of the instruction at a point.
fn push_operands(
    methods: &[MethodVars],
    body: &Body,
    point: &Point,
    op: u8,
    arguments: usize,
    operands: &mut Vec<OperandPlace>,
) -> Result<(), NoMemory>
    requires order { All AreInOrder methods.now }
    requires body { IsFollowed body.now }
    requires point { Contains body.now.shape.points point.now }
    ensures { OnOk result (GrowsBut OperandBefore (IsDefined methods.now body.now) operands.old.items operands.new.items (IsReadBy body.now point.now.pc op arguments)) }
{
    for operand in 0..arguments.max(3) {
        push_operand(methods, body, point, op, arguments, operand, operands)?;
    }
    Ok(())
}

// Adds those of the statement at a point of a body.
fn push_statement(
    alloc: Global,
    h: &Hierarchy,
    methods: &[MethodVars],
    body: &Body,
    point: &Point,
    operands: &mut Vec<OperandPlace>,
) -> Result<(), NoMemory>
    requires order { All AreInOrder methods.now }
    requires has { HasBody h.now body.now }
    requires body { IsFollowed body.now }
    requires point { Contains body.now.shape.points point.now }
    ensures { (p : Program) → IsOfClasses h.now p → Contains p.bodies body.now → OnOk result (GrowsBut OperandBefore (HasDefinition p methods.now) operands.old.items operands.new.items (IsReadThere p body.now point.now)) }
{
    match instr_at(body.instrs.items(), point.pc) {
        Some(instr) => {
            let count = arguments(alloc, file_of(h, body.method), instr)?;
            push_operands(methods, body, point, instr.op, count, operands)
        }
        None => Ok(()),
    }
}

// Adds those of a body.
fn push_body(
    alloc: Global,
    h: &Hierarchy,
    methods: &[MethodVars],
    body: &Body,
    operands: &mut Vec<OperandPlace>,
) -> Result<(), NoMemory>
    requires order { All AreInOrder methods.now }
    requires has { HasBody h.now body.now }
    requires body { IsFollowed body.now }
    ensures { (p : Program) → IsOfClasses h.now p → Contains p.bodies body.now → OnOk result (GrowsBut OperandBefore (HasDefinition p methods.now) operands.old.items operands.new.items (FromOne (IsReadThere p body.now) body.now.shape.points)) }
{
    for point in body.shape.points.items() {
        push_statement(alloc, h, methods, body, point, operands)?;
    }
    Ok(())
}

/// The operands that have a variable of their own, in order: those that are read as objects, where no definition that alone holds
/// there has a variable.
pub(crate) fn own_operands(
    alloc: Global,
    h: &Hierarchy,
    methods: &[MethodVars],
    bodies: &[Body],
) -> Result<Vec<OperandPlace>, NoMemory>
    requires order { All AreInOrder methods.now }
    requires program { HasBodies h.now bodies.now }
    requires bodies { AreBodies bodies.now }
    ensures { IfOk result (λ operands. (p : Program) → IsOfClasses h.now p → p.bodies ≡ bodies.now → IsChosen OperandBefore operands.items (IsRead p) (HasDefinition p methods.now)) }
{
    let mut operands = Vec::new(alloc);
    for body in bodies {
        push_body(alloc, h, methods, body, &mut operands)?;
    }
    Ok(operands)
}
