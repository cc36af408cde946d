// The variables of the definitions that hold in a slot or an operand.
ghost use Rattle.std.specs.Prelude.{◌≡◌, ◌↔◌, List, Contains, IfOk, OnOk};
ghost use Rattle.worklists.specs.Growth.{Grows, FromOne};
ghost use Rattle.class_form.specs.declared.body.Instr.{Instr};
ghost use Rattle.dep_form.specs.declared.rules.Var.{Var};
ghost use Rattle.dep_form.specs.declared.system.System.{System};
ghost use Rattle.program_form.specs.Programs.{Program};
ghost use Rattle.program_form.specs.Statements.{IsAt};
ghost use Rattle.program_form.specs.Facts.{variable_of};
ghost use Rattle.program_form.specs.Systems.{VariableNumber};
ghost use Rattle.constraint_form.specs.Asked.{IsReadProgram};
ghost use Rattle.constraint_form.specs.Variables.{Meaning};
ghost use Rattle.constraint_form.specs.Rules.{IsDefined};
ghost use Rattle.signature_tables.specs.Statements.{statement};
ghost use Rattle.variable_tables.specs.Statements.{IsFollowed};
ghost use Rattle.variable_tables.specs.Tables.{HasVariables};
ghost use Rattle.variable_tables.specs.LookUps.{AreOrdered};
ghost use Rattle.constraint_rules.specs.One.{IsOne, IsFound};
ghost use Rattle.constraint_rules.specs.Slots.{IsNumberIn, IsNumberOfUse};

use class_form::body::{Body, Def, Point, SlotUse};
use dep_form::rules::Var;
use slicer_ids::ids::{MethodId, NoMemory, Statement};
use std::alloc::Global;
use variable_tables::tables::VariableTables;

// The variable of a definition.
fn number_of(variables: &VariableTables, method: MethodId, def: &Def) -> Option<Var>
    requires { AreOrdered variables.now }
    ensures { (p : Program) (s : System) → HasVariables s variables.now → IsOne (λ x. VariableNumber p s (variable_of method def.now) x) result }
{
    match def {
        Def::Formal(i) => variables.argument_of(method, *i),
        Def::Value(pc) => variables.value_of(Statement { method, pc: *pc }),
        Def::Caught(handler) => variables.caught_at(method, *handler),
    }
}

// Adds a variable, where there is one.
fn push_found(found: Option<Var>, vars: &mut Vec<Var>) -> Result<(), NoMemory>
    ensures { OnOk result (Grows vars.old.items vars.new.items (IsFound found)) }
{
    match found {
        Some(var) => match vars.push(var) {
            Ok(()) => Ok(()),
            Err(_) => Err(NoMemory),
        },
        None => Ok(()),
    }
}

// Adds the variable of a definition.
fn push_number(
    variables: &VariableTables,
    method: MethodId,
    def: &Def,
    vars: &mut Vec<Var>,
) -> Result<(), NoMemory>
    requires { AreOrdered variables.now }
    ensures { (p : Program) (s : System) → HasVariables s variables.now → OnOk result (Grows vars.old.items vars.new.items (VariableNumber p s (variable_of method def.now))) }
{
    push_found(number_of(variables, method, def), vars)
}

// Adds those of definitions.
fn push_numbers(
    variables: &VariableTables,
    method: MethodId,
    defs: &[Def],
    vars: &mut Vec<Var>,
) -> Result<(), NoMemory>
    requires { AreOrdered variables.now }
    ensures { (p : Program) (s : System) → HasVariables s variables.now → OnOk result (Grows vars.old.items vars.new.items (FromOne (λ d. VariableNumber p s (variable_of method d)) defs.now)) }
{
    for def in defs {
        push_number(variables, method, def, vars)?;
    }
    Ok(())
}

// Adds those of the definitions that hold in a slot.
fn push_slot(
    variables: &VariableTables,
    body: &Body,
    pc: u16,
    slot: u32,
    vars: &mut Vec<Var>,
) -> Result<(), NoMemory>
    requires order { AreOrdered variables.now }
    requires body { IsFollowed body.now }
    ensures { (p : Program) (s : System) → HasVariables s variables.now → OnOk result (Grows vars.old.items vars.new.items (IsNumberIn p s body.now pc slot)) }
{
    push_numbers(variables, body.method, body.reach.at(pc, slot), vars)
}

/// The variables of the definitions that hold in a slot before the instruction at a program counter.
pub(crate) fn in_slot(
    alloc: Global,
    variables: &VariableTables,
    body: &Body,
    pc: u16,
    slot: u32,
) -> Result<Vec<Var>, NoMemory>
    requires order { AreOrdered variables.now }
    requires body { IsFollowed body.now }
    ensures { IfOk result (λ vars. (p : Program) (s : System) → HasVariables s variables.now → (x : Var) → Contains vars.items x ↔ IsNumberIn p s body.now pc slot x) }
{
    let mut vars = Vec::new(alloc);
    push_slot(variables, body, pc, slot, &mut vars)?;
    Ok(vars)
}

// Adds those of the definitions that hold in a slot that the operand uses.
fn push_use(
    variables: &VariableTables,
    body: &Body,
    pc: u16,
    slot_use: &SlotUse,
    operand: u8,
    vars: &mut Vec<Var>,
) -> Result<(), NoMemory>
    requires order { AreOrdered variables.now }
    requires body { IsFollowed body.now }
    ensures { (p : Program) (s : System) → HasVariables s variables.now → OnOk result (Grows vars.old.items vars.new.items (IsNumberOfUse p s body.now pc operand slot_use.now)) }
{
    if slot_use.operand == operand {
        push_slot(variables, body, pc, slot_use.slot, vars)
    } else {
        Ok(())
    }
}

// Adds those of the definitions that hold in an operand of the instruction at a point.
fn push_uses(
    variables: &VariableTables,
    body: &Body,
    point: &Point,
    operand: u8,
    vars: &mut Vec<Var>,
) -> Result<(), NoMemory>
    requires order { AreOrdered variables.now }
    requires body { IsFollowed body.now }
    ensures { (p : Program) (s : System) → HasVariables s variables.now → OnOk result (Grows vars.old.items vars.new.items (FromOne (IsNumberOfUse p s body.now point.now.pc operand) point.now.uses)) }
{
    for slot_use in point.uses.items() {
        push_use(variables, body, point.pc, slot_use, operand, vars)?;
    }
    Ok(())
}

/// The variables of the definitions that hold in an operand of the instruction at a point. Takes a logarithmic number of steps for
/// each slot that the instruction uses and each definition.
pub(crate) fn in_operand(
    alloc: Global,
    variables: &VariableTables,
    body: &Body,
    point: &Point,
    operand: u8,
) -> Result<Vec<Var>, NoMemory>
    requires order { AreOrdered variables.now }
    requires body { IsFollowed body.now }
    requires point { Contains body.now.shape.points point.now }
    ensures { IfOk result (λ vars. (p : Program) (s : System) (names : List Meaning) (i : Instr) → HasVariables s variables.now → IsReadProgram p → IsAt p (statement body.now point.now.pc) body.now i → (x : Var) → Contains vars.items x ↔ IsDefined p s names (statement body.now point.now.pc) operand x) }
{
    let mut vars = Vec::new(alloc);
    push_uses(variables, body, point, operand, &mut vars)?;
    Ok(vars)
}
