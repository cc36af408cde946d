// Which variable stands for what.
ghost use Rattle.std.specs.Prelude.{◌≡◌, ◌↔◌, ◌<◌, ℕ, List, Some, AllPairs, Contains, map, length};
ghost use Rattle.slicer_ids.specs.Sets.{IsOrderedListOf};
ghost use Rattle.program_form.specs.Programs.{Program};
ghost use Rattle.program_form.specs.Facts.{ValueOf, ArgumentOf, ResultOf, ThrownBy, CaughtAt, ExceptionOf, StaticField, StaticNamed};
ghost use Rattle.program_form.specs.Systems.{VariableNumber, ForeignBefore, IsForeignStatic};
ghost use Rattle.dep_form.specs.declared.rules.Var.{Var};
ghost use Rattle.dep_form.specs.declared.system.System.{System};
ghost use Rattle.dep_form.specs.Orders.{statement_cmp};
ghost use Rattle.class_form.specs.declared.body.Instr.{Instr};
ghost use Rattle.program_form.specs.Statements.{IsAt};
ghost use Rattle.constraint_form.specs.Asked.{IsReadProgram};
ghost use Rattle.constraint_form.specs.Variables.{Meaning, OperandNumber};
ghost use Rattle.signature_tables.specs.Programs.{IsOfClasses};
ghost use Rattle.signature_tables.specs.Statements.{statement};
ghost use Rattle.signature_tables.specs.TextPairs.{pair_of};
ghost use Rattle.variable_tables.specs.Statements.{IsFollowed};
ghost use Rattle.variable_tables.specs.Tables.{HasVariables, AreNames, AreTables};
ghost use Rattle.variable_tables.specs.LookUps.{AreOrdered, place_cmp};

use crate::look_ups::{def_number, defined_as, vars_of};
use crate::tables::{OperandPlace, VariableTables};
use class_form::body::{Body, Def, Point};
use dep_form::rules::Var;
use hierarchy::Hierarchy;
use signature_tables::texts::{Texts, place_of};
use slicer_ids::ids::{FieldId, MethodId, Statement};
use std::cmp::Ordering;

// How the statement of an entry stands to another.
fn compare_statement(entry: &(Statement, Var), t: Statement) -> Ordering
    ensures { result ≡ statement_cmp entry.now.0 t }
{
    entry.0.cmp(&t)
}

// How the operand of an entry stands to another.
fn compare_place(entry: &(OperandPlace, Var), place: OperandPlace) -> Ordering
    ensures { result ≡ place_cmp entry.now.0 place }
{
    entry
        .0
        .statement
        .cmp(&place.statement)
        .then(entry.0.operand.cmp(&place.operand))
}

/// The variable of a static field of the folder.
pub fn static_field(field: FieldId) -> Var
    ensures { (p : Program) (s : System) → field.0 < length p.fields → VariableNumber p s (StaticField field) result }
{
    Var(field.0 as u64)
}

/// The variable of a static field that statements name and the folder doesn't have, where these are the names and descriptors of
/// all such fields, in order; none where it isn't among them. Takes a logarithmic number of comparisons.
pub fn static_named(
    h: &Hierarchy,
    foreign: &[Texts<'_>],
    name: &[u8],
    descriptor: &[u8],
) -> Option<Var>
    requires { AllPairs ForeignBefore (map pair_of foreign.now) }
    ensures { (p : Program) (s : System) → IsOfClasses h.now p → IsOrderedListOf ForeignBefore (map pair_of foreign.now) (IsForeignStatic p) → (x : Var) → VariableNumber p s (StaticNamed name.now descriptor.now) x ↔ (result ≡ Some x) }
{
    match place_of(foreign, name, descriptor) {
        Some(place) => Some(Var(h.field_places().len() as u64 + place as u64)),
        None => None,
    }
}

impl VariableTables {
    /// The variable of the value of a statement. Takes a logarithmic number of steps, as each look-up here.
    pub fn value_of(&self, t: Statement) -> Option<Var>
        requires { AreOrdered self.now }
        ensures { (p : Program) (s : System) → HasVariables s self.now → (x : Var) → VariableNumber p s (ValueOf t) x ↔ (result ≡ Some x) }
    {
        def_number(self.methods.items(), t.method, Def::Value(t.pc))
    }

    /// The variable of an argument of a method.
    pub fn argument_of(&self, method: MethodId, argument: u8) -> Option<Var>
        requires { AreOrdered self.now }
        ensures { (p : Program) (s : System) → HasVariables s self.now → (x : Var) → VariableNumber p s (ArgumentOf method argument) x ↔ (result ≡ Some x) }
    {
        def_number(self.methods.items(), method, Def::Formal(argument))
    }

    /// The variable of what a method answers.
    pub fn result_of(&self, method: MethodId) -> Option<Var>
        ensures { (p : Program) (s : System) → HasVariables s self.now → (x : Var) → VariableNumber p s (ResultOf method) x ↔ (result ≡ Some x) }
    {
        match vars_of(self.methods.items(), method) {
            Some(vars) => vars.result,
            None => None,
        }
    }

    /// The variable of what a method throws.
    pub fn thrown_by(&self, method: MethodId) -> Option<Var>
        ensures { (p : Program) (s : System) → HasVariables s self.now → (x : Var) → VariableNumber p s (ThrownBy method) x ↔ (result ≡ Some x) }
    {
        match vars_of(self.methods.items(), method) {
            Some(vars) => Some(vars.thrown),
            None => None,
        }
    }

    /// The variable of what the handler at a program counter of a method is given.
    pub fn caught_at(&self, method: MethodId, handler: u16) -> Option<Var>
        requires { AreOrdered self.now }
        ensures { (p : Program) (s : System) → HasVariables s self.now → (x : Var) → VariableNumber p s (CaughtAt method handler) x ↔ (result ≡ Some x) }
    {
        def_number(self.methods.items(), method, Def::Caught(handler))
    }

    /// The variable of what a call throws.
    pub fn exception_of(&self, t: Statement) -> Option<Var>
        requires { AreOrdered self.now }
        ensures { (p : Program) (s : System) → HasVariables s self.now → (x : Var) → VariableNumber p s (ExceptionOf t) x ↔ (result ≡ Some x) }
    {
        let exceptions = self.exceptions.items();
        match exceptions.binary_search_by(|entry| compare_statement(entry, t)) {
            Ok(k) => Some(exceptions[k].1),
            Err(_) => None,
        }
    }

    /// The variable of its own that an operand has.
    pub fn own_operand(&self, place: OperandPlace) -> Option<Var>
        requires { AreOrdered self.now }
        ensures { (x : Var) → Contains self.now.operands (place, x) ↔ (result ≡ Some x) }
    {
        let operands = self.operands.items();
        match operands.binary_search_by(|entry| compare_place(entry, place)) {
            Ok(k) => Some(operands[k].1),
            Err(_) => None,
        }
    }

    /// The variable that says what an operand of the statement at a point of a body may be: that of the definition that alone holds
    /// there, where it has one, else its own. None where it has neither.
    pub fn operand_number(&self, body: &Body, point: &Point, operand: usize) -> Option<Var>
        requires order { AreOrdered self.now }
        requires body { IsFollowed body.now }
        requires point { Contains body.now.shape.points point.now }
        ensures { (p : Program) (s : System) (names : List Meaning) (foreign : ℕ) (i : Instr) → IsReadProgram p → IsAt p (statement body.now point.now.pc) body.now i → AreTables p foreign self.now → AreNames p self.now names
            → HasVariables s self.now → (x : Var) → OperandNumber p s names (statement body.now point.now.pc) operand x ↔ (result ≡ Some x) }
    {
        match defined_as(self.methods.items(), body, point, operand) {
            Some(var) => Some(var),
            None => {
                let statement = Statement {
                    method: body.method,
                    pc: point.pc,
                };
                self.own_operand(OperandPlace { statement, operand })
            }
        }
    }
}
