// The variables of definitions.
ghost use Rattle.std.specs.Prelude.{◌≡◌, ◌↔◌, Some, None, All, AllPairs, Contains, IfSome, IfNone, slice_get};
ghost use Rattle.class_form.specs.Reaching.{HoldsIn};
ghost use Rattle.dep_form.specs.declared.rules.Var.{Var};
ghost use Rattle.variable_tables.specs.Numbers.{keys_of};
ghost use Rattle.variable_tables.specs.Statements.{Rises, IsFollowed};
ghost use Rattle.variable_tables.specs.Operands.{NumberIn, DefNumber, IsDefinedAs, AreInOrder};

use crate::alone::alone;
use class_form::body::{Body, Def, Point};
use dep_form::rules::{MethodVars, Var};
use slicer_ids::ids::MethodId;

/// The variable of a program counter; none where it has none. Takes a logarithmic number of steps.
pub(crate) fn number_at(table: &[(u16, Var)], pc: u16) -> Option<Var>
    requires { AllPairs Rises (keys_of table.now) }
    ensures { (x : Var) → Contains table.now (pc, x) ↔ (result ≡ Some x) }
{
    match table.binary_search_by(|entry| entry.0.cmp(&pc)) {
        Ok(k) => Some(table[k].1),
        Err(_) => None,
    }
}

/// The variables of a method; none where there is no such method.
pub(crate) fn vars_of(methods: &[MethodVars], method: MethodId) -> Option<&MethodVars>
    ensures found { IfSome result (λ v. slice_get methods.now method.0 ≡ Some v.now) }
    ensures missed { IfNone result (slice_get methods.now method.0 ≡ None) }
{
    methods.get(method.0 as usize)
}

// The variable of an argument.
fn formal_at(formals: &[Var], i: usize) -> Option<Var>
    ensures { result ≡ slice_get formals.now i }
{
    formals.get(i).copied()
}

// The variable of a definition in a method with these variables.
fn number_in(vars: &MethodVars, def: Def) -> Option<Var>
    requires { AreInOrder vars.now }
    ensures { (x : Var) → NumberIn vars.now def x ↔ (result ≡ Some x) }
{
    match def {
        Def::Formal(i) => formal_at(vars.formals.items(), i as usize),
        Def::Value(pc) => number_at(vars.values.items(), pc),
        Def::Caught(pc) => number_at(vars.caught.items(), pc),
    }
}

/// The variable of a definition in a method; none where it has none.
pub(crate) fn def_number(methods: &[MethodVars], method: MethodId, def: Def) -> Option<Var>
    requires { All AreInOrder methods.now }
    ensures { (x : Var) → DefNumber methods.now method def x ↔ (result ≡ Some x) }
{
    match vars_of(methods, method) {
        Some(vars) => number_in(vars, def),
        None => None,
    }
}

/// The variable of the definition that alone holds in an operand of the instruction at a point; none where none does, or it has
/// no variable.
pub(crate) fn defined_as(
    methods: &[MethodVars],
    body: &Body,
    point: &Point,
    operand: usize,
) -> Option<Var>
    requires order { All AreInOrder methods.now }
    requires body { IsFollowed body.now }
    requires point { Contains body.now.shape.points point.now }
    ensures { (x : Var) → IsDefinedAs methods.now body.now point.now.pc operand x ↔ (result ≡ Some x) }
{
    match alone(body, point, operand) {
        Some(def) => def_number(methods, body.method, def),
        None => None,
    }
}
