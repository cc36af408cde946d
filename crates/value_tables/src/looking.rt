// The variables of definitions.
ghost use Rattle.std.specs.Prelude.{◌≡◌, ◌↔◌, Contains, IsTrue, Some, slice_get};
ghost use Rattle.dep_form.specs.declared.rules.Var.{Var};
ghost use Rattle.value_tables.specs.Methods.{AreInOrder, IsVarOf};

use class_form::body::Def;
use dep_form::rules::{MethodVars, Var};

fn var_at(vars: &[Var], i: usize) -> Option<Var>
    ensures { result ≡ slice_get vars.now i }
{
    match vars.get(i) {
        Some(var) => Some(*var),
        None => None,
    }
}

fn pair_at(pairs: &[(u16, Var)], k: usize) -> Option<(u16, Var)>
    ensures { result ≡ slice_get pairs.now k }
{
    match pairs.get(k) {
        Some(pair) => Some(*pair),
        None => None,
    }
}

fn is_at(pair: (u16, Var), pc: u16) -> bool
    ensures { IsTrue result ↔ (pair.0 ≡ pc) }
{
    pair.0 == pc
}

fn if_at(pair: (u16, Var), pc: u16) -> Option<Var>
    ensures { (x : Var) → (result ≡ Some x) ↔ ((pair.0 ≡ pc) × (pair.1 ≡ x)) }
{
    if is_at(pair, pc) { Some(pair.1) } else { None }
}

/// The variable with this program counter, of pairs in order. Found by halving.
pub fn numbered(pairs: &[(u16, Var)], pc: u16) -> Option<Var>
    requires { AreInOrder pairs.now }
    ensures { (x : Var) → (result ≡ Some x) ↔ Contains pairs.now (pc, x) }
{
    let k = pairs.partition_point(|pair| pair.0 < pc);
    match pair_at(pairs, k) {
        Some(pair) => if_at(pair, pc),
        None => None,
    }
}

/// The variable of a definition.
pub fn var_of(vars: &MethodVars, def: Def) -> Option<Var>
    requires values { AreInOrder vars.now.values }
    requires caught { AreInOrder vars.now.caught }
    ensures { (x : Var) → (result ≡ Some x) ↔ IsVarOf vars.now def x }
{
    match def {
        Def::Formal(i) => var_at(vars.formals.items(), i as usize),
        Def::Value(pc) => numbered(vars.values.items(), pc),
        Def::Caught(handler) => numbered(vars.caught.items(), handler),
    }
}
