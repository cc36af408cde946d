// The variables of a program by number.
ghost use Rattle.std.specs.Prelude.{◌≡◌, ◌+◌, IfOk, length};
ghost use Rattle.program_form.specs.Programs.{Program};
ghost use Rattle.signature_tables.specs.Programs.{IsOfClasses};
ghost use Rattle.signature_tables.specs.Statements.{HasBodies};
ghost use Rattle.variable_tables.specs.Members.{AreBodies};
ghost use Rattle.variable_tables.specs.Statements.{AreFollowed};
ghost use Rattle.variable_tables.specs.Tables.{AreOfMethods, AreBehind, AreTables};
ghost use Rattle.variable_tables.specs.LookUps.{AreOrdered};

use crate::calls::calls_of;
use crate::counter::{Counter, numbered};
use crate::method_vars::all_methods;
use crate::operands::own_operands;
use class_form::body::Body;
use dep_form::rules::{MethodVars, Var};
use hierarchy::Hierarchy;
use slicer_ids::ids::{NoMemory, Statement};
use slicer_ids::list::List;
use std::alloc::Global;

/// An operand of a statement, by its number.
#[derive(Clone, Copy, Drop)]
pub struct OperandPlace {
    pub statement: Statement,
    pub operand: usize,
}

/// The variables of a program. Those of static fields come first: the fields of the folder by their numbers, then the static
/// fields that statements name and the folder doesn't have. Then come those of each method, of what calls throw, and of operands.
#[derive(Drop)]
pub struct VariableTables {
    /// By method.
    pub methods: List<MethodVars>,
    /// What each call throws, by statement.
    pub exceptions: List<(Statement, Var)>,
    /// Of operands that are read as objects, where no definition that alone holds there has a variable; in order.
    pub operands: List<(OperandPlace, Var)>,
    /// How many variables there are.
    pub vars: u64,
}

// The number of the first variable that isn't static.
fn first_var(h: &Hierarchy, foreign: usize) -> Result<Counter, NoMemory>
    ensures { IfOk result (λ c. (p : Program) → IsOfClasses h.now p → c.next ≡ length p.fields + foreign) }
{
    match h.field_places().len().checked_add(foreign) {
        Some(next) => Ok(Counter { next: next as u64 }),
        None => Err(NoMemory),
    }
}

// What calls throw, and operands, behind the variables of methods.
fn with_methods(
    alloc: Global,
    h: &Hierarchy,
    bodies: &[Body],
    methods: Vec<MethodVars>,
    fresh: Counter,
) -> Result<VariableTables, NoMemory>
    requires program { HasBodies h.now bodies.now }
    requires bodies { AreBodies bodies.now }
    requires methods { (p : Program) → IsOfClasses h.now p → p.bodies ≡ bodies.now → AreOfMethods p methods.items }
    ensures methods { IfOk result (λ t. t.methods ≡ methods.items) }
    ensures tables { IfOk result (λ t. (p : Program) → IsOfClasses h.now p → p.bodies ≡ bodies.now → AreBehind p fresh.next t) }
{
    let mut fresh = fresh;
    let calls = calls_of(alloc, bodies)?;
    let exceptions = numbered(alloc, calls.as_slice(), &mut fresh)?;
    let places = own_operands(alloc, h, methods.as_slice(), bodies)?;
    let operands = numbered(alloc, places.as_slice(), &mut fresh)?;
    Ok(VariableTables {
        methods: List::from_vec(methods),
        exceptions: List::from_vec(exceptions),
        operands: List::from_vec(operands),
        vars: fresh.next,
    })
}

/// The variables of the program of bodies, where so many static fields that statements name aren't of the folder.
///
/// Looks at each reachable instruction a few times, for a logarithmic number of steps each, and at each definition that holds in
/// an operand that is read as an object.
pub fn variable_tables(
    alloc: Global,
    h: &Hierarchy,
    foreign: usize,
    bodies: &[Body],
) -> Result<VariableTables, NoMemory>
    requires program { HasBodies h.now bodies.now }
    requires followed { AreFollowed bodies.now }
    ensures tables { IfOk result (λ t. (p : Program) → IsOfClasses h.now p → p.bodies ≡ bodies.now → AreTables p foreign t) }
    // What look-ups ask of them.
    ensures order { IfOk result AreOrdered }
{
    let mut fresh = first_var(h, foreign)?;
    let methods = all_methods(alloc, h, bodies, &mut fresh)?;
    let tables = with_methods(alloc, h, bodies, methods, fresh)?;
    Ok(tables)
}
