// The variables of methods.
ghost use Rattle.std.specs.Prelude.{◌≡◌, IfOk, length};
ghost use Rattle.slicer_ids.specs.Sets.{IsOrderedListOf};
ghost use Rattle.program_form.specs.Programs.{Program};
ghost use Rattle.signature_tables.specs.Programs.{IsOfClasses};
ghost use Rattle.signature_tables.specs.Statements.{HasMethod, HasBodies};
ghost use Rattle.variable_tables.specs.Numbers.{keys_of};
ghost use Rattle.variable_tables.specs.Statements.{Rises};
ghost use Rattle.variable_tables.specs.Members.{AreBodies, MethodHas};
ghost use Rattle.variable_tables.specs.Tables.{IsNumbered, AreNumbered, IsOfMethod, AreOfMethods};

use crate::arguments::{formals, is_native};
use crate::counter::{Counter, numbered, several};
use crate::handlers::handlers_of;
use crate::kinds::Kind;
use crate::members::{body_of, member_of};
use crate::statements::pcs_of;
use class_form::body::Body;
use dep_form::rules::MethodVars;
use hierarchy::Hierarchy;
use slicer_ids::ids::{MethodId, NoMemory};
use slicer_ids::list::List;
use std::alloc::Global;

// The program counters of the statements of a kind in a method; none where it has no body.
fn pcs_in(
    alloc: Global,
    bodies: &[Body],
    method: MethodId,
    kind: Kind,
) -> Result<Vec<u16>, NoMemory>
    requires bodies { AreBodies bodies.now }
    ensures { IfOk result (λ pcs. IsOrderedListOf Rises pcs.items (MethodHas kind bodies.now method)) }
{
    match body_of(bodies, method) {
        Some(body) => pcs_of(alloc, body, kind),
        None => Ok(Vec::new(alloc)),
    }
}

// The variables of a method with so many arguments, whose values and handlers have these program counters.
fn number_all(
    alloc: Global,
    count: usize,
    values: &[u16],
    caught: &[u16],
    native: bool,
    fresh: &mut Counter,
) -> Result<MethodVars, NoMemory>
    ensures numbers { IfOk result (λ v. IsNumbered fresh.old.next v fresh.new.next) }
    ensures formals { IfOk result (λ v. length v.formals ≡ count) }
    ensures values { IfOk result (λ v. keys_of v.values ≡ values.now) }
    ensures caught { IfOk result (λ v. keys_of v.caught ≡ caught.now) }
    ensures native { IfOk result (λ v. v.native ≡ native) }
{
    let formals = several(alloc, count, fresh)?;
    let answer = fresh.take()?;
    let thrown = fresh.take()?;
    let values = numbered(alloc, values, fresh)?;
    let caught = numbered(alloc, caught, fresh)?;
    Ok(MethodVars {
        formals: List::from_vec(formals),
        result: Some(answer),
        thrown,
        values: List::from_vec(values),
        caught: List::from_vec(caught),
        native,
    })
}

// The variables of a method.
fn method_vars(
    alloc: Global,
    h: &Hierarchy,
    bodies: &[Body],
    method: MethodId,
    fresh: &mut Counter,
) -> Result<MethodVars, NoMemory>
    requires method { HasMethod h.now method }
    requires bodies { AreBodies bodies.now }
    ensures numbers { IfOk result (λ v. IsNumbered fresh.old.next v fresh.new.next) }
    ensures vars { IfOk result (λ v. (p : Program) → IsOfClasses h.now p → p.bodies ≡ bodies.now → IsOfMethod p method v) }
{
    let (file, member) = member_of(h, method);
    let count = formals(alloc, &file.pool, member)?;
    let values = pcs_in(alloc, bodies, method, Kind::Values)?;
    let caught = handlers_of(alloc, member)?;
    let native = is_native(member.flags);
    let vars = number_all(
        alloc,
        count,
        values.as_slice(),
        caught.as_slice(),
        native,
        fresh,
    )?;
    Ok(vars)
}

/// The variables of each method, by number.
pub(crate) fn all_methods(
    alloc: Global,
    h: &Hierarchy,
    bodies: &[Body],
    fresh: &mut Counter,
) -> Result<Vec<MethodVars>, NoMemory>
    requires program { HasBodies h.now bodies.now }
    requires bodies { AreBodies bodies.now }
    ensures numbers { IfOk result (λ vs. AreNumbered fresh.old.next vs.items fresh.new.next) }
    ensures vars { IfOk result (λ vs. (p : Program) → IsOfClasses h.now p → p.bodies ≡ bodies.now → AreOfMethods p vs.items) }
{
    let count = h.method_places().len();
    if count > u32::MAX as usize {
        return Err(NoMemory);
    }
    let mut methods = Vec::new(alloc);
    for number in 0..count as u32 {
        let vars = method_vars(alloc, h, bodies, MethodId(number), fresh)?;
        methods.push(vars)?;
    }
    Ok(methods)
}
