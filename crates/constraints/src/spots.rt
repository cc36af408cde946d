// What instructions that are no calls define and use.
ghost use Rattle.std.specs.Prelude.{◌≡◌, ◌↔◌, List, IsTrue, IfOk};
ghost use Rattle.class_form.specs.Opcodes.{IsArrayLoad, IsArrayStore, IsGetStatic, IsPutStatic, IsGetField, IsPutField, IsNewArray, IsArrayLength, IsMultiNewArray};
ghost use Rattle.dep_form.specs.declared.system.System.{System};
ghost use Rattle.program_form.specs.Programs.{Program};
ghost use Rattle.constraint_form.specs.Variables.{Meaning};
ghost use Rattle.constraint_rules.specs.One.{IsOne, IsFound};
ghost use Rattle.constraint_rules.specs.Settings.{IsSetting, IsPlaced, IsReady, place_of};
ghost use Rattle.constraints.specs.Touches.{FieldOf, StaticOf, MadeOf, ReadingElement, ReadingLength, ReadingField, ReadingStatic, WritingElement, WritingField, WritingStatic, MakingArray};

use constraint_rules::fresh::first_site;
use constraint_rules::naming::field_of;
use constraint_rules::numbers::{elements, length, object};
use constraint_rules::statics::static_number;
use constraint_rules::tables::{Reachable, Tables};
use dep_form::rules::{Spot, Var};
use slicer_ids::ids::{FieldId, NoMemory, SiteId};
use slicer_ids::list::List;
use std::alloc::Global;

fn is_array_load(op: u8) -> bool
    ensures { IsTrue result ↔ IsArrayLoad op }
{
    matches!(op, 46..=53)
}

fn is_array_store(op: u8) -> bool
    ensures { IsTrue result ↔ IsArrayStore op }
{
    matches!(op, 79..=86)
}

fn is_array_length(op: u8) -> bool
    ensures { IsTrue result ↔ IsArrayLength op }
{
    op == 190
}

fn is_get_field(op: u8) -> bool
    ensures { IsTrue result ↔ IsGetField op }
{
    op == 180
}

fn is_put_field(op: u8) -> bool
    ensures { IsTrue result ↔ IsPutField op }
{
    op == 181
}

fn is_get_static(op: u8) -> bool
    ensures { IsTrue result ↔ IsGetStatic op }
{
    op == 178
}

fn is_put_static(op: u8) -> bool
    ensures { IsTrue result ↔ IsPutStatic op }
{
    op == 179
}

fn is_new_array(op: u8) -> bool
    ensures { IsTrue result ↔ IsNewArray op }
{
    op == 188 || op == 189
}

/// Whether the instruction makes arrays of arrays.
pub(crate) fn is_multi_new_array(op: u8) -> bool
    ensures { IsTrue result ↔ IsMultiNewArray op }
{
    op == 197
}

// A field of what a variable may be.
fn field_spot(
    alloc: Global,
    base: Option<Var>,
    field: Option<FieldId>,
) -> Result<Option<Spot>, NoMemory>
    ensures { IfOk result (IsOne (FieldOf (IsFound base) (IsFound field))) }
{
    let Some(base) = base else {
        return Ok(None);
    };
    let Some(field) = field else {
        return Ok(None);
    };
    let mut vars = Vec::new(alloc);
    vars.push(base)?;
    Ok(Some(Spot::Field(List::from_vec(vars), field)))
}

fn static_spot(var: Option<Var>) -> Option<Spot>
    ensures { IsOne (StaticOf (IsFound var)) result }
{
    match var {
        Some(var) => Some(Spot::Static(var)),
        None => None,
    }
}

// A field of a site that the statement makes.
fn made_spot(site: Option<SiteId>, field: Option<FieldId>) -> Option<Spot>
    ensures { IsOne (MadeOf (IsFound site) (IsFound field)) result }
{
    let Some(site) = site else {
        return None;
    };
    let Some(field) = field else {
        return None;
    };
    Some(Spot::Made(site, field))
}

/// The elements of an array that are read.
pub(crate) fn reading_element(
    alloc: Global,
    t: &Tables<'_>,
    x: &Reachable<'_>,
) -> Result<Option<Spot>, NoMemory>
    requires { IsReady t.now x.now }
    ensures { IfOk result (λ spot. (p : Program) (s : System) (names : List Meaning) → IsSetting t.now p s names → IsPlaced p x.now → IsOne (ReadingElement p s names (place_of x.now)) spot) }
{
    if !is_array_load(x.instr.op) {
        return Ok(None);
    }
    field_spot(alloc, object(t, x, 0), elements(t))
}

/// The length of an array that is read.
pub(crate) fn reading_length(
    alloc: Global,
    t: &Tables<'_>,
    x: &Reachable<'_>,
) -> Result<Option<Spot>, NoMemory>
    requires { IsReady t.now x.now }
    ensures { IfOk result (λ spot. (p : Program) (s : System) (names : List Meaning) → IsSetting t.now p s names → IsPlaced p x.now → IsOne (ReadingLength p s names (place_of x.now)) spot) }
{
    if !is_array_length(x.instr.op) {
        return Ok(None);
    }
    field_spot(alloc, object(t, x, 0), length(t))
}

/// The field of an object that is read.
pub(crate) fn reading_field(
    alloc: Global,
    t: &Tables<'_>,
    x: &Reachable<'_>,
) -> Result<Option<Spot>, NoMemory>
    requires { IsReady t.now x.now }
    ensures { IfOk result (λ spot. (p : Program) (s : System) (names : List Meaning) → IsSetting t.now p s names → IsPlaced p x.now → IsOne (ReadingField p s names (place_of x.now)) spot) }
{
    if !is_get_field(x.instr.op) {
        return Ok(None);
    }
    field_spot(alloc, object(t, x, 0), field_of(t, x))
}

/// The elements of an array that are written.
pub(crate) fn writing_element(
    alloc: Global,
    t: &Tables<'_>,
    x: &Reachable<'_>,
) -> Result<Option<Spot>, NoMemory>
    requires { IsReady t.now x.now }
    ensures { IfOk result (λ spot. (p : Program) (s : System) (names : List Meaning) → IsSetting t.now p s names → IsPlaced p x.now → IsOne (WritingElement p s names (place_of x.now)) spot) }
{
    if !is_array_store(x.instr.op) {
        return Ok(None);
    }
    field_spot(alloc, object(t, x, 0), elements(t))
}

/// The field of an object that is written.
pub(crate) fn writing_field(
    alloc: Global,
    t: &Tables<'_>,
    x: &Reachable<'_>,
) -> Result<Option<Spot>, NoMemory>
    requires { IsReady t.now x.now }
    ensures { IfOk result (λ spot. (p : Program) (s : System) (names : List Meaning) → IsSetting t.now p s names → IsPlaced p x.now → IsOne (WritingField p s names (place_of x.now)) spot) }
{
    if !is_put_field(x.instr.op) {
        return Ok(None);
    }
    field_spot(alloc, object(t, x, 0), field_of(t, x))
}

/// The static variable that is read.
pub(crate) fn reading_static(t: &Tables<'_>, x: &Reachable<'_>) -> Option<Spot>
    requires { IsReady t.now x.now }
    ensures { (p : Program) (s : System) (names : List Meaning) → IsSetting t.now p s names → IsPlaced p x.now → IsOne (ReadingStatic p s names (place_of x.now)) result }
{
    if !is_get_static(x.instr.op) {
        return None;
    }
    static_spot(static_number(t, x))
}

/// The static variable that is written.
pub(crate) fn writing_static(t: &Tables<'_>, x: &Reachable<'_>) -> Option<Spot>
    requires { IsReady t.now x.now }
    ensures { (p : Program) (s : System) (names : List Meaning) → IsSetting t.now p s names → IsPlaced p x.now → IsOne (WritingStatic p s names (place_of x.now)) result }
{
    if !is_put_static(x.instr.op) {
        return None;
    }
    static_spot(static_number(t, x))
}

/// The length of an array that is made.
pub(crate) fn making_array(t: &Tables<'_>, x: &Reachable<'_>) -> Option<Spot>
    requires { IsReady t.now x.now }
    ensures { (p : Program) (s : System) (names : List Meaning) → IsSetting t.now p s names → IsPlaced p x.now → IsOne (MakingArray p s names (place_of x.now)) result }
{
    if !is_new_array(x.instr.op) {
        return None;
    }
    made_spot(first_site(t, x), length(t))
}
