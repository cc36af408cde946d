// What the statements that are no calls define and use.
ghost use Rattle.std.specs.Prelude.{◌≡◌, ◌+◌, ◌-◌, true, false, List, OnOk, IfOk};
ghost use Rattle.slicer_ids.specs.Sets.{IsOrderedListOf};
ghost use Rattle.dep_form.specs.declared.system.System.{System};
ghost use Rattle.dep_form.specs.Constraints.{elements_field, length_field};
ghost use Rattle.program_form.specs.Programs.{Program};
ghost use Rattle.constraint_form.specs.Variables.{Meaning};
ghost use Rattle.constraint_form.specs.Touched.{IsTouch};
ghost use Rattle.variable_tables.specs.Growth.{GrowsInOrder};
ghost use Rattle.constraint_rules.specs.One.{IsFound};
ghost use Rattle.constraint_rules.specs.Settings.{IsSetting, IsPlaced, IsReady, AreReady, place_of};
ghost use Rattle.constraints.specs.Places.{AreInOrder};
ghost use Rattle.constraints.specs.Bodies.{AreAllPlaces};
ghost use Rattle.constraints.specs.Touches.{MadeOf, IsOneSite, IsOfArrays, IsTouchOf, TouchRises, OfReads, OfWrites, OfDimensions, IsTouchAt};

use crate::spots::{
    is_multi_new_array, making_array, reading_element, reading_field, reading_length,
    reading_static, writing_element, writing_field, writing_static,
};
use constraint_rules::numbers::{elements, length, statement_of};
use constraint_rules::tables::{Reachable, Tables};
use dep_form::rules::{Spot, Touch};
use site_tables::numbers::{Numbers, numbers_of};
use slicer_ids::ids::{FieldId, NoMemory, SiteId, Statement};
use std::alloc::Global;

// Adds a touch of a spot, where there is one.
fn push(
    place: Statement,
    write: bool,
    spot: Option<Spot>,
    touches: &mut Vec<Touch>,
) -> Result<(), NoMemory>
    ensures { OnOk result (GrowsInOrder TouchRises touches.old.items touches.new.items (IsTouchOf place write (IsFound spot))) }
{
    match spot {
        Some(spot) => {
            touches.push(Touch { place, write, spot })?;
            Ok(())
        }
        None => Ok(()),
    }
}

// Adds what an instruction uses.
fn push_reads(
    alloc: Global,
    t: &Tables<'_>,
    x: &Reachable<'_>,
    touches: &mut Vec<Touch>,
) -> Result<(), NoMemory>
    requires { IsReady t.now x.now }
    ensures { (p : Program) (s : System) (names : List Meaning) → IsSetting t.now p s names → IsPlaced p x.now → OnOk result (GrowsInOrder TouchRises touches.old.items touches.new.items (IsTouchOf (place_of x.now) false (OfReads p s names (place_of x.now)))) }
{
    let place = statement_of(x);
    let element = reading_element(alloc, t, x)?;
    let length = reading_length(alloc, t, x)?;
    let field = reading_field(alloc, t, x)?;
    push(place, false, element, touches)?;
    push(place, false, length, touches)?;
    push(place, false, field, touches)?;
    push(place, false, reading_static(t, x), touches)
}

// Adds what an instruction defines, but one that makes arrays of arrays.
fn push_writes(
    alloc: Global,
    t: &Tables<'_>,
    x: &Reachable<'_>,
    touches: &mut Vec<Touch>,
) -> Result<(), NoMemory>
    requires { IsReady t.now x.now }
    ensures { (p : Program) (s : System) (names : List Meaning) → IsSetting t.now p s names → IsPlaced p x.now → OnOk result (GrowsInOrder TouchRises touches.old.items touches.new.items (IsTouchOf (place_of x.now) true (OfWrites p s names (place_of x.now)))) }
{
    let place = statement_of(x);
    let element = writing_element(alloc, t, x)?;
    let field = writing_field(alloc, t, x)?;
    push(place, true, element, touches)?;
    push(place, true, field, touches)?;
    push(place, true, writing_static(t, x), touches)?;
    push(place, true, making_array(t, x), touches)
}

// Adds a field of a site of this number.
fn push_site(
    place: Statement,
    first: u32,
    k: u32,
    field: FieldId,
    touches: &mut Vec<Touch>,
) -> Result<(), NoMemory>
    ensures { OnOk result (GrowsInOrder TouchRises touches.old.items touches.new.items (IsTouchOf place true (MadeOf (λ n. n ≡ record { 0 = first + k }) (λ g. g ≡ field)))) }
{
    let Some(number) = first.checked_add(k) else {
        return Err(NoMemory);
    };
    push(
        place,
        true,
        Some(Spot::Made(SiteId(number), field)),
        touches,
    )
}

// Adds a field of each of so many sites.
fn push_sites(
    place: Statement,
    first: u32,
    count: u32,
    field: FieldId,
    touches: &mut Vec<Touch>,
) -> Result<(), NoMemory>
    ensures { OnOk result (GrowsInOrder TouchRises touches.old.items touches.new.items (IsTouchOf place true (MadeOf (IsOneSite first count) (λ g. g ≡ field)))) }
{
    for k in 0..count {
        push_site(place, first, k, field, touches)?;
    }
    Ok(())
}

// Adds the lengths of the arrays of an array.
fn push_lengths(
    t: &Tables<'_>,
    place: Statement,
    numbers: Numbers,
    touches: &mut Vec<Touch>,
) -> Result<(), NoMemory>
    ensures { (p : Program) (s : System) (names : List Meaning) → IsSetting t.now p s names → OnOk result (GrowsInOrder TouchRises touches.old.items touches.new.items (IsTouchOf place true (MadeOf (IsOneSite numbers.first numbers.count) (λ g. g ≡ length_field s)))) }
{
    match length(t) {
        Some(field) => push_sites(place, numbers.first, numbers.count, field, touches),
        None => Err(NoMemory),
    }
}

// Adds the elements of all of them but the last.
fn push_inner(
    t: &Tables<'_>,
    place: Statement,
    numbers: Numbers,
    touches: &mut Vec<Touch>,
) -> Result<(), NoMemory>
    ensures { (p : Program) (s : System) (names : List Meaning) → IsSetting t.now p s names → OnOk result (GrowsInOrder TouchRises touches.old.items touches.new.items (IsTouchOf place true (MadeOf (IsOneSite numbers.first (numbers.count - 1)) (λ g. g ≡ elements_field s)))) }
{
    match elements(t) {
        Some(field) => {
            let inner = numbers.count.saturating_sub(1);
            push_sites(place, numbers.first, inner, field, touches)
        }
        None => Err(NoMemory),
    }
}

// Adds both.
fn push_arrays(
    t: &Tables<'_>,
    place: Statement,
    numbers: Numbers,
    touches: &mut Vec<Touch>,
) -> Result<(), NoMemory>
    ensures { (p : Program) (s : System) (names : List Meaning) → IsSetting t.now p s names → OnOk result (GrowsInOrder TouchRises touches.old.items touches.new.items (IsTouchOf place true (IsOfArrays s numbers.first numbers.count))) }
{
    push_lengths(t, place, numbers, touches)?;
    push_inner(t, place, numbers, touches)
}

// Adds what an instruction defines that makes arrays of arrays.
fn push_dimensions(
    t: &Tables<'_>,
    x: &Reachable<'_>,
    touches: &mut Vec<Touch>,
) -> Result<(), NoMemory>
    requires { AreReady t.now }
    ensures { (p : Program) (s : System) (names : List Meaning) → IsSetting t.now p s names → IsPlaced p x.now → OnOk result (GrowsInOrder TouchRises touches.old.items touches.new.items (IsTouchOf (place_of x.now) true (OfDimensions p s names (place_of x.now)))) }
{
    if !is_multi_new_array(x.instr.op) {
        return Ok(());
    }
    let place = statement_of(x);
    push_arrays(t, place, numbers_of(t.sites, place), touches)
}

// Adds what an instruction defines and uses.
fn push_touches(
    alloc: Global,
    t: &Tables<'_>,
    x: &Reachable<'_>,
    touches: &mut Vec<Touch>,
) -> Result<(), NoMemory>
    requires { IsReady t.now x.now }
    ensures { (p : Program) (s : System) (names : List Meaning) → IsSetting t.now p s names → IsPlaced p x.now → OnOk result (GrowsInOrder TouchRises touches.old.items touches.new.items (IsTouchAt p s names (place_of x.now))) }
{
    push_reads(alloc, t, x, touches)?;
    push_writes(alloc, t, x, touches)?;
    push_dimensions(t, x, touches)
}

/// What instructions define and use, but calls; in order.
pub(crate) fn touches_of(
    alloc: Global,
    t: &Tables<'_>,
    places: &[Reachable<'_>],
) -> Result<Vec<Touch>, NoMemory>
    requires ready { AreReady t.now }
    requires places { AreInOrder places.now }
    ensures { IfOk result (λ ts. (p : Program) (s : System) (names : List Meaning) → IsSetting t.now p s names → AreAllPlaces p places.now → IsOrderedListOf TouchRises ts.items (λ touch. IsTouch p s names touch.place touch.write touch.spot)) }
{
    let mut touches = Vec::new(alloc);
    for x in places {
        push_touches(alloc, t, x, &mut touches)?;
    }
    Ok(touches)
}
