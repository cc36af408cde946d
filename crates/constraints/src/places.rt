// Where the statements of a program stand.
ghost use Rattle.std.specs.Prelude.{◌≡◌, List, All, Contains, map, OnOk, IfOk};
ghost use Rattle.slicer_ids.specs.Order.{StatementBefore};
ghost use Rattle.class_form.specs.declared.body.Body.{Body};
ghost use Rattle.program_form.specs.Programs.{Program};
ghost use Rattle.signature_tables.specs.Programs.{IsOfClasses};
ghost use Rattle.signature_tables.specs.Statements.{HasMethod, HasBody, HasBodies};
ghost use Rattle.variable_tables.specs.Growth.{GrowsInOrder};
ghost use Rattle.variable_tables.specs.Members.{IsMethodAt};
ghost use Rattle.variable_tables.specs.Statements.{IsFollowed, AreFollowed};
ghost use Rattle.constraint_rules.specs.Settings.{place_of};
ghost use Rattle.constraints.specs.Places.{IsPlaceAt, IsPlaceIn, IsThere, ArePlaces};

use class_form::body::{Body, Instr, Point};
use class_form::class_file::{ClassFile, Member};
use constraint_rules::tables::Reachable;
use hierarchy::Hierarchy;
use signature_tables::code::instr_at;
use slicer_ids::ids::{MethodId, NoMemory};
use std::alloc::Global;

// A method, and the class file that declares it.
fn member_of(h: &Hierarchy, method: MethodId) -> (&ClassFile, &Member)
    requires { HasMethod h.now method }
    ensures { (p : Program) → IsOfClasses h.now p → IsMethodAt p method result.0.now result.1.now }
{
    let (class, index) = h.method_places()[method.0 as usize];
    let file = &h.classes()[class.0 as usize];
    (file, &file.methods.items()[index as usize])
}

// Adds an instruction at a point of a body.
fn push_instr<'a>(
    h: &'a Hierarchy,
    body: &'a Body,
    point: &'a Point,
    instr: &'a Instr,
    places: &mut Vec<Reachable<'a>>,
) -> Result<(), NoMemory>
    requires body { HasBody h.now body.now }
    requires point { Contains body.now.shape.points point.now }
    requires instr { Contains body.now.instrs instr.now × (instr.now.pc ≡ point.now.pc) }
    ensures order { OnOk result (GrowsInOrder StatementBefore (map place_of places.old.items) (map place_of places.new.items) (IsPlaceAt body.now point.now)) }
    ensures each { (bodies : List Body) → Contains bodies body.now → IsFollowed body.now → All (IsThere h.now bodies) places.old.items → OnOk result (All (IsThere h.now bodies) places.new.items) }
{
    let (file, member) = member_of(h, body.method);
    let place = Reachable {
        body,
        point,
        instr,
        file,
        member,
    };
    match places.push(place) {
        Ok(()) => Ok(()),
        Err(_) => Err(NoMemory),
    }
}

// Adds the instruction at a point of a body.
fn push_point<'a>(
    h: &'a Hierarchy,
    body: &'a Body,
    point: &'a Point,
    places: &mut Vec<Reachable<'a>>,
) -> Result<(), NoMemory>
    requires body { HasBody h.now body.now }
    requires point { Contains body.now.shape.points point.now }
    ensures order { OnOk result (GrowsInOrder StatementBefore (map place_of places.old.items) (map place_of places.new.items) (IsPlaceAt body.now point.now)) }
    ensures each { (bodies : List Body) → Contains bodies body.now → IsFollowed body.now → All (IsThere h.now bodies) places.old.items → OnOk result (All (IsThere h.now bodies) places.new.items) }
{
    match instr_at(body.instrs.items(), point.pc) {
        Some(instr) => push_instr(h, body, point, instr, places),
        None => Ok(()),
    }
}

// Adds the instructions of a body.
fn push_body<'a>(
    h: &'a Hierarchy,
    body: &'a Body,
    places: &mut Vec<Reachable<'a>>,
) -> Result<(), NoMemory>
    requires body { HasBody h.now body.now }
    requires followed { IsFollowed body.now }
    ensures order { OnOk result (GrowsInOrder StatementBefore (map place_of places.old.items) (map place_of places.new.items) (IsPlaceIn body.now)) }
    ensures each { (bodies : List Body) → Contains bodies body.now → All (IsThere h.now bodies) places.old.items → OnOk result (All (IsThere h.now bodies) places.new.items) }
{
    for point in body.shape.points.items() {
        push_point(h, body, point, places)?;
    }
    Ok(())
}

/// The reachable instructions of bodies, in order. Each is looked up in a logarithmic number of steps.
pub(crate) fn places<'a>(
    alloc: Global,
    h: &'a Hierarchy,
    bodies: &'a [Body],
) -> Result<Vec<Reachable<'a>>, NoMemory>
    requires program { HasBodies h.now bodies.now }
    requires followed { AreFollowed bodies.now }
    ensures { IfOk result (λ xs. ArePlaces h.now bodies.now xs.items) }
{
    let mut places = Vec::new(alloc);
    for body in bodies {
        push_body(h, body, &mut places)?;
    }
    Ok(places)
}
