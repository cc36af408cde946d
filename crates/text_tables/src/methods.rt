// The texts of methods.
ghost use Rattle.std.specs.Prelude.{◌≡◌, ◌<◌, ◌^◌, ◌++◌, ◌∷◌, [], true, All, IfOk, OnOk, Some, length, map, slice_get};
ghost use Rattle.std.specs.Ordering.{nat_cmp};
ghost use Rattle.class_form.specs.ClassRules.{IsClassFile};
ghost use Rattle.class_form.specs.declared.class_file.CodeBody.{CodeBody};
ghost use Rattle.dep_form.specs.Orders.{RiseBy};
ghost use Rattle.dep_form.specs.Solutions.{IsSolutionOf};
ghost use Rattle.dep_form.specs.declared.system.System.{System};
ghost use Rattle.dep_form.specs.declared.texts.MethodText.{MethodText};
ghost use Rattle.hierarchy.specs.Places.{descriptor_in, name_in, text_bytes, texts_at};
ghost use Rattle.hierarchy.specs.declared.members.Kind.TheVariants.{Method};
ghost use Rattle.line_numbers.specs.LineTables.{line_in};
ghost use Rattle.program_form.specs.Programs.{Program, CodeOf};
ghost use Rattle.program_code.specs.Codes.{IsProgramOfCode};
ghost use Rattle.fact_form.specs.FactTables.{AreMethodTexts};
ghost use Rattle.fact_form.specs.Handed.{IsProgramWith};
ghost use Rattle.text_tables.specs.SiteNames.{IsCoded};
ghost use Rattle.text_tables.specs.MethodLines.{AreLinesOf, AreMethodLines, AreRunLines, AreTextsBelow, HasPointsInOrder, IsTextOf, entry_of};

use crate::finding::{body_of, code_of};
use class_form::body::{Body, Point};
use class_form::class_file::{ClassFile, CodeBody};
use class_form::pool::Pool;
use dep_form::solution::Solution;
use dep_form::system::System;
use dep_form::texts::MethodText;
use hierarchy::tree::Hierarchy;
use line_numbers::LineNumbers;
use method_facts::solved::is_reached;
use slicer_ids::ids::{ClassId, MethodId, NoMemory};
use slicer_ids::list::List;
use slicer_ids::name::Name;
use std::alloc::Global;

fn push_line(
    lines: &mut Vec<(u16, Option<u16>)>,
    pc: u16,
    line: Option<u16>,
) -> Result<(), NoMemory>
    ensures { OnOk result (lines.new.items ≡ lines.old.items ++ (pc, line) ∷ []) }
{
    match lines.push((pc, line)) {
        Ok(()) => Ok(()),
        Err(_) => Err(NoMemory),
    }
}

// Adds a point with its line.
fn push_point(
    lines: &mut Vec<(u16, Option<u16>)>,
    numbers: &LineNumbers,
    point: &Point,
) -> Result<(), NoMemory>
    ensures { OnOk result (lines.new.items ≡ lines.old.items ++ entry_of (line_in numbers.now) point.now ∷ []) }
{
    push_line(lines, point.pc, numbers.at(point.pc))
}

// Points with their lines.
fn point_lines(
    alloc: Global,
    numbers: &LineNumbers,
    points: &[Point],
) -> Result<Vec<(u16, Option<u16>)>, NoMemory>
    ensures { IfOk result (λ lines. lines.items ≡ map (entry_of (line_in numbers.now)) points.now) }
{
    let mut lines = Vec::new(alloc);
    for point in points {
        push_point(&mut lines, numbers, point)?;
    }
    Ok(lines)
}

// Points with their lines by the line tables of a code.
fn code_lines(
    alloc: Global,
    code: &CodeBody,
    points: &[Point],
) -> Result<Vec<(u16, Option<u16>)>, NoMemory>
    ensures { IfOk result (λ lines. AreLinesOf code.now points.now lines.items) }
{
    let numbers = LineNumbers::of(alloc, code)?;
    point_lines(alloc, &numbers, points)
}

// The points of a body with their lines.
fn body_lines(
    alloc: Global,
    h: &Hierarchy,
    body: &Body,
) -> Result<Vec<(u16, Option<u16>)>, NoMemory>
    requires files { All IsClassFile h.now }
    requires points { HasPointsInOrder body.now }
    ensures rise { IfOk result (λ lines. RiseBy nat_cmp (λ x. x.0) lines.items) }
    ensures lines { IfOk result (λ lines. (p : Program) (code : CodeBody) → p.classes ≡ h.now → IsProgramOfCode p → CodeOf p body.now.method code → AreLinesOf code body.now.shape.points lines.items) }
{
    match code_of(h, body.method) {
        Some(code) => code_lines(alloc, code, body.shape.points.items()),
        None => Ok(Vec::new(alloc)),
    }
}

// The statements of a method with their lines.
fn statement_lines(
    alloc: Global,
    h: &Hierarchy,
    bodies: &[Body],
    m: MethodId,
) -> Result<Vec<(u16, Option<u16>)>, NoMemory>
    requires files { All IsClassFile h.now }
    requires points { All HasPointsInOrder bodies.now }
    ensures rise { IfOk result (λ lines. RiseBy nat_cmp (λ x. x.0) lines.items) }
    ensures lines { IfOk result (λ lines. (p : Program) → IsCoded h.now bodies.now p → AreMethodLines p m lines.items) }
{
    match body_of(bodies, m) {
        Some(body) => body_lines(alloc, h, body),
        None => Ok(Vec::new(alloc)),
    }
}

// The statements of a method that may run with their lines.
fn method_lines(
    alloc: Global,
    h: &Hierarchy,
    bodies: &[Body],
    sol: &Solution,
    m: MethodId,
) -> Result<Vec<(u16, Option<u16>)>, NoMemory>
    requires files { All IsClassFile h.now }
    requires points { All HasPointsInOrder bodies.now }
    requires m { m.0 < length sol.now.reached }
    ensures rise { IfOk result (λ lines. RiseBy nat_cmp (λ x. x.0) lines.items) }
    ensures lines { IfOk result (λ lines. (p : Program) (s : System) → IsCoded h.now bodies.now p → IsSolutionOf s sol.now → AreRunLines p s m lines.items) }
{
    if is_reached(sol, m) {
        statement_lines(alloc, h, bodies, m)
    } else {
        Ok(Vec::new(alloc))
    }
}

fn text(pool: &Pool, index: u16) -> &[u8]
    ensures { result.now ≡ text_bytes pool.now index }
{
    match pool.utf(index) {
        Some(text) => text,
        None => &[],
    }
}

fn name_in(class: &ClassFile, place: u16) -> &[u8]
    ensures { result.now ≡ name_in Method class.now place }
{
    match class.methods.items().get(place as usize) {
        Some(method) => text(&class.pool, method.name),
        None => &[],
    }
}

fn descriptor_in(class: &ClassFile, place: u16) -> &[u8]
    ensures { result.now ≡ descriptor_in Method class.now place }
{
    match class.methods.items().get(place as usize) {
        Some(method) => text(&class.pool, method.descriptor),
        None => &[],
    }
}

// The name of the method that is declared at a place.
fn name_at(classes: &[ClassFile], place: (ClassId, u16)) -> &[u8]
    ensures { result.now ≡ (texts_at Method classes.now place).name }
{
    match classes.get(place.0.0 as usize) {
        Some(class) => name_in(class, place.1),
        None => &[],
    }
}

fn descriptor_at(classes: &[ClassFile], place: (ClassId, u16)) -> &[u8]
    ensures { result.now ≡ (texts_at Method classes.now place).descriptor }
{
    match classes.get(place.0.0 as usize) {
        Some(class) => descriptor_in(class, place.1),
        None => &[],
    }
}

// The text of the method of this number, which is declared at the place.
fn method_text(
    alloc: Global,
    h: &Hierarchy,
    bodies: &[Body],
    sol: &Solution,
    m: MethodId,
    place: (ClassId, u16),
) -> Result<MethodText, NoMemory>
    requires files { All IsClassFile h.now }
    requires points { All HasPointsInOrder bodies.now }
    requires m { m.0 < length sol.now.reached }
    ensures { IfOk result (IsTextOf h.now bodies.now sol.now m place) }
{
    let name = Name::from_bytes(alloc, name_at(h.classes(), place))?;
    let descriptor = Name::from_bytes(alloc, descriptor_at(h.classes(), place))?;
    let lines = method_lines(alloc, h, bodies, sol, m)?;
    Ok(MethodText {
        class: place.0,
        name,
        descriptor,
        lines: List::from_vec(lines),
    })
}

fn push(texts: &mut Vec<MethodText>, text: MethodText) -> Result<(), NoMemory>
    ensures { OnOk result (texts.new.items ≡ texts.old.items ++ text ∷ []) }
{
    match texts.push(text) {
        Ok(()) => Ok(()),
        Err(_) => Err(NoMemory),
    }
}

// Adds the text of the next method.
fn add_text(
    alloc: Global,
    h: &Hierarchy,
    bodies: &[Body],
    sol: &Solution,
    texts: &mut Vec<MethodText>,
    m: MethodId,
    place: (ClassId, u16),
) -> Result<(), NoMemory>
    requires files { All IsClassFile h.now }
    requires points { All HasPointsInOrder bodies.now }
    requires m { m.0 < length sol.now.reached }
    ensures { OnOk result ((t : MethodText) × IsTextOf h.now bodies.now sol.now m place t × (texts.new.items ≡ texts.old.items ++ t ∷ [])) }
{
    let text = method_text(alloc, h, bodies, sol, m, place)?;
    push(texts, text)
}

fn place_at(places: &[(ClassId, u16)], m: usize) -> (ClassId, u16)
    requires { m < length places.now }
    ensures { slice_get places.now m ≡ Some result }
{
    places[m]
}

// The texts of the methods at these places.
fn texts_of(
    alloc: Global,
    h: &Hierarchy,
    bodies: &[Body],
    sol: &Solution,
    places: &[(ClassId, u16)],
) -> Result<Vec<MethodText>, NoMemory>
    requires files { All IsClassFile h.now }
    requires points { All HasPointsInOrder bodies.now }
    requires places { length places.now ≡ length sol.now.reached }
    requires few { length places.now < 2 ^ 32 }
    ensures { IfOk result (λ texts. AreTextsBelow h.now bodies.now sol.now places.now (length places.now) texts.items) }
{
    let mut texts = Vec::new(alloc);
    for m in 0..places.len() {
        let place = place_at(places, m);
        add_text(alloc, h, bodies, sol, &mut texts, MethodId(m as u32), place)?;
    }
    Ok(texts)
}

// Whether methods have numbers of 32 bits.
fn are_few(s: &System) -> bool
    ensures { result ≡ true → length s.now.methods < 2 ^ 32 }
{
    let methods = s.methods.items().len();
    methods < 0x1_0000_0000
}

/// The class, name and descriptor of each method, and the statements of those that may run, in order and with their lines. The only
/// error is want of memory, which a system with 2^32 methods has too.
///
/// It goes once over the methods and over the reachable instructions of those that may run, and takes memory for the program counters
/// of one method at a time, beside what it answers.
pub fn method_texts(
    alloc: Global,
    h: &Hierarchy,
    bodies: &[Body],
    s: &System,
    sol: &Solution,
) -> Result<List<MethodText>, NoMemory>
    requires program { (p : Program) × IsProgramWith h.now bodies.now s.now p }
    requires files { All IsClassFile h.now }
    requires solved { IsSolutionOf s.now sol.now }
    ensures { IfOk result (λ texts. (p : Program) → IsProgramWith h.now bodies.now s.now p → AreMethodTexts p s.now texts) }
{
    if !are_few(s) {
        return Err(NoMemory);
    }
    let texts = texts_of(alloc, h, bodies, sol, h.method_places())?;
    Ok(List::from_vec(texts))
}
