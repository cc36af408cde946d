// The names and descriptors that the statements of bodies name.
ghost use Rattle.std.specs.Prelude.{◌≡◌, ◌⊎◌, ◌↔◌, None, ◌++◌, ◌∷◌, [], ℕ, List, Some, map, option_map, Contains, IsTrue, IfOk, OnOk, MatchOption};
ghost use Rattle.slicer_ids.specs.Sets.{IsOrderedListOf};
ghost use Rattle.slicer_ids.specs.declared.ids.Statement.{Statement};
ghost use Rattle.worklists.specs.Growth.{Grows};
ghost use Rattle.class_form.specs.Opcodes.{IsVirtualCall, IsGetStatic, IsPutStatic};
ghost use Rattle.hierarchy.specs.Selections.{member_key};
ghost use Rattle.class_form.specs.Resolution.{FindsField};
ghost use Rattle.signature_tables.specs.declared.wanted.Wanted.TheVariants.{ForeignStatics};
ghost use Rattle.class_form.specs.Reaching.{IsPoint};
ghost use Rattle.class_form.specs.declared.body.Body.{Body};
ghost use Rattle.class_form.specs.declared.body.Point.{Point};
ghost use Rattle.program_form.specs.Programs.{Program, ClassOf};
ghost use Rattle.program_form.specs.Statements.{IsAt};
ghost use Rattle.program_form.specs.Systems.{ForeignBefore};
ghost use Rattle.signature_tables.specs.Programs.{IsOfClasses};
ghost use Rattle.signature_tables.specs.Statements.{HasBody, HasBodies, NamesTexts, BodyNames, ProgramNames, statement};
ghost use Rattle.signature_tables.specs.Naming.{IsNamedBy, AreTextsOf};
ghost use Rattle.signature_tables.specs.TextPairs.{pair_of};

use crate::code::{file_of, instr_at};
use crate::texts::{Texts, in_order};
use crate::wanted::Wanted;
use class_form::body::{Body, Instr};
use class_form::class_file::ClassFile;
use class_form::member_name::MemberName;
use hierarchy::Hierarchy;
use slicer_ids::ids::NoMemory;
use std::alloc::Global;

// Whether the instruction calls what the class of the receiver selects.
fn is_virtual(op: u8) -> bool
    ensures { IsTrue result ↔ IsVirtualCall op }
{
    op == 182 || op == 185
}

// Whether the instruction reads or writes a static field.
fn is_static(op: u8) -> bool
    ensures { IsTrue result ↔ (IsGetStatic op ⊎ IsPutStatic op) }
{
    op == 178 || op == 179
}

// Whether the folder doesn't have the field.
fn is_foreign(h: &Hierarchy, class: &[u8], name: &[u8], descriptor: &[u8]) -> bool
    ensures { (p : Program) → IsOfClasses h.now p → IsTrue result ↔ FindsField h.now (member_key class.now name.now descriptor.now) None }
{
    match h.find_field(class, name, descriptor) {
        Some(_) => false,
        None => true,
    }
}

// Whether it is a static field that the folder doesn't have.
fn is_foreign_static(h: &Hierarchy, op: u8, class: &[u8], name: &[u8], descriptor: &[u8]) -> bool
    ensures { (p : Program) → IsOfClasses h.now p → IsTrue result ↔ IsNamedBy ForeignStatics h.now op (member_key class.now name.now descriptor.now) }
{
    if is_static(op) {
        is_foreign(h, class, name, descriptor)
    } else {
        false
    }
}

// Whether a member that an instruction names is one of those that are looked for.
fn is_named(
    h: &Hierarchy,
    wanted: Wanted,
    op: u8,
    class: &[u8],
    name: &[u8],
    descriptor: &[u8],
) -> bool
    ensures { (p : Program) → IsOfClasses h.now p → IsTrue result ↔ IsNamedBy wanted h.now op (member_key class.now name.now descriptor.now) }
{
    match wanted {
        Wanted::Signatures => is_virtual(op),
        Wanted::ForeignStatics => is_foreign_static(h, op, class, name, descriptor),
    }
}

// The texts of the member that an instruction of a file names, where they are looked for.
fn texts_of<'a>(
    file: &'a ClassFile,
    h: &Hierarchy,
    wanted: Wanted,
    instr: &Instr,
) -> Option<Texts<'a>>
    ensures { (p : Program) (t : Statement) (b : Body) (c : ℕ) → IsOfClasses h.now p → IsAt p t b instr.now → ClassOf p t.method c file.now → AreTextsOf wanted p t (option_map pair_of result) }
{
    match file.pool.member(instr.index) {
        Some(
            MemberName {
                class,
                name,
                descriptor,
                interface: _,
            },
        ) => {
            if is_named(h, wanted, instr.op, class, name, descriptor) {
                Some(Texts { name, descriptor })
            } else {
                None
            }
        }
        None => None,
    }
}

// Adds texts, where there are some.
fn push<'a>(texts: &mut Vec<Texts<'a>>, found: Option<Texts<'a>>) -> Result<(), NoMemory>
    ensures { OnOk result (Grows (map pair_of texts.old.items) (map pair_of texts.new.items) (λ nd. option_map pair_of found.entry ≡ Some nd)) }
{
    match found {
        Some(found) => match texts.push(found) {
            Ok(()) => Ok(()),
            Err(_) => Err(NoMemory),
        },
        None => Ok(()),
    }
}

// Adds what the statement of a body at a program counter names.
fn push_named<'a>(
    h: &'a Hierarchy,
    wanted: Wanted,
    body: &Body,
    pc: u16,
    texts: &mut Vec<Texts<'a>>,
) -> Result<(), NoMemory>
    requires body { HasBody h.now body.now }
    ensures { (p : Program) (q : Point) → IsOfClasses h.now p → Contains p.bodies body.now → IsPoint body.now.shape pc q → OnOk result (Grows (map pair_of texts.old.items) (map pair_of texts.new.items) (NamesTexts wanted p (statement body.now pc))) }
{
    let file = file_of(h, body.method);
    match instr_at(body.instrs.items(), pc) {
        Some(instr) => push(texts, texts_of(file, h, wanted, instr)),
        None => Ok(()),
    }
}

// Adds what the statements of a body name.
fn push_body<'a>(
    h: &'a Hierarchy,
    wanted: Wanted,
    body: &Body,
    texts: &mut Vec<Texts<'a>>,
) -> Result<(), NoMemory>
    requires body { HasBody h.now body.now }
    ensures { (p : Program) → IsOfClasses h.now p → Contains p.bodies body.now → OnOk result (Grows (map pair_of texts.old.items) (map pair_of texts.new.items) (BodyNames wanted p body.now)) }
{
    for point in body.shape.points.items() {
        push_named(h, wanted, body, point.pc, texts)?;
    }
    Ok(())
}

// What the statements of bodies name.
fn all_named<'a>(
    alloc: Global,
    h: &'a Hierarchy,
    wanted: Wanted,
    bodies: &[Body],
) -> Result<Vec<Texts<'a>>, NoMemory>
    requires bodies { HasBodies h.now bodies.now }
    ensures { IfOk result (λ texts. (p : Program) → IsOfClasses h.now p → p.bodies ≡ bodies.now → (nd : List ℕ × List ℕ) → Contains (map pair_of texts.items) nd ↔ ProgramNames wanted p nd) }
{
    let mut texts = Vec::new(alloc);
    for body in bodies {
        push_body(h, wanted, body, &mut texts)?;
    }
    Ok(texts)
}

/// The names and descriptors of the members that statements of a program's bodies name, and that are looked for: in order,
/// each once. Looks at each reachable instruction once, for a logarithmic number of steps, and sorts what it finds.
pub fn named<'a>(
    alloc: Global,
    h: &'a Hierarchy,
    wanted: Wanted,
    bodies: &[Body],
) -> Result<Vec<Texts<'a>>, NoMemory>
    requires bodies { HasBodies h.now bodies.now }
    ensures { IfOk result (λ texts. (p : Program) → IsOfClasses h.now p → p.bodies ≡ bodies.now → IsOrderedListOf ForeignBefore (map pair_of texts.items) (ProgramNames wanted p)) }
{
    let texts = all_named(alloc, h, wanted, bodies)?;
    Ok(in_order(texts))
}
