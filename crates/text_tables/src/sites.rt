// The names of sites.
ghost use Rattle.std.specs.Prelude.{◌≡◌, ◌++◌, ◌∷◌, [], All, Contains, IfOk, OnOk};
ghost use Rattle.class_form.specs.ClassRules.{IsClassFile};
ghost use Rattle.class_form.specs.Types.{constant_text};
ghost use Rattle.class_form.specs.declared.body.Body.{Body};
ghost use Rattle.class_form.specs.declared.class_file.CodeBody.{CodeBody};
ghost use Rattle.class_form.specs.declared.types.FieldType.{FieldType};
ghost use Rattle.program_form.specs.Programs.{Program, CodeOf};
ghost use Rattle.program_form.specs.Statements.{IsAt};
ghost use Rattle.program_form.specs.Sites.{Site, Made, OfRoot, HasType, StandsAt};
ghost use Rattle.program_code.specs.Codes.{IsProgramOfCode};
ghost use Rattle.fact_form.specs.FactTables.{AreSiteNames};
ghost use Rattle.fact_form.specs.Handed.{IsProgramWith};
ghost use Rattle.text_tables.specs.SiteNames.{IsCoded, IsNameOf};

use crate::finding::{body_of, code_of, file_of, instr_at};
use crate::site_texts::{made_text, no_text};
use class_form::body::{Body, Instr};
use dep_form::rules::SiteInfo;
use dep_form::system::System;
use dep_form::texts::SiteName;
use hierarchy::tree::Hierarchy;
use slicer_ids::ids::{MethodId, NoMemory, Statement};
use slicer_ids::list::List;
use slicer_ids::name::Name;
use std::alloc::Global;

// The bytes of the code of a method.
fn code_bytes(h: &Hierarchy, m: MethodId) -> &[u8]
    requires { All IsClassFile h.now }
    ensures { (p : Program) (code : CodeBody) → p.classes ≡ h.now → IsProgramOfCode p → CodeOf p m code → result.now ≡ code.code }
{
    match code_of(h, m) {
        Some(code) => code.code.bytes(),
        None => &[],
    }
}

// The text of a site of an instruction.
fn instr_text(
    alloc: Global,
    h: &Hierarchy,
    place: Statement,
    instr: &Instr,
    k: u8,
) -> Result<Name, NoMemory>
    requires files { All IsClassFile h.now }
    ensures { IfOk result (λ x. (p : Program) (b : Body) (t : FieldType) → IsCoded h.now p.bodies p → IsAt p place b instr.now → HasType p (Made place k) t → x ≡ constant_text t) }
{
    match file_of(h, place.method) {
        Some(file) => made_text(alloc, &file.pool, code_bytes(h, place.method), instr, k),
        None => no_text(alloc),
    }
}

// The text of a site of a statement of a body.
fn body_text(
    alloc: Global,
    h: &Hierarchy,
    body: &Body,
    place: Statement,
    k: u8,
) -> Result<Name, NoMemory>
    requires files { All IsClassFile h.now }
    ensures { IfOk result (λ x. (p : Program) (t : FieldType) → IsCoded h.now p.bodies p → Contains p.bodies body.now → body.now.method ≡ place.method → HasType p (Made place k) t → x ≡ constant_text t) }
{
    match instr_at(body.instrs.items(), place.pc) {
        Some(instr) => instr_text(alloc, h, place, instr, k),
        None => no_text(alloc),
    }
}

// The text of a site of a statement.
fn statement_text(
    alloc: Global,
    h: &Hierarchy,
    bodies: &[Body],
    place: Statement,
    k: u8,
) -> Result<Name, NoMemory>
    requires files { All IsClassFile h.now }
    ensures { IfOk result (λ x. (p : Program) (t : FieldType) → IsCoded h.now bodies.now p → HasType p (Made place k) t → x ≡ constant_text t) }
{
    match body_of(bodies, place.method) {
        Some(body) => body_text(alloc, h, body, place, k),
        None => no_text(alloc),
    }
}

// The text of a site of the root: the array of arguments, or one of them.
fn root_text(alloc: Global, k: u8) -> Result<Name, NoMemory>
    ensures { IfOk result (λ x. (p : Program) (t : FieldType) → HasType p (OfRoot k) t → x ≡ constant_text t) }
{
    if k == 0 {
        Name::from_bytes(alloc, b"[Ljava/lang/String;")
    } else {
        Name::from_bytes(alloc, b"java/lang/String")
    }
}

// The text of the site of this place and number.
fn text_at(
    alloc: Global,
    h: &Hierarchy,
    bodies: &[Body],
    place: Option<Statement>,
    k: u8,
) -> Result<Name, NoMemory>
    requires files { All IsClassFile h.now }
    ensures { IfOk result (λ x. (p : Program) (site : Site) (t : FieldType) → IsCoded h.now bodies.now p → StandsAt site place k → HasType p site t → x ≡ constant_text t) }
{
    match place {
        Some(statement) => statement_text(alloc, h, bodies, statement, k),
        None => root_text(alloc, k),
    }
}

// The name of a site.
fn name_of(
    alloc: Global,
    h: &Hierarchy,
    bodies: &[Body],
    info: &SiteInfo,
) -> Result<SiteName, NoMemory>
    requires files { All IsClassFile h.now }
    ensures { IfOk result (IsNameOf h.now bodies.now info.now) }
{
    let class = text_at(alloc, h, bodies, info.place, info.k)?;
    Ok(SiteName {
        class,
        place: info.place,
        k: info.k,
    })
}

fn push(names: &mut Vec<SiteName>, name: SiteName) -> Result<(), NoMemory>
    ensures { OnOk result (names.new.items ≡ names.old.items ++ name ∷ []) }
{
    match names.push(name) {
        Ok(()) => Ok(()),
        Err(_) => Err(NoMemory),
    }
}

// Adds the name of a site.
fn add_name(
    alloc: Global,
    h: &Hierarchy,
    bodies: &[Body],
    names: &mut Vec<SiteName>,
    info: &SiteInfo,
) -> Result<(), NoMemory>
    requires files { All IsClassFile h.now }
    ensures { OnOk result ((x : SiteName) × IsNameOf h.now bodies.now info.now x × (names.new.items ≡ names.old.items ++ x ∷ [])) }
{
    let name = name_of(alloc, h, bodies, info)?;
    push(names, name)
}

/// The place of each site of a system, and how its class or array is named: a class by its name, an array by its descriptor. The only
/// error is want of memory.
///
/// For each site it takes a logarithmic number of steps, and one for each byte of the names that its instruction leads to.
pub fn site_names(
    alloc: Global,
    h: &Hierarchy,
    bodies: &[Body],
    s: &System,
) -> Result<List<SiteName>, NoMemory>
    requires files { All IsClassFile h.now }
    ensures { IfOk result (λ sites. (p : Program) → IsProgramWith h.now bodies.now s.now p → AreSiteNames p s.now sites) }
{
    let mut names = Vec::new(alloc);
    for info in s.sites.items() {
        add_name(alloc, h, bodies, &mut names, info)?;
    }
    Ok(List::from_vec(names))
}
