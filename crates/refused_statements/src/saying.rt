// What is said of a statement.
ghost use Rattle.std.specs.Prelude.{◌≡◌, ℕ, List, Some, All, IfOk, slice_get};
ghost use Rattle.class_form.specs.ClassRules.{IsClassFile};
ghost use Rattle.dep_form.specs.Solutions.{IsSolutionOf};
ghost use Rattle.program_form.specs.Programs.{Program};
ghost use Rattle.fact_form.specs.Handed.{IsProgramWith};
ghost use Rattle.call_graph.specs.Refusals.{IsRefused};
ghost use Rattle.acceptance.specs.Statements.{IsStatementText, statement_text, statement_refusal};
ghost use Rattle.refused_statements.specs.Saying.{IsSaidOf, IsSaidBy};

use crate::finding::{line_in, name_at, text_at};
use crate::printing::refusal_text;
use call_graph::Refused;
use class_form::body::Body;
use constraint_form::laws::constraints_give_the_facts;
use dep_form::solution::Solution;
use dep_form::system::System;
use dep_form::texts::MethodText;
use hierarchy::Hierarchy;
use read_programs::laws::class_files_are_named;
use slicer_ids::ids::NoMemory;
use slicer_ids::name::Name;
use std::alloc::Global;
use text_tables::{class_names, method_texts};

fn written(
    alloc: Global,
    r: Refused,
    text: &MethodText,
    class: &Name,
    line: Option<u16>,
) -> Result<Name, NoMemory>
    ensures { IfOk result (λ said. said ≡ statement_refusal r.kind (statement_text class.now text.now.name text.now.descriptor r.place.pc line)) }
{
    let name = text.name.bytes();
    let descriptor = text.descriptor.bytes();
    match refusal_text(
        alloc,
        r.kind,
        class.bytes(),
        name,
        descriptor,
        r.place.pc,
        line,
    ) {
        Ok(said) => Ok(Name::from_vec(said)),
        Err(_) => Err(NoMemory),
    }
}

// A statement that is reached is among those of its method, so that none is wanting.
fn said_of(alloc: Global, r: Refused, text: &MethodText, class: &Name) -> Result<Name, NoMemory>
    ensures { IfOk result (IsSaidOf r text.now class.now) }
{
    match line_in(text.lines.items(), r.place.pc) {
        Some(line) => written(alloc, r, text, class, line),
        None => Err(NoMemory),
    }
}

// Each class has a name.
fn said_in(alloc: Global, r: Refused, text: &MethodText, names: &[Name]) -> Result<Name, NoMemory>
    ensures { IfOk result (λ said. (class : List ℕ) × (slice_get names.now text.now.class.0 ≡ Some class) × IsSaidOf r text.now class said) }
{
    match name_at(names, text.class) {
        Some(class) => said_of(alloc, r, text, class),
        None => Err(NoMemory),
    }
}

// Each method has texts.
fn said_by(
    alloc: Global,
    r: Refused,
    texts: &[MethodText],
    names: &[Name],
) -> Result<Name, NoMemory>
    ensures { IfOk result (IsSaidBy texts.now names.now r) }
{
    match text_at(texts, r.place.method) {
        Some(text) => said_in(alloc, r, text, names),
        None => Err(NoMemory),
    }
}

/// The line that says that a statement of a program is refused: the reason, the class, name and descriptor of its method as they
/// are printed, its program counter and its line. It is said of each program that classes, bodies and the system are those of and
/// in which the statement is refused. The only error is want of memory.
///
/// Makes the texts of all methods (`text_tables::method_texts`), since a run says this once.
pub fn statement_refusal(
    alloc: Global,
    h: &Hierarchy,
    bodies: &[Body],
    s: &System,
    sol: &Solution,
    r: Refused,
) -> Result<Name, NoMemory>
    requires program { (p : Program) × IsProgramWith h.now bodies.now s.now p }
    requires files { All IsClassFile h.now }
    requires solved { IsSolutionOf s.now sol.now }
    ensures { IfOk result (λ line. (p : Program) → IsProgramWith h.now bodies.now s.now p → IsRefused p r → (text : List ℕ) × IsStatementText p r.place text × (line ≡ statement_refusal r.kind text)) }
{
    constraints_give_the_facts();
    class_files_are_named();
    let texts = method_texts(alloc, h, bodies, s, sol)?;
    let names = class_names(alloc, h)?;
    let said = said_by(alloc, r, texts.items(), names.items())?;
    Ok(said)
}
