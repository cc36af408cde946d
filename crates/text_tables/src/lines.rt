// The statements of each line.
ghost use Rattle.std.specs.Prelude.{◌≡◌, ◌↔◌, ◌<◌, ◌++◌, ◌∷◌, [], ◌^◌, ◌≤◌, ℕ, true, List, All, Contains, IfOk, OnOk, Some, length, map, slice_get, take};
ghost use Rattle.slicer_ids.specs.declared.ids.ClassId.{ClassId};
ghost use Rattle.slicer_ids.specs.declared.ids.Statement.{Statement};
ghost use Rattle.dep_form.specs.Orders.{RiseBy};
ghost use Rattle.dep_form.specs.declared.system.System.{System};
ghost use Rattle.mod_ref.specs.Gains.{Gains};
ghost use Rattle.worklists.specs.Growth.{FromOne};
ghost use Rattle.worklists.proofs.Growing.{FromBelow};
ghost use Rattle.program_form.specs.Programs.{Program};
ghost use Rattle.constraint_form.specs.Asked.{IsReadProgram};
ghost use Rattle.program_code.specs.Codes.{IsProgramOfCode};
ghost use Rattle.fact_form.specs.FactTables.{AreLines, AreMethodTexts};
ghost use Rattle.text_tables.specs.LineGroups.{AreRuns, IsPlaceAt, IsPlaceOf, is_at, place_cmp, statement_of};

use dep_form::texts::MethodText;
use slicer_ids::ids::{ClassId, MethodId, NoMemory, Statement};
use slicer_ids::list::List;
use std::alloc::Global;

/// A statement with its class and its line. The order is by class, then by line, then that of statements.
#[derive(Clone, Copy, PartialEq, Eq, PartialOrd, Ord, Debug, Drop)]
pub struct LinePlace {
    pub class: ClassId,
    pub line: u16,
    pub place: Statement,
}

fn push(places: &mut Vec<LinePlace>, place: LinePlace) -> Result<(), NoMemory>
    ensures { OnOk result (Gains places.old.items places.new.items (λ x. x ≡ place)) }
{
    match places.push(place) {
        Ok(()) => Ok(()),
        Err(_) => Err(NoMemory),
    }
}

// Adds a statement, where it has a line.
fn add_entry(
    places: &mut Vec<LinePlace>,
    class: ClassId,
    m: MethodId,
    entry: (u16, Option<u16>),
) -> Result<(), NoMemory>
    ensures { OnOk result (Gains places.old.items places.new.items (IsPlaceOf class m entry)) }
{
    match entry.1 {
        Some(line) => {
            let place = Statement {
                method: m,
                pc: entry.0,
            };
            push(places, LinePlace { class, line, place })
        }
        None => Ok(()),
    }
}

// Adds the statements of a method.
fn add_entries(
    places: &mut Vec<LinePlace>,
    class: ClassId,
    m: MethodId,
    entries: &[(u16, Option<u16>)],
) -> Result<(), NoMemory>
    ensures { OnOk result (Gains places.old.items places.new.items (FromOne (IsPlaceOf class m) entries.now)) }
{
    for entry in entries {
        add_entry(places, class, m, *entry)?;
    }
    Ok(())
}

fn text_at(texts: &[MethodText], m: usize) -> &MethodText
    requires { m < length texts.now }
    ensures { slice_get texts.now m ≡ Some result.now }
{
    &texts[m]
}

// Adds the statements of the method of this number.
fn add_method(places: &mut Vec<LinePlace>, texts: &[MethodText], m: usize) -> Result<(), NoMemory>
    requires m { m < length texts.now }
    requires few { length texts.now < 2 ^ 32 }
    ensures { OnOk result (Gains places.old.items places.new.items (IsPlaceAt texts.now m)) }
{
    let text = text_at(texts, m);
    add_entries(places, text.class, MethodId(m as u32), text.lines.items())
}

// The statements that have lines.
fn all_places(alloc: Global, texts: &[MethodText]) -> Result<Vec<LinePlace>, NoMemory>
    requires few { length texts.now < 2 ^ 32 }
    ensures { IfOk result (λ places. (x : LinePlace) → Contains places.items x ↔ FromBelow (IsPlaceAt texts.now) (length texts.now) x) }
{
    let mut places = Vec::new(alloc);
    for m in 0..texts.len() {
        add_method(&mut places, texts, m)?;
    }
    Ok(places)
}

fn in_order(places: Vec<LinePlace>) -> Vec<LinePlace>
    ensures order { RiseBy place_cmp (λ x. x) result.items }
    ensures members { (x : LinePlace) → Contains result.items x ↔ Contains places.items x }
{
    let mut all = places;
    all.sort_unstable();
    all.dedup();
    all
}

fn stands_at(class: ClassId, line: u16, place: &LinePlace) -> bool
    ensures { result ≡ is_at class line place.now }
{
    place.class.0 == class.0 && place.line == line
}

fn place_at(places: &[LinePlace], k: usize) -> &LinePlace
    requires { k < length places.now }
    ensures { slice_get places.now k ≡ Some result.now }
{
    &places[k]
}

// How many places of the line stand in front.
fn run_len(places: &[LinePlace], class: ClassId, line: u16) -> usize
    ensures within { result ≤ length places.now }
    ensures same { All (λ x. is_at class line x ≡ true) (take result places.now) }
    ensures end { (y : LinePlace) → slice_get places.now result ≡ Some y → is_at class line y ≡ true → ⊥ }
{
    for k in 0..places.len() {
        if !stands_at(class, line, place_at(places, k)) {
            return k;
        }
    }
    places.len()
}

fn push_statement(statements: &mut Vec<Statement>, place: &LinePlace) -> Result<(), NoMemory>
    ensures { OnOk result (statements.new.items ≡ statements.old.items ++ statement_of place.now ∷ []) }
{
    match statements.push(place.place) {
        Ok(()) => Ok(()),
        Err(_) => Err(NoMemory),
    }
}

fn statements_of(alloc: Global, places: &[LinePlace]) -> Result<Vec<Statement>, NoMemory>
    ensures { IfOk result (λ ts. ts.items ≡ map statement_of places.now) }
{
    let mut statements = Vec::new(alloc);
    for place in places {
        push_statement(&mut statements, place)?;
    }
    Ok(statements)
}

fn push_group(
    groups: &mut Vec<(ClassId, u16, List<Statement>)>,
    class: ClassId,
    line: u16,
    statements: List<Statement>,
) -> Result<(), NoMemory>
    ensures { OnOk result (groups.new.items ≡ groups.old.items ++ (class, line, statements) ∷ []) }
{
    match groups.push((class, line, statements)) {
        Ok(()) => Ok(()),
        Err(_) => Err(NoMemory),
    }
}

// Adds the group of the line that stands in front, and gives what stands after it.
fn add_group<'a>(
    alloc: Global,
    groups: &mut Vec<(ClassId, u16, List<Statement>)>,
    places: &'a [LinePlace],
) -> Result<&'a [LinePlace], NoMemory>
    requires { 0 < length places.now }
    ensures fewer { IfOk result (λ rest. length rest.now < length places.now) }
    ensures runs { IfOk result (λ rest. (more : List (ClassId × ℕ × List Statement)) → AreRuns rest.now more → (end : List (ClassId × ℕ × List Statement)) × AreRuns places.now end × (groups.new.items ++ more ≡ groups.old.items ++ end)) }
{
    let first = place_at(places, 0);
    let (run, rest) = places.split_at(run_len(places, first.class, first.line));
    let statements = statements_of(alloc, run)?;
    push_group(groups, first.class, first.line, List::from_vec(statements))?;
    Ok(rest)
}

// The groups of places that are in order.
fn groups_of(
    alloc: Global,
    places: &[LinePlace],
) -> Result<Vec<(ClassId, u16, List<Statement>)>, NoMemory>
    ensures { IfOk result (λ groups. AreRuns places.now groups.items) }
{
    let mut groups = Vec::new(alloc);
    let mut rest = places;
    while rest.len() > 0 {
        rest = add_group(alloc, &mut groups, rest)?;
    }
    Ok(groups)
}

/// The statements of each class at each line that has some, in order, by the texts of the methods. The only error is want of memory,
/// or that there are 2^32 methods.
///
/// It goes once over the statements, and sorts them; a statement takes 16 bytes meanwhile.
pub fn line_table(
    alloc: Global,
    texts: &[MethodText],
) -> Result<List<(ClassId, u16, List<Statement>)>, NoMemory>
    ensures { IfOk result (λ lines. (p : Program) (s : System) → IsReadProgram p → IsProgramOfCode p → AreMethodTexts p s texts.now → AreLines p s lines) }
{
    if texts.len() >= 0x1_0000_0000 {
        return Err(NoMemory);
    }
    let all = all_places(alloc, texts)?;
    let places = in_order(all);
    let groups = groups_of(alloc, places.as_slice())?;
    Ok(List::from_vec(groups))
}
