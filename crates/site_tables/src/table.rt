// The table of sites.
ghost use Rattle.std.specs.Prelude.{◌≡◌, ◌<◌, ◌≤◌, ◌++◌, ◌∷◌, [], ◌^◌, All, length, Contains, IfOk, IfErr, OnOk};
ghost use Rattle.class_form.specs.Reaching.{IsPoint};
ghost use Rattle.class_form.specs.declared.body.Point.{Point};
ghost use Rattle.slicer_ids.specs.declared.limits.LimitKind.TheVariants.{Sites};
ghost use Rattle.dep_form.specs.declared.rules.TooMany.TheVariants.{Limit};
ghost use Rattle.program_form.specs.Programs.{Program};
ghost use Rattle.worklists.specs.Growth.{FromOne};
ghost use Rattle.signature_tables.specs.Programs.{IsOfClasses};
ghost use Rattle.signature_tables.specs.Statements.{HasBody, HasBodies, statement};
ghost use Rattle.site_tables.specs.Making.{AreMade, class_in};
ghost use Rattle.site_tables.specs.Tables.{ArePointsInOrder, IsTooMany, Adds, IsMadeAt, IsMadeIn, IsOfRoot, IsTableOf, arrays_at, IsObjectAdded, AreAdded, AreStringsAdded, IsWhole};

use crate::fresh::Fresh;
use crate::making::fresh;
use class_form::body::Body;
use dep_form::rules::{SiteInfo, TooMany};
use hierarchy::Hierarchy;
use signature_tables::code::{file_of, instr_at};
use slicer_ids::ids::{NoMemory, Statement};
use slicer_ids::limits::{LimitKind, SITES};
use slicer_ids::list::List;
use std::alloc::Global;

/// Sites, counted, and listed while they aren't too many.
#[derive(Drop)]
pub struct Table {
    pub infos: Vec<SiteInfo>,
    pub count: u64,
}

// Adds a site.
fn push(infos: &mut Vec<SiteInfo>, info: SiteInfo) -> Result<(), NoMemory>
    ensures { OnOk result (infos.new.items ≡ infos.old.items ++ info ∷ []) }
{
    match infos.push(info) {
        Ok(()) => Ok(()),
        Err(_) => Err(NoMemory),
    }
}

// Adds the arrays of a statement.
fn push_arrays(infos: &mut Vec<SiteInfo>, place: Statement, dims: u8) -> Result<(), NoMemory>
    ensures { OnOk result (infos.new.items ≡ infos.old.items ++ arrays_at place dims) }
{
    for k in 0..dims {
        let info = SiteInfo {
            class: None,
            array: true,
            place: Some(place),
            k,
        };
        push(infos, info)?;
    }
    Ok(())
}

// Adds the object of a class after the arrays of a statement, where there is one.
fn push_object(
    h: &Hierarchy,
    infos: &mut Vec<SiteInfo>,
    place: Statement,
    made: Fresh<'_>,
) -> Result<(), NoMemory>
    ensures { OnOk result (IsObjectAdded h.now place made.entry.dims (class_in made.entry) infos.old.items infos.new.items) }
{
    match made.class {
        Some(name) => {
            let info = SiteInfo {
                class: h.find_class(name),
                array: false,
                place: Some(place),
                k: made.dims,
            };
            push(infos, info)
        }
        None => Ok(()),
    }
}

// Adds what a statement makes to the list.
fn push_infos(
    h: &Hierarchy,
    infos: &mut Vec<SiteInfo>,
    place: Statement,
    made: Fresh<'_>,
) -> Result<(), NoMemory>
    ensures { OnOk result (AreAdded h.now place made.entry infos.old.items infos.new.items) }
{
    push_arrays(infos, place, made.dims)?;
    push_object(h, infos, place, made)
}

// Adds what a statement makes to the table.
fn push_made(
    h: &Hierarchy,
    table: &mut Table,
    place: Statement,
    made: Fresh<'_>,
) -> Result<(), NoMemory>
    ensures { (p : Program) → IsOfClasses h.now p → AreMade p place made.entry → OnOk result (Adds p table.old table.new (IsMadeAt p place)) }
{
    let Some(count) = table.count.checked_add(made.count()) else {
        return Err(NoMemory);
    };
    table.count = count;
    if count <= SITES {
        push_infos(h, &mut table.infos, place, made)
    } else {
        Ok(())
    }
}

// Adds the sites of the statement of a body at a program counter.
fn push_statement(h: &Hierarchy, table: &mut Table, body: &Body, pc: u16) -> Result<(), NoMemory>
    requires body { HasBody h.now body.now }
    ensures { (p : Program) (q : Point) → IsOfClasses h.now p → Contains p.bodies body.now → IsPoint body.now.shape pc q → OnOk result (Adds p table.old table.new (IsMadeAt p (statement body.now pc))) }
{
    let file = file_of(h, body.method);
    match instr_at(body.instrs.items(), pc) {
        Some(instr) => {
            let place = Statement {
                method: body.method,
                pc,
            };
            push_made(h, table, place, fresh(&file.pool, instr))
        }
        None => Ok(()),
    }
}

// Adds the sites of a body.
fn push_body(h: &Hierarchy, table: &mut Table, body: &Body) -> Result<(), NoMemory>
    requires body { HasBody h.now body.now }
    requires points { ArePointsInOrder body.now }
    ensures { (p : Program) → IsOfClasses h.now p → Contains p.bodies body.now → OnOk result (Adds p table.old table.new (IsMadeIn p body.now)) }
{
    for point in body.shape.points.items() {
        push_statement(h, table, body, point.pc)?;
    }
    Ok(())
}

// Adds the sites of bodies.
fn push_bodies(h: &Hierarchy, table: &mut Table, bodies: &[Body]) -> Result<(), NoMemory>
    requires bodies { HasBodies h.now bodies.now }
    requires points { All ArePointsInOrder bodies.now }
    ensures { (p : Program) → IsOfClasses h.now p → p.bodies ≡ bodies.now → OnOk result (Adds p table.old table.new (FromOne (IsMadeIn p) bodies.now)) }
{
    for body in bodies {
        push_body(h, table, body)?;
    }
    Ok(())
}

// Adds the root's sites to the list.
fn push_strings(h: &Hierarchy, infos: &mut Vec<SiteInfo>) -> Result<(), NoMemory>
    ensures { OnOk result (AreStringsAdded h.now infos.old.items infos.new.items) }
{
    let arguments = SiteInfo {
        class: None,
        array: true,
        place: None,
        k: 0,
    };
    push(infos, arguments)?;
    let argument = SiteInfo {
        class: h.find_class(b"java/lang/String"),
        array: false,
        place: None,
        k: 1,
    };
    push(infos, argument)
}

// Adds the root's sites to the table.
fn push_root(h: &Hierarchy, table: &mut Table) -> Result<(), NoMemory>
    ensures { (p : Program) → IsOfClasses h.now p → OnOk result (Adds p table.old table.new (IsOfRoot p)) }
{
    let Some(count) = table.count.checked_add(2) else {
        return Err(NoMemory);
    };
    table.count = count;
    if count <= SITES {
        push_strings(h, &mut table.infos)
    } else {
        Ok(())
    }
}

// All sites.
fn all_sites(alloc: Global, h: &Hierarchy, bodies: &[Body]) -> Result<Table, NoMemory>
    requires bodies { HasBodies h.now bodies.now }
    requires points { All ArePointsInOrder bodies.now }
    ensures { IfOk result (λ table. (p : Program) → IsOfClasses h.now p → p.bodies ≡ bodies.now → IsWhole p table) }
{
    let mut table = Table {
        infos: Vec::new(alloc),
        count: 0,
    };
    push_bodies(h, &mut table, bodies)?;
    push_root(h, &mut table)?;
    Ok(table)
}

// The list of all sites, where they aren't too many.
fn limited(table: Table) -> Result<List<SiteInfo>, TooMany>
    ensures listed { IfOk result (λ sites. (sites ≡ table.infos.items) × (table.count ≤ 2 ^ 20)) }
    ensures limit { IfErr result (λ e. (e ≡ Limit Sites table.count) × (2 ^ 20 < table.count)) }
{
    if table.count > SITES {
        return Err(TooMany::Limit(LimitKind::Sites, table.count));
    }
    Ok(List::from_vec(table.infos))
}

/// The table of the allocation sites of a program with these bodies: those of its statements by method, program counter and
/// number, and after them the root's two. A statement makes an object or arrays; a call, and a field that is read, may give
/// something fresh from outside.
///
/// `Limit(Sites, n)` is answered exactly where the number n of sites exceeds its limit; any other error is want of memory.
/// Looks at each reachable instruction once, for a logarithmic number of steps and one for each byte of the names that it
/// leads to.
pub fn site_table(alloc: Global, h: &Hierarchy, bodies: &[Body]) -> Result<List<SiteInfo>, TooMany>
    requires bodies { HasBodies h.now bodies.now }
    requires points { All ArePointsInOrder bodies.now }
    ensures listed { IfOk result (λ sites. IsTableOf h.now bodies.now sites × (length sites ≤ 2 ^ 20)) }
    ensures limit { IfErr result (IsTooMany h.now bodies.now) }
{
    match all_sites(alloc, h, bodies) {
        Ok(table) => limited(table),
        Err(_) => Err(TooMany::NoMemory),
    }
}
