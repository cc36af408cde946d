// The rows of the nodes of a program.
ghost use Rattle.std.specs.Prelude.{◌≡◌, ◌<◌, ◌^◌, true, IfErr, IfOk, length, map};
ghost use Rattle.dep_form.specs.Effects.{IsModRefOf};
ghost use Rattle.dep_form.specs.Solutions.{IsSolutionOf};
ghost use Rattle.program_form.specs.Programs.{Program};
ghost use Rattle.fact_form.specs.EntryCalls.{AreEntryCalls};
ghost use Rattle.fact_form.specs.FactLimits.{IsTooMany, IsWithinLimits};
ghost use Rattle.fact_form.specs.FactTables.{AreNodeRows};
ghost use Rattle.fact_form.specs.Handed.{IsProgramWith};
ghost use Rattle.mod_ref.specs.Direct.{IsSmall};
ghost use Rattle.node_tables.specs.Parts.{AreAnswers, AreEntries, AreGiven, IsGathered};
ghost use Rattle.node_tables.specs.Rows.{AreRows};
ghost use Rattle.node_tables.specs.Scenes.{IsProgramOf, IsScene};

use crate::limits::check_limits;
use crate::parts::{Parts, gather};
use crate::scene::Scene;
use crate::tables::node_rows;
use class_form::body::Body;
use constraint_form::laws::{constraints_give_the_facts, static_spots_are_of_static_variables};
use dep_form::effects::ModRef;
use dep_form::node::Node;
use dep_form::rules::TooMany;
use dep_form::solution::Solution;
use dep_form::system::System;
use hierarchy::tree::Hierarchy;
use slicer_ids::ids::MethodId;
use std::alloc::Global;

// The calls of the root have numbers of 16 bits.
const MOST: usize = 65536;

/// The methods that the root calls, in order, and the nodes of each method, and last of the root, in order.
#[derive(Drop)]
pub struct NodeTables {
    pub entries: Vec<MethodId>,
    pub rows: Vec<Vec<Node>>,
}

// Whether sites, calls and methods have numbers of 32 bits.
fn is_small(s: &System) -> bool
    ensures { result ≡ true → IsSmall s.now }
{
    let sites = s.sites.items().len();
    let calls = s.calls.items().len();
    let methods = s.methods.items().len();
    sites < 0x1_0000_0000 && calls < 0x1_0000_0000 && methods < 0x1_0000_0000
}

// The rows, where there aren't too many nodes or words.
fn checked_rows(alloc: Global, scene: &Scene<'_>) -> Result<Vec<Vec<Node>>, TooMany>
    requires { IsScene scene.now }
    ensures rows { IfOk result (λ rows. AreRows scene.now (map (λ row. row.items) rows.items)) }
    ensures ok { IfOk result (λ rows. (p : Program) → IsProgramOf scene.now p → IsWithinLimits p) }
    ensures err { IfErr result (λ e. (p : Program) → IsProgramOf scene.now p → IsTooMany p e) }
{
    match check_limits(alloc, scene) {
        Err(e) => Err(e),
        Ok(()) => match node_rows(alloc, scene) {
            Ok(rows) => Ok(rows),
            Err(_) => Err(TooMany::NoMemory),
        },
    }
}

fn rows_of(alloc: Global, h: &Hierarchy, scene: &Scene<'_>) -> Result<Vec<Vec<Node>>, TooMany>
    requires program { (p : Program) × IsProgramWith h.now scene.now.bodies.now scene.now.system.now p }
    requires scene { IsGathered h.now scene.now }
    ensures rows { IfOk result (λ rows. (p : Program) → IsProgramWith h.now scene.now.bodies.now scene.now.system.now p → AreNodeRows p scene.now.system.now scene.now.effects.now scene.now.entries.now (map (λ row. row.items) rows.items)) }
    ensures ok { IfOk result (λ rows. (p : Program) → IsProgramWith h.now scene.now.bodies.now scene.now.system.now p → IsWithinLimits p) }
    ensures err { IfErr result (λ e. (p : Program) → IsProgramWith h.now scene.now.bodies.now scene.now.system.now p → IsTooMany p e) }
{
    constraints_give_the_facts();
    static_spots_are_of_static_variables();
    let _classes = h.classes();
    checked_rows(alloc, scene)
}

fn tables_of(
    alloc: Global,
    h: &Hierarchy,
    bodies: &[Body],
    s: &System,
    sol: &Solution,
    mr: &ModRef,
    parts: Parts,
) -> Result<NodeTables, TooMany>
    requires program { (p : Program) × IsProgramWith h.now bodies.now s.now p }
    requires solved { IsSolutionOf s.now sol.now }
    requires effects { IsModRefOf s.now mr.now }
    requires small { IsSmall s.now }
    requires answering { AreAnswers h.now parts.answering.items (length s.now.methods) }
    requires entries { AreEntries s.now h.now parts.entries.items }
    requires given { AreGiven s.now parts.entries.items parts.given.items (length parts.entries.items) }
    ensures rows { IfOk result (λ t. (p : Program) → IsProgramWith h.now bodies.now s.now p → AreNodeRows p s.now mr.now t.entries.items (map (λ row. row.items) t.rows.items)) }
    ensures entries { IfOk result (λ t. AreEntries s.now h.now t.entries.items) }
    ensures ok { IfOk result (λ t. (p : Program) → IsProgramWith h.now bodies.now s.now p → IsWithinLimits p) }
    ensures err { IfErr result (λ e. (p : Program) → IsProgramWith h.now bodies.now s.now p → IsTooMany p e) }
{
    let Parts {
        answering,
        entries,
        given,
    } = parts;
    let count = entries.len();
    if count > MOST {
        return Err(TooMany::NoMemory);
    }
    let scene = Scene {
        system: s,
        solution: sol,
        effects: mr,
        bodies,
        answering: answering.as_slice(),
        entries: entries.as_slice(),
        given: given.as_slice(),
    };
    match rows_of(alloc, h, &scene) {
        Ok(rows) => Ok(NodeTables { entries, rows }),
        Err(e) => Err(e),
    }
}

/// The nodes of a program, by method, and of the root: arguments, and locations on entry; by statement the statement's own, of a call its
/// arguments, result and exception, and locations before it and after it; what is answered, what is thrown, and locations on exit. The
/// nodes of a method are in this order, which is that of their numbers.
///
/// `Limit(Nodes, n)`, and else `Limit(MemoWords, n)`, is answered exactly where there are more than 2^24 nodes, or where the rows of the
/// summaries of its exits take more than 2^25 words of 64 bits, with their number n; any other error is want of memory. A system with
/// 2^32 sites, calls or methods, or with more than 65,536 calls of the root, has it too, since their numbers have 32 and 16 bits. The
/// limits are tried before any row is kept.
///
/// It goes twice over all statements, and for each call over the locations of the methods that it may go to. A node takes 12 bytes.
pub fn node_tables(
    alloc: Global,
    h: &Hierarchy,
    bodies: &[Body],
    s: &System,
    sol: &Solution,
    mr: &ModRef,
) -> Result<NodeTables, TooMany>
    requires program { (p : Program) × IsProgramWith h.now bodies.now s.now p }
    requires solved { IsSolutionOf s.now sol.now }
    requires effects { IsModRefOf s.now mr.now }
    ensures rows { IfOk result (λ t. (p : Program) → IsProgramWith h.now bodies.now s.now p → AreEntryCalls p s.now t.entries.items × AreNodeRows p s.now mr.now t.entries.items (map (λ row. row.items) t.rows.items)) }
    ensures within { IfOk result (λ t. (p : Program) → IsProgramWith h.now bodies.now s.now p → IsWithinLimits p) }
    ensures limit { IfErr result (λ e. (p : Program) → IsProgramWith h.now bodies.now s.now p → IsTooMany p e) }
{
    if !is_small(s) {
        return Err(TooMany::NoMemory);
    }
    match gather(alloc, h, s, sol) {
        Ok(parts) => tables_of(alloc, h, bodies, s, sol, mr, parts),
        Err(_) => Err(TooMany::NoMemory),
    }
}
