// Facts of their tables.
ghost use Rattle.std.specs.Prelude.{◌≡◌, ◌<◌, ◌≤◌, ◌^◌, true, List, All, IfErr, IfOk, length, map};
ghost use Rattle.class_form.specs.ClassRules.{IsClassFile};
ghost use Rattle.class_form.specs.Numbers.{IsNamedClass};
ghost use Rattle.dep_form.specs.Effects.{IsModRefOf};
ghost use Rattle.dep_form.specs.Firsts.{node_count};
ghost use Rattle.dep_form.specs.Solutions.{IsSolutionOf};
ghost use Rattle.slicer_ids.specs.declared.ids.MethodId.{MethodId};
ghost use Rattle.program_form.specs.Graphs.{AreFactsOf, Numbering};
ghost use Rattle.program_form.specs.Programs.{Program};
ghost use Rattle.fact_form.specs.EntryCalls.{AreEntryCalls};
ghost use Rattle.fact_form.specs.FactLimits.{IsTooMany, IsWithinLimits};
ghost use Rattle.fact_form.specs.FactTables.{AreFactTables, AreFewParts, AreNodeRows, IsFactSystem, parts_of};
ghost use Rattle.fact_form.specs.Handed.{IsProgramWith};
ghost use Rattle.program_facts.specs.Tables.{listed_parts};

use crate::tables::{Tables, tables_of};
use class_form::body::Body;
use dep_form::effects::ModRef;
use dep_form::facts::Facts;
use dep_form::rules::TooMany;
use dep_form::solution::Solution;
use dep_form::system::System;
use fact_form::laws::{rows_count_the_nodes, tables_are_the_facts, tables_keep_what_facts_keep};
use hierarchy::tree::Hierarchy;
use node_tables::{NodeTables, node_tables};
use slicer_ids::ids::NoMemory;
use std::alloc::Global;

// Whether methods, exits and classes have numbers of 32 bits.
fn are_few(t: &Tables) -> bool
    ensures methods { result ≡ true → length t.now.inputs < 2 ^ 32 }
    ensures exits { result ≡ true → length t.now.exits < 2 ^ 32 }
    ensures classes { result ≡ true → length t.now.classes < 2 ^ 32 }
{
    let methods = t.inputs.items().len();
    let exits = t.exits.items().len();
    let classes = t.classes.items().len();
    methods < 0x1_0000_0000 && exits < 0x1_0000_0000 && classes < 0x1_0000_0000
}

// Facts of tables.
fn made(
    alloc: Global,
    h: &Hierarchy,
    bodies: &[Body],
    s: &System,
    mr: &ModRef,
    t: Tables,
) -> Result<Facts, NoMemory>
    requires program { (p : Program) × (entries : List MethodId) × IsProgramWith h.now bodies.now s.now p × AreFactTables p s.now mr.now entries (listed_parts t) }
    requires effects { IsModRefOf s.now mr.now }
    requires nodes { node_count t.inputs ≤ 2 ^ 24 }
    ensures { IfOk result (λ f. parts_of f ≡ listed_parts t) }
{
    tables_keep_what_facts_keep();
    if !are_few(&t) {
        return Err(NoMemory);
    }
    let Tables {
        inputs,
        exits,
        classes,
        methods,
        sites,
        lines,
        accesses,
        values,
    } = t;
    Facts::new(
        alloc, inputs, exits, classes, methods, sites, lines, accesses, values,
    )
}

// Facts of a program, by its nodes.
fn facts_of(
    alloc: Global,
    h: &Hierarchy,
    bodies: &[Body],
    s: &System,
    sol: &Solution,
    mr: &ModRef,
    nodes: NodeTables,
) -> Result<Facts, NoMemory>
    requires program { (p : Program) × IsProgramWith h.now bodies.now s.now p }
    requires named { All IsNamedClass h.now }
    requires files { All IsClassFile h.now }
    requires solved { IsSolutionOf s.now sol.now }
    requires effects { IsModRefOf s.now mr.now }
    requires rows { (p : Program) → IsProgramWith h.now bodies.now s.now p → AreEntryCalls p s.now nodes.entries.items × AreNodeRows p s.now mr.now nodes.entries.items (map (λ row. row.items) nodes.rows.items) }
    requires within { (p : Program) → IsProgramWith h.now bodies.now s.now p → IsWithinLimits p }
    ensures { IfOk result (λ f. (p : Program) → IsProgramWith h.now bodies.now s.now p → IsFactSystem p s.now mr.now f) }
{
    rows_count_the_nodes();
    let tables = tables_of(
        alloc,
        h,
        bodies,
        s,
        sol,
        mr,
        nodes.entries.as_slice(),
        nodes.rows.as_slice(),
    )?;
    made(alloc, h, bodies, s, mr, tables)
}

/// The facts of a program: the inputs of the graphs of its methods and of the root, with nodes numbered method by method; the exits; the
/// heap accesses, with what produces their objects and arrays and what these may be; what the value of each statement may be; and the
/// names, lines and sites that commands and replies speak of.
///
/// `Limit(Nodes, n)`, and else `Limit(MemoWords, n)`, is answered exactly where there are more than 2^24 nodes, or where the rows of the
/// summaries of its exits take more than 2^25 words of 64 bits, with their number n; both are tried before any node is kept. Any other
/// error is want of memory, which a program whose numbers don't have 32 bits has too.
///
/// For each edge, use and value it takes a logarithmic number of steps. A node takes 12 bytes, an edge 16, a use 12, a step of control 8,
/// and a statement 8 for each table that lists it.
pub fn facts(
    alloc: Global,
    h: &Hierarchy,
    bodies: &[Body],
    s: &System,
    sol: &Solution,
    mr: &ModRef,
) -> Result<Facts, TooMany>
    requires program { (p : Program) × IsProgramWith h.now bodies.now s.now p }
    requires named { All IsNamedClass h.now }
    requires files { All IsClassFile h.now }
    requires solved { IsSolutionOf s.now sol.now }
    requires effects { IsModRefOf s.now mr.now }
    ensures tables { IfOk result (λ f. (p : Program) → IsProgramWith h.now bodies.now s.now p → IsFactSystem p s.now mr.now f) }
    ensures facts { IfOk result (λ f. (p : Program) → IsProgramWith h.now bodies.now s.now p → (ns : Numbering) × AreFactsOf p ns f) }
    ensures within { IfOk result (λ f. (p : Program) → IsProgramWith h.now bodies.now s.now p → IsWithinLimits p) }
    ensures limit { IfErr result (λ e. (p : Program) → IsProgramWith h.now bodies.now s.now p → IsTooMany p e) }
{
    tables_are_the_facts();
    match node_tables(alloc, h, bodies, s, sol, mr) {
        Err(e) => Err(e),
        Ok(nodes) => match facts_of(alloc, h, bodies, s, sol, mr, nodes) {
            Ok(f) => Ok(f),
            Err(_) => Err(TooMany::NoMemory),
        },
    }
}
