// The tables of facts.
ghost use Rattle.std.specs.Prelude.{◌≡◌, ◌<◌, ◌≤◌, ◌^◌, All, IfOk, length, map, sum_by};
ghost use Rattle.class_form.specs.ClassRules.{IsClassFile};
ghost use Rattle.class_form.specs.Numbers.{IsNamedClass};
ghost use Rattle.dep_form.specs.Effects.{IsModRefOf};
ghost use Rattle.dep_form.specs.Firsts.{node_count};
ghost use Rattle.dep_form.specs.Solutions.{IsSolutionOf};
ghost use Rattle.program_form.specs.Programs.{Program};
ghost use Rattle.fact_form.specs.EntryCalls.{AreEntryCalls};
ghost use Rattle.fact_form.specs.FactTables.{AreFactTables, AreNodeRows};
ghost use Rattle.fact_form.specs.Handed.{IsProgramWith};
ghost use Rattle.program_facts.specs.Tables.{listed_parts};

use access_tables::access_table;
use class_form::body::Body;
use dep_form::access::Access;
use dep_form::effects::ModRef;
use dep_form::input::MethodInput;
use dep_form::node::Node;
use dep_form::solution::Solution;
use dep_form::system::System;
use dep_form::texts::{MethodText, SiteName};
use exit_lists::exits;
use hierarchy::tree::Hierarchy;
use input_lists::inputs;
use slicer_ids::ids::{ClassId, MethodId, NoMemory, NodeId, SiteId, Statement};
use slicer_ids::list::List;
use slicer_ids::name::Name;
use std::alloc::Global;
use text_tables::{class_names, line_table, method_texts, site_names};
use value_tables::value_table;

/// The lists that facts are made of.
#[derive(Drop)]
pub struct Tables {
    pub inputs: List<Option<MethodInput>>,
    pub exits: List<NodeId>,
    pub classes: List<Name>,
    pub methods: List<MethodText>,
    pub sites: List<SiteName>,
    pub lines: List<(ClassId, u16, List<Statement>)>,
    pub accesses: List<(Statement, Access)>,
    pub values: List<(Statement, List<SiteId>)>,
}

/// The tables of the facts of a program, by the methods that the root calls and the rows of nodes.
pub fn tables_of(
    alloc: Global,
    h: &Hierarchy,
    bodies: &[Body],
    s: &System,
    sol: &Solution,
    mr: &ModRef,
    entries: &[MethodId],
    rows: &[Vec<Node>],
) -> Result<Tables, NoMemory>
    requires program { (p : Program) × IsProgramWith h.now bodies.now s.now p }
    requires named { All IsNamedClass h.now }
    requires files { All IsClassFile h.now }
    requires solved { IsSolutionOf s.now sol.now }
    requires effects { IsModRefOf s.now mr.now }
    requires rows { (p : Program) → IsProgramWith h.now bodies.now s.now p → AreEntryCalls p s.now entries.now × AreNodeRows p s.now mr.now entries.now (map (λ row. row.items) rows.now) }
    requires few { sum_by length (map (λ row. row.items) rows.now) ≤ 2 ^ 24 }
    ensures tables { IfOk result (λ t. (p : Program) → IsProgramWith h.now bodies.now s.now p → AreFactTables p s.now mr.now entries.now (listed_parts t)) }
    ensures few { IfOk result (λ t. node_count t.inputs ≤ 2 ^ 24) }
{
    let inputs = inputs(alloc, h, bodies, s, sol, mr, entries, rows)?;
    let exits = exits(alloc, inputs.items())?;
    let classes = class_names(alloc, h)?;
    let methods = method_texts(alloc, h, bodies, s, sol)?;
    let sites = site_names(alloc, h, bodies, s)?;
    let lines = line_table(alloc, methods.items())?;
    let accesses = access_table(alloc, bodies, s, sol, inputs.items())?;
    let values = value_table(alloc, bodies, s, sol)?;
    Ok(Tables {
        inputs,
        exits,
        classes,
        methods,
        sites,
        lines,
        accesses,
        values,
    })
}
