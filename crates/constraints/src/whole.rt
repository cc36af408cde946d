// The system of a program.
ghost use Rattle.std.specs.Prelude.{◌<◌, ◌≤◌, ◌^◌, length, IfOk, IfErr};
ghost use Rattle.site_tables.specs.Tables.{IsTableOf};
ghost use Rattle.dep_form.specs.declared.system.System.{System};
ghost use Rattle.variable_tables.specs.Statements.{AreFollowed};
ghost use Rattle.constraint_rules.specs.Settings.{AreReady};
ghost use Rattle.signature_tables.specs.declared.wanted.Wanted.TheVariants.{Signatures, ForeignStatics};
ghost use Rattle.constraints.specs.Programs.{HasProgram, AreFew, IsSystemFor, IsTooMany};
ghost use Rattle.constraints.specs.Parts.{IsWithinParts, IsMadeOf};
ghost use Rattle.constraints.specs.Whole.{IsRoot, AreTextsOf, AreTabled, AreTypesOf};

use crate::initializers::initializers;
use crate::limits::{count_fields, few, root_of};
use crate::parts::{Parts, parts_of};
use crate::type_order::types_in_order;
use class_form::body::Body;
use constraint_rules::laws::constraints_are_those_of_statements;
use constraint_rules::tables::Tables;
use dep_form::rules::{Entry, SiteInfo, TooMany};
use dep_form::system::System;
use hierarchy::Hierarchy;
use signature_tables::naming::named;
use signature_tables::texts::Texts;
use signature_tables::type_tables::TypeTables;
use signature_tables::wanted::Wanted;
use site_tables::site_table;
use slicer_ids::ids::{MethodId, NoMemory};
use slicer_ids::list::List;
use std::alloc::Global;
use variable_tables::tables::{VariableTables, variable_tables};

// The system of these parts.
fn system_of(
    parts: Parts,
    variables: VariableTables,
    sites: List<SiteInfo>,
    types: TypeTables,
    fields: u32,
) -> System
    requires { IsWithinParts parts variables sites types fields }
    ensures { IsMadeOf parts variables sites types fields result }
{
    System {
        constraints: List::from_vec(parts.constraints),
        calls: List::from_vec(parts.calls),
        methods: variables.methods,
        sites,
        subclasses: types.subclasses,
        selects: types.selects,
        touches: List::from_vec(parts.touches),
        outside_rules: List::from_vec(parts.rules),
        fields,
        vars: variables.vars,
    }
}

// The parts of the system with these tables.
fn parts_by(
    alloc: Global,
    t: &Tables<'_>,
    bodies: &[Body],
    entries: &[Entry],
    root: MethodId,
    types: &TypeTables,
) -> Result<Parts, NoMemory>
    requires program { HasProgram t.now.h.now bodies.now entries.now }
    requires followed { AreFollowed bodies.now }
    requires root { IsRoot t.now.h.now root }
    requires ready { AreReady t.now }
    requires tables { AreTabled t.now bodies.now }
    requires types { AreTypesOf t.now.h.now bodies.now types.now }
    ensures within { IfOk result (λ parts. IsWithinParts parts t.now.variables.now t.now.sites.now types.now t.now.fields) }
    ensures system { IfOk result (λ parts. (s : System) → IsMadeOf parts t.now.variables.now t.now.sites.now types.now t.now.fields s → IsSystemFor t.now.h.now bodies.now entries.now s) }
{
    constraints_are_those_of_statements();
    parts_of(alloc, t, bodies, entries, root)
}

// The system with these sites, and with the texts of signatures and of static fields that the folder doesn't have.
fn with_texts(
    alloc: Global,
    h: &Hierarchy,
    bodies: &[Body],
    entries: &[Entry],
    root: MethodId,
    sites: List<SiteInfo>,
    signatures: &[Texts<'_>],
    foreign: &[Texts<'_>],
) -> Result<System, NoMemory>
    requires program { HasProgram h.now bodies.now entries.now }
    requires followed { AreFollowed bodies.now }
    requires root { IsRoot h.now root }
    requires sites { IsTableOf h.now bodies.now sites × (length sites ≤ 2 ^ 20) }
    requires signatures { AreTextsOf Signatures h.now bodies.now signatures.now }
    requires foreign { AreTextsOf ForeignStatics h.now bodies.now foreign.now }
    ensures { IfOk result (λ s. IsSystemFor h.now bodies.now entries.now s × AreFew s) }
{
    few(h.classes().len())?;
    let types = types_in_order(alloc, h, signatures)?;
    let variables = variable_tables(alloc, h, foreign.len(), bodies)?;
    few(variables.exceptions.items().len())?;
    let initializers = initializers(alloc, h, root)?;
    let fields = count_fields(h)?;
    let tables = Tables {
        h,
        variables: &variables,
        sites: sites.items(),
        signatures,
        foreign,
        initializers: initializers.as_slice(),
        fields,
    };
    let parts = parts_by(alloc, &tables, bodies, entries, root, &types)?;
    Ok(system_of(parts, variables, sites, types, fields))
}

// The system with these sites.
fn with_sites(
    alloc: Global,
    h: &Hierarchy,
    bodies: &[Body],
    entries: &[Entry],
    root: MethodId,
    sites: List<SiteInfo>,
) -> Result<System, NoMemory>
    requires program { HasProgram h.now bodies.now entries.now }
    requires followed { AreFollowed bodies.now }
    requires root { IsRoot h.now root }
    requires sites { IsTableOf h.now bodies.now sites × (length sites ≤ 2 ^ 20) }
    ensures { IfOk result (λ s. IsSystemFor h.now bodies.now entries.now s × AreFew s) }
{
    let signatures = named(alloc, h, Wanted::Signatures, bodies)?;
    few(signatures.len())?;
    let foreign = named(alloc, h, Wanted::ForeignStatics, bodies)?;
    few(foreign.len())?;
    with_texts(
        alloc,
        h,
        bodies,
        entries,
        root,
        sites,
        signatures.as_slice(),
        foreign.as_slice(),
    )
}

// .. or want of memory.
fn made(
    alloc: Global,
    h: &Hierarchy,
    bodies: &[Body],
    entries: &[Entry],
    root: MethodId,
    sites: List<SiteInfo>,
) -> Result<System, TooMany>
    requires program { HasProgram h.now bodies.now entries.now }
    requires followed { AreFollowed bodies.now }
    requires root { IsRoot h.now root }
    requires sites { IsTableOf h.now bodies.now sites × (length sites ≤ 2 ^ 20) }
    ensures made { IfOk result (IsSystemFor h.now bodies.now entries.now) }
    ensures few { IfOk result AreFew }
    ensures limit { IfErr result (IsTooMany h.now bodies.now) }
{
    match with_sites(alloc, h, bodies, entries, root, sites) {
        Ok(system) => Ok(system),
        Err(_) => Err(TooMany::NoMemory),
    }
}

// The system with this root.
fn with_root(
    alloc: Global,
    h: &Hierarchy,
    bodies: &[Body],
    entries: &[Entry],
    root: MethodId,
) -> Result<System, TooMany>
    requires program { HasProgram h.now bodies.now entries.now }
    requires followed { AreFollowed bodies.now }
    requires root { IsRoot h.now root }
    ensures made { IfOk result (IsSystemFor h.now bodies.now entries.now) }
    ensures few { IfOk result AreFew }
    ensures limit { IfErr result (IsTooMany h.now bodies.now) }
{
    match site_table(alloc, h, bodies) {
        Ok(sites) => made(alloc, h, bodies, entries, root, sites),
        Err(error) => Err(error),
    }
}

/// The system of points-to constraints of a program with these classes, bodies and entry methods: all that its rules say, and the
/// tables that they read.
///
/// `Limit(Methods, n)` is answered exactly where the number n of methods exceeds its limit, `Limit(Sites, n)` where there are not too
/// many methods and the number n of sites exceeds its limit; any other error is want of memory.
///
/// Looks at each reachable instruction a few times, for a logarithmic number of steps for each slot that it uses, each definition
/// that holds there, each handler of its method and each superclass of the class that it needs; and at each pair of a virtual
/// call's name and descriptor with a class.
pub fn constraints(
    alloc: Global,
    h: &Hierarchy,
    bodies: &[Body],
    entries: &[Entry],
) -> Result<System, TooMany>
    requires program { HasProgram h.now bodies.now entries.now }
    requires followed { AreFollowed bodies.now }
    ensures made { IfOk result (IsSystemFor h.now bodies.now entries.now) }
    // Never where there are too many of one.
    ensures few { IfOk result AreFew }
    ensures limit { IfErr result (IsTooMany h.now bodies.now) }
{
    match root_of(h) {
        Ok(root) => with_root(alloc, h, bodies, entries, root),
        Err(error) => Err(error),
    }
}
