// The parts of a system that are made from its tables.
ghost use Rattle.std.specs.Prelude.{◌≡◌, List, length, IfOk};
ghost use Rattle.dep_form.specs.declared.system.System.{System};
ghost use Rattle.program_form.specs.Programs.{Program};
ghost use Rattle.constraint_form.specs.Variables.{Meaning};
ghost use Rattle.signature_tables.specs.Statements.{HasBodies};
ghost use Rattle.site_tables.specs.Tables.{HasSites};
ghost use Rattle.variable_tables.specs.Statements.{AreFollowed};
ghost use Rattle.constraint_rules.specs.Settings.{IsSetting, AreReady};
ghost use Rattle.constraints.specs.Parts.{ArePartsOf};

use crate::bodies::all_constraints;
use crate::call_sites::{call_sites, outside_rules};
use crate::places::places;
use crate::touches::touches_of;
use class_form::body::Body;
use constraint_rules::tables::Tables;
use dep_form::call_site::CallSite;
use dep_form::rules::{Constraint, Entry, OutsideRule, Touch};
use slicer_ids::ids::{MethodId, NoMemory};
use std::alloc::Global;

/// The constraints, the calls with what each reads and writes outside, and what other statements define and use.
#[derive(Drop)]
pub(crate) struct Parts {
    pub(crate) constraints: Vec<Constraint>,
    pub(crate) calls: Vec<CallSite>,
    pub(crate) rules: Vec<OutsideRule>,
    pub(crate) touches: Vec<Touch>,
}

/// The parts of the system of a program with these tables.
pub(crate) fn parts_of(
    alloc: Global,
    t: &Tables<'_>,
    bodies: &[Body],
    entries: &[Entry],
    root: MethodId,
) -> Result<Parts, NoMemory>
    requires ready { AreReady t.now }
    requires sites { HasSites t.now.sites.now }
    requires program { HasBodies t.now.h.now bodies.now }
    requires followed { AreFollowed bodies.now }
    ensures { IfOk result (λ parts. (p : Program) (s : System) (names : List Meaning) → IsSetting t.now p s names → p.bodies ≡ bodies.now → p.entries ≡ entries.now → root.0 ≡ length p.methods → ArePartsOf p s names t.now.variables.now parts) }
{
    let places = places(alloc, t.h, bodies)?;
    let calls = call_sites(alloc, t, places.as_slice())?;
    let rules = outside_rules(alloc, calls.as_slice())?;
    let constraints = all_constraints(alloc, t, places.as_slice(), entries, root)?;
    let touches = touches_of(alloc, t, places.as_slice())?;
    Ok(Parts {
        constraints,
        calls,
        rules,
        touches,
    })
}
