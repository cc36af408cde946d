// The rules of constraints, one function each.

use crate::facts::{Fact, Known, add_held, contains, sites_of};
use crate::outside::elements_field;
use crate::selection::{direct_call, outside_call, virtual_call};
use dep_form::rules::{Constraint, Rule, Var};
use dep_form::system::System;
use slicer_ids::ids::{ClassId, FieldId, MethodId, NoMemory, SiteId};

// The root's constraints are in force, and those of methods that are reached.
fn is_in_force(known: &Known, method: MethodId) -> bool {
    let root = known.system.methods.items().len();
    method.0 as usize == root || contains(known.facts, Fact::Reached(method))
}

fn is_subclass(system: &System, class: ClassId, above: ClassId) -> bool {
    for pair in system.subclasses.items() {
        if pair.0 == class && pair.1 == above {
            return true;
        }
    }
    false
}

fn is_kept(system: &System, class: Option<ClassId>, above: ClassId) -> bool {
    match class {
        None => true,
        Some(class) => is_subclass(system, class, above),
    }
}

fn passes_class(system: &System, keep: ClassId, site: SiteId) -> bool {
    match system.sites.items().get(site.0 as usize) {
        None => false,
        Some(info) => !info.array && is_kept(system, info.class, keep),
    }
}

// A class to keep passes objects of classes outside and of its subclasses, and no array.
fn passes(system: &System, keep: Option<ClassId>, site: SiteId) -> bool {
    match keep {
        None => true,
        Some(keep) => passes_class(system, keep, site),
    }
}

fn copy(
    known: &Known,
    from: Var,
    to: Var,
    keep: Option<ClassId>,
    found: &mut Vec<Fact>,
) -> Result<(), NoMemory> {
    let sites = sites_of(known, from)?;
    for site in sites.as_slice() {
        if passes(known.system, keep, *site) {
            found.push(Fact::Has(to, *site))?;
        }
    }
    Ok(())
}

// What the field of any of the objects may be.
fn fields_of(known: &Known, objects: &[SiteId], field: FieldId) -> Result<Vec<SiteId>, NoMemory> {
    let mut sites = Vec::new(known.alloc);
    for object in objects {
        add_held(known, *object, field, &mut sites)?;
    }
    Ok(sites)
}

fn load(
    known: &Known,
    base: Var,
    field: FieldId,
    to: Var,
    found: &mut Vec<Fact>,
) -> Result<(), NoMemory> {
    let objects = sites_of(known, base)?;
    let sites = fields_of(known, objects.as_slice(), field)?;
    for site in sites.as_slice() {
        found.push(Fact::Has(to, *site))?;
    }
    Ok(())
}

fn store_into(
    object: SiteId,
    field: FieldId,
    sites: &[SiteId],
    found: &mut Vec<Fact>,
) -> Result<(), NoMemory> {
    for site in sites {
        found.push(Fact::Cell(object, field, *site))?;
    }
    Ok(())
}

fn store(
    known: &Known,
    base: Var,
    field: FieldId,
    from: Var,
    found: &mut Vec<Fact>,
) -> Result<(), NoMemory> {
    let objects = sites_of(known, base)?;
    let sites = sites_of(known, from)?;
    for object in objects.as_slice() {
        store_into(*object, field, sites.as_slice(), found)?;
    }
    Ok(())
}

fn say(fact: Fact, found: &mut Vec<Fact>) -> Result<(), NoMemory> {
    found.push(fact)?;
    Ok(())
}

fn by_rule(known: &Known, rule: Rule, found: &mut Vec<Fact>) -> Result<(), NoMemory> {
    match rule {
        Rule::Enter { target } => say(Fact::Reached(target), found),
        Rule::Alloc { to, site } => say(Fact::Has(to, site), found),
        Rule::Hold { outer, inner } => {
            say(
                Fact::Cell(outer, elements_field(known.system), inner),
                found,
            )
        }
        Rule::Copy { from, to, keep } => copy(known, from, to, keep, found),
        Rule::Load { base, field, to } => load(known, base, field, to, found),
        Rule::Store { base, field, from } => store(known, base, field, from, found),
        Rule::Direct { call, target } => direct_call(known, call, target, found),
        Rule::Virtual { call, signature } => virtual_call(known, call, signature, found),
        Rule::OutsideDirect { call } => outside_call(known, call, found),
    }
}

fn by_constraint(
    known: &Known,
    constraint: Constraint,
    found: &mut Vec<Fact>,
) -> Result<(), NoMemory> {
    if is_in_force(known, constraint.method) {
        by_rule(known, constraint.rule, found)?;
    }
    Ok(())
}

/// Adds what follows by a constraint that is in force.
pub fn by_constraints(known: &Known, found: &mut Vec<Fact>) -> Result<(), NoMemory> {
    for constraint in known.system.constraints.items() {
        by_constraint(known, *constraint, found)?;
    }
    Ok(())
}
