// Facts in a plain list, looked for one after another.

use dep_form::rules::Var;
use dep_form::system::System;
use slicer_ids::ids::{CallId, FieldId, MethodId, NoMemory, SiteId};
use std::alloc::Global;

/// A fact that may follow from a system of constraints. The order is that of a solution.
#[derive(Clone, Copy, PartialEq, Eq, PartialOrd, Ord, Drop)]
pub enum Fact {
    /// The variable may be an object of the site.
    Has(Var, SiteId),
    /// The field of an object may be an object of the site.
    Cell(SiteId, FieldId, SiteId),
    /// The call may go to the method.
    Calls(CallId, MethodId),
    /// The call may go outside, with this receiver or with none.
    OutsideAt(CallId, Option<SiteId>),
    /// The method may run.
    Reached(MethodId),
}

/// What a rule reads: the system, and the facts that were found so far.
#[derive(Drop)]
pub struct Known<'a> {
    pub alloc: Global,
    pub system: &'a System,
    pub facts: &'a [Fact],
}

/// Whether the fact is one of these.
pub fn contains(facts: &[Fact], fact: Fact) -> bool {
    for known in facts {
        if *known == fact {
            return true;
        }
    }
    false
}

/// Adds a fact that isn't there yet.
pub fn add(facts: &mut Vec<Fact>, fact: Fact) -> Result<(), NoMemory> {
    if !contains(facts.as_slice(), fact) {
        facts.push(fact)?;
    }
    Ok(())
}

/// Whether the site is one of these.
pub fn contains_site(sites: &[SiteId], site: SiteId) -> bool {
    for known in sites {
        if *known == site {
            return true;
        }
    }
    false
}

/// Adds a site that isn't there yet.
pub fn add_site(sites: &mut Vec<SiteId>, site: SiteId) -> Result<(), NoMemory> {
    if !contains_site(sites.as_slice(), site) {
        sites.push(site)?;
    }
    Ok(())
}

/// What the variable may be.
pub fn sites_of(known: &Known, of: Var) -> Result<Vec<SiteId>, NoMemory> {
    let mut sites = Vec::new(known.alloc);
    for fact in known.facts {
        if let Fact::Has(variable, site) = *fact {
            if variable == of {
                sites.push(site)?;
            }
        }
    }
    Ok(sites)
}

/// Adds what the field of the object may be.
pub fn add_held(
    known: &Known,
    of: SiteId,
    named: FieldId,
    sites: &mut Vec<SiteId>,
) -> Result<(), NoMemory> {
    for fact in known.facts {
        if let Fact::Cell(object, field, site) = *fact {
            if object == of && field == named {
                add_site(sites, site)?;
            }
        }
    }
    Ok(())
}

/// What one variable may be, another may be.
pub fn flow(known: &Known, from: Var, to: Var, found: &mut Vec<Fact>) -> Result<(), NoMemory> {
    let sites = sites_of(known, from)?;
    for site in sites.as_slice() {
        found.push(Fact::Has(to, *site))?;
    }
    Ok(())
}
