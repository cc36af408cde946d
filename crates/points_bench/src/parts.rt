// The parts of generated systems.

use dep_form::call_site::CallSite;
use dep_form::rules::{MethodVars, OutsideRule, SiteInfo, Var};
use slicer_ids::ids::{ClassId, NoMemory, SiteId};
use slicer_ids::list::List;
use std::alloc::Global;

/// Variables of a method.
pub const VARIABLES: u32 = 100;

/// Sites of a method.
pub const SITES: u32 = 10;

/// Classes that sites are of.
pub const CLASSES: u32 = 10;

/// The variable of a method, by its number there.
pub fn variable(method: u32, number: u32) -> Var {
    Var(u64::from(method.saturating_mul(VARIABLES).saturating_add(number)))
}

/// Three formals, then what the method answers and throws.
pub fn method_of(alloc: Global, method: u32) -> Result<MethodVars, NoMemory> {
    let formals = vec![in alloc;
        variable(method, 0),
        variable(method, 1),
        variable(method, 2),
    ]?;
    Ok(MethodVars {
        formals: List::from_vec(formals),
        result: Some(variable(method, 3)),
        thrown: variable(method, 4),
        values: List::from_vec(Vec::new(alloc)),
        caught: List::from_vec(Vec::new(alloc)),
        native: false,
    })
}

/// A call with a receiver and two arguments. With a site it is one that goes outside and answers a fresh object.
pub fn call_of(
    alloc: Global,
    arguments: (Var, Var, Var),
    answer: Var,
    exception: Var,
    fresh: Option<SiteId>,
) -> Result<CallSite, NoMemory> {
    let references = vec![in alloc; true, true, true]?;
    let arguments = vec![in alloc; arguments.0, arguments.1, arguments.2]?;
    Ok(CallSite {
        place: None,
        arguments: List::from_vec(arguments),
        references: List::from_vec(references),
        instance: true,
        result: Some(answer),
        exception,
        fresh,
        refused: None,
    })
}

/// What a call that goes outside does: it answers what its receiver's state holds, and writes its arguments into that state.
pub fn outside_rule(alloc: Global) -> Result<OutsideRule, NoMemory> {
    Ok(OutsideRule {
        reads: List::from_vec(vec![in alloc; 0]?),
        written: List::from_vec(vec![in alloc; 1, 2]?),
        states: List::from_vec(vec![in alloc; 0]?),
        arrays: List::from_vec(Vec::new(alloc)),
    })
}

/// A site of one of the classes, by its number.
pub fn site_of(site: u32) -> SiteInfo {
    SiteInfo {
        class: Some(ClassId(site % CLASSES)),
        array: false,
        place: None,
        k: 0,
    }
}
