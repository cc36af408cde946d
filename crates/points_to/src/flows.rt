// What flows between variables that may be there or not.
ghost use Rattle.std.specs.Prelude.{Some, OnOk};
ghost use Rattle.dep_form.specs.declared.system.System.{System};
ghost use Rattle.points_to.specs.declared.place.Place.TheVariants.{Variable};
ghost use Rattle.points_to.specs.Items.{Adds, IfSome};
ghost use Rattle.points_to.specs.Rules.{FlowsSome};
ghost use Rattle.points_to.specs.States.{Moves, IsShape};

use crate::found::Found;
use crate::place::Place;
use crate::steps::{flow, give};
use dep_form::rules::Var;
use slicer_ids::ids::NoMemory;
use std::alloc::Global;

fn flow_to_some(
    alloc: Global,
    found: &mut Found,
    from: Var,
    to: Option<Var>,
    force: bool,
) -> Result<(), NoMemory>
    requires { IsShape found.old }
    ensures shape { OnOk result (IsShape found.new) }
    ensures moved { OnOk result ((s : System) → Moves s found.old found.new (FlowsSome (Some from) to)) }
{
    match to {
        None => Ok(()),
        Some(to) => flow(
            alloc,
            found,
            Place::Variable(from),
            Place::Variable(to),
            force,
        ),
    }
}

/// Adds what a variable may be to another, where there are both.
pub fn flow_some(
    alloc: Global,
    found: &mut Found,
    from: Option<Var>,
    to: Option<Var>,
    force: bool,
) -> Result<(), NoMemory>
    requires { IsShape found.old }
    ensures shape { OnOk result (IsShape found.new) }
    ensures moved { OnOk result ((s : System) → Moves s found.old found.new (FlowsSome from to)) }
{
    match from {
        None => Ok(()),
        Some(from) => flow_to_some(alloc, found, from, to, force),
    }
}

/// Adds a number to a variable, where there is one.
pub fn give_some(
    alloc: Global,
    found: &mut Found,
    to: Option<Var>,
    number: u32,
) -> Result<(), NoMemory>
    requires { IsShape found.old }
    ensures shape { OnOk result (IsShape found.new) }
    ensures moved { OnOk result ((s : System) → Moves s found.old found.new (IfSome (λ v. Adds (Variable v) number) to)) }
{
    match to {
        None => Ok(()),
        Some(v) => give(alloc, found, Place::Variable(v), number),
    }
}
