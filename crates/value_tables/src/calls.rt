// What calls are given, and what they throw.
ghost use Rattle.std.specs.Prelude.{◌≡◌, ◌<◌, All, OnOk, Some, length, slice_get};
ghost use Rattle.worklists.specs.Growth.{FromOne};
ghost use Rattle.dep_form.specs.declared.call_site.CallSite.{CallSite};
ghost use Rattle.mod_ref.specs.Gains.{Gains};
ghost use Rattle.value_tables.specs.Methods.{IsMethod, VarHas};
ghost use Rattle.value_tables.specs.Values.{CallHas, CalledHas};

use crate::method::Method;
use crate::sites::add_var;
use dep_form::call_site::CallSite;
use dep_form::rules::Var;
use method_facts::calls::find_call;
use slicer_ids::ids::{CallId, NoMemory, SiteId, Statement};

fn add_arguments(x: &Method<'_>, sites: &mut Vec<SiteId>, vars: &[Var]) -> Result<(), NoMemory>
    requires method { IsMethod x.now }
    requires vars { All (λ v. v.0 < x.now.system.now.vars) vars.now }
    ensures { OnOk result (Gains sites.old.items sites.new.items (FromOne (VarHas x.now.system.now) vars.now)) }
{
    for var in vars {
        add_var(sites, x.solution, *var)?;
    }
    Ok(())
}

fn call_at(calls: &[CallSite], c: CallId) -> &CallSite
    requires { c.0 < length calls.now }
    ensures { slice_get calls.now c.0 ≡ Some result.now }
{
    &calls[c.0 as usize]
}

fn add_call(x: &Method<'_>, sites: &mut Vec<SiteId>, c: CallId) -> Result<(), NoMemory>
    requires method { IsMethod x.now }
    requires c { c.0 < length x.now.system.now.calls }
    ensures { (k : CallSite) → slice_get x.now.system.now.calls c.0 ≡ Some k → OnOk result (Gains sites.old.items sites.new.items (CallHas x.now.system.now k)) }
{
    let call = call_at(x.system.calls.items(), c);
    add_arguments(x, sites, call.arguments.items())?;
    add_var(sites, x.solution, call.exception)
}

/// Adds what the call at a statement is given and what it throws, where there is a call.
pub fn add_called(x: &Method<'_>, sites: &mut Vec<SiteId>, t: Statement) -> Result<(), NoMemory>
    requires { IsMethod x.now }
    ensures { OnOk result (Gains sites.old.items sites.new.items (CalledHas x.now.system.now t)) }
{
    match find_call(x.system.calls.items(), t) {
        Some(c) => add_call(x, sites, c),
        None => Ok(()),
    }
}
