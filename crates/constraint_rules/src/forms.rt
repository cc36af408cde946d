// Constraints of each form, of parts that were found or not.
ghost use Rattle.std.specs.Prelude.{◌≡◌, Contains, OnOk};
ghost use Rattle.worklists.specs.Growth.{Grows};
ghost use Rattle.constraint_rules.specs.One.{IsOne, IsFound};
ghost use Rattle.constraint_rules.specs.Forms.{AllocOf, CopyOf, DirectOf, EnterOf, LoadOf, StoreOf};

use dep_form::rules::{Rule, Var};
use slicer_ids::ids::{CallId, ClassId, FieldId, MethodId, NoMemory, SiteId};

/// That a variable may be a site.
pub(crate) fn alloc_of(to: Option<Var>, site: Option<SiteId>) -> Option<Rule>
    ensures { IsOne (AllocOf (IsFound to) (IsFound site)) result }
{
    let Some(to) = to else {
        return None;
    };
    let Some(site) = site else {
        return None;
    };
    Some(Rule::Alloc { to, site })
}

/// That one variable is copied to another.
pub(crate) fn copy_of(from: Option<Var>, to: Option<Var>, keep: Option<ClassId>) -> Option<Rule>
    ensures { IsOne (CopyOf (IsFound from) (IsFound to) keep) result }
{
    let Some(from) = from else {
        return None;
    };
    let Some(to) = to else {
        return None;
    };
    Some(Rule::Copy { from, to, keep })
}

/// That a field is read.
pub(crate) fn load_of(base: Option<Var>, field: Option<FieldId>, to: Option<Var>) -> Option<Rule>
    ensures { IsOne (LoadOf (IsFound base) (IsFound field) (IsFound to)) result }
{
    let Some(base) = base else {
        return None;
    };
    let Some(field) = field else {
        return None;
    };
    let Some(to) = to else {
        return None;
    };
    Some(Rule::Load { base, field, to })
}

/// That a field is written.
pub(crate) fn store_of(base: Option<Var>, field: Option<FieldId>, from: Option<Var>) -> Option<Rule>
    ensures { IsOne (StoreOf (IsFound base) (IsFound field) (IsFound from)) result }
{
    let Some(base) = base else {
        return None;
    };
    let Some(field) = field else {
        return None;
    };
    let Some(from) = from else {
        return None;
    };
    Some(Rule::Store { base, field, from })
}

/// That a call goes to a method.
pub(crate) fn direct_of(call: Option<CallId>, target: Option<MethodId>) -> Option<Rule>
    ensures { IsOne (DirectOf (IsFound call) (IsFound target)) result }
{
    let Some(call) = call else {
        return None;
    };
    let Some(target) = target else {
        return None;
    };
    Some(Rule::Direct { call, target })
}

/// Adds a constraint.
pub(crate) fn push(rules: &mut Vec<Rule>, rule: Rule) -> Result<(), NoMemory>
    ensures { OnOk result (Grows rules.old.items rules.new.items (λ r. r ≡ rule)) }
{
    match rules.push(rule) {
        Ok(()) => Ok(()),
        Err(_) => Err(NoMemory),
    }
}

/// Adds a constraint, where there is one.
pub(crate) fn push_found(rules: &mut Vec<Rule>, rule: Option<Rule>) -> Result<(), NoMemory>
    ensures { OnOk result (Grows rules.old.items rules.new.items (IsFound rule)) }
{
    match rule {
        Some(rule) => push(rules, rule),
        None => Ok(()),
    }
}

// Adds that one variable is copied to another, where that was found.
fn push_copy(
    from: &Var,
    to: Option<Var>,
    keep: Option<ClassId>,
    rules: &mut Vec<Rule>,
) -> Result<(), NoMemory>
    ensures { OnOk result (Grows rules.old.items rules.new.items (CopyOf (λ x. x ≡ from.now) (IsFound to) keep)) }
{
    match to {
        Some(to) => push(
            rules,
            Rule::Copy {
                from: *from,
                to,
                keep,
            },
        ),
        None => Ok(()),
    }
}

/// Adds that some variables are copied to another, where that was found.
pub(crate) fn push_copies(
    froms: &[Var],
    to: Option<Var>,
    keep: Option<ClassId>,
    rules: &mut Vec<Rule>,
) -> Result<(), NoMemory>
    ensures { OnOk result (Grows rules.old.items rules.new.items (CopyOf (Contains froms.now) (IsFound to) keep)) }
{
    for from in froms {
        push_copy(from, to, keep, rules)?;
    }
    Ok(())
}

/// Adds that a method is reached.
pub(crate) fn push_enter(target: MethodId, rules: &mut Vec<Rule>) -> Result<(), NoMemory>
    ensures { OnOk result (Grows rules.old.items rules.new.items (EnterOf (λ m. m ≡ target))) }
{
    push(rules, Rule::Enter { target })
}
