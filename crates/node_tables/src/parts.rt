// What nodes are read from, beside what is given.
ghost use Rattle.std.specs.Prelude.{◌≡◌, ◌<◌, ◌^◌, ◌↔◌, ◌++◌, ◌∷◌, [], IfOk, IsTrue, OnOk, Contains, Some, length, slice_get};
ghost use Rattle.dep_form.specs.declared.rules.Var.{Var};
ghost use Rattle.dep_form.specs.Orders.{RiseBy};
ghost use Rattle.dep_form.specs.Solutions.{IsSolutionOf};
ghost use Rattle.fact_form.specs.EntryCalls.{IsGiven};
ghost use Rattle.mod_ref.specs.Direct.{IsSmall};
ghost use Rattle.method_facts.specs.Entering.{IsGivenVariable};
ghost use Rattle.method_facts.specs.Numbers.{var_cmp};
ghost use Rattle.node_tables.specs.Parts.{AreAnswers, AreEntries, AreGiven};

use dep_form::rules::Var;
use dep_form::solution::Solution;
use dep_form::system::System;
use hierarchy::tree::Hierarchy;
use method_facts::entries::entry_calls;
use method_facts::given::{given_variables, is_given};
use method_facts::names::is_answering;
use slicer_ids::ids::{MethodId, NoMemory};
use std::alloc::Global;

/// Which methods have a result; the methods that the root calls, in order, and to which of these it gives their first argument.
#[derive(Drop)]
pub struct Parts {
    pub answering: Vec<bool>,
    pub entries: Vec<MethodId>,
    pub given: Vec<bool>,
}

fn push(flags: &mut Vec<bool>, flag: bool) -> Result<(), NoMemory>
    ensures { OnOk result (flags.new.items ≡ flags.old.items ++ flag ∷ []) }
{
    match flags.push(flag) {
        Ok(()) => Ok(()),
        Err(_) => Err(NoMemory),
    }
}

fn answering(alloc: Global, h: &Hierarchy, count: usize) -> Result<Vec<bool>, NoMemory>
    requires { count < 2 ^ 32 }
    ensures { IfOk result (λ v. AreAnswers h.now v.items count) }
{
    let mut flags = Vec::new(alloc);
    for m in 0..count {
        push(&mut flags, is_answering(h, MethodId(m as u32)))?;
    }
    Ok(flags)
}

fn entry_at(entries: &[MethodId], k: usize) -> MethodId
    requires { k < length entries.now }
    ensures { slice_get entries.now k ≡ Some result }
{
    entries[k]
}

fn given_flags(
    alloc: Global,
    s: &System,
    variables: &[Var],
    entries: &[MethodId],
) -> Result<Vec<bool>, NoMemory>
    requires order { RiseBy var_cmp (λ x. x) variables.now }
    requires members { (x : Var) → Contains variables.now x ↔ IsGivenVariable s.now x }
    ensures { IfOk result (λ v. AreGiven s.now entries.now v.items (length entries.now)) }
{
    let mut flags = Vec::new(alloc);
    for k in 0..entries.len() {
        push(&mut flags, is_given(s, variables, entry_at(entries, k)))?;
    }
    Ok(flags)
}

fn given(alloc: Global, s: &System, entries: &[MethodId]) -> Result<Vec<bool>, NoMemory>
    requires { length s.now.methods < 2 ^ 32 }
    ensures { IfOk result (λ v. AreGiven s.now entries.now v.items (length entries.now)) }
{
    let variables = given_variables(alloc, s)?;
    given_flags(alloc, s, variables.as_slice(), entries)
}

/// The parts of a program. It goes once over the constraints and the methods.
pub fn gather(alloc: Global, h: &Hierarchy, s: &System, sol: &Solution) -> Result<Parts, NoMemory>
    requires solved { IsSolutionOf s.now sol.now }
    requires small { IsSmall s.now }
    ensures answering { IfOk result (λ t. AreAnswers h.now t.answering.items (length s.now.methods)) }
    ensures entries { IfOk result (λ t. AreEntries s.now h.now t.entries.items) }
    ensures given { IfOk result (λ t. AreGiven s.now t.entries.items t.given.items (length t.entries.items)) }
{
    let answering = answering(alloc, h, s.methods.items().len())?;
    let entries = entry_calls(alloc, h, s, sol)?;
    let given = given(alloc, s, entries.as_slice())?;
    Ok(Parts {
        answering,
        entries,
        given,
    })
}
