// Constraints of what a statement makes.
ghost use Rattle.std.specs.Prelude.{◌≡◌, ◌⊎◌, ◌↔◌, ◌+◌, ◌<◌, ℕ, suc, List, IsTrue, OnOk};
ghost use Rattle.worklists.specs.Growth.{Grows};
ghost use Rattle.class_form.specs.Opcodes.{IsGetStatic, IsGetField};
ghost use Rattle.dep_form.specs.declared.rules.Rule.TheVariants.{Hold};
ghost use Rattle.dep_form.specs.declared.system.System.{System};
ghost use Rattle.program_form.specs.Programs.{Program};
ghost use Rattle.program_form.specs.Sites.{Made};
ghost use Rattle.program_form.specs.Facts.{IsAllocation};
ghost use Rattle.program_form.specs.Systems.{SiteNumber};
ghost use Rattle.constraint_form.specs.Variables.{Meaning};
ghost use Rattle.constraint_rules.specs.One.{IsOne};
ghost use Rattle.constraint_rules.specs.Settings.{IsSetting, IsPlaced, IsReady, AreReady, place_of};
ghost use Rattle.constraint_rules.specs.Statements.{Allocating, ReadingFresh, Nesting};

use crate::forms::{alloc_of, push};
use crate::naming::names_no_field;
use crate::numbers::{statement_of, value};
use crate::tables::{Reachable, Tables};
use dep_form::rules::Rule;
use site_tables::numbers::{Numbers, numbers_of};
use slicer_ids::ids::{NoMemory, SiteId};

fn allocates(op: u8) -> bool
    ensures { IsTrue result ↔ IsAllocation op }
{
    matches!(op, 18 | 19 | 187..=189 | 197)
}

fn reads_field(op: u8) -> bool
    ensures { IsTrue result ↔ (IsGetStatic op ⊎ IsGetField op) }
{
    op == 178 || op == 180
}

// The first of some numbers.
fn first_of(numbers: Numbers) -> Option<SiteId>
    ensures { IsOne (λ n. (0 < numbers.count) × (n.0 ≡ numbers.first)) result }
{
    if numbers.count == 0 {
        return None;
    }
    Some(SiteId(numbers.first))
}

/// The first site that the statement makes.
pub fn first_site(t: &Tables<'_>, x: &Reachable<'_>) -> Option<SiteId>
    requires { AreReady t.now }
    ensures { (p : Program) (s : System) (names : List Meaning) → IsSetting t.now p s names → IsOne (λ n. SiteNumber p n (Made (place_of x.now) 0)) result }
{
    first_of(numbers_of(t.sites, statement_of(x)))
}

/// That the value of an allocation is its first site.
pub(crate) fn allocating(t: &Tables<'_>, x: &Reachable<'_>) -> Option<Rule>
    requires { IsReady t.now x.now }
    ensures { (p : Program) (s : System) (names : List Meaning) → IsSetting t.now p s names → IsPlaced p x.now → IsOne (Allocating p s names (place_of x.now)) result }
{
    if !allocates(x.instr.op) {
        return None;
    }
    alloc_of(value(t, x), first_site(t, x))
}

/// That a field that isn't found may hold something fresh.
pub(crate) fn reading_fresh(t: &Tables<'_>, x: &Reachable<'_>) -> Option<Rule>
    requires { IsReady t.now x.now }
    ensures { (p : Program) (s : System) (names : List Meaning) → IsSetting t.now p s names → IsPlaced p x.now → IsOne (ReadingFresh p s names (place_of x.now)) result }
{
    if !reads_field(x.instr.op) {
        return None;
    }
    if !names_no_field(t, x) {
        return None;
    }
    alloc_of(value(t, x), first_site(t, x))
}

// Adds that a site holds the one after it.
fn push_hold(first: u32, k: u32, rules: &mut Vec<Rule>) -> Result<(), NoMemory>
    ensures { OnOk result (Grows rules.old.items rules.new.items (λ r. r ≡ Hold (record { 0 = first + k }) (record { 0 = first + suc k }))) }
{
    let Some(outer) = first.checked_add(k) else {
        return Err(NoMemory);
    };
    let Some(inner) = outer.checked_add(1) else {
        return Err(NoMemory);
    };
    push(
        rules,
        Rule::Hold {
            outer: SiteId(outer),
            inner: SiteId(inner),
        },
    )
}

// Adds that each of some sites holds the next one.
fn push_holds(numbers: Numbers, rules: &mut Vec<Rule>) -> Result<(), NoMemory>
    ensures { OnOk result (Grows rules.old.items rules.new.items (λ r. (k : ℕ) × (suc k < numbers.count) × (r ≡ Hold (record { 0 = numbers.first + k }) (record { 0 = numbers.first + suc k })))) }
{
    for k in 0..numbers.count.saturating_sub(1) {
        push_hold(numbers.first, k, rules)?;
    }
    Ok(())
}

/// Adds that each site of a statement holds the next one. Numbers of sites are below 2^32, so that none is wanting.
pub(crate) fn push_nesting(
    t: &Tables<'_>,
    x: &Reachable<'_>,
    rules: &mut Vec<Rule>,
) -> Result<(), NoMemory>
    requires { AreReady t.now }
    ensures { (p : Program) (s : System) (names : List Meaning) → IsSetting t.now p s names → IsPlaced p x.now → OnOk result (Grows rules.old.items rules.new.items (Nesting p s names (place_of x.now))) }
{
    push_holds(numbers_of(t.sites, statement_of(x)), rules)
}
