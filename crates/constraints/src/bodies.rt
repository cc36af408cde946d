// The constraints of bodies, and of the root.
ghost use Rattle.std.specs.Prelude.{◌≡◌, ◌↔◌, List, All, Contains, length, IfOk, OnOk};
ghost use Rattle.slicer_ids.specs.Sets.{IsOrderedListOf};
ghost use Rattle.worklists.specs.Growth.{FromOne};
ghost use Rattle.dep_form.specs.declared.rules.Rule.{Rule};
ghost use Rattle.dep_form.specs.declared.system.System.{System};
ghost use Rattle.program_form.specs.Programs.{Program};
ghost use Rattle.constraint_form.specs.Variables.{Meaning};
ghost use Rattle.site_tables.specs.Tables.{HasSites};
ghost use Rattle.variable_tables.specs.Growth.{GrowsInOrder};
ghost use Rattle.constraint_rules.specs.Settings.{IsSetting, IsPlaced, IsReady, AreReady, place_of};
ghost use Rattle.constraint_rules.specs.Statements.{IsRuleAt, IsRootRule, IsRuleOf};
ghost use Rattle.constraints.specs.Places.{AreInOrder};
ghost use Rattle.constraints.specs.Bodies.{MethodRises, IsOneOf, IsConstraintAt, AreAllPlaces};

use constraint_rules::root::push_root;
use constraint_rules::statement::push_rules;
use constraint_rules::tables::{Reachable, Tables};
use dep_form::rules::{Constraint, Entry, Rule};
use slicer_ids::ids::{MethodId, NoMemory};
use std::alloc::Global;

// Adds rules as constraints that are in force where a method is reached.
fn push_constraints(
    method: MethodId,
    rules: &[Rule],
    constraints: &mut Vec<Constraint>,
) -> Result<(), NoMemory>
    ensures { OnOk result (GrowsInOrder MethodRises constraints.old.items constraints.new.items (IsOneOf method rules.now)) }
{
    for rule in rules {
        constraints.push(Constraint {
            method,
            rule: *rule,
        })?;
    }
    Ok(())
}

// What an instruction says.
fn rules_of(alloc: Global, t: &Tables<'_>, x: &Reachable<'_>) -> Result<Vec<Rule>, NoMemory>
    requires { IsReady t.now x.now }
    ensures { IfOk result (λ rules. (p : Program) (s : System) (names : List Meaning) → IsSetting t.now p s names → IsPlaced p x.now → (r : Rule) → Contains rules.items r ↔ IsRuleAt p s names (place_of x.now) r) }
{
    let mut rules = Vec::new(alloc);
    push_rules(alloc, t, x, &mut rules)?;
    Ok(rules)
}

// Adds the constraints of an instruction.
fn push_place(
    alloc: Global,
    t: &Tables<'_>,
    x: &Reachable<'_>,
    constraints: &mut Vec<Constraint>,
) -> Result<(), NoMemory>
    requires { IsReady t.now x.now }
    ensures { (p : Program) (s : System) (names : List Meaning) → IsSetting t.now p s names → IsPlaced p x.now → OnOk result (GrowsInOrder MethodRises constraints.old.items constraints.new.items (IsConstraintAt p s names x.now)) }
{
    let rules = rules_of(alloc, t, x)?;
    push_constraints(x.body.method, rules.as_slice(), constraints)
}

// The constraints of instructions, in order of their methods.
fn of_places(
    alloc: Global,
    t: &Tables<'_>,
    places: &[Reachable<'_>],
) -> Result<Vec<Constraint>, NoMemory>
    requires ready { AreReady t.now }
    requires places { AreInOrder places.now }
    ensures { IfOk result (λ cs. (p : Program) (s : System) (names : List Meaning) → IsSetting t.now p s names → All (IsPlaced p) places.now → IsOrderedListOf MethodRises cs.items (FromOne (IsConstraintAt p s names) places.now)) }
{
    let mut constraints = Vec::new(alloc);
    for x in places {
        push_place(alloc, t, x, &mut constraints)?;
    }
    Ok(constraints)
}

// What the root says.
fn root_rules(alloc: Global, t: &Tables<'_>, entries: &[Entry]) -> Result<Vec<Rule>, NoMemory>
    requires ready { AreReady t.now }
    requires sites { HasSites t.now.sites.now }
    ensures { IfOk result (λ rules. (p : Program) (s : System) (names : List Meaning) → IsSetting t.now p s names → p.entries ≡ entries.now → (r : Rule) → Contains rules.items r ↔ IsRootRule p s r) }
{
    let mut rules = Vec::new(alloc);
    push_root(alloc, t, entries, &mut rules)?;
    Ok(rules)
}

/// All constraints, the root's last.
pub(crate) fn all_constraints(
    alloc: Global,
    t: &Tables<'_>,
    places: &[Reachable<'_>],
    entries: &[Entry],
    root: MethodId,
) -> Result<Vec<Constraint>, NoMemory>
    requires ready { AreReady t.now }
    requires sites { HasSites t.now.sites.now }
    requires places { AreInOrder places.now }
    ensures { IfOk result (λ cs. (p : Program) (s : System) (names : List Meaning) → IsSetting t.now p s names → AreAllPlaces p places.now → p.entries ≡ entries.now → root.0 ≡ length p.methods → IsOrderedListOf MethodRises cs.items (λ c. IsRuleOf p s names c.method c.rule)) }
{
    let mut constraints = of_places(alloc, t, places)?;
    let rules = root_rules(alloc, t, entries)?;
    push_constraints(root, rules.as_slice(), &mut constraints)?;
    Ok(constraints)
}
