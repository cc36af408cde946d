// Constraints of the root.
ghost use Rattle.std.specs.Prelude.{◌≡◌, List, OnOk};
ghost use Rattle.worklists.specs.Growth.{Grows};
ghost use Rattle.dep_form.specs.declared.system.System.{System};
ghost use Rattle.program_form.specs.Programs.{Program};
ghost use Rattle.constraint_form.specs.Variables.{Meaning};
ghost use Rattle.site_tables.specs.Tables.{HasSites};
ghost use Rattle.program_form.specs.Sites.{OfRoot};
ghost use Rattle.program_form.specs.Systems.{SiteNumber};
ghost use Rattle.constraint_rules.specs.One.{IsOne};
ghost use Rattle.constraint_rules.specs.Entries.{IsGiven, IsEntryRule};
ghost use Rattle.constraint_rules.specs.Settings.{IsSetting, AreReady};
ghost use Rattle.constraint_rules.specs.Statements.{IsRootRule};

use crate::calls::class_of;
use crate::classes::push_initializers;
use crate::forms::{alloc_of, push, push_found};
use crate::tables::Tables;
use dep_form::rules::{Entry, Rule};
use site_tables::numbers::root_numbers;
use slicer_ids::ids::{NoMemory, SiteId};
use std::alloc::Global;

// That an entry method is given the array of arguments.
fn giving(t: &Tables<'_>, entry: &Entry, array: SiteId) -> Option<Rule>
    requires { AreReady t.now }
    ensures { (p : Program) (s : System) (names : List Meaning) → IsSetting t.now p s names → SiteNumber p array (OfRoot 0) → IsOne (IsGiven p s entry.now) result }
{
    if !entry.arguments {
        return None;
    }
    alloc_of(t.variables.argument_of(entry.method, 0), Some(array))
}

// Adds the constraints of an entry method.
fn push_entry(
    alloc: Global,
    t: &Tables<'_>,
    entry: &Entry,
    array: SiteId,
    rules: &mut Vec<Rule>,
) -> Result<(), NoMemory>
    requires { AreReady t.now }
    ensures { (p : Program) (s : System) (names : List Meaning) → IsSetting t.now p s names → SiteNumber p array (OfRoot 0) → OnOk result (Grows rules.old.items rules.new.items (IsEntryRule p s entry.now)) }
{
    push(
        rules,
        Rule::Enter {
            target: entry.method,
        },
    )?;
    push_found(rules, giving(t, entry, array))?;
    push_initializers(alloc, t, class_of(t.h, entry.method), rules)
}

/// Adds the constraints of the root, which calls the entry methods with an array of strings.
pub fn push_root(
    alloc: Global,
    t: &Tables<'_>,
    entries: &[Entry],
    rules: &mut Vec<Rule>,
) -> Result<(), NoMemory>
    requires ready { AreReady t.now }
    requires sites { HasSites t.now.sites.now }
    ensures { (p : Program) (s : System) (names : List Meaning) → IsSetting t.now p s names → p.entries ≡ entries.now → OnOk result (Grows rules.old.items rules.new.items (IsRootRule p s)) }
{
    let (array, element) = root_numbers(t.sites);
    push(
        rules,
        Rule::Hold {
            outer: array,
            inner: element,
        },
    )?;
    for entry in entries {
        push_entry(alloc, t, entry, array, rules)?;
    }
    Ok(())
}
