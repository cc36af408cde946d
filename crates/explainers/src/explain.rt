// What two accesses have in common, and how each comes to it.
ghost use Rattle.std.specs.Prelude.{◌≡◌, ◌↔◌, ◌++◌, ◌∷◌, [], AllPairs, Contains, IfOk, IsTrue, MatchOption, OnOk};
ghost use Rattle.slicer_ids.specs.declared.ids.Statement.{Statement};
ghost use Rattle.slicer_ids.specs.Sets.{IsOrderedListOf};
ghost use Rattle.slicer_ids.specs.Order.{SiteBefore, StatementBefore};
ghost use Rattle.dep_form.specs.declared.access.Access.{Access};
ghost use Rattle.dep_form.specs.Slices.{Slice, Nothing, StatementsOf};
ghost use Rattle.dep_form.specs.LookUps.{IsAccessAt};
ghost use Rattle.dep_form.specs.Explaining.{Brings, IsExplanation};
ghost use Rattle.explainers.specs.Bringing.{HasOneOf, IsKept};

use crate::sites::{is_any_in, shared};
use dep_form::access::{Access, Explanation};
use dep_form::facts::Facts;
use slicer_ids::ids::{NoMemory, SiteId, Statement};
use slicer_ids::list::List;
use std::alloc::Global;

/// What the facts say of an access; none exactly where the statement is no access. It takes no memory.
pub fn accesses(f: &Facts, s: Statement) -> Option<&Access>
    ensures { MatchOption result ((a : Access) → IsAccessAt f.now s a → ⊥) (λ a. IsAccessAt f.now s a.now) }
{
    f.access(s)
}

// Whether the value of the statement may be one of the objects.
fn has_one_of(f: &Facts, objects: &[SiteId], s: Statement) -> bool
    requires { AllPairs SiteBefore objects.now }
    ensures { IsTrue result ↔ HasOneOf f.now objects.now s }
{
    let sites = f.value_sites(s);
    is_any_in(objects, sites)
}

fn push_statement(kept: &mut Vec<Statement>, s: Statement) -> Result<(), NoMemory>
    ensures { OnOk result (kept.new.items ≡ kept.old.items ++ s ∷ []) }
{
    match kept.push(s) {
        Ok(()) => Ok(()),
        Err(_) => Err(NoMemory),
    }
}

// Adds a statement whose value may be one of the objects.
fn keep_statement(
    f: &Facts,
    objects: &[SiteId],
    kept: &mut Vec<Statement>,
    s: Statement,
) -> Result<(), NoMemory>
    requires { AllPairs SiteBefore objects.now }
    ensures { OnOk result (IsKept (HasOneOf f.now objects.now) s kept.old.items kept.new.items) }
{
    let holds = has_one_of(f, objects, s);
    if holds {
        push_statement(kept, s)
    } else {
        Ok(())
    }
}

// The statements whose value may be one of the objects, in order.
fn keep_statements(
    alloc: Global,
    f: &Facts,
    objects: &[SiteId],
    slice: &[Statement],
) -> Result<Vec<Statement>, NoMemory>
    requires objects { AllPairs SiteBefore objects.now }
    requires slice { AllPairs StatementBefore slice.now }
    ensures { IfOk result (λ v. IsOrderedListOf StatementBefore v.items (λ s. Contains slice.now s × HasOneOf f.now objects.now s)) }
{
    let mut kept = Vec::new(alloc);
    for s in slice {
        keep_statement(f, objects, &mut kept, *s)?;
    }
    Ok(kept)
}

// .. where the statements are those of the thin slice of what produces the access's object.
fn bringing(
    alloc: Global,
    f: &Facts,
    a: &Access,
    objects: &[SiteId],
    slice: &[Statement],
) -> Result<List<Statement>, NoMemory>
    requires objects { AllPairs SiteBefore objects.now }
    requires slice { IsOrderedListOf StatementBefore slice.now (StatementsOf f.now.inputs (Slice f.now.inputs Nothing (Contains a.now.object))) }
    ensures { IfOk result (λ v. IsOrderedListOf StatementBefore v (Brings f.now a.now objects.now)) }
{
    let kept = keep_statements(alloc, f, objects, slice)?;
    Ok(List::from_vec(kept))
}

/// The sites that both accesses' objects may be, in order; and the statements of the thin slices, with no access expanded, of what
/// produces the one and the other object, whose value may be one of these sites. The slices are handed in, in order.
///
/// For n sites and statements, and the sites of the statements' values, it takes time n log n.
pub fn explain(
    alloc: Global,
    f: &Facts,
    a: &Access,
    b: &Access,
    slice_a: &[Statement],
    slice_b: &[Statement],
) -> Result<Explanation, NoMemory>
    requires left { IsOrderedListOf StatementBefore slice_a.now (StatementsOf f.now.inputs (Slice f.now.inputs Nothing (Contains a.now.object))) }
    requires right { IsOrderedListOf StatementBefore slice_b.now (StatementsOf f.now.inputs (Slice f.now.inputs Nothing (Contains b.now.object))) }
    ensures { IfOk result (IsExplanation f.now a.now b.now) }
{
    let objects = shared(alloc, a.sites.items(), b.sites.items())?;
    let left = bringing(alloc, f, a, &objects, slice_a)?;
    let right = bringing(alloc, f, b, &objects, slice_b)?;
    Ok(Explanation {
        objects: List::from_vec(objects),
        left,
        right,
    })
}
