// Facts in order, as a table.
ghost use Rattle.std.specs.Prelude.{◌≡◌, ◌↔◌, ◌++◌, ◌∷◌, [], ℕ, List, Contains, IfOk, OnOk, AllPairs, map};
ghost use Rattle.class_form.specs.declared.body.Def.{Def};
ghost use Rattle.class_form.specs.Reaches.{AreDefsAt, DefBefore};
ghost use Rattle.slicer_ids.specs.Sets.{IsOrderedListOf};
ghost use Rattle.reaching_defs.specs.Facts.{fact, FactBefore, pair_of, def_of};
ghost use Rattle.reaching_defs.specs.Frames.{place};
ghost use Rattle.reaching_defs.specs.declared.spread.Fact.{Fact};

use crate::spread::Fact;
use class_form::body::Def;
use class_form::reach::Reach;
use slicer_ids::ids::NoMemory;
use slicer_ids::list::List;
use std::alloc::Global;

// The same facts, in order, each once.
fn in_order(facts: Vec<Fact>) -> Result<Vec<Fact>, NoMemory>
    ensures order { IfOk result (λ v. AllPairs FactBefore v.items) }
    ensures members { IfOk result (λ v. (x : Fact) → Contains v.items x ↔ Contains facts.items x) }
{
    let mut all = facts;
    match all.sort() {
        Ok(()) => {}
        Err(_) => return Err(NoMemory),
    }
    all.dedup();
    Ok(all)
}

fn put_place(places: &mut Vec<(u16, u32)>, fact: &Fact) -> Result<(), NoMemory>
    ensures { OnOk result (places.new.items ≡ places.old.items ++ pair_of fact.now ∷ []) }
{
    match places.push((fact.pc, fact.slot)) {
        Ok(()) => Ok(()),
        Err(_) => Err(NoMemory),
    }
}

fn put_def(defs: &mut Vec<Def>, fact: &Fact) -> Result<(), NoMemory>
    ensures { OnOk result (defs.new.items ≡ defs.old.items ++ def_of fact.now ∷ []) }
{
    match defs.push(fact.def) {
        Ok(()) => Ok(()),
        Err(_) => Err(NoMemory),
    }
}

fn places_of(alloc: Global, facts: &[Fact]) -> Result<Vec<(u16, u32)>, NoMemory>
    ensures { IfOk result (λ v. v.items ≡ map pair_of facts.now) }
{
    let Ok(mut places) = Vec::with_capacity(alloc, facts.len()) else {
        return Err(NoMemory);
    };
    for fact in facts {
        put_place(&mut places, fact)?;
    }
    Ok(places)
}

fn defs_of(alloc: Global, facts: &[Fact]) -> Result<Vec<Def>, NoMemory>
    ensures { IfOk result (λ v. v.items ≡ map def_of facts.now) }
{
    let Ok(mut defs) = Vec::with_capacity(alloc, facts.len()) else {
        return Err(NoMemory);
    };
    for fact in facts {
        put_def(&mut defs, fact)?;
    }
    Ok(defs)
}

// The table of facts in order.
fn split(places: Vec<(u16, u32)>, defs: Vec<Def>, facts: &[Fact]) -> Reach
    requires order { AllPairs FactBefore facts.now }
    requires places { places.items ≡ map pair_of facts.now }
    requires defs { defs.items ≡ map def_of facts.now }
    ensures places { result.places ≡ map pair_of facts.now }
    ensures defs { result.defs ≡ map def_of facts.now }
{
    let _count = facts.len();
    Reach {
        places: List::from_vec(places),
        defs: List::from_vec(defs),
    }
}

/// The table of the facts.
pub fn table(alloc: Global, facts: Vec<Fact>) -> Result<Reach, NoMemory>
    ensures { IfOk result (λ r. (pc slot : ℕ) (defs : List Def) → AreDefsAt r pc slot defs → IsOrderedListOf DefBefore defs (λ d. Contains facts.items (fact (place pc slot) d))) }
{
    let all = in_order(facts)?;
    let places = places_of(alloc, all.as_slice())?;
    let defs = defs_of(alloc, all.as_slice())?;
    Ok(split(places, defs, all.as_slice()))
}
