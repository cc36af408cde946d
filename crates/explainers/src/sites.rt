// The sites of two lists.
ghost use Rattle.std.specs.Prelude.{◌≡◌, ◌↔◌, AllPairs, Contains, IfOk, IsTrue, OnOk};
ghost use Rattle.slicer_ids.specs.declared.ids.SiteId.{SiteId};
ghost use Rattle.slicer_ids.specs.Sets.{IsOrderedListOf};
ghost use Rattle.slicer_ids.specs.Order.{SiteBefore};
ghost use Rattle.worklists.specs.Growth.{Grows, FromOne};
ghost use Rattle.explainers.specs.Bringing.{IsOneIn};

use slicer_ids::ids::{NoMemory, SiteId};
use std::alloc::Global;

// The same sites, in order, each once.
fn in_order(sites: Vec<SiteId>) -> Result<Vec<SiteId>, NoMemory>
    ensures order { IfOk result (λ v. AllPairs SiteBefore v.items) }
    ensures members { IfOk result (λ v. (h : SiteId) → Contains v.items h ↔ Contains sites.items h) }
{
    let mut all = sites;
    match all.sort() {
        Ok(()) => {}
        Err(_) => return Err(NoMemory),
    }
    all.dedup();
    Ok(all)
}

/// Whether a site is in a list in order.
pub fn has_site(sites: &[SiteId], site: SiteId) -> bool
    requires { AllPairs SiteBefore sites.now }
    ensures { IsTrue result ↔ Contains sites.now site }
{
    match sites.binary_search(&site) {
        Ok(_) => true,
        Err(_) => false,
    }
}

fn copy(alloc: Global, sites: &[SiteId]) -> Result<Vec<SiteId>, NoMemory>
    ensures { IfOk result (λ v. (h : SiteId) → Contains v.items h ↔ Contains sites.now h) }
{
    let mut all = Vec::new(alloc);
    for site in sites {
        worklists::add(&mut all, *site)?;
    }
    Ok(all)
}

// Adds a site that is in the other list.
fn keep_one(kept: &mut Vec<SiteId>, site: SiteId, others: &[SiteId]) -> Result<(), NoMemory>
    requires { AllPairs SiteBefore others.now }
    ensures { OnOk result (Grows kept.old.items kept.new.items (IsOneIn others.now site)) }
{
    let holds = has_site(others, site);
    if holds {
        worklists::add(kept, site)
    } else {
        Ok(())
    }
}

fn keep(alloc: Global, sites: &[SiteId], others: &[SiteId]) -> Result<Vec<SiteId>, NoMemory>
    requires { AllPairs SiteBefore others.now }
    ensures { IfOk result (λ v. (h : SiteId) → Contains v.items h ↔ FromOne (IsOneIn others.now) sites.now h) }
{
    let mut kept = Vec::new(alloc);
    for site in sites {
        keep_one(&mut kept, *site, others)?;
    }
    Ok(kept)
}

/// Whether one of the objects, which are in order, is among the sites.
pub fn is_any_in(objects: &[SiteId], sites: &[SiteId]) -> bool
    requires { AllPairs SiteBefore objects.now }
    ensures { IsTrue result ↔ ((h : SiteId) × Contains objects.now h × Contains sites.now h) }
{
    for site in sites {
        if has_site(objects, *site) {
            return true;
        }
    }
    false
}

/// The sites that are in both lists, in order, each once. It takes time n log n.
pub fn shared(alloc: Global, a: &[SiteId], b: &[SiteId]) -> Result<Vec<SiteId>, NoMemory>
    ensures { IfOk result (λ v. IsOrderedListOf SiteBefore v.items (λ h. Contains a.now h × Contains b.now h)) }
{
    let others = in_order(copy(alloc, b)?)?;
    let kept = keep(alloc, a, &others)?;
    let found = in_order(kept)?;
    Ok(found)
}
