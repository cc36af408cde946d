// Sites, taken for a set, as they are gathered.
ghost use Rattle.std.specs.Prelude.{◌≡◌, ◌<◌, ◌↔◌, ◌++◌, AllPairs, Contains, OnOk, option_map, slice_get};
ghost use Rattle.slicer_ids.specs.Order.{SiteBefore};
ghost use Rattle.slicer_ids.specs.declared.ids.SiteId.{SiteId};
ghost use Rattle.dep_form.specs.Solutions.{IsSolutionOf};
ghost use Rattle.dep_form.specs.declared.system.System.{System};
ghost use Rattle.mod_ref.specs.Gains.{Gains};
ghost use Rattle.value_tables.specs.Methods.{FoundHas, IsWithin, VarHas};

use dep_form::rules::Var;
use dep_form::solution::Solution;
use slicer_ids::ids::{NoMemory, SiteId};
use slicer_ids::list::List;

fn list_at(lists: &[List<SiteId>], k: usize) -> Option<&List<SiteId>>
    ensures { option_map (λ x. x.now) result ≡ slice_get lists.now k }
{
    lists.get(k)
}

// What a variable may be.
fn sites_of(sol: &Solution, v: Var) -> &[SiteId]
    ensures { (s : System) (h : SiteId) → IsSolutionOf s sol.now → v.0 < s.vars → Contains result.now h ↔ VarHas s v h }
{
    match list_at(sol.sites.items(), v.0 as usize) {
        Some(sites) => sites.items(),
        None => &[],
    }
}

fn append(sites: &mut Vec<SiteId>, more: &[SiteId]) -> Result<(), NoMemory>
    ensures { OnOk result (sites.new.items ≡ sites.old.items ++ more.now) }
{
    match sites.extend_from_slice(more) {
        Ok(()) => Ok(()),
        Err(_) => Err(NoMemory),
    }
}

/// Adds what a variable may be.
pub fn add_var(sites: &mut Vec<SiteId>, sol: &Solution, v: Var) -> Result<(), NoMemory>
    ensures { (s : System) → IsSolutionOf s sol.now → v.0 < s.vars → OnOk result (Gains sites.old.items sites.new.items (VarHas s v)) }
{
    append(sites, sites_of(sol, v))
}

/// Adds what the variable that was found may be.
pub fn add_found(
    sites: &mut Vec<SiteId>,
    sol: &Solution,
    found: Option<Var>,
) -> Result<(), NoMemory>
    ensures { (s : System) → IsSolutionOf s sol.now → IsWithin s found → OnOk result (Gains sites.old.items sites.new.items (FoundHas s found)) }
{
    match found {
        Some(v) => add_var(sites, sol, v),
        None => Ok(()),
    }
}

/// The same sites in order, each once.
pub fn in_order(sites: Vec<SiteId>) -> Vec<SiteId>
    ensures order { AllPairs SiteBefore result.items }
    ensures members { (h : SiteId) → Contains result.items h ↔ Contains sites.items h }
{
    let mut all = sites;
    all.sort_unstable();
    all.dedup();
    all
}
