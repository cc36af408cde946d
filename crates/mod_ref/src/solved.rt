// What a solution says of its system.
ghost use Rattle.std.specs.Prelude.{◌≡◌, ◌<◌, ◌↔◌, true, false, Option, IsTrue, Contains, length};
ghost use Rattle.slicer_ids.specs.declared.ids.MethodId.{MethodId};
ghost use Rattle.slicer_ids.specs.declared.ids.SiteId.{SiteId};
ghost use Rattle.dep_form.specs.declared.system.System.{System};
ghost use Rattle.dep_form.specs.PointsTo.{Calls, Has, OutsideAt, Reached};
ghost use Rattle.dep_form.specs.Constraints.{SystemHolds};
ghost use Rattle.dep_form.specs.Solutions.{IsSolutionOf};

use dep_form::rules::Var;
use dep_form::solution::Solution;
use slicer_ids::ids::{CallId, MethodId, SiteId};

/// What a variable may be.
pub fn sites_of(solution: &Solution, v: Var) -> &[SiteId]
    requires { v.0 < length solution.now.sites }
    ensures { (s : System) (h : SiteId) → IsSolutionOf s solution.now → Contains result.now h ↔ SystemHolds s (Has v h) }
{
    solution.sites(v)
}

/// The folder methods that a call may go to.
pub fn targets_of(solution: &Solution, c: CallId) -> &[MethodId]
    requires { c.0 < length solution.now.targets }
    ensures { (s : System) (m : MethodId) → IsSolutionOf s solution.now → Contains result.now m ↔ SystemHolds s (Calls c m) }
{
    solution.targets(c)
}

/// With which receivers a call goes outside; none stands for a static call.
pub fn receivers_of(solution: &Solution, c: CallId) -> &[Option<SiteId>]
    requires { c.0 < length solution.now.outside }
    ensures { (s : System) (o : Option SiteId) → IsSolutionOf s solution.now → Contains result.now o ↔ SystemHolds s (OutsideAt c o) }
{
    solution.outside.items()[c.0 as usize].items()
}

/// Whether a call goes outside.
pub fn goes_outside(solution: &Solution, c: CallId) -> bool
    requires { c.0 < length solution.now.outside }
    ensures some { (s : System) → IsSolutionOf s solution.now → result ≡ true → (o : Option SiteId) × SystemHolds s (OutsideAt c o) }
    ensures none { (s : System) (o : Option SiteId) → IsSolutionOf s solution.now → result ≡ false → SystemHolds s (OutsideAt c o) → ⊥ }
{
    !receivers_of(solution, c).is_empty()
}

/// Whether a method is reached.
pub fn is_reached(solution: &Solution, m: MethodId) -> bool
    requires { m.0 < length solution.now.reached }
    ensures { (s : System) → IsSolutionOf s solution.now → IsTrue result ↔ SystemHolds s (Reached m) }
{
    solution.reached(m)
}
