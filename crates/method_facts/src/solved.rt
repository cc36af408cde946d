// What a solution says of its system.
ghost use Rattle.std.specs.Prelude.{◌≡◌, ◌<◌, ◌↔◌, IsTrue, Contains, length};
ghost use Rattle.slicer_ids.specs.declared.ids.MethodId.{MethodId};
ghost use Rattle.slicer_ids.specs.declared.ids.SiteId.{SiteId};
ghost use Rattle.dep_form.specs.declared.system.System.{System};
ghost use Rattle.dep_form.specs.PointsTo.{Calls, Has, Reached};
ghost use Rattle.dep_form.specs.Constraints.{SystemHolds};
ghost use Rattle.dep_form.specs.Solutions.{IsSolutionOf};

use dep_form::rules::Var;
use dep_form::solution::Solution;
use slicer_ids::ids::{CallId, MethodId, SiteId};

/// What a variable may be.
pub fn sites_of(solution: &Solution, v: Var) -> &[SiteId]
    requires { v.0 < length solution.now.sites }
    ensures { (s : System) (h : SiteId) → IsSolutionOf s solution.now → Contains result.now h ↔ SystemHolds s (Has v h) }
{
    solution.sites(v)
}

/// The folder methods that a call may go to.
pub fn targets_of(solution: &Solution, c: CallId) -> &[MethodId]
    requires { c.0 < length solution.now.targets }
    ensures { (s : System) (m : MethodId) → IsSolutionOf s solution.now → Contains result.now m ↔ SystemHolds s (Calls c m) }
{
    solution.targets(c)
}

/// Whether a method is reached.
pub fn is_reached(solution: &Solution, m: MethodId) -> bool
    requires { m.0 < length solution.now.reached }
    ensures { (s : System) → IsSolutionOf s solution.now → IsTrue result ↔ SystemHolds s (Reached m) }
{
    solution.reached(m)
}
