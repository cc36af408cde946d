// With which receivers calls go outside.
ghost use Rattle.std.specs.Prelude.{◌≡◌, ◌<◌, ◌↔◌, true, false, Option, Contains, length};
ghost use Rattle.slicer_ids.specs.declared.ids.SiteId.{SiteId};
ghost use Rattle.dep_form.specs.declared.system.System.{System};
ghost use Rattle.dep_form.specs.PointsTo.{OutsideAt};
ghost use Rattle.dep_form.specs.Constraints.{SystemHolds};
ghost use Rattle.dep_form.specs.Solutions.{IsSolutionOf};

use dep_form::solution::Solution;
use slicer_ids::ids::{CallId, SiteId};

/// With which receivers a call goes outside; none stands for a static call.
pub fn receivers_of(solution: &Solution, c: CallId) -> &[Option<SiteId>]
    requires { c.0 < length solution.now.outside }
    ensures { (s : System) (o : Option SiteId) → IsSolutionOf s solution.now → Contains result.now o ↔ SystemHolds s (OutsideAt c o) }
{
    solution.outside.items()[c.0 as usize].items()
}

/// Whether a call goes outside.
pub fn goes_outside(solution: &Solution, c: CallId) -> bool
    requires { c.0 < length solution.now.outside }
    ensures some { (s : System) → IsSolutionOf s solution.now → result ≡ true → (o : Option SiteId) × SystemHolds s (OutsideAt c o) }
    ensures none { (s : System) (o : Option SiteId) → IsSolutionOf s solution.now → result ≡ false → SystemHolds s (OutsideAt c o) → ⊥ }
{
    !receivers_of(solution, c).is_empty()
}
