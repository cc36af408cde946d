// What the rules of points-to find numbers for.

use dep_form::rules::Var;
use slicer_ids::ids::{CallId, FieldId, SiteId};

/// What has a set of numbers: sites or methods.
#[derive(Clone, Copy)]
pub enum Place {
    /// The sites that a variable may be.
    Variable(Var),
    /// The sites that a field of the objects of a site may be.
    Cell(SiteId, FieldId),
    /// The methods of the folder that a call may go to.
    Targets(CallId),
    /// The receivers with which a call may go outside.
    Receivers(CallId),
    /// Has 0 where a call without a receiver may go outside.
    Static(CallId),
    /// The sites that an outside call writes.
    Written(CallId),
    /// The methods that may run.
    Running,
}
