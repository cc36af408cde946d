// The fields of objects that calls outside read and write.
ghost use Rattle.std.specs.Prelude.{◌≡◌};
ghost use Rattle.mod_ref.specs.Direct.{field_in, field_of};

use dep_form::rules::SiteInfo;
use dep_form::system::System;
use slicer_ids::ids::{FieldId, SiteId};

fn field_in(system: &System, info: SiteInfo, elements: bool) -> Option<FieldId>
    ensures { result ≡ field_in system.now elements info }
{
    if info.array {
        Some(FieldId(system.fields - 3))
    } else if elements {
        None
    } else {
        Some(FieldId(system.fields - 1))
    }
}

/// The elements of an array site, or the state of any site.
pub fn field_of(system: &System, site: SiteId, elements: bool) -> Option<FieldId>
    ensures { result ≡ field_of system.now elements site }
{
    let sites = system.sites.items();
    let index = site.0 as usize;
    if index < sites.len() {
        field_in(system, sites[index], elements)
    } else {
        None
    }
}
