// By location, the methods that define it or use it themselves.
ghost use Rattle.std.specs.Prelude.{◌≡◌, IfOk, OnOk, length};
ghost use Rattle.dep_form.specs.Orders.{RiseBy};
ghost use Rattle.mod_ref.specs.Locations.{location_cmp};
ghost use Rattle.mod_ref.specs.Rows.{AreSources, AtSource, RowsGain};

use crate::effects::Effect;
use crate::locations::number_of;
use crate::rows::{no_rows, push_to};
use dep_form::effects::Location;
use slicer_ids::ids::{MethodId, NoMemory};
use std::alloc::Global;

fn add_source(
    locations: &[Location],
    effect: Effect,
    rows: &mut Vec<Vec<MethodId>>,
) -> Result<(), NoMemory>
    requires order { RiseBy location_cmp (λ l. l) locations.now }
    requires len { length rows.old.items ≡ length locations.now }
    ensures len { OnOk result (length rows.new.items ≡ length rows.old.items) }
    ensures gain { OnOk result (RowsGain rows.old.items rows.new.items (AtSource locations.now effect)) }
{
    match number_of(locations, effect.location) {
        None => Ok(()),
        Some(k) => {
            push_to(rows, k, effect.method)?;
            Ok(())
        }
    }
}

/// By number of location, the methods of the effects on it. Effects on other locations are left out.
pub fn sources(
    alloc: Global,
    locations: &[Location],
    effects: &[Effect],
) -> Result<Vec<Vec<MethodId>>, NoMemory>
    requires { RiseBy location_cmp (λ l. l) locations.now }
    ensures len { IfOk result (λ rows. length rows.items ≡ length locations.now) }
    ensures rows { IfOk result (λ rows. AreSources locations.now effects.now rows.items) }
{
    let mut rows = no_rows(alloc, locations.len())?;
    for effect in effects {
        add_source(locations, *effect, &mut rows)?;
    }
    Ok(rows)
}
