// The effects of the statements of one method.
ghost use Rattle.std.specs.Prelude.{◌≡◌, ◌≤◌, ◌↔◌, Contains, length, true, false};
ghost use Rattle.std.specs.List.Sorted.{IsPartitionPoint};
ghost use Rattle.std.proofs.Common.{leb, ltb};
ghost use Rattle.dep_form.specs.Orders.{RiseBy};
ghost use Rattle.input_tables.specs.declared.effects.Effect.{Effect};
ghost use Rattle.input_tables.specs.Effects.{effect_cmp};

use crate::effects::Effect;
use slicer_ids::ids::MethodId;

fn count_before(effects: &[Effect], m: u32) -> usize
    requires { RiseBy effect_cmp (λ x. x) effects.now }
    ensures bound { result ≤ length effects.now }
    ensures point { IsPartitionPoint (λ (x : Effect). ltb x.at.method.0 m ≡ true) (λ (x : Effect). ltb x.at.method.0 m ≡ false) effects.now result }
{
    effects.partition_point(|x| x.at.method.0 < m)
}

fn count_through(effects: &[Effect], m: u32) -> usize
    requires { RiseBy effect_cmp (λ x. x) effects.now }
    ensures bound { result ≤ length effects.now }
    ensures point { IsPartitionPoint (λ (x : Effect). leb x.at.method.0 m ≡ true) (λ (x : Effect). leb x.at.method.0 m ≡ false) effects.now result }
{
    effects.partition_point(|x| x.at.method.0 <= m)
}

/// The effects of the statements of a method.
pub fn of_method(effects: &[Effect], m: MethodId) -> &[Effect]
    requires { RiseBy effect_cmp (λ x. x) effects.now }
    ensures { (x : Effect) → Contains result.now x ↔ (Contains effects.now x × (x.at.method.0 ≡ m.0)) }
{
    let low = count_before(effects, m.0);
    let high = count_through(effects, m.0);
    &effects[low..high]
}
