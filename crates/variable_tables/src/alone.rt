// The definition that alone holds in an operand.
ghost use Rattle.std.specs.Prelude.{◌≡◌, ◌↔◌, ◌++◌, ◌∷◌, [], List, Contains, IsTrue, MatchOption};
ghost use Rattle.class_form.specs.Reaching.{HoldsIn};
ghost use Rattle.class_form.specs.declared.body.Def.{Def};
ghost use Rattle.variable_tables.specs.Statements.{IsFollowed};
ghost use Rattle.variable_tables.specs.Operands.{IsAlone, IsSeen, IsSeenMore};

use class_form::body::{Body, Def, Point, SlotUse};

/// Whether none, one or several were seen among definitions.
#[derive(Clone, Copy)]
pub enum Seen {
    /// There was none.
    Nothing,
    /// Each was this one.
    One(Def),
    /// There were two that differ.
    Several,
}

// Whether two definitions are one.
fn is_same(a: Def, b: Def) -> bool
    ensures { IsTrue result ↔ (a ≡ b) }
{
    a == b
}

// One more definition was seen.
pub(crate) fn with_def(seen: Seen, def: Def) -> Seen
    ensures { (ds : List Def) → IsSeen ds seen → IsSeen (ds ++ def ∷ []) result }
{
    match seen {
        Seen::Nothing => Seen::One(def),
        Seen::One(other) => {
            if is_same(other, def) {
                seen
            } else {
                Seen::Several
            }
        }
        Seen::Several => seen,
    }
}

// More definitions were seen.
fn with_defs(seen: Seen, defs: &[Def]) -> Seen
    ensures { (ds : List Def) → IsSeen ds seen → IsSeen (ds ++ defs.now) result }
{
    let mut all = seen;
    for def in defs {
        all = with_def(all, *def);
    }
    all
}

// What is seen with one more use, where it is one of the operand.
fn with_use(seen: Seen, body: &Body, pc: u16, slot_use: &SlotUse, operand: usize) -> Seen
    requires { IsFollowed body.now }
    ensures { IsSeenMore body.now.shape pc operand slot_use.now seen result }
{
    if slot_use.operand as usize == operand {
        with_defs(seen, body.reach.at(pc, slot_use.slot))
    } else {
        seen
    }
}

// What was seen in an operand of the instruction at a point.
fn seen_in(body: &Body, point: &Point, operand: usize) -> Seen
    requires body { IsFollowed body.now }
    requires point { Contains body.now.shape.points point.now }
    ensures { (ds : List Def) × IsSeen ds result × ((d : Def) → Contains ds d ↔ HoldsIn body.now.shape point.now.pc operand d) }
{
    let mut seen = Seen::Nothing;
    for slot_use in point.uses.items() {
        seen = with_use(seen, body, point.pc, slot_use, operand);
    }
    seen
}

/// The definition that alone holds in an operand of the instruction at a point; none where none or several do. Looks at each
/// slot that the instruction uses.
pub(crate) fn alone(body: &Body, point: &Point, operand: usize) -> Option<Def>
    requires body { IsFollowed body.now }
    requires point { Contains body.now.shape.points point.now }
    ensures { MatchOption result ((d : Def) → IsAlone (HoldsIn body.now.shape point.now.pc operand) d → ⊥) (IsAlone (HoldsIn body.now.shape point.now.pc operand)) }
{
    match seen_in(body, point, operand) {
        Seen::One(def) => Some(def),
        Seen::Nothing | Seen::Several => None,
    }
}
