// What is taken from desks that were attended.
ghost use Rattle.std.specs.Prelude.{◌≡◌, ◌<◌, ◌≤◌, ◌+◌, ◌++◌, ◌∷◌, [], All, Some, length, map, vec_len, vec_capacity};
ghost use Rattle.sessions.specs.declared.desk.Outcome.{Outcome};
ghost use Rattle.serving.specs.Seated.{sink_at, outcome_at, HasOutcome};

use crate::room::keep;
use sessions::desk::{Desk, Outcome};

/// How the sessions of the desks ended, in order, put where there is room.
pub fn outcomes_of<'s, S: Drop, K: Drop>(
    desks: &[Desk<'s, S, K>],
    room: Vec<Outcome>,
) -> Vec<Outcome>
    requires room { length desks.now ≤ vec_capacity room }
    requires empty { room.items ≡ [] }
    requires ended { All HasOutcome desks.now }
    ensures { map Some result.items ≡ map outcome_at desks.now }
{
    let mut outcomes = room;
    for desk in desks {
        keep_outcome(desk, &mut outcomes);
    }
    outcomes
}

// Puts how the session of a desk ended behind the others.
fn keep_outcome<'s, S: Drop, K: Drop>(desk: &Desk<'s, S, K>, outcomes: &mut Vec<Outcome>)
    requires room { vec_len outcomes.old < vec_capacity outcomes.old }
    requires ended { HasOutcome desk.now }
    ensures room { vec_capacity outcomes.new ≡ vec_capacity outcomes.old }
    ensures kept { (how : Outcome) × (desk.now.outcome ≡ Some how) × (outcomes.new.items ≡ outcomes.old.items ++ how ∷ []) }
{
    if let Some(outcome) = desk.outcome {
        keep(outcomes, outcome);
    }
}

/// The sinks of the desks, and behind them those that were kept back, put where there is room.
pub fn sinks_of<'s, S: Drop, K: Drop>(
    desks: Vec<Desk<'s, S, K>>,
    back: Vec<K>,
    room: Vec<K>,
) -> Vec<K>
    requires room { length desks.items + length back.items ≤ vec_capacity room }
    requires empty { room.items ≡ [] }
    ensures { result.items ≡ map sink_at desks.entry.items ++ back.items }
{
    let mut all = room;
    take_sinks(desks, &mut all);
    keep_all(back, &mut all);
    all
}

// Puts the sinks of the desks into an empty list.
fn take_sinks<'s, S: Drop, K: Drop>(desks: Vec<Desk<'s, S, K>>, all: &mut Vec<K>)
    requires room { length desks.items ≤ vec_capacity all.old }
    requires empty { all.old.items ≡ [] }
    ensures items { all.new.items ≡ map sink_at desks.entry.items }
    ensures room { vec_capacity all.new ≡ vec_capacity all.old }
{
    for desk in desks {
        keep(all, desk.sink);
    }
}

// Puts sinks behind others.
fn keep_all<K: Drop>(sinks: Vec<K>, all: &mut Vec<K>)
    requires { length all.old.items + length sinks.items ≤ vec_capacity all.old }
    ensures { all.new.items ≡ all.old.items ++ sinks.items }
{
    for sink in sinks {
        keep(all, sink);
    }
}
