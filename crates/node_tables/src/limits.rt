// The limits of nodes, and of the words of the rows of summaries.
ghost use Rattle.std.specs.Prelude.{IfErr, IfOk};
ghost use Rattle.program_form.specs.Programs.{Program};
ghost use Rattle.fact_form.specs.FactLimits.{IsTooMany, IsWithinLimits};
ghost use Rattle.node_tables.specs.Limits.{IsTooManyOf, IsWithinLimitsOf};
ghost use Rattle.node_tables.specs.Rows.{AreAllTotals};
ghost use Rattle.node_tables.specs.Scenes.{IsProgramOf, IsScene};

use crate::counts::{Totals, count_all};
use crate::scene::Scene;
use constraint_form::laws::{constraints_give_the_facts, static_spots_are_of_static_variables};
use dep_form::rules::TooMany;
use fact_form::laws::{rows_count_the_nodes, rows_count_the_words};
use slicer_ids::limits::{LimitKind, MEMO_WORDS, NODES};
use std::alloc::Global;

// Whether so many nodes, and so many words, are within their limits.
fn within(totals: Totals) -> Result<(), TooMany>
    ensures ok { IfOk result (λ u. IsWithinLimitsOf totals.nodes totals.words) }
    ensures err { IfErr result (IsTooManyOf totals.nodes totals.words) }
{
    if totals.nodes > NODES {
        return Err(TooMany::Limit(LimitKind::Nodes, totals.nodes));
    }
    if totals.words > MEMO_WORDS {
        return Err(TooMany::Limit(LimitKind::MemoWords, totals.words));
    }
    Ok(())
}

/// Whether a program has at most 2^24 nodes, and whether the rows of its summaries take at most 2^25 words of 64 bits.
/// `Limit(Nodes, n)`, and else `Limit(MemoWords, n)`, is answered exactly where there are too many, with their number n; any other error
/// is want of memory. Nodes are counted statement by statement, and none are kept.
pub fn check_limits(alloc: Global, scene: &Scene<'_>) -> Result<(), TooMany>
    requires { IsScene scene.now }
    ensures ok { IfOk result (λ u. (p : Program) → IsProgramOf scene.now p → IsWithinLimits p) }
    ensures err { IfErr result (λ e. (p : Program) → IsProgramOf scene.now p → IsTooMany p e) }
{
    constraints_give_the_facts();
    static_spots_are_of_static_variables();
    rows_count_the_nodes();
    rows_count_the_words();
    match count_all(alloc, scene) {
        Ok(totals) => within(totals),
        Err(_) => Err(TooMany::NoMemory),
    }
}
