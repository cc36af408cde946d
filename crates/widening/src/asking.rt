// Exits that are asked for.
ghost use Rattle.std.specs.Prelude.{◌≡◌, ◌<◌, ◌+◌, OnOk, Contains, length};
ghost use Rattle.slicer_ids.specs.declared.ids.ExitId.{ExitId};
ghost use Rattle.tabulate.specs.Methods.{AreMethods};
ghost use Rattle.tabulate.specs.Found.{total};
ghost use Rattle.widening.specs.Edges.{Widened};
ghost use Rattle.widening.specs.Pairs.{ArePairs, KeepsMet, IsAskedStep};

use crate::expansions::Expansions;
use crate::pairs::Pairs;
use dep_form::facts::Facts;
use dep_form::graphs::Graphs;
use slicer_ids::ids::{ExitId, NoMemory};
use slicer_ids::steps::Steps;
use std::alloc::Global;
use std::sync::ledger::Ledger;
use tabulate::meeting::{ask_for, is_asked, meet_method};
use tabulate::method::{Method, met_method, owner};

// Asks for an exit, unless that was done before.
fn ask<G: Graphs, T: Ledger>(
    alloc: Global,
    f: &Facts,
    graphs: &mut G,
    expansions: &Expansions,
    exit: ExitId,
    methods: &mut Vec<Option<Method>>,
    pairs: &mut Pairs,
    tally: &mut Steps<T>,
) -> Result<(), NoMemory>
    requires graphs { G.sound graphs.old × (G.facts graphs.old ≡ f.now) }
    requires exit { exit.0 < length f.now.exits }
    requires pairs { ArePairs f.now (Widened f.now expansions.now) methods.old.items pairs.old }
    ensures graphs { G.sound graphs.new × G.later graphs.old graphs.new }
    ensures methods { AreMethods f.now methods.new.items × KeepsMet methods.old.items methods.new.items }
    ensures step { OnOk result (IsAskedStep f.now (Widened f.now expansions.now) (λ d. d ≡ exit) methods.new.items pairs.old pairs.new tally.old tally.new) }
    ensures turns { tally.new + total pairs.old.found.items ≡ tally.old + total pairs.new.found.items }
{
    let m = owner(f, f.exit_node(exit));
    meet_method(alloc, f, graphs, m, methods)?;
    let method = met_method(f, methods, m);
    if is_asked(f, method, exit, &pairs.found) {
        return Ok(());
    }
    ask_for(
        alloc,
        f,
        method,
        exit,
        &mut pairs.asked,
        &mut pairs.found,
        &mut pairs.queue,
        tally,
    )?;
    Ok(())
}

/// Asks for exits.
pub fn ask_all<G: Graphs, T: Ledger>(
    alloc: Global,
    f: &Facts,
    graphs: &mut G,
    expansions: &Expansions,
    exits: &[ExitId],
    methods: &mut Vec<Option<Method>>,
    pairs: &mut Pairs,
    tally: &mut Steps<T>,
) -> Result<(), NoMemory>
    requires graphs { G.sound graphs.old × (G.facts graphs.old ≡ f.now) }
    requires exits { (d : ExitId) → Contains exits.now d → d.0 < length f.now.exits }
    requires pairs { ArePairs f.now (Widened f.now expansions.now) methods.old.items pairs.old }
    ensures graphs { G.sound graphs.new × G.later graphs.old graphs.new }
    ensures methods { AreMethods f.now methods.new.items × KeepsMet methods.old.items methods.new.items }
    ensures step { OnOk result (IsAskedStep f.now (Widened f.now expansions.now) (Contains exits.now) methods.new.items pairs.old pairs.new tally.old tally.new) }
    ensures turns { tally.new + total pairs.old.found.items ≡ tally.old + total pairs.new.found.items }
{
    for exit in exits {
        ask(alloc, f, graphs, expansions, *exit, methods, pairs, tally)?;
    }
    Ok(())
}
