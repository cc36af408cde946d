// What all sessions share.
ghost use Rattle.std.specs.Prelude.{◌≡◌, IfOk, length};
ghost use Rattle.summary_memo.specs.Memo.{facts_of, view_of, IsSeatOf};
ghost use Rattle.summary_memo.specs.Rule.{fresh};

use dep_form::facts::Facts;
use graph_store::store::GraphStore;
use slicer_ids::ids::NoMemory;
use std::alloc::Global;
use summary_memo::memo::{Memo, MemoSeat};

/// Facts, the graphs of their methods in cells that are set once, and the summaries of their exits on shared words. It is handed to
/// all sessions, on any threads.
#[derive(Drop)]
pub struct Shared {
    pub facts: Facts,
    pub store: GraphStore,
    pub memo: Memo,
    pub ghost of_facts: { facts_of memo ≡ facts },
    pub ghost a_cell_each: { length store.cells.items ≡ length facts.inputs },
}

impl Shared {
    /// No graph and no summary yet; and the first seat of the memo, from which those of sessions are split. The facts are dropped
    /// where there is no memory.
    pub fn new(alloc: Global, facts: Facts) -> Result<(Shared, MemoSeat), NoMemory>
        ensures facts { IfOk result (λ r. r.0.facts ≡ facts) }
        ensures seat { IfOk result (λ r. IsSeatOf r.0.memo r.1 × (view_of r.1 ≡ fresh facts)) }
    {
        let store = GraphStore::new(alloc, &facts)?;
        let (memo, seat) = Memo::new(alloc, &facts)?;
        let shared = Shared { facts, store, memo };
        Ok((shared, seat))
    }
}
