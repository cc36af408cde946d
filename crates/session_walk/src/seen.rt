// The graphs that a session has seen.
ghost use Rattle.std.specs.Prelude.{◌≡◌};

use dep_form::facts::Facts;
use dep_form::graph::Graph;
use graph_store::pass::GraphPass;
use graph_store::store::GraphStore;
use slicer_ids::ids::MethodId;
use thin_slice::asked::SeenGraphs;

/// The graphs of the methods of some facts that a pass over a store has seen.
#[derive(Clone, Copy, Drop)]
pub struct PassView<'a, 's> {
    pub facts: &'a Facts,
    pub store: &'s GraphStore,
    pub pass: &'a GraphPass<'s>,
}

impl<'a, 's> SeenGraphs for PassView<'a, 's> {
    ghost use Rattle.session_walk.specs.Seen.{facts_of_view, HasSeenMethod, IsSound};

    ghost facts = { facts_of_view };

    ghost has_seen = { HasSeenMethod };

    ghost sound = { IsSound };

    fn seen(&self, m: MethodId) -> Option<&Graph> {
        self.pass.seen(m)
    }
}
