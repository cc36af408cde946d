// Where the locations of a method are defined and used.
ghost use Rattle.std.specs.Prelude.{◌<◌, All};
ghost use Rattle.method_graph.specs.declared.locations.Access.{Access};
ghost use Rattle.method_graph.specs.Accesses.{AreByLocation};

use crate::flow::Ways;
use crate::locations::Access;

/// Where the locations of a method are defined and used, each list in the order of locations, and where control leads.
#[derive(Drop)]
pub struct Heap {
    pub ways: Ways,
    pub puts: Vec<Access>,
    pub gets: Vec<Access>,
    pub entries: Vec<Access>,
    pub exits: Vec<Access>,
    pub ghost puts_in_order: { AreByLocation puts.items },
    pub ghost gets_in_order: { AreByLocation gets.items },
    pub ghost entries_in_order: { AreByLocation entries.items },
    pub ghost exits_in_order: { AreByLocation exits.items },
    pub ghost puts_within: { All (λ (x : Access). x.point < ways.points) puts.items },
    pub ghost gets_within: { All (λ (x : Access). x.point < ways.points) gets.items },
}
