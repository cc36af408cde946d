// Searches in depth on a graph, without memory and without going anywhere twice.
ghost use Rattle.std.specs.Prelude.{◌≡◌, ◌↔◌, ◌<◌, [], ◌∷◌, length, All, Some, IsTrue, MatchOption};
ghost use Rattle.digraph.specs.Graphs.{targets, IsGraph};
ghost use Rattle.digraph.specs.Rows.{AreRows};
ghost use Rattle.hierarchy.specs.Visits.{IsFirst, FirstFrom, FirstAmong, IsOneOf, LeadsToOneOf, AreWithin};
ghost use Rattle.hierarchy.specs.Searched.{IsSearched};

use crate::members::Place;
use digraph::rows::has_bit;

/// The classes to which each class leads, in the order of a search, and for each a row of bits: all that are reached from it.
#[derive(Drop)]
pub struct Graph {
    pub edges: Vec<Vec<u32>>,
    pub rows: Vec<Vec<u64>>,
}

// Whether one of the members is of this class.
fn is_one_of(places: &[Place], class: u32) -> bool
    ensures { IsTrue result ↔ IsOneOf places.now class }
{
    places.iter().any(|place| place.0.0 == class)
}

impl Graph {
    // Whether one of the members is of this class or of one that is reached from it.
    fn leads_to(&self, places: &[Place], class: u32) -> bool
        requires rows { AreRows self.now.edges.items self.now.rows.items }
        requires within { AreWithin self.now.edges.items places.now }
        requires class { class < length self.now.edges.items }
        ensures { IsTrue result ↔ LeadsToOneOf self.now.edges.items places.now class }
    {
        let row = self.rows[class as usize].as_slice();
        places.iter().any(|place| has_bit(row, place.0.0))
    }

    // The first of some classes that leads to one of the members.
    fn first_leading(&self, places: &[Place], classes: &[u32]) -> Option<u32>
        requires rows { AreRows self.now.edges.items self.now.rows.items }
        requires within { AreWithin self.now.edges.items places.now }
        requires classes { All (λ c. c < length self.now.edges.items) classes.now }
        ensures { IsFirst (LeadsToOneOf self.now.edges.items places.now) classes.now result }
    {
        for class in classes {
            if self.leads_to(places, *class) {
                return Some(*class);
            }
        }
        None
    }

    // The first of the classes to which one leads that leads to one of the members.
    fn first_next(&self, places: &[Place], class: u32) -> Option<u32>
        requires graph { IsGraph self.now.edges.items }
        requires rows { AreRows self.now.edges.items self.now.rows.items }
        requires within { AreWithin self.now.edges.items places.now }
        requires class { class < length self.now.edges.items }
        ensures { IsFirst (LeadsToOneOf self.now.edges.items places.now) (targets self.now.edges.items class) result }
    {
        let classes = self.edges[class as usize].as_slice();
        self.first_leading(places, classes)
    }

    // The next class on the way from one that leads to a member, but has none itself.
    fn next(&self, places: &[Place], class: u32) -> u32
        requires graph { IsGraph self.now.edges.items }
        requires rows { AreRows self.now.edges.items self.now.rows.items }
        requires within { AreWithin self.now.edges.items places.now }
        requires class { class < length self.now.edges.items }
        requires leads { LeadsToOneOf self.now.edges.items places.now class }
        requires without { IsOneOf places.now class → ⊥ }
        ensures { IsFirst (LeadsToOneOf self.now.edges.items places.now) (targets self.now.edges.items class) (Some result) }
    {
        match self.first_next(places, class) {
            Some(next) => next,
            None => unreachable!(),
        }
    }

    // The first class with one of the members that a search from a class visits, which leads to one.
    fn descend(&self, order: &[u32], places: &[Place], class: u32) -> u32
        requires graph { IsSearched self.now order.now }
        requires within { AreWithin self.now.edges.items places.now }
        requires class { class < length self.now.edges.items }
        requires leads { LeadsToOneOf self.now.edges.items places.now class }
        ensures { FirstFrom self.now.edges.items (IsOneOf places.now) class (Some result) }
    {
        let mut at = class;
        for _ in order {
            if is_one_of(places, at) {
                return at;
            }
            at = self.next(places, at);
        }
        unreachable!()
    }

    /// The first class with one of the members that a search from a class visits; none where it visits no such class.
    pub fn first_from(&self, order: &[u32], places: &[Place], class: u32) -> Option<u32>
        requires graph { IsSearched self.now order.now }
        requires within { AreWithin self.now.edges.items places.now }
        requires class { class < length self.now.edges.items }
        ensures { FirstFrom self.now.edges.items (IsOneOf places.now) class result }
    {
        if self.leads_to(places, class) {
            Some(self.descend(order, places, class))
        } else {
            None
        }
    }

    /// The first class with one of the members that searches from the classes to which one leads visit, one search after
    /// the other.
    pub fn first_beyond(&self, order: &[u32], places: &[Place], class: u32) -> Option<u32>
        requires graph { IsSearched self.now order.now }
        requires within { AreWithin self.now.edges.items places.now }
        requires class { class < length self.now.edges.items }
        ensures { FirstAmong self.now.edges.items (IsOneOf places.now) (targets self.now.edges.items class) result }
    {
        match self.first_next(places, class) {
            Some(first) => Some(self.descend(order, places, first)),
            None => None,
        }
    }
}
