// What methods do to locations.
ghost use Rattle.std.specs.Prelude.{◌≡◌, ◌⊎◌, ◌↔◌, [], Contains, OnOk};
ghost use Rattle.mod_ref.specs.Gains.{Gains};

use dep_form::effects::Location;
use slicer_ids::ids::{MethodId, NoMemory};
use std::alloc::Global;

/// A statement of the method defines, or uses, the location.
#[derive(Clone, Copy, PartialEq, Eq, PartialOrd, Ord)]
pub struct Effect {
    pub location: Location,
    pub method: MethodId,
}

// As many effects are collected before the first time that those that stand twice are taken out.
const FIRST: usize = 1024;

/// Effects that were collected, some of them perhaps twice. Those that stand twice are taken out each time that the list has
/// doubled, so that it has at most twice as many as there are, and each costs as many steps as its place in a search.
#[derive(Drop)]
pub struct Effects {
    pub items: Vec<Effect>,
    full: usize,
}

impl Effects {
    pub fn new(alloc: Global) -> Effects
        ensures { result.items.items ≡ [] }
    {
        Effects {
            items: Vec::new(alloc),
            full: FIRST,
        }
    }

    // Puts them in order, and takes out what stands twice.
    fn tidy(&mut self)
        ensures { (x : Effect) → Contains self.new.items.items x ↔ Contains self.old.items.items x }
    {
        self.items.sort_unstable();
        self.items.dedup();
        self.full = self.items.len().saturating_mul(2).max(FIRST);
    }

    fn tidy_if_full(&mut self)
        ensures { (x : Effect) → Contains self.new.items.items x ↔ Contains self.old.items.items x }
    {
        if self.items.len() >= self.full {
            self.tidy();
        }
    }

    /// Adds one.
    pub fn add(&mut self, location: Location, method: MethodId) -> Result<(), NoMemory>
        ensures { OnOk result (Gains self.old.items.items self.new.items.items (λ x. x ≡ record { location = location; method = method })) }
    {
        self.tidy_if_full();
        match self.items.push(Effect { location, method }) {
            Ok(()) => Ok(()),
            Err(_) => Err(NoMemory),
        }
    }

    /// All of them.
    pub fn into_items(self) -> Vec<Effect>
        ensures { result.items ≡ self.items.items }
    {
        let Effects { items, full: _ } = self;
        items
    }
}
