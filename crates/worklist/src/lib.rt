//! The worklist of a search: numbers in the order in which they were found, each once.
#![tactic(auto)]

ghost use Rattle.std.specs.Prelude.{◌≡◌, ◌<◌, ◌++◌, ◌∷◌, [], true, if◌then◌else◌, length, IfOk, OnOk, slice_set, vec_len};
ghost use Rattle.worklists.specs.Growth.{Grows};
ghost use Rattle.worklist.specs.Worklists.{IsWorklist, is_marked};

use slicer_ids::ids::NoMemory;
use std::alloc::Global;

/// Numbers below a size, in the order in which they were added, and a mark for each of them.
#[derive(Drop)]
pub struct Worklist {
    pub marks: Vec<bool>,
    pub items: Vec<usize>,
}

impl Worklist {
    /// No number, of those below the size.
    pub fn new(alloc: Global, size: usize) -> Result<Worklist, NoMemory>
        ensures set { IfOk result (λ w. IsWorklist w.marks.items w.items.items) }
        ensures size { IfOk result (λ w. length w.marks.items ≡ size) }
        ensures none { IfOk result (λ w. w.items.items ≡ []) }
    {
        let Ok(marks) = vec![in alloc; false; size] else {
            return Err(NoMemory);
        };
        Ok(Worklist {
            marks,
            items: Vec::new(alloc),
        })
    }

    // Marks a number, and adds it to the items if it had no mark.
    fn mark(&mut self, number: usize) -> Result<(), NoMemory>
        requires { number < length self.old.marks.items }
        ensures marks { OnOk result (self.new.marks.items ≡ slice_set self.old.marks.items number true) }
        ensures size { length self.new.marks.items ≡ length self.old.marks.items }
        ensures items { OnOk result (self.new.items.items ≡ (if is_marked self.old.marks.items number then self.old.items.items else self.old.items.items ++ number ∷ [])) }
    {
        if !self.marks[number] {
            self.marks[number] = true;
            match self.items.push(number) {
                Ok(()) => {}
                Err(_) => return Err(NoMemory),
            }
        }
        Ok(())
    }

    /// Adds a number, unless it is there.
    pub fn add(&mut self, number: usize) -> Result<(), NoMemory>
        requires within { number < length self.old.marks.items }
        requires set { IsWorklist self.old.marks.items self.old.items.items }
        ensures set { OnOk result (IsWorklist self.new.marks.items self.new.items.items) }
        ensures size { length self.new.marks.items ≡ length self.old.marks.items }
        ensures grown { OnOk result (Grows self.old.items.items self.new.items.items (λ n. n ≡ number)) }
    {
        self.mark(number)?;
        Ok(())
    }

    /// Takes all numbers out, in time that grows with how many there are.
    pub fn clear(&mut self)
        requires { IsWorklist self.old.marks.items self.old.items.items }
        ensures set { IsWorklist self.new.marks.items self.new.items.items }
        ensures size { length self.new.marks.items ≡ length self.old.marks.items }
        ensures none { self.new.items.items ≡ [] }
    {
        unmark(&mut self.marks, self.items.as_slice());
        self.items.clear();
    }
}

// Takes the marks of these numbers away.
fn unmark(marks: &mut Vec<bool>, items: &[usize])
    requires { IsWorklist marks.old.items items.now }
    ensures set { IsWorklist marks.new.items [] }
    ensures size { length marks.new.items ≡ length marks.old.items }
{
    for number in items {
        marks[*number] = false;
    }
}
