// Numbers of variables, one after another.
ghost use Rattle.std.specs.Prelude.{◌≡◌, ◌+◌, IfOk, length};
ghost use Rattle.variable_tables.specs.Numbers.{IsCounted, keys_of, numbers_of};

use dep_form::rules::Var;
use slicer_ids::ids::NoMemory;
use std::alloc::Global;

/// The number of the next variable.
#[derive(Drop)]
pub(crate) struct Counter {
    pub(crate) next: u64,
}

impl Counter {
    /// The next variable. A number that doesn't fit is answered with want of memory.
    pub(crate) fn take(&mut self) -> Result<Var, NoMemory>
        ensures { IfOk result (λ x. (x.0 ≡ self.old.next) × (self.new.next ≡ self.old.next + 1)) }
    {
        let number = self.next;
        match number.checked_add(1) {
            Some(next) => {
                self.next = next;
                Ok(Var(number))
            }
            None => Err(NoMemory),
        }
    }
}

/// So many variables.
pub(crate) fn several(
    alloc: Global,
    count: usize,
    fresh: &mut Counter,
) -> Result<Vec<Var>, NoMemory>
    ensures count { IfOk result (λ v. length v.items ≡ count) }
    ensures numbers { IfOk result (λ v. IsCounted fresh.old.next v.items fresh.new.next) }
{
    let mut vars = Vec::new(alloc);
    for _ in 0..count {
        let var = fresh.take()?;
        vars.push(var)?;
    }
    Ok(vars)
}

/// A variable for each key.
pub(crate) fn numbered<K: Copy + Drop>(
    alloc: Global,
    keys: &[K],
    fresh: &mut Counter,
) -> Result<Vec<(K, Var)>, NoMemory>
    ensures keys { IfOk result (λ table. keys_of table.items ≡ keys.now) }
    ensures numbers { IfOk result (λ table. IsCounted fresh.old.next (numbers_of table.items) fresh.new.next) }
{
    let mut table = Vec::new(alloc);
    for key in keys {
        let var = fresh.take()?;
        table.push((*key, var))?;
    }
    Ok(table)
}
