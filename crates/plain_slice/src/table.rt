// A list of pairs of nodes, each once, with a mark for each.
ghost use Rattle.std.specs.Prelude.{◌≡◌, ◌+◌, ◌*◌, ◌<◌, ◌≤◌, ◌^◌, ◌++◌, ◌∷◌, [], true, if◌then◌else◌, length, OnOk, slice_set, vec_len};
ghost use Rattle.worklists.specs.Growth.{Grows};
ghost use Rattle.plain_slice.specs.Tables.{place_of, is_in, IsTable, IsBelow};

use slicer_ids::ids::NoMemory;

/// A node, and another one or a phase beside it.
#[derive(Clone, Copy, Debug, PartialEq, Eq, Drop)]
pub struct Pair {
    pub node: u32,
    pub place: u32,
}

/// Marks a pair, and adds it if it had no mark.
fn mark(
    size: usize,
    marks: &mut Vec<bool>,
    pairs: &mut Vec<Pair>,
    pair: Pair,
) -> Result<(), NoMemory>
    requires size { size < 2 ^ 31 }
    requires len { vec_len marks.old ≡ size * size }
    requires below { IsBelow size pair }
    ensures marks { OnOk result (marks.new.items ≡ slice_set marks.old.items (place_of size pair) true) }
    ensures pairs { OnOk result (pairs.new.items ≡ (if is_in size marks.old.items pair then pairs.old.items else pairs.old.items ++ pair ∷ [])) }
{
    let place = pair.node as usize * size + pair.place as usize;
    if !marks[place] {
        marks[place] = true;
        push_pair(pairs, pair)?;
    }
    Ok(())
}

fn push_pair(pairs: &mut Vec<Pair>, pair: Pair) -> Result<(), NoMemory>
    ensures { OnOk result (pairs.new.items ≡ pairs.old.items ++ pair ∷ []) }
{
    match pairs.push(pair) {
        Ok(()) => Ok(()),
        Err(_) => Err(NoMemory),
    }
}

/// Adds a pair that may be there.
pub fn add(
    size: usize,
    marks: &mut Vec<bool>,
    pairs: &mut Vec<Pair>,
    pair: Pair,
) -> Result<(), NoMemory>
    requires size { size < 2 ^ 31 }
    requires table { IsTable size marks.old.items pairs.old.items }
    requires below { IsBelow size pair }
    ensures table { OnOk result (IsTable size marks.new.items pairs.new.items) }
    ensures grown { OnOk result (Grows pairs.old.items pairs.new.items (λ p. p ≡ pair)) }
{
    mark(size, marks, pairs, pair)?;
    Ok(())
}

/// Adds a pair where a test holds.
pub fn add_if(
    holds: bool,
    size: usize,
    marks: &mut Vec<bool>,
    pairs: &mut Vec<Pair>,
    pair: Pair,
) -> Result<(), NoMemory>
    requires size { size < 2 ^ 31 }
    requires table { IsTable size marks.old.items pairs.old.items }
    requires below { IsBelow size pair }
    ensures table { OnOk result (IsTable size marks.new.items pairs.new.items) }
    ensures grown { OnOk result (Grows pairs.old.items pairs.new.items (λ p. (holds ≡ true) × (p ≡ pair))) }
{
    if holds {
        add(size, marks, pairs, pair)
    } else {
        Ok(())
    }
}
