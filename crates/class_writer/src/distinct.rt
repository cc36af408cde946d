// Members with one name and descriptor.
ghost use Rattle.std.specs.Prelude.{◌≡◌, ◌<◌, ◌^◌, length, map};
ghost use Rattle.std.specs.List.Sorted.{IsPermutation, IsSortedBy};
ghost use Rattle.std.specs.Ordering.{is_lt};
ghost use Rattle.class_writer.specs.Names.{text_cmp, names_cmp, names_of, differ_from, differ};
ghost use Rattle.class_writer.specs.Tests.{are_distinct};

use class_form::class_file::Member;
use class_form::pool::Pool;
use std::cmp::Ordering;

// The fields or methods that a class has at most.
const MOST_MEMBERS: usize = 65535;

// By the bytes of the texts at two indices; an index with no text stands first.
fn compare_texts(pool: &Pool, a: u16, b: u16) -> Ordering
    ensures { result ≡ text_cmp pool.now a b }
{
    match pool.utf(a) {
        Some(a) => match pool.utf(b) {
            Some(b) => a.cmp(b),
            None => Ordering::Greater,
        },
        None => {
            if pool.utf(b).is_some() {
                Ordering::Less
            } else {
                Ordering::Equal
            }
        }
    }
}

// The same, but one index is not looked at twice.
fn compare_indices(pool: &Pool, a: u16, b: u16) -> Ordering
    ensures { result ≡ text_cmp pool.now a b }
{
    if a == b {
        Ordering::Equal
    } else {
        compare_texts(pool, a, b)
    }
}

// By names, and then by descriptors.
#[tactic(auto, unfolding(crate::specs::Names::names_cmp))]
fn compare(pool: &Pool, a: (u16, u16), b: (u16, u16)) -> Ordering
    ensures { result ≡ names_cmp pool.now a b }
{
    match compare_indices(pool, a.0, b.0) {
        Ordering::Equal => compare_indices(pool, a.1, b.1),
        Ordering::Less => Ordering::Less,
        Ordering::Greater => Ordering::Greater,
    }
}

fn set_names(members: &[Member], names: &mut [(u16, u16)])
    requires { length names.old ≡ length members.now }
    ensures { names.new ≡ names_of members.now }
{
    for i in 0..members.len() {
        names[i] = (members[i].name, members[i].descriptor);
    }
}

fn sort(pool: &Pool, names: &mut [(u16, u16)])
    ensures permutation { IsPermutation names.old names.new }
    ensures sorted { IsSortedBy (λ x y. is_lt (names_cmp pool.now x y)) names.new }
{
    names.sort_unstable_by(|a, b| compare(pool, *a, *b));
}

// Whether each name and descriptor is other than the one before, the first other than `first`.
fn differ_from(pool: &Pool, first: (u16, u16), names: &[(u16, u16)]) -> bool
    ensures { result ≡ differ_from pool.now first names.now }
{
    let mut last = first;
    for name in names {
        if compare(pool, last, *name).is_eq() {
            return false;
        }
        last = *name;
    }
    true
}

fn differ(pool: &Pool, names: &[(u16, u16)]) -> bool
    ensures { result ≡ differ pool.now names.now }
{
    match names.split_first() {
        Some((first, rest)) => differ_from(pool, *first, rest),
        None => true,
    }
}

/// Whether no two of the members have one name and descriptor. These are sorted in a table on the stack: n log n comparisons.
pub fn are_distinct(pool: &Pool, members: &[Member]) -> bool
    requires { length members.now < 2 ^ 16 }
    ensures { result ≡ are_distinct pool.now members.now }
{
    let mut table = [(0, 0); MOST_MEMBERS];
    let (names, _) = table.split_at_mut(members.len());
    set_names(members, names);
    sort(pool, names);
    differ(pool, names)
}
