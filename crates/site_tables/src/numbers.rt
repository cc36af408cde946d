// The numbers of the sites of a statement, and of the root.
ghost use Rattle.std.specs.Prelude.{◌≡◌, ◌<◌, ◌≤◌, ◌^◌, true, false, length};
ghost use Rattle.std.specs.List.Sorted.{IsPartitionedBy, IsPartitionPoint};
ghost use Rattle.program_form.specs.Programs.{Program};
ghost use Rattle.program_form.specs.Sites.{OfRoot};
ghost use Rattle.program_form.specs.Systems.{SiteNumber};
ghost use Rattle.constraint_form.specs.ConstraintSystems.{AreSites};
ghost use Rattle.site_tables.specs.Tables.{AreNumbersOf, HasSites, is_before, is_at, earlier};

use dep_form::rules::SiteInfo;
use slicer_ids::ids::{SiteId, Statement};

/// The first of some numbers that follow one another, and how many they are.
#[derive(Clone, Copy, PartialEq, Eq, Debug)]
pub struct Numbers {
    pub first: u32,
    pub count: u32,
}

// Whether a statement comes before another one.
fn is_earlier(a: Statement, b: Statement) -> bool
    ensures { result ≡ earlier a b }
{
    a.method.0 < b.method.0 || (a.method.0 == b.method.0 && a.pc < b.pc)
}

// Whether a site is of a statement before this one.
fn comes_before(info: &SiteInfo, place: Statement) -> bool
    ensures { result ≡ is_before place info.now }
{
    match info.place {
        Some(other) => is_earlier(other, place),
        None => false,
    }
}

// Whether a site is of the statement.
fn stands_at(info: &SiteInfo, place: Statement) -> bool
    ensures { result ≡ is_at place info.now }
{
    match info.place {
        Some(other) => other.method.0 == place.method.0 && other.pc == place.pc,
        None => false,
    }
}

// How many sites come before those of a statement.
fn count_before(sites: &[SiteInfo], place: Statement) -> usize
    ensures within { result ≤ length sites.now }
    ensures point { IsPartitionedBy (is_before place) sites.now → IsPartitionPoint (λ x. is_before place x ≡ true) (λ x. is_before place x ≡ false) sites.now result }
{
    sites.partition_point(|info| comes_before(info, place))
}

// How many of the sites, of which the statement's come first, are its own.
fn count_at(sites: &[SiteInfo], place: Statement) -> usize
    ensures within { result ≤ length sites.now }
    ensures point { IsPartitionedBy (is_at place) sites.now → IsPartitionPoint (λ x. is_at place x ≡ true) (λ x. is_at place x ≡ false) sites.now result }
{
    sites.partition_point(|info| stands_at(info, place))
}

/// The numbers of the sites that a statement makes, which follow one another from the outer one on. Takes a logarithmic number
/// of steps.
pub fn numbers_of(sites: &[SiteInfo], place: Statement) -> Numbers
    requires few { length sites.now < 2 ^ 32 }
    ensures { (p : Program) → AreSites p sites.now → AreNumbersOf p place result.first result.count }
{
    let first = count_before(sites, place);
    let count = count_at(&sites[first..], place);
    Numbers {
        first: first as u32,
        count: count as u32,
    }
}

/// The number of the array of arguments that the root gives, and that of its elements.
pub fn root_numbers(sites: &[SiteInfo]) -> (SiteId, SiteId)
    requires few { length sites.now < 2 ^ 32 }
    requires sites { HasSites sites.now }
    ensures array { (p : Program) → AreSites p sites.now → SiteNumber p result.0 (OfRoot 0) }
    ensures element { (p : Program) → AreSites p sites.now → SiteNumber p result.1 (OfRoot 1) }
{
    let count = sites.len() as u32;
    (SiteId(count - 2), SiteId(count - 1))
}
