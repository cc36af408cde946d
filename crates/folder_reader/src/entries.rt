// The entries of a folder, in the order of their names.
ghost use Rattle.std.specs.Prelude.{◌≡◌, ◌≤◌, ℕ, true, List, IfOk, IfSome, Err, IsPermutation, IsSortedByKey};
ghost use Rattle.std.specs.Ordering.{nat_cmp};
ghost use Rattle.std.specs.Cmp.Lexicographic.{slice_cmp};
ghost use Rattle.slicer_ids.specs.declared.limits.LimitKind.{LimitKind};
ghost use Rattle.edge_io.specs.Faults.{Rose};
ghost use Rattle.edge_io.specs.Files.{IsFolder};
ghost use Rattle.folder_reader.specs.Hosts.{Goes, Keeps};
ghost use Rattle.folder_reader.specs.Turns.{AreEntries, name_of};

use crate::error::FolderError;
use edge_io::host::{Host, HostError, Item};
use std::cmp::Ordering;

// The order of two entries, by the bytes of their names.
fn compare(a: &Item, b: &Item) -> Ordering
    ensures { result ≡ slice_cmp nat_cmp (name_of a.now) (name_of b.now) }
{
    a.name.as_str().as_bytes().cmp(b.name.as_str().as_bytes())
}

// Puts entries in the order of their names.
fn sort(items: &mut [Item])
    ensures same { IsPermutation items.old items.new }
    ensures sorted { IsSortedByKey name_of (slice_cmp nat_cmp) items.new }
{
    items.sort_unstable_by(|a, b| compare(a, b));
}

// The entries in the order of their names.
fn in_order(items: Vec<Item>) -> Vec<Item>
    ensures same { IsPermutation items.items result.items }
    ensures sorted { IsSortedByKey name_of (slice_cmp nat_cmp) result.items }
{
    let mut items = items;
    sort(items.as_mut_slice());
    items
}

/// The entries directly in a folder, in the order of their names.
pub fn entries_of<H: Host>(host: &mut H, folder: &str) -> Result<Vec<Item>, FolderError>
    ensures tells { IfOk result (λ v. IfSome (H.files host.old) (λ m. IsFolder m folder.now × AreEntries m folder.now v.items)) }
    ensures kinds { (kind : LimitKind) (count : ℕ) → result ≡ Err (FolderError.TooMany kind count) → ⊥ }
    ensures fault { result ≡ Err FolderError.Host → Rose (H.faults host.old) (H.faults host.new) }
    ensures cause { result ≡ Err FolderError.Host → H.steady host.old ≡ true → IfSome (H.files host.old) (λ m. IsFolder m folder.now → ⊥) }
    ensures goes { Goes H.faults H.steady H.source_steady H.sink_steady host.old host.new }
    ensures keeps { Keeps H.files H.said host.old host.new }
{
    match host.list(folder) {
        Ok(items) => Ok(in_order(items)),
        Err(HostError::Fault) => Err(FolderError::Host),
        Err(_) => Err(FolderError::NoMemory),
    }
}
