// The walk of a folder.
ghost use Rattle.std.specs.Prelude.{◌≡◌, ◌≤◌, ◌<◌, ◌↔◌, ℕ, true, false, List, [], All, IfOk, IfSome, OnOk, OnErr, Err, IsTrue, length, string_bytes};
ghost use Rattle.slicer_ids.specs.declared.limits.LimitKind.{LimitKind};
ghost use Rattle.edge_io.specs.Faults.{Rose};
ghost use Rattle.edge_io.specs.Files.{IsFolder, IsEntryOf, inside};
ghost use Rattle.folder_form.specs.Walks.{WalksFolder, IsClassFileName, Found, TooMany};
ghost use Rattle.folder_reader.specs.Hosts.{Goes, Keeps};
ghost use Rattle.folder_reader.specs.Below.{IsBelow, IsAtOrBelow};
ghost use Rattle.folder_reader.specs.Turns.{WalksTo, GoesOn, EndsAt, AddsFile, IsFileTooMany};

use crate::entries::entries_of;
use crate::error::FolderError;
use edge_io::host::{Host, Item};
use slicer_ids::limits::{DEPTH, FILES, LimitKind};
use slicer_ids::name::Text;
use std::alloc::Global;

/// The paths of the class files at or below a folder of a host.
///
/// The entries of a folder are taken in the order of their names' bytes, and a folder is walked in its place; the files whose
/// names end in `.class` are found. Refused, where they are met, are a folder more than `DEPTH` below, with the number 65, and
/// a class file after `FILES` others, with the number 16,385. A host that is steady and tells its files fails only where the
/// folder isn't one.
///
/// Takes a listing and a sort for each folder.
pub fn class_files<H: Host>(
    alloc: Global,
    host: &mut H,
    folder: &str,
) -> Result<Vec<Text>, FolderError>
    ensures found { IfOk result (λ v. IfSome (H.files host.old) (λ m. WalksFolder m folder.now (Found v.items))) }
    ensures few { IfOk result (λ v. length v.items ≤ 16384) }
    ensures below { IfOk result (λ v. All (IsBelow folder.now) v.items) }
    ensures too_many { (kind : LimitKind) (count : ℕ) → result ≡ Err (FolderError.TooMany kind count) → IfSome (H.files host.old) (λ m. WalksFolder m folder.now (TooMany kind count)) }
    ensures fault { result ≡ Err FolderError.Host → Rose (H.faults host.old) (H.faults host.new) }
    ensures cause { result ≡ Err FolderError.Host → H.steady host.old ≡ true → IfSome (H.files host.old) (λ m. IsFolder m folder.now → ⊥) }
    ensures goes { Goes H.faults H.steady H.source_steady H.sink_steady host.old host.new }
    ensures keeps { Keeps H.files H.said host.old host.new }
{
    let mut found = Vec::new(alloc);
    walk(alloc, host, folder, 0, &mut found)?;
    Ok(found)
}

// Walks a folder at a depth, and adds the class files that it finds.
#[cycle(walk)]
fn walk<H: Host>(
    alloc: Global,
    host: &mut H,
    folder: &str,
    depth: u64,
    found: &mut Vec<Text>,
) -> Result<(), FolderError>
    requires { depth ≤ 64 }
    ensures found { OnOk result (IfSome (H.files host.old) (λ m. WalksTo m depth folder.now found.old.items (Found found.new.items))) }
    ensures few { OnOk result (length found.old.items ≤ 16384 → length found.new.items ≤ 16384) }
    ensures below { OnOk result ((root : List ℕ) → IsAtOrBelow root folder.now → All (IsBelow root) found.old.items → All (IsBelow root) found.new.items) }
    ensures too_many { (kind : LimitKind) (count : ℕ) → result ≡ Err (FolderError.TooMany kind count) → IfSome (H.files host.old) (λ m. WalksTo m depth folder.now found.old.items (TooMany kind count)) }
    ensures fault { result ≡ Err FolderError.Host → Rose (H.faults host.old) (H.faults host.new) }
    ensures cause { result ≡ Err FolderError.Host → H.steady host.old ≡ true → IfSome (H.files host.old) (λ m. IsFolder m folder.now → ⊥) }
    ensures goes { Goes H.faults H.steady H.source_steady H.sink_steady host.old host.new }
    ensures keeps { Keeps H.files H.said host.old host.new }
{
    let items = entries_of(host, folder)?;
    for item in &items {
        visit(alloc, host, folder, item, depth, found)?;
    }
    Ok(())
}

// Takes an entry of a folder at a depth: a class file is added, and a folder walked.
#[cycle(walk)]
fn visit<H: Host>(
    alloc: Global,
    host: &mut H,
    folder: &str,
    item: &Item,
    depth: u64,
    found: &mut Vec<Text>,
) -> Result<(), FolderError>
    requires { depth ≤ 64 }
    ensures found { OnOk result (IfSome (H.files host.old) (λ m. GoesOn m depth folder.now item.now found.old.items found.new.items)) }
    ensures few { OnOk result (length found.old.items ≤ 16384 → length found.new.items ≤ 16384) }
    ensures below { OnOk result ((root : List ℕ) → IsAtOrBelow root folder.now → All (IsBelow root) found.old.items → All (IsBelow root) found.new.items) }
    ensures too_many { (kind : LimitKind) (count : ℕ) → result ≡ Err (FolderError.TooMany kind count) → IfSome (H.files host.old) (λ m. EndsAt m depth folder.now item.now found.old.items (TooMany kind count)) }
    ensures fault { result ≡ Err FolderError.Host → Rose (H.faults host.old) (H.faults host.new) }
    ensures cause { result ≡ Err FolderError.Host → H.steady host.old ≡ true → IfSome (H.files host.old) (λ m. IsEntryOf m folder.now item.now → ⊥) }
    ensures goes { Goes H.faults H.steady H.source_steady H.sink_steady host.old host.new }
    ensures keeps { Keeps H.files H.said host.old host.new }
{
    if !item.folder {
        return add_file(alloc, folder, item.name.as_str(), found);
    }
    if depth >= DEPTH {
        return Err(FolderError::TooMany(LimitKind::Depth, DEPTH + 1));
    }
    let path = path_of(alloc, folder, item.name.as_str())?;
    walk(alloc, host, path.as_str(), depth + 1, found)
}

fn is_class_file_name(name: &str) -> bool
    ensures { IsTrue result ↔ IsClassFileName name.now }
{
    name.as_bytes().ends_with(b".class")
}

// The path of an entry.
fn path_of(alloc: Global, folder: &str, name: &str) -> Result<String, FolderError>
    ensures path { IfOk result (λ path. string_bytes path ≡ inside folder.now name.now) }
    ensures kinds { OnErr result (result ≡ Err FolderError.NoMemory) }
{
    match format!(in alloc; "{folder}/{name}") {
        Ok(path) => Ok(path),
        Err(_) => Err(FolderError::NoMemory),
    }
}

// Adds a file, where it is a class file.
fn add_file(
    alloc: Global,
    folder: &str,
    name: &str,
    found: &mut Vec<Text>,
) -> Result<(), FolderError>
    ensures found { OnOk result (AddsFile folder.now name.now found.old.items found.new.items) }
    ensures too_many { (kind : LimitKind) (count : ℕ) → result ≡ Err (FolderError.TooMany kind count) → IsFileTooMany name.now found.old.items kind count }
    ensures fault { result ≡ Err FolderError.Host → ⊥ }
{
    if !is_class_file_name(name) {
        return Ok(());
    }
    if found.len() as u64 >= FILES {
        return Err(FolderError::TooMany(LimitKind::Files, FILES + 1));
    }
    let path = path_of(alloc, folder, name)?;
    match found.push(Text::from_string(path)) {
        Ok(()) => Ok(()),
        Err(_) => Err(FolderError::NoMemory),
    }
}
