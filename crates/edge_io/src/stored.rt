// Files in memory as a list of paths and entries.
ghost use Rattle.std.specs.Prelude.{◌≡◌, ◌≢◌, ◌<◌, ℕ, List, All, MatchOption, OnOk, OnErr, IfOk, IsTrue, vec_len, ◌↔◌};
ghost use Rattle.std.specs.Option.{option_copied};
ghost use Rattle.std.specs.Str.{IsUtf8};
ghost use Rattle.std.specs.FinMap as map;
ghost use Rattle.edge_io.specs.Files.{HasNoSlash, file_set, inside, is_folder as folder_flag};
ghost use Rattle.edge_io.specs.Paths.{AddsEntry, AreOnce, ArePaths, IsPlaceOf, ListsOf, files_in};
ghost use Rattle.edge_io.specs.Plans.{calls_of};

use crate::host::{Entry, Item};
use slicer_ids::ids::NoMemory;
use slicer_ids::list::List;
use slicer_ids::name::{Name, Text};
use std::alloc::{AllocError, Global};

// The first place where the path stands. A scan.
pub fn place_of(files: &[(Text, Entry)], path: &[u8]) -> Option<usize>
    ensures { MatchOption result (All (λ e. e.0 ≢ path.now) files.now) (IsPlaceOf files.now path.now) }
{
    for (place, stored) in files.iter().enumerate() {
        if stored.0.as_str().as_bytes() == path {
            return Some(place);
        }
    }
    None
}

// What stands at the path. A scan.
pub fn entry_at<'a>(files: &'a [(Text, Entry)], path: &[u8]) -> Option<&'a Entry>
    ensures { option_copied result ≡ map.get (files_in files.now) path.now }
{
    match place_of(files, path) {
        Some(place) => Some(&files[place].1),
        None => None,
    }
}

// Gives the file at this place other bytes.
pub fn set_file(files: &mut Vec<(Text, Entry)>, place: usize, bytes: Name)
    requires { place < vec_len files.old }
    ensures files { (path : List ℕ) → IsPlaceOf files.old.items path place → files_in files.new.items ≡ file_set (files_in files.old.items) path bytes }
    ensures once { AreOnce files.old.items → AreOnce files.new.items }
{
    files[place].1 = Entry::File(bytes);
}

// Makes the file hold the bytes, whether it stands there or not.
pub fn put_file(
    alloc: Global,
    files: &mut Vec<(Text, Entry)>,
    path: &str,
    bytes: Name,
) -> Result<(), NoMemory>
    ensures files { OnOk result (files_in files.new.items ≡ file_set (files_in files.old.items) path.now bytes) }
    ensures once { AreOnce files.old.items → AreOnce files.new.items }
    ensures err { OnErr result (files.new.items ≡ files.old.items) }
{
    match place_of(files.as_slice(), path.as_bytes()) {
        Some(place) => {
            set_file(files, place, bytes);
            Ok(())
        }
        None => {
            let path = String::from_str(alloc, path)?;
            files.push((Text::from_string(path), Entry::File(bytes)))?;
            Ok(())
        }
    }
}

// The name of what stands at the path directly in the folder.
fn name_in<'a>(folder: &str, path: &'a str) -> Option<&'a str>
    ensures { MatchOption result ((name : List ℕ) → HasNoSlash name → path.now ≢ inside folder.now name) (λ n. HasNoSlash n.now × (path.now ≡ inside folder.now n.now)) }
{
    match path.rsplit_once('/') {
        Some((parent, name)) if parent == folder => Some(name),
        _ => None,
    }
}

// Adds the entry to the items where it stands directly in the folder.
fn add_entry(
    alloc: Global,
    items: &mut Vec<Item>,
    folder: &str,
    stored: &(Text, Entry),
) -> Result<(), NoMemory>
    ensures { OnOk result (AddsEntry folder.now stored.now items.old.items items.new.items) }
{
    let Some(name) = name_in(folder, stored.0.as_str()) else {
        return Ok(());
    };
    let name = String::from_str(alloc, name)?;
    items.push(Item {
        name: Text::from_string(name),
        folder: is_folder(&stored.1),
    })?;
    Ok(())
}

fn is_folder(entry: &Entry) -> bool
    ensures { result ≡ folder_flag entry.now }
{
    match entry {
        Entry::Folder => true,
        Entry::File(_) => false,
    }
}

// The entries directly in the folder. A scan.
pub fn entries_in(
    alloc: Global,
    files: &[(Text, Entry)],
    folder: &str,
) -> Result<Vec<Item>, NoMemory>
    requires { AreOnce files.now }
    ensures { IfOk result (λ v. ListsOf files.now folder.now v.items) }
{
    let mut items = Vec::new(alloc);
    for stored in files {
        add_entry(alloc, &mut items, folder, stored)?;
    }
    Ok(items)
}

// The numbers that a plan names for the file at the path. A scan.
pub fn calls_at(alloc: Global, plan: &[(Name, u64)], path: &[u8]) -> Result<List<u64>, NoMemory>
    ensures { IfOk result (λ l. l ≡ calls_of plan.now path.now) }
{
    let numbers = numbers_at(alloc, plan, path)?;
    Ok(List::from_vec(numbers))
}

fn numbers_at(alloc: Global, plan: &[(Name, u64)], path: &[u8]) -> Result<Vec<u64>, AllocError>
    ensures { IfOk result (λ v. v.items ≡ calls_of plan.now path.now) }
{
    plan.iter()
        .filter(|p| p.0.bytes() == path)
        .map(|p| p.1)
        .collect(alloc)
}

// No entry stands at the path. A scan.
fn lacks(files: &[(Name, Entry)], path: &[u8]) -> bool
    ensures { IsTrue result ↔ All (λ e. e.0 ≢ path.now) files.now }
{
    for stored in files {
        if stored.0.bytes() == path {
            return false;
        }
    }
    true
}

// The path is a text, and no entry stands there. A scan.
fn is_new_path(files: &[(Name, Entry)], path: &[u8]) -> bool
    ensures { IsTrue result ↔ (IsUtf8 path.now × All (λ e. e.0 ≢ path.now) files.now) }
{
    str::from_utf8(path).is_ok() && lacks(files, path)
}

/// Whether no path stands twice and each is UTF-8. It takes as many steps as the square of the number of files.
pub fn are_paths(files: &[(Name, Entry)]) -> bool
    ensures { IsTrue result ↔ ArePaths files.now }
{
    for (place, stored) in files.iter().enumerate() {
        if !is_new_path(&files[..place], stored.0.bytes()) {
            return false;
        }
    }
    true
}
