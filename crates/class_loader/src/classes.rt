// The classes of the files of a folder.
ghost use Rattle.std.specs.Prelude.{◌≡◌, ◌<◌, ◌≤◌, ◌^◌, ◌++◌, ◌∷◌, [], ℕ, List, All, IfOk, OnOk, Err, Some, drop, length, slice_get};
ghost use Rattle.std.specs.List.{sum_by};
ghost use Rattle.edge_io.specs.Files.{inside};
ghost use Rattle.class_form.specs.Numbers.{IsNamedClass};
ghost use Rattle.hierarchy.specs.Trees.{AreFew};
ghost use Rattle.folder_reader.specs.Below.{IsBelow};
ghost use Rattle.body_rules.specs.Methods.{IsSound};
ghost use Rattle.acceptance.specs.Classes.{AreSound, IsFirstRefused};
ghost use Rattle.class_loader.specs.Taking.{AddsClass, IsRefusedFile};

use crate::error::ClassesError;
use crate::sound::read_sound;
use class_form::class_file::ClassFile;
use slicer_ids::ids::NoMemory;
use slicer_ids::name::{Name, Text};
use std::alloc::Global;

/// The classes of the files at paths below a folder, by their contents, in order.
///
/// Refused is the first file that is no class file (JVMS SE 7, chapter 4), or whose code has a fault; it is named by its path
/// below the folder. The classes have what `hierarchy::build` asks for, since a file has more bytes than members. Reads each
/// file and the code of each method once.
pub fn read_classes(
    alloc: Global,
    folder: &str,
    paths: &[Text],
    contents: &[Name],
) -> Result<Vec<ClassFile>, ClassesError>
    requires below { All (IsBelow folder.now) paths.now }
    requires number { length contents.now ≡ length paths.now }
    requires total { sum_by length contents.now ≤ 67108864 }
    ensures sound { IfOk result (λ v. AreSound contents.now v.items) }
    ensures few { IfOk result (λ v. AreFew v.items) }
    ensures named { IfOk result (λ v. All IsNamedClass v.items) }
    ensures refused { (line : List ℕ) → result ≡ Err (ClassesError.Refused line) → IsFirstRefused folder.now paths.now contents.now line }
{
    let mut classes = Vec::new(alloc);
    for place in 0..contents.len() {
        add_class(alloc, folder, paths, contents, place, &mut classes)?;
    }
    Ok(classes)
}

// Adds the class of the file at a place.
fn add_class(
    alloc: Global,
    folder: &str,
    paths: &[Text],
    contents: &[Name],
    place: usize,
    classes: &mut Vec<ClassFile>,
) -> Result<(), ClassesError>
    requires below { All (IsBelow folder.now) paths.now }
    requires number { length contents.now ≡ length paths.now }
    requires small { All (λ bytes. length bytes < 2 ^ 32) contents.now }
    requires place { place < length paths.now }
    ensures added { OnOk result (AddsClass contents.now place classes.old.items classes.new.items) }
    ensures refused { (line : List ℕ) → result ≡ Err (ClassesError.Refused line) → IsRefusedFile folder.now paths.now contents.now place line }
{
    let class = class_at(alloc, folder, paths, contents, place)?;
    match push(classes, class) {
        Ok(()) => Ok(()),
        Err(_) => Err(ClassesError::NoMemory),
    }
}

fn push(classes: &mut Vec<ClassFile>, class: ClassFile) -> Result<(), NoMemory>
    ensures { OnOk result (classes.new.items ≡ classes.old.items ++ class ∷ []) }
{
    classes.push(class)?;
    Ok(())
}

// The class of the file at a place.
fn class_at(
    alloc: Global,
    folder: &str,
    paths: &[Text],
    contents: &[Name],
    place: usize,
) -> Result<ClassFile, ClassesError>
    requires below { All (IsBelow folder.now) paths.now }
    requires number { length contents.now ≡ length paths.now }
    requires small { All (λ bytes. length bytes < 2 ^ 32) contents.now }
    requires place { place < length paths.now }
    ensures sound { IfOk result (λ class. (bytes : List ℕ) × (slice_get contents.now place ≡ Some bytes) × IsSound bytes class) }
    ensures refused { (line : List ℕ) → result ≡ Err (ClassesError.Refused line) → IsRefusedFile folder.now paths.now contents.now place line }
{
    let path = path_at(paths, place);
    let below = path_below(folder, path);
    let bytes = bytes_at(contents, place);
    let class = read_sound(alloc, below, bytes)?;
    Ok(class)
}

fn path_at(paths: &[Text], place: usize) -> &str
    requires { place < length paths.now }
    ensures { slice_get paths.now place ≡ Some result.now }
{
    paths[place].as_str()
}

fn bytes_at(contents: &[Name], place: usize) -> &[u8]
    requires { place < length contents.now }
    ensures { slice_get contents.now place ≡ Some result.now }
{
    contents[place].bytes()
}

// What stands in a path after the folder's path and a slash.
fn path_below<'a>(folder: &str, path: &'a str) -> &'a [u8]
    requires { IsBelow folder.now path.now }
    ensures { path.now ≡ inside folder.now result.now }
{
    let start = folder.len() + 1;
    behind(path.as_bytes(), start)
}

fn behind(bytes: &[u8], start: usize) -> &[u8]
    requires { start ≤ length bytes.now }
    ensures { result.now ≡ drop start bytes.now }
{
    &bytes[start..]
}
