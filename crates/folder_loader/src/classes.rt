// The classes of class files, as a hierarchy.
ghost use Rattle.std.specs.Prelude.{◌≡◌, ◌≤◌, ℕ, List, All, IfOk, Err, length};
ghost use Rattle.std.specs.List.{sum_by};
ghost use Rattle.class_form.specs.Numbers.{IsNamedClass};
ghost use Rattle.class_form.specs.Folders.{IsHierarchyOf};
ghost use Rattle.class_form.specs.declared.class_file.ClassFile.{ClassFile};
ghost use Rattle.hierarchy.specs.Trees.{AreFew};
ghost use Rattle.hierarchy.specs.Causes.{IsCause};
ghost use Rattle.hierarchy.specs.declared.tree.TreeError.{TreeError};
ghost use Rattle.folder_reader.specs.Below.{IsBelow};
ghost use Rattle.acceptance.specs.Classes.{AreSound, IsFirstRefused};
ghost use Rattle.folder_loader.specs.Lines.{IsTreeLine};
ghost use Rattle.folder_loader.specs.Trying.{RefusesSound};

use crate::error::LoadError;
use crate::lines::no_hierarchy;
use class_form::class_file::ClassFile;
use class_loader::{ClassesError, read_classes};
use folder_reader::FolderFiles;
use hierarchy::{Hierarchy, build};
use slicer_ids::name::{Name, Text};
use std::alloc::Global;

// The classes of files, in their order.
fn classes_at(
    alloc: Global,
    folder: &str,
    paths: &[Text],
    contents: &[Name],
) -> Result<Vec<ClassFile>, LoadError>
    requires below { All (IsBelow folder.now) paths.now }
    requires number { length contents.now ≡ length paths.now }
    requires total { sum_by length contents.now ≤ 67108864 }
    ensures sound { IfOk result (λ v. AreSound contents.now v.items) }
    ensures few { IfOk result (λ v. AreFew v.items) }
    ensures named { IfOk result (λ v. All IsNamedClass v.items) }
    ensures refused { (line : List ℕ) → result ≡ Err (LoadError.Refused line) → IsFirstRefused folder.now paths.now contents.now line }
    ensures host { result ≡ Err LoadError.Host → ⊥ }
{
    match read_classes(alloc, folder, paths, contents) {
        Ok(classes) => Ok(classes),
        Err(ClassesError::Refused(line)) => Err(LoadError::Refused(line)),
        Err(ClassesError::NoMemory) => Err(LoadError::NoMemory),
    }
}

// The hierarchy of classes, or what is said of a name that stands twice, or of a class that is its own ancestor.
fn hierarchy_of(alloc: Global, classes: Vec<ClassFile>) -> Result<Hierarchy, LoadError>
    requires few { AreFew classes.items }
    requires named { All IsNamedClass classes.items }
    ensures tree { IfOk result (λ h. IsHierarchyOf classes.items h) }
    ensures refused { (line : List ℕ) → result ≡ Err (LoadError.Refused line) → (error : TreeError) × IsCause classes.items error × IsTreeLine error line }
    ensures host { result ≡ Err LoadError.Host → ⊥ }
{
    match build(alloc, classes) {
        Ok(h) => Ok(h),
        Err(error) => Err(no_hierarchy(alloc, &error)),
    }
}

// .. of the classes of files.
fn hierarchy_at(
    alloc: Global,
    folder: &str,
    paths: &[Text],
    contents: &[Name],
) -> Result<Hierarchy, LoadError>
    requires below { All (IsBelow folder.now) paths.now }
    requires number { length contents.now ≡ length paths.now }
    requires total { sum_by length contents.now ≤ 67108864 }
    ensures tree { IfOk result (λ h. (files : List ClassFile) × AreSound contents.now files × IsHierarchyOf files h) }
    ensures refused { (line : List ℕ) → result ≡ Err (LoadError.Refused line) → RefusesSound folder.now paths.now contents.now line }
    ensures host { result ≡ Err LoadError.Host → ⊥ }
{
    let classes = classes_at(alloc, folder, paths, contents)?;
    hierarchy_of(alloc, classes)
}

/// The hierarchy of the classes of a folder's files. Refused is the first file that is no class file or whose code has a fault
/// (`class_loader::read_classes`); else a name that stands twice, or a class that is its own ancestor (`hierarchy::build`).
pub fn hierarchy_in(
    alloc: Global,
    folder: &str,
    files: &FolderFiles,
) -> Result<Hierarchy, LoadError>
    requires below { All (IsBelow folder.now) files.now.paths.items }
    requires number { length files.now.contents.items ≡ length files.now.paths.items }
    requires total { sum_by length files.now.contents.items ≤ 67108864 }
    ensures tree { IfOk result (λ h. (classes : List ClassFile) × AreSound files.now.contents.items classes × IsHierarchyOf classes h) }
    ensures refused { (line : List ℕ) → result ≡ Err (LoadError.Refused line) → RefusesSound folder.now files.now.paths.items files.now.contents.items line }
    ensures host { result ≡ Err LoadError.Host → ⊥ }
{
    let paths = files.paths.as_slice();
    let contents = files.contents.as_slice();
    hierarchy_at(alloc, folder, paths, contents)
}
