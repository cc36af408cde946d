// From files to a hierarchy.
ghost use Rattle.std.specs.Prelude.{◌≡◌, ◌≤◌, All, length};
ghost use Rattle.std.specs.List.{sum_by};
ghost use Rattle.folder_reader.specs.Below.{IsBelow};
ghost use Rattle.class_form.specs.Numbers.{IsNamedClass};
ghost use Rattle.hierarchy.specs.Trees.{AreFew};

use crate::counts::count_bytes;
use anyhow::Result;
use bench_tools::watch::Watch;
use class_form::class_file::ClassFile;
use class_loader::read_classes;
use edge_io::host::Host;
use folder_reader::{FolderFiles, read_folder};
use hierarchy::build;
use slicer_ids::name::{Name, Text};

fn measure_hierarchy(rt: &HostRuntime, classes: Vec<ClassFile>) -> Result<()>
    requires few { AreFew classes.items }
    requires named { All IsNamedClass classes.items }
{
    let watch = Watch::start(rt)?;
    let _hierarchy = build(rt.alloc(), classes)?;
    let spent = watch.spent(rt)?;
    println!(rt; "  hierarchy: {spent}")?;
    Ok(())
}

fn measure_classes(rt: &HostRuntime, folder: &str, paths: &[Text], contents: &[Name]) -> Result<()>
    requires below { All (IsBelow folder.now) paths.now }
    requires number { length contents.now ≡ length paths.now }
    requires total { sum_by length contents.now ≤ 67108864 }
{
    let watch = Watch::start(rt)?;
    let classes = read_classes(rt.alloc(), folder, paths, contents)?;
    let spent = watch.spent(rt)?;
    println!(rt; "  decoding: {spent}")?;
    measure_hierarchy(rt, classes)
}

fn measure_read(rt: &HostRuntime, folder: &str, files: &FolderFiles) -> Result<()>
    requires below { All (IsBelow folder.now) files.now.paths.items }
    requires number { length files.now.contents.items ≡ length files.now.paths.items }
    requires total { sum_by length files.now.contents.items ≤ 67108864 }
{
    let paths = files.paths.as_slice();
    let contents = files.contents.as_slice();
    measure_classes(rt, folder, paths, contents)
}

/// Prints how long it takes to read the class files of a folder, to decode them, and to make a hierarchy of their classes.
pub fn measure_files<H: Host>(rt: &HostRuntime, host: &mut H, folder: &str) -> Result<()> {
    let watch = Watch::start(rt)?;
    let files = read_folder(rt.alloc(), host, folder)?;
    let spent = watch.spent(rt)?;
    let count = files.paths.len();
    let bytes = count_bytes(files.contents.as_slice());
    println!(rt; "  {count} class files, {bytes} bytes")?;
    println!(rt; "  reading: {spent}")?;
    measure_read(rt, folder, &files)
}
