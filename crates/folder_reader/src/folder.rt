// The class files of a folder, found and read.
ghost use Rattle.std.specs.Prelude.{◌≡◌, ◌⊎◌, ◌≤◌, ℕ, true, List, All, IfOk, IfSome, Err, length};
ghost use Rattle.std.specs.List.{sum_by};
ghost use Rattle.slicer_ids.specs.declared.limits.LimitKind.{LimitKind};
ghost use Rattle.edge_io.specs.Faults.{Rose};
ghost use Rattle.edge_io.specs.Files.{IsFolder};
ghost use Rattle.folder_form.specs.Walks.{WalksFolder, Found};
ghost use Rattle.folder_form.specs.Reading.{ReadsAll, Contents};
ghost use Rattle.folder_reader.specs.Hosts.{Goes, Keeps};
ghost use Rattle.folder_reader.specs.Below.{IsBelow};
ghost use Rattle.folder_reader.specs.Folders.{ExceedsLimit};

use crate::error::FolderError;
use crate::reading::contents;
use crate::walk::class_files;
use edge_io::host::Host;
use slicer_ids::name::{Name, Text};
use std::alloc::Global;

/// The paths of class files, and their bytes, in the same order.
#[derive(Drop)]
pub struct FolderFiles {
    pub paths: Vec<Text>,
    pub contents: Vec<Name>,
}

/// Finds the class files at or below a folder of a host (`class_files`), and reads them (`contents`).
///
/// A host that is steady and tells its files fails only where the folder isn't one: what the walk finds are files.
pub fn read_folder<H: Host>(
    alloc: Global,
    host: &mut H,
    folder: &str,
) -> Result<FolderFiles, FolderError>
    ensures walk { IfOk result (λ f. IfSome (H.files host.old) (λ m. WalksFolder m folder.now (Found f.paths.items))) }
    ensures reading { IfOk result (λ f. IfSome (H.files host.old) (λ m. ReadsAll m f.paths.items (Contents f.contents.items))) }
    ensures below { IfOk result (λ f. All (IsBelow folder.now) f.paths.items) }
    ensures few { IfOk result (λ f. length f.paths.items ≤ 16384) }
    ensures number { IfOk result (λ f. length f.contents.items ≡ length f.paths.items) }
    ensures total { IfOk result (λ f. sum_by length f.contents.items ≤ 67108864) }
    ensures limit { (kind : LimitKind) (count : ℕ) → result ≡ Err (FolderError.TooMany kind count) → IfSome (H.files host.old) (λ m. ExceedsLimit m folder.now kind count) }
    ensures fault { result ≡ Err FolderError.Host → Rose (H.faults host.old) (H.faults host.new) }
    ensures cause { result ≡ Err FolderError.Host → H.steady host.old ≡ true → IfSome (H.files host.old) (λ m. IsFolder m folder.now → ⊥) }
    ensures goes { Goes H.faults H.steady H.source_steady H.sink_steady host.old host.new }
    ensures keeps { Keeps H.files H.said host.old host.new }
{
    let paths = class_files(alloc, host, folder)?;
    let bytes = contents(alloc, host, &paths)?;
    Ok(FolderFiles {
        paths,
        contents: bytes,
    })
}
