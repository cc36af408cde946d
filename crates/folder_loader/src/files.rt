// The class files of a folder, found and read.
ghost use Rattle.std.specs.Prelude.{◌≡◌, ◌≤◌, ℕ, true, List, All, IfOk, IfSome, Err, length};
ghost use Rattle.std.specs.List.{sum_by};
ghost use Rattle.edge_io.specs.Faults.{Rose};
ghost use Rattle.edge_io.specs.Files.{IsFolder};
ghost use Rattle.folder_reader.specs.Hosts.{Goes, Keeps};
ghost use Rattle.folder_reader.specs.Below.{IsBelow};
ghost use Rattle.acceptance.specs.Classes.{HasFiles};
ghost use Rattle.acceptance.specs.Refusals.{RefusesFiles};

use crate::error::LoadError;
use crate::lines::unread;
use edge_io::host::Host;
use folder_reader::{FolderFiles, read_folder};
use std::alloc::Global;

/// The paths and the bytes of the class files of a folder (`folder_reader::read_folder`), or the line on the limit that is exceeded
/// first.
pub fn files_of<H: Host>(
    alloc: Global,
    host: &mut H,
    folder: &str,
) -> Result<FolderFiles, LoadError>
    ensures files { IfOk result (λ f. IfSome (H.files host.old) (λ m. HasFiles m folder.now f.paths.items f.contents.items)) }
    ensures below { IfOk result (λ f. All (IsBelow folder.now) f.paths.items) }
    ensures number { IfOk result (λ f. length f.contents.items ≡ length f.paths.items) }
    ensures total { IfOk result (λ f. sum_by length f.contents.items ≤ 67108864) }
    ensures refused { (line : List ℕ) → result ≡ Err (LoadError.Refused line) → IfSome (H.files host.old) (λ m. RefusesFiles m folder.now line) }
    ensures fault { result ≡ Err LoadError.Host → Rose (H.faults host.old) (H.faults host.new) }
    ensures cause { result ≡ Err LoadError.Host → H.steady host.old ≡ true → IfSome (H.files host.old) (λ m. IsFolder m folder.now → ⊥) }
    ensures goes { Goes H.faults H.steady H.source_steady H.sink_steady host.old host.new }
    ensures keeps { Keeps H.files H.said host.old host.new }
{
    match read_folder(alloc, host, folder) {
        Ok(files) => Ok(files),
        Err(error) => Err(unread(alloc, error)),
    }
}
