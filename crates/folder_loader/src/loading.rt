// The program of a host's folder.
ghost use Rattle.std.specs.Prelude.{◌≡◌, ℕ, true, List, IfOk, IfSome, Err, option_map};
ghost use Rattle.edge_io.specs.Faults.{Rose};
ghost use Rattle.edge_io.specs.Files.{IsFolder};
ghost use Rattle.folder_reader.specs.Hosts.{Goes, Keeps};
ghost use Rattle.program_form.specs.Programs.{Program};
ghost use Rattle.acceptance.specs.Refusals.{IsRefusal};
ghost use Rattle.folder_loader.specs.Loading.{HasParts, IsLoaded, IsProgramIn};

use crate::classes::hierarchy_in;
use crate::error::LoadError;
use crate::files::files_of;
use crate::parts::{Loaded, parts_of};
use class_loader::laws::sound_files_have_sound_classes;
use edge_io::host::Host;
use std::alloc::Global;

/// The program of the class files at or below a folder of a host: its hierarchy, the bodies of its methods, and its entries, those
/// of the class of a name where one is given.
///
/// `Refused` has the line of the first of these: a limit is exceeded while the folder is walked or its class files are read; a file
/// is no class file, or its code has a fault (JVMS SE 7, chapter 4); a name stands twice, or a class is its own ancestor (5.3.5);
/// there is no entry. Whether the program itself is refused isn't asked here. A host that is steady and tells its files fails only
/// where the folder isn't one; what it has is as before.
///
/// Reads each file once, and the code of each method twice.
pub fn load<H: Host>(
    alloc: Global,
    host: &mut H,
    folder: &str,
    main: Option<&[u8]>,
) -> Result<Loaded, LoadError>
    ensures program { IfOk result (λ l. (p : Program) × HasParts l.hierarchy l.bodies.items l.entries p × IsLoaded (option_map (λ b. b.now) main.entry) p
        × IfSome (H.files host.old) (λ m. IsProgramIn m folder.now (option_map (λ b. b.now) main.entry) p)) }
    ensures refused { (line : List ℕ) → result ≡ Err (LoadError.Refused line) → IfSome (H.files host.old) (λ m. IsRefusal m folder.now (option_map (λ b. b.now) main.entry) line) }
    ensures fault { result ≡ Err LoadError.Host → Rose (H.faults host.old) (H.faults host.new) }
    ensures cause { result ≡ Err LoadError.Host → H.steady host.old ≡ true → IfSome (H.files host.old) (λ m. IsFolder m folder.now → ⊥) }
    ensures goes { Goes H.faults H.steady H.source_steady H.sink_steady host.old host.new }
    ensures keeps { Keeps H.files H.said host.old host.new }
{
    sound_files_have_sound_classes();
    let files = files_of(alloc, host, folder)?;
    let hierarchy = hierarchy_in(alloc, folder, &files)?;
    parts_of(alloc, hierarchy, main)
}
