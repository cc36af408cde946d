// The program of a host's folder, with its facts.
ghost use Rattle.std.specs.Prelude.{◌≡◌, ℕ, true, List, IfOk, IfSome, Err, option_map};
ghost use Rattle.edge_io.specs.Faults.{Rose};
ghost use Rattle.edge_io.specs.Files.{IsFolder};
ghost use Rattle.folder_reader.specs.Hosts.{Goes, Keeps};
ghost use Rattle.program_form.specs.Programs.{Program};
ghost use Rattle.acceptance.specs.Refusals.{Accepts, IsRefusal};
ghost use Rattle.program_loader.specs.Accepted.{IsWhole};

use crate::completing::completed;
use analysis::load_analysed;
use dep_form::facts::Facts;
use edge_io::host::Host;
use folder_loader::LoadError;
use hierarchy::Hierarchy;
use std::alloc::Global;

/// The classes of the class files at or below a folder of a host, and the facts of their program, which starts with the entries of
/// the class of a name where one is given; the name has slashes.
///
/// `Refused` has the line of the first thing for which the folder is refused, without its end. A host that is steady and tells its
/// files fails only where the folder isn't one; what it has is as before.
pub fn load<H: Host>(
    alloc: Global,
    host: &mut H,
    folder: &str,
    main: Option<&[u8]>,
) -> Result<(Hierarchy, Facts), LoadError>
    ensures accepted { IfOk result (λ x. (p : Program) × IsWhole (option_map (λ b. b.now) main.entry) x.0 x.1 p
        × IfSome (H.files host.old) (λ m. Accepts m folder.now (option_map (λ b. b.now) main.entry) p)) }
    ensures refused { (line : List ℕ) → result ≡ Err (LoadError.Refused line) → IfSome (H.files host.old) (λ m. IsRefusal m folder.now (option_map (λ b. b.now) main.entry) line) }
    ensures fault { result ≡ Err LoadError.Host → Rose (H.faults host.old) (H.faults host.new) }
    ensures cause { result ≡ Err LoadError.Host → H.steady host.old ≡ true → IfSome (H.files host.old) (λ m. IsFolder m folder.now → ⊥) }
    ensures goes { Goes H.faults H.steady H.source_steady H.sink_steady host.old host.new }
    ensures keeps { Keeps H.files H.said host.old host.new }
{
    let known = load_analysed(alloc, host, folder, main)?;
    let (loaded, analysed) = known;
    completed(alloc, loaded, &analysed)
}
