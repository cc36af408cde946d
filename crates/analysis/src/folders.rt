// The program of a host's folder, analysed.
ghost use Rattle.std.specs.Prelude.{◌≡◌, ℕ, true, List, IfOk, IfSome, Err, option_map};
ghost use Rattle.edge_io.specs.Faults.{Rose};
ghost use Rattle.edge_io.specs.Files.{IsFolder};
ghost use Rattle.folder_reader.specs.Hosts.{Goes, Keeps};
ghost use Rattle.program_form.specs.Programs.{Program};
ghost use Rattle.acceptance.specs.Refusals.{IsRefusal};
ghost use Rattle.folder_loader.specs.Loading.{IsLoaded, IsProgramIn};
ghost use Rattle.analysis.specs.Analysed.{IsOf, IsAnalysisOf};

use crate::analysing::{Analysed, analyse};
use edge_io::host::Host;
use folder_loader::{LoadError, Loaded, load};
use std::alloc::Global;

/// The program of the class files at or below a folder of a host, with the entries of the class of a name where one is given
/// (`folder_loader::load`), and what is found of it (`analyse`).
///
/// `Refused` has the line of the first thing for which the folder is refused, but for the limits of nodes and of the words of
/// summaries. A host that is steady and tells its files fails only where the folder isn't one; what it has is as before.
pub fn load_analysed<H: Host>(
    alloc: Global,
    host: &mut H,
    folder: &str,
    main: Option<&[u8]>,
) -> Result<(Loaded, Analysed), LoadError>
    ensures analysed { IfOk result (λ x. (p : Program) × IsOf x.0 p × IsLoaded (option_map (λ b. b.now) main.entry) p × IsAnalysisOf p x.1.system x.1.solution x.1.effects
        × IfSome (H.files host.old) (λ m. IsProgramIn m folder.now (option_map (λ b. b.now) main.entry) p)) }
    ensures refused { (line : List ℕ) → result ≡ Err (LoadError.Refused line) → IfSome (H.files host.old) (λ m. IsRefusal m folder.now (option_map (λ b. b.now) main.entry) line) }
    ensures fault { result ≡ Err LoadError.Host → Rose (H.faults host.old) (H.faults host.new) }
    ensures cause { result ≡ Err LoadError.Host → H.steady host.old ≡ true → IfSome (H.files host.old) (λ m. IsFolder m folder.now → ⊥) }
    ensures goes { Goes H.faults H.steady H.source_steady H.sink_steady host.old host.new }
    ensures keeps { Keeps H.files H.said host.old host.new }
{
    let loaded = load(alloc, host, folder, main)?;
    let analysed = analyse(alloc, &loaded)?;
    Ok((loaded, analysed))
}
