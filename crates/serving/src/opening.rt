// The files of the scripts and of their outputs.
ghost use Rattle.std.specs.Prelude.{◌≡◌, ◌≤◌, ◌<◌, ◌++◌, ◌∷◌, [], ℕ, List, true, length, take, Err, IfOk, OnOk, OnErr, IfSome, Some, slice_get, string_bytes, vec_len, vec_capacity};
ghost use Rattle.std.specs.Option.{option_map};
ghost use Rattle.edge_io.specs.Faults.{Rose};
ghost use Rattle.edge_io.specs.Files.{IsFile, IsFolder, file_set};
ghost use Rattle.folder_reader.specs.Hosts.{Goes, Keeps};
ghost use Rattle.words.specs.Scripts.{output_of};
ghost use Rattle.run_form.specs.Outputs.{AreFree, IsFirstFolder};
ghost use Rattle.serving.specs.Ends.{IsOpened, AreOpened, AreCreated, IsMade, AreMade};

use crate::room::keep;
use edge_io::host::{Host, HostError};
use slicer_ids::name::Text;
use std::alloc::{AllocError, Global};

/// Why the sessions of a run didn't begin.
#[derive(Clone, Copy, PartialEq, Eq, Debug, Drop)]
pub enum Stop {
    NoMemory,
    /// A call of the host failed.
    Host,
}

/// A source over each script, in order.
pub fn open_all<H: Host>(alloc: Global, host: &mut H, scripts: &[Text]) -> Result<Vec<H::In>, Stop>
    ensures opened { IfOk result (λ v. AreOpened H.In.left H.In.steady (H.files host.old) (H.source_steady host.old) scripts.now v.items) }
    ensures fault { result ≡ Err Stop.Host → Rose (H.faults host.old) (H.faults host.new) }
    ensures cause { result ≡ Err Stop.Host → H.steady host.old ≡ true → IfSome (H.files host.old) (λ m. (k : ℕ) × (script : List ℕ) × (slice_get scripts.now k ≡ Some script) × (IsFile m script → ⊥)) }
    ensures goes { Goes H.faults H.steady H.source_steady H.sink_steady host.old host.new }
    ensures keeps { Keeps H.files H.said host.old host.new }
{
    let mut opened = Vec::new(alloc);
    for script in scripts {
        open_one(host, script.as_str(), &mut opened)?;
    }
    Ok(opened)
}

// Opens a script, and puts its source behind the others.
fn open_one<H: Host>(host: &mut H, script: &str, opened: &mut Vec<H::In>) -> Result<(), Stop>
    ensures opened { OnOk result ((s : H.In) × IsOpened H.In.left H.In.steady (H.files host.old) (H.source_steady host.old) script.now s × (opened.new.items ≡ opened.old.items ++ s ∷ [])) }
    ensures fault { result ≡ Err Stop.Host → Rose (H.faults host.old) (H.faults host.new) }
    ensures cause { result ≡ Err Stop.Host → H.steady host.old ≡ true → IfSome (H.files host.old) (λ m. IsFile m script.now → ⊥) }
    ensures goes { Goes H.faults H.steady H.source_steady H.sink_steady host.old host.new }
    ensures keeps { Keeps H.files H.said host.old host.new }
{
    let source = source_of(host, script)?;
    match opened.push(source) {
        Ok(()) => Ok(()),
        Err(_) => Err(Stop::NoMemory),
    }
}

// A source over a script.
fn source_of<H: Host>(host: &mut H, script: &str) -> Result<H::In, Stop>
    ensures opened { IfOk result (IsOpened H.In.left H.In.steady (H.files host.old) (H.source_steady host.old) script.now) }
    ensures fault { result ≡ Err Stop.Host → Rose (H.faults host.old) (H.faults host.new) }
    ensures cause { result ≡ Err Stop.Host → H.steady host.old ≡ true → IfSome (H.files host.old) (λ m. IsFile m script.now → ⊥) }
    ensures goes { Goes H.faults H.steady H.source_steady H.sink_steady host.old host.new }
    ensures keeps { Keeps H.files H.said host.old host.new }
{
    match host.open(script) {
        Ok(source) => Ok(source),
        Err(HostError::Fault) => Err(Stop::Host),
        Err(_) => Err(Stop::NoMemory),
    }
}

// The path of a script's output.
fn output_path(alloc: Global, script: &str) -> Result<String, AllocError>
    ensures { IfOk result (λ s. string_bytes s ≡ output_of script.now) }
{
    format!(in alloc; "{script}.out")
}

/// A sink for each script's output, in order, put into a list that has room for them. Where one isn't made, those before it are there.
pub fn create_all<H: Host>(
    alloc: Global,
    host: &mut H,
    scripts: &[Text],
    made: &mut Vec<H::Out>,
) -> Result<(), Stop>
    requires empty { made.old.items ≡ [] }
    requires room { length scripts.now ≤ vec_capacity made.old }
    ensures count { length made.new.items ≤ length scripts.now }
    ensures all { OnOk result (length made.new.items ≡ length scripts.now) }
    ensures made { AreMade H.Out.written H.Out.label H.Out.steady (H.files host.old) (H.sink_steady host.old) (take (length made.new.items) scripts.now) made.new.items }
    ensures created { AreCreated (take (length made.new.items) scripts.now) (H.files host.old) (H.files host.new) }
    ensures free { IfSome (H.files host.old) (λ m. AreFree m (take (length made.new.items) scripts.now)) }
    ensures fault { result ≡ Err Stop.Host → Rose (H.faults host.old) (H.faults host.new) }
    ensures cause { result ≡ Err Stop.Host → H.steady host.old ≡ true → IfSome (H.files host.old) (λ m. IsFirstFolder m scripts.now (length made.new.items)) }
    ensures goes { Goes H.faults H.steady H.source_steady H.sink_steady host.old host.new }
    ensures said { H.said host.new ≡ H.said host.old }
{
    for script in scripts {
        let sink = create_one(alloc, host, script.as_str())?;
        keep(made, sink);
    }
    Ok(())
}

// Makes a script's output, and a sink for it.
fn create_one<H: Host>(alloc: Global, host: &mut H, script: &str) -> Result<H::Out, Stop>
    ensures made { IfOk result (IsMade H.Out.written H.Out.label H.Out.steady (H.files host.old) (H.sink_steady host.old) script.now) }
    ensures place { OnOk result (IfSome (H.files host.old) (λ m. IsFolder m (output_of script.now) → ⊥)) }
    ensures created { OnOk result (H.files host.new ≡ option_map (λ m. file_set m (output_of script.now) []) (H.files host.old)) }
    ensures unmade { OnErr result (H.files host.new ≡ H.files host.old) }
    ensures fault { result ≡ Err Stop.Host → Rose (H.faults host.old) (H.faults host.new) }
    ensures cause { result ≡ Err Stop.Host → H.steady host.old ≡ true → IfSome (H.files host.old) (λ m. IsFolder m (output_of script.now)) }
    ensures goes { Goes H.faults H.steady H.source_steady H.sink_steady host.old host.new }
    ensures said { H.said host.new ≡ H.said host.old }
{
    match output_path(alloc, script) {
        Ok(path) => create_at(host, path.as_str()),
        Err(_) => Err(Stop::NoMemory),
    }
}

// Makes a file, and a sink for it.
fn create_at<H: Host>(host: &mut H, path: &str) -> Result<H::Out, Stop>
    ensures label { IfOk result (λ s. H.Out.label s ≡ path.now) }
    ensures tells { IfOk result (λ s. IfSome (H.files host.old) (λ m. H.Out.written s ≡ Some [])) }
    ensures steadiness { IfOk result (λ s. H.Out.steady s ≡ H.sink_steady host.old path.now) }
    ensures place { OnOk result (IfSome (H.files host.old) (λ m. IsFolder m path.now → ⊥)) }
    ensures created { OnOk result (H.files host.new ≡ option_map (λ m. file_set m path.now []) (H.files host.old)) }
    ensures unmade { OnErr result (H.files host.new ≡ H.files host.old) }
    ensures fault { result ≡ Err Stop.Host → Rose (H.faults host.old) (H.faults host.new) }
    ensures cause { result ≡ Err Stop.Host → H.steady host.old ≡ true → IfSome (H.files host.old) (λ m. IsFolder m path.now) }
    ensures goes { Goes H.faults H.steady H.source_steady H.sink_steady host.old host.new }
    ensures said { H.said host.new ≡ H.said host.old }
{
    match host.create(path) {
        Ok(sink) => Ok(sink),
        Err(HostError::Fault) => Err(Stop::Host),
        Err(_) => Err(Stop::NoMemory),
    }
}
