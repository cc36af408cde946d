// The ends of the sessions: sources over the scripts, and sinks into their outputs.
ghost use Rattle.std.specs.Prelude.{◌≡◌, ℕ, List, Bool, true, Err, IfOk, OnOk, OnErr, IfSome, Option, Some, take};
ghost use Rattle.edge_io.specs.Faults.{Rose};
ghost use Rattle.edge_io.specs.Files.{Files};
ghost use Rattle.dep_form.specs.declared.facts.Facts.{Facts};
ghost use Rattle.folder_reader.specs.Hosts.{Goes};
ghost use Rattle.words.specs.Scripts.{AreScripts};
ghost use Rattle.run_form.specs.Outputs.{AreFree, IsFirstFolder, IsPathFault};
ghost use Rattle.serving.specs.Ends.{AreApart, AreMade, AreCreated};
ghost use Rattle.serving.specs.AllEnded.{AreReady};
ghost use Rattle.serving.specs.Served.{KeepsPaths};

use crate::closing::close_all;
use crate::opening::{Stop, create_all, open_all};
use edge_io::host::Host;
use slicer_ids::name::Text;
use std::alloc::Global;

/// The ends of the scripts' sessions, in order.
#[derive(Drop)]
pub struct Ends<S, K> {
    pub sources: Vec<S>,
    pub sinks: Vec<K>,
}

/// Opens the scripts, and then makes their outputs. Where one isn't made, those before it are closed, empty.
pub fn open_ends<H: Host>(
    alloc: Global,
    host: &mut H,
    scripts: &[Text],
) -> Result<Ends<H::In, H::Out>, Stop>
    requires { AreScripts scripts.now }
    ensures ready { IfOk result (λ e. AreReady H.In.left H.In.steady H.Out.written H.Out.label H.Out.steady (H.files host.old) (H.files host.new) (H.source_steady host.old) (H.sink_steady host.old) scripts.now e.sources.items e.sinks.items) }
    ensures apart { IfOk result (λ e. AreApart H.Out.written H.Out.label e.sinks.items) }
    ensures unready { OnErr result ((f : Facts) → KeepsPaths f (H.files host.old) (H.files host.new) scripts.now) }
    ensures fault { result ≡ Err Stop.Host → Rose (H.faults host.old) (H.faults host.new) }
    ensures cause { result ≡ Err Stop.Host → H.steady host.old ≡ true → IfSome (H.files host.old) (λ m. (after : Files) × (H.files host.new ≡ Some after) × IsPathFault m scripts.now after) }
    ensures said { H.said host.new ≡ H.said host.old }
    ensures goes { Goes H.faults H.steady H.source_steady H.sink_steady host.old host.new }
{
    let sources = open_all(alloc, host, scripts)?;
    match create_outputs(alloc, host, scripts) {
        Ok(sinks) => Ok(Ends { sources, sinks }),
        Err(stop) => Err(stop),
    }
}

// A sink for each script's output, in order. Where one isn't made, those before it are closed.
fn create_outputs<H: Host>(
    alloc: Global,
    host: &mut H,
    scripts: &[Text],
) -> Result<Vec<H::Out>, Stop>
    requires { AreScripts scripts.now }
    ensures made { IfOk result (λ v. AreMade H.Out.written H.Out.label H.Out.steady (H.files host.old) (H.sink_steady host.old) scripts.now v.items) }
    ensures created { OnOk result (AreCreated scripts.now (H.files host.old) (H.files host.new)) }
    ensures free { OnOk result (IfSome (H.files host.old) (λ m. AreFree m scripts.now)) }
    ensures some { OnErr result ((n : ℕ) × AreCreated (take n scripts.now) (H.files host.old) (H.files host.new)) }
    ensures fault { result ≡ Err Stop.Host → Rose (H.faults host.old) (H.faults host.new) }
    ensures cause { result ≡ Err Stop.Host → H.steady host.old ≡ true → (n : ℕ) × AreCreated (take n scripts.now) (H.files host.old) (H.files host.new) × IfSome (H.files host.old) (λ m. IsFirstFolder m scripts.now n) }
    ensures said { H.said host.new ≡ H.said host.old }
    ensures goes { Goes H.faults H.steady H.source_steady H.sink_steady host.old host.new }
{
    let Ok(mut sinks) = Vec::with_capacity(alloc, scripts.len()) else {
        return Err(Stop::NoMemory);
    };
    match create_all(alloc, host, scripts, &mut sinks) {
        Ok(()) => Ok(sinks),
        Err(stop) => {
            close_empty(host, sinks);
            Err(stop)
        }
    }
}

/// Closes outputs to which nothing was written. They are empty still, also where a close fails.
pub fn close_empty<H: Host>(host: &mut H, sinks: Vec<H::Out>)
    requires { AreApart H.Out.written H.Out.label sinks.items }
    ensures files { (files : Option Files) (steadiness : List ℕ → Bool) (scripts : List (List ℕ)) → AreMade H.Out.written H.Out.label H.Out.steady files steadiness scripts sinks.items → AreCreated scripts files (H.files host.old) → AreCreated scripts files (H.files host.new) }
    ensures said { H.said host.new ≡ H.said host.old }
    ensures goes { Goes H.faults H.steady H.source_steady H.sink_steady host.old host.new }
{
    let _ = close_all(host, sinks);
}
