// The scripts of a run, from their opening to the last line that is said.
ghost use Rattle.std.specs.Prelude.{◌≡◌, ◌≤◌, ◌⊎◌, ℕ, List, Option, true, length};
ghost use Rattle.edge_io.specs.Faults.{Rose};
ghost use Rattle.edge_io.specs.Files.{Files};
ghost use Rattle.edge_io.specs.Reads.{appended};
ghost use Rattle.folder_reader.specs.Hosts.{Goes};
ghost use Rattle.session_form.specs.States.{AreListed};
ghost use Rattle.words.specs.Scripts.{AreScripts};
ghost use Rattle.run_form.specs.Endings.{AreSteady};
ghost use Rattle.serving.specs.Ends.{AreApart};
ghost use Rattle.serving.specs.AllEnded.{AreReady, RanOn};
ghost use Rattle.serving.specs.Served.{AreServedTo, PathFails, SaysOnScripts, KeepsPaths};

use crate::ends::{Ends, close_empty, open_ends};
use crate::opening::Stop;
use crate::running::attend_all;
use crate::saying::host_fault;
use dep_form::facts::Facts;
use edge_io::host::Host;
use sessions::shared::Shared;
use slicer_ids::name::Text;
use std::alloc::Global;
use std::thread::Threads;

/// Serves the scripts, each to its output, over the facts of a program, and answers the status of the run.
///
/// 0 comes only where every script was served to its end, 5 only where a source or a sink isn't steady, 3 only where the count of the
/// host's faults rose: of a steady host only where a script isn't a file, or an output is a folder.
pub fn serve_scripts<R: Threads + Sync, H: Host>(
    rt: &R,
    alloc: Global,
    host: &mut H,
    facts: Facts,
    scripts: &[Text],
) -> u8
    requires listed { AreListed facts }
    requires scripts { AreScripts scripts.now }
    ensures kinds { (result ≡ 0) ⊎ (result ≡ 1) ⊎ (result ≡ 3) ⊎ (result ≡ 5) }
    ensures done { result ≡ 0 → AreServedTo facts (H.files host.old) (H.files host.new) (H.said host.old) (H.said host.new) scripts.now }
    ensures fault { result ≡ 3 → Rose (H.faults host.old) (H.faults host.new) }
    ensures cause { result ≡ 3 → H.steady host.old ≡ true → PathFails (H.files host.old) (H.files host.new) (H.said host.old) (H.said host.new) scripts.now }
    ensures ends { result ≡ 5 → AreSteady (H.source_steady host.old) (H.sink_steady host.old) scripts.now → ⊥ }
    ensures says { (told : List ℕ) × (H.said host.new ≡ appended told (H.said host.old)) × SaysOnScripts facts (H.files host.old) (H.files host.new) (H.source_steady host.old) (H.sink_steady host.old) scripts.now result told }
    ensures files { KeepsPaths facts (H.files host.old) (H.files host.new) scripts.now }
    ensures goes { Goes H.faults H.steady H.source_steady H.sink_steady host.old host.new }
{
    match open_ends(alloc, host, scripts) {
        Ok(ends) => share(rt, alloc, host, facts, ends),
        Err(Stop::NoMemory) => 1,
        Err(Stop::Host) => host_fault(host),
    }
}

// Makes what the sessions share, and attends them.
fn share<R: Threads + Sync, H: Host>(
    rt: &R,
    alloc: Global,
    host: &mut H,
    facts: Facts,
    ends: Ends<H::In, H::Out>,
) -> u8
    requires listed { AreListed facts }
    requires pairs { length ends.sources.items ≡ length ends.sinks.items }
    requires few { length ends.sinks.items ≤ 64 }
    requires apart { AreApart H.Out.written H.Out.label ends.sinks.items }
    ensures ran { (files : Option Files) (scripts : List (List ℕ)) → AreReady H.In.left H.In.steady H.Out.written H.Out.label H.Out.steady files (H.files host.old) (H.source_steady host.old) (H.sink_steady host.old) scripts ends.sources.items ends.sinks.items → RanOn facts files (H.files host.new) (H.said host.old) (H.said host.new) (H.source_steady host.old) (H.sink_steady host.old) (H.steady host.old) scripts result }
    ensures fault { result ≡ 3 → Rose (H.faults host.old) (H.faults host.new) }
    ensures goes { Goes H.faults H.steady H.source_steady H.sink_steady host.old host.new }
{
    match Shared::new(alloc, facts) {
        Ok((shared, seat)) => attend_all(rt, alloc, host, &shared, seat, ends),
        Err(_) => {
            close_empty(host, ends.sinks);
            1
        }
    }
}
