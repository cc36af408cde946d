// A request, served.
ghost use Rattle.std.specs.Prelude.{◌≡◌, ◌⊎◌, ℕ, List, true, Some, option_map};
ghost use Rattle.edge_io.specs.Faults.{Rose};
ghost use Rattle.edge_io.specs.Reads.{appended};
ghost use Rattle.folder_reader.specs.Hosts.{Goes};
ghost use Rattle.words.specs.Scripts.{AreScripts};
ghost use Rattle.run_form.specs.Endings.{RunsAs, AreSteady, Says, KeepsFiles};

use crate::refusing::unloaded;
use edge_io::host::Host;
use fact_form::laws::facts_list_each_statement;
use program_loader::load;
use serving::serving::serve_scripts;
use std::alloc::Global;
use std::thread::Threads;
use words::request::Request;

// The name of the class whose `main` is the entry, where one is asked for.
fn main_of(request: &Request) -> Option<&[u8]>
    ensures { option_map (λ b. b.now) result ≡ request.now.main }
{
    match &request.main {
        Some(name) => Some(name.bytes()),
        None => None,
    }
}

/// Loads the folder of a request and serves its scripts, each to its output. Answers the status.
///
/// 0 and 4 come only with what the definition of a run says and leaves, 3 only where the count of the host's faults rose, and of a
/// steady host only by that definition; 5 only where a source or a sink isn't steady.
pub fn serve_request<R: Threads + Sync, H: Host>(
    rt: &R,
    alloc: Global,
    host: &mut H,
    request: &Request,
) -> u8
    requires { AreScripts request.now.scripts }
    ensures kinds { (result ≡ 0) ⊎ (result ≡ 1) ⊎ (result ≡ 3) ⊎ (result ≡ 4) ⊎ (result ≡ 5) }
    ensures done { result ≡ 0 → RunsAs (H.files host.old) (H.files host.new) (H.said host.old) (H.said host.new) (Some request.now) 0 }
    ensures refused { result ≡ 4 → RunsAs (H.files host.old) (H.files host.new) (H.said host.old) (H.said host.new) (Some request.now) 4 }
    ensures fault { result ≡ 3 → Rose (H.faults host.old) (H.faults host.new) }
    ensures cause { result ≡ 3 → H.steady host.old ≡ true → RunsAs (H.files host.old) (H.files host.new) (H.said host.old) (H.said host.new) (Some request.now) 3 }
    ensures ends { result ≡ 5 → AreSteady (H.source_steady host.old) (H.sink_steady host.old) request.now.scripts → ⊥ }
    ensures says { (told : List ℕ) × (H.said host.new ≡ appended told (H.said host.old)) × Says (H.files host.old) (H.files host.new) (H.source_steady host.old) (H.sink_steady host.old) (Some request.now) result told }
    ensures files { KeepsFiles (H.files host.old) (H.files host.new) (Some request.now) }
    ensures goes { Goes H.faults H.steady H.source_steady H.sink_steady host.old host.new }
{
    facts_list_each_statement();
    let main = main_of(request);
    let folder = request.folder.as_str();
    let scripts = request.scripts.items();
    match load(alloc, host, folder, main) {
        Ok((_, facts)) => serve_scripts(rt, alloc, host, facts, scripts),
        Err(error) => unloaded(host, error),
    }
}
