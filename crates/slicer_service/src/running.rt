// A run of the program.
ghost use Rattle.std.specs.Prelude.{◌≡◌, ◌⊎◌, ◌≤◌, ℕ, List, true, Some, IfSome, map, string_bytes};
ghost use Rattle.edge_io.specs.Faults.{Rose};
ghost use Rattle.edge_io.specs.Files.{Files};
ghost use Rattle.edge_io.specs.Reads.{appended};
ghost use Rattle.words.specs.Asking.{IsAsked, asked};
ghost use Rattle.words.specs.declared.request.Request.{Request};
ghost use Rattle.run_form.specs.Said.{usage_line};
ghost use Rattle.run_form.specs.Outputs.{AreFiles, AreFree};
ghost use Rattle.run_form.specs.Runs.{IsAccepted, RunOf};
ghost use Rattle.run_form.specs.Endings.{RunsAs, AreSteady, Says, KeepsFiles};

use crate::refusing::unasked;
use crate::served::serve_request;
use acceptance::laws::one_end;
use edge_io::host::Host;
use run_form::laws::one_run;
use std::alloc::Global;
use std::thread::Threads;
use words::reading::read_words;

/// Runs the program on the words of its command line, without the program's name, and answers its exit status.
///
/// The words ask for a request, `[--main NAME] FOLDER SCRIPT...`, or for nothing (`words::read_words`). A session is served for each
/// script, each on a thread of its own; its replies go to the file SCRIPT.out.
pub fn run<R: Threads + Sync, H: Host>(rt: &R, alloc: Global, words: &[String], host: &mut H) -> u8
    // The headline: where the words ask for something, the host is steady and so are the ends of each script, the run answers, says and
    // writes what its definition gives for the files, or ends for want of memory.
    ensures headline { (r : Request) → asked (map string_bytes words.now) ≡ Some r → H.steady host.old ≡ true
        → AreSteady (H.source_steady host.old) (H.sink_steady host.old) r.scripts
        → (result ≡ 1) ⊎ RunsAs (H.files host.old) (H.files host.new) (H.said host.old) (H.said host.new) (Some r) result }
    // Completeness: there it answers the status that the definition gives, or 1; the definition gives no two (`run_form::laws::one_run`).
    ensures complete { (r : Request) → asked (map string_bytes words.now) ≡ Some r → H.steady host.old ≡ true
        → AreSteady (H.source_steady host.old) (H.sink_steady host.old) r.scripts
        → IfSome (H.files host.old) (λ m. (status : ℕ) (told : List ℕ) (after : Files) → RunOf m (Some r) status told after → (result ≡ status) ⊎ (result ≡ 1)) }
    // .. and where the folder is accepted, each script is a file and no output is a folder, it serves them, or answers 1.
    ensures accepted { (r : Request) → IsAsked (map string_bytes words.now) r → H.steady host.old ≡ true
        → AreSteady (H.source_steady host.old) (H.sink_steady host.old) r.scripts
        → IfSome (H.files host.old) (λ m. IsAccepted m r → AreFiles m r.scripts → AreFree m r.scripts → (result ≡ 0) ⊎ (result ≡ 1)) }
    // Without these premises: each status but 1 has its cause.
    ensures statuses { result ≤ 5 }
    ensures done { result ≡ 0 → RunsAs (H.files host.old) (H.files host.new) (H.said host.old) (H.said host.new) (asked (map string_bytes words.now)) 0 }
    ensures asked { (result ≡ 0) ⊎ (result ≡ 4) ⊎ (result ≡ 5) → (r : Request) × IsAsked (map string_bytes words.now) r }
    ensures usage { result ≡ 2 → ((r : Request) → IsAsked (map string_bytes words.now) r → ⊥) × (H.said host.new ≡ appended usage_line (H.said host.old)) × (H.files host.new ≡ H.files host.old) }
    ensures unasked { ((r : Request) → IsAsked (map string_bytes words.now) r → ⊥) → (result ≡ 2) ⊎ (result ≡ 1) ⊎ (result ≡ 3) }
    ensures host { result ≡ 3 → Rose (H.faults host.old) (H.faults host.new) }
    ensures host_cause { result ≡ 3 → H.steady host.old ≡ true → RunsAs (H.files host.old) (H.files host.new) (H.said host.old) (H.said host.new) (asked (map string_bytes words.now)) 3 }
    ensures refused { result ≡ 4 → RunsAs (H.files host.old) (H.files host.new) (H.said host.old) (H.said host.new) (asked (map string_bytes words.now)) 4 }
    ensures ends { result ≡ 5 → (r : Request) → asked (map string_bytes words.now) ≡ Some r → AreSteady (H.source_steady host.old) (H.sink_steady host.old) r.scripts → ⊥ }
    // Every line that is said has its cause too: a line on a session only where the sessions began, and then how that session ended.
    ensures says { (told : List ℕ) × (H.said host.new ≡ appended told (H.said host.old)) × Says (H.files host.old) (H.files host.new) (H.source_steady host.old) (H.sink_steady host.old) (asked (map string_bytes words.now)) result told }
    // In every run what is no output keeps its contents, and an output is as it was or has some of the first bytes of its replies.
    ensures files { KeepsFiles (H.files host.old) (H.files host.new) (asked (map string_bytes words.now)) }
{
    one_run();
    one_end();
    match read_words(alloc, words) {
        Ok(request) => serve_request(rt, alloc, host, &request),
        Err(error) => unasked(host, error),
    }
}
