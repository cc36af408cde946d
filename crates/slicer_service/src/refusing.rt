// Runs that end before any script is opened.
ghost use Rattle.std.specs.Prelude.{◌≡◌, ◌⊎◌, ℕ, List, true, IfOk};
ghost use Rattle.edge_io.specs.Faults.{Rose};
ghost use Rattle.edge_io.specs.Reads.{appended};
ghost use Rattle.folder_reader.specs.Hosts.{Goes};
ghost use Rattle.run_form.specs.Said.{line, usage_line, host_fault_line};
ghost use Rattle.run_form.specs.Endings.{SaysFault};

use edge_io::host::Host;
use folder_loader::LoadError;
use serving::saying::{host_fault, refuse};
use slicer_ids::name::Name;
use std::alloc::AllocError;
use words::request::WordsError;

const USAGE: &[u8] = b"usage: slicer [--main NAME] FOLDER SCRIPT...\n";

/// Ends a run whose words give no request: says how the program is called, or nothing for want of memory. Answers the status.
pub fn unasked<H: Host>(host: &mut H, error: WordsError) -> u8
    ensures says { (told : List ℕ) × (H.said host.new ≡ appended told (H.said host.old)) × (SaysFault result told ⊎ ((result ≡ 2) × (told ≡ usage_line) × (error ≡ WordsError.Usage))) }
    ensures fault { result ≡ 3 → Rose (H.faults host.old) (H.faults host.new) }
    ensures sure { H.steady host.old ≡ true → (result ≡ 1) ⊎ (result ≡ 2) }
    ensures files { H.files host.new ≡ H.files host.old }
    ensures goes { Goes H.faults H.steady H.source_steady H.sink_steady host.old host.new }
{
    match error {
        WordsError::Usage => refuse(host, USAGE, 2),
        WordsError::NoMemory => 1,
    }
}

/// Ends a run whose folder isn't loaded: says why it is refused, or that a call of the host failed. Answers the status.
pub fn unloaded<H: Host>(host: &mut H, error: LoadError) -> u8
    ensures says { (told : List ℕ) × (H.said host.new ≡ appended told (H.said host.old)) × (SaysFault result told ⊎ ((refusal : List ℕ) × (result ≡ 4) × (told ≡ line refusal) × (error ≡ LoadError.Refused refusal))) }
    ensures fault { result ≡ 3 → (error ≡ LoadError.Host) ⊎ Rose (H.faults host.old) (H.faults host.new) }
    ensures sure { H.steady host.old ≡ true → result ≡ 3 → (error ≡ LoadError.Host) × (H.said host.new ≡ appended host_fault_line (H.said host.old)) }
    ensures files { H.files host.new ≡ H.files host.old }
    ensures goes { Goes H.faults H.steady H.source_steady H.sink_steady host.old host.new }
{
    match error {
        LoadError::NoMemory => 1,
        LoadError::Host => host_fault(host),
        LoadError::Refused(refusal) => refuse_folder(host, refusal),
    }
}

// Says why the folder is refused; the status.
fn refuse_folder<H: Host>(host: &mut H, refusal: Name) -> u8
    ensures says { (told : List ℕ) × (H.said host.new ≡ appended told (H.said host.old)) × (SaysFault result told ⊎ ((result ≡ 4) × (told ≡ line refusal))) }
    ensures fault { result ≡ 3 → Rose (H.faults host.old) (H.faults host.new) }
    ensures sure { H.steady host.old ≡ true → (result ≡ 1) ⊎ (result ≡ 4) }
    ensures files { H.files host.new ≡ H.files host.old }
    ensures goes { Goes H.faults H.steady H.source_steady H.sink_steady host.old host.new }
{
    match ended(refusal) {
        Ok(text) => refuse(host, text.as_slice(), 4),
        Err(_) => 1,
    }
}

// A text with the end of its line.
fn ended(text: Name) -> Result<Vec<u8>, AllocError>
    ensures { IfOk result (λ v. v.items ≡ line text) }
{
    let mut bytes = text.into_vec();
    bytes.push(b'\n')?;
    Ok(bytes)
}
