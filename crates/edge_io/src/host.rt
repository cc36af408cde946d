// The files and the screen.
ghost use Rattle.std.specs.Prelude.{◌≡◌, ℕ, ◌≤◌, ◌<◌, Bool, true, List, [], Option, length, ◌++◌, IfOk, OnOk, OnErr, Err, Some, IfSome};
ghost use Rattle.std.specs.Option.{option_map};
ghost use Rattle.edge_io.specs.Faults.{Rose};
ghost use Rattle.edge_io.specs.Files.{Files, HasFile, IsFile, IsFolder, KeepsOthers, Lists, file_set};

use crate::sink::Sink;
use crate::source::{Fault, Source};
use slicer_ids::ids::NoMemory;
use slicer_ids::name::{Name, Text};
use thiserror::Error;

/// Why a call of a host was refused.
#[derive(Clone, Copy, PartialEq, Eq, Debug, Error)]
pub enum HostError {
    #[error("out of memory")]
    NoMemory,
    /// A device failed, or the path isn't there or is of the wrong kind.
    #[error("fault")]
    Fault,
    /// A file has more bytes than were asked for. Only `read` answers it.
    #[error("too long")]
    TooLong,
}

impl From<Fault> for HostError {
    ghost use Rattle.std.specs.Prelude.{◌≡◌};
    ghost use Rattle.edge_io.specs.declared.host.HostError.{HostError};

    ghost from_gives = { λ _ e. e ≡ HostError.Fault };

    fn from(_fault: Fault) -> HostError {
        HostError::Fault
    }
}

impl From<NoMemory> for HostError {
    ghost use Rattle.std.specs.Prelude.{◌≡◌};
    ghost use Rattle.edge_io.specs.declared.host.HostError.{HostError};

    ghost from_gives = { λ _ e. e ≡ HostError.NoMemory };

    fn from(_error: NoMemory) -> HostError {
        HostError::NoMemory
    }
}

/// What stands at a path: a folder, or a file with its bytes.
#[derive(Drop, Debug)]
pub enum Entry {
    Folder,
    File(Name),
}

/// An entry of a folder: its name there, and whether it is a folder too.
#[derive(Drop, Debug)]
pub struct Item {
    pub name: Text,
    pub folder: bool,
}

/// Files by path, and a screen. After any refusal the files and what was said are as they were.
pub trait Host {
    type In: Source + Send + Drop;

    type Out: Sink + Send + Drop;

    // its files by path, where it tells
    ghost files: { Self → Option Files };
    // the bytes said so far, where it tells
    ghost said: { Self → Option (List ℕ) };
    // how often it failed; the count ends at 2^64 - 1
    ghost faults: { Self → ℕ };
    // `say` never fails, and while it tells its files, the other calls fail only on a path that is not there or is of the wrong kind
    ghost steady: { Self → Bool };
    // whether the source that it makes for a path is steady
    ghost source_steady: { Self → List ℕ → Bool };
    // whether the sink that it makes for a path is steady
    ghost sink_steady: { Self → List ℕ → Bool };

    /// The entries directly in a folder, in any order, each once. The path of an entry is the folder's path, `/` and its name.
    fn list(&mut self, path: &str) -> Result<Vec<Item>, HostError>
        ensures tells { IfOk result (λ v. IfSome (files self.old) (λ m. Lists m path.now v.items)) }
        ensures folder { IfOk result (λ _. IfSome (files self.old) (λ m. IsFolder m path.now)) }
        ensures files { files self.new ≡ files self.old }
        ensures said { said self.new ≡ said self.old }
        ensures kinds { result ≡ Err HostError.TooLong → ⊥ }
        ensures count { faults self.old ≤ faults self.new }
        ensures fault { result ≡ Err HostError.Fault → Rose (faults self.old) (faults self.new) }
        ensures steady_fault { steady self.old ≡ true → result ≡ Err HostError.Fault → IfSome (files self.old) (λ m. ¬ (IsFolder m path.now)) }
        ensures steady { steady self.new ≡ steady self.old }
        ensures sources { source_steady self.new ≡ source_steady self.old }
        ensures sinks { sink_steady self.new ≡ sink_steady self.old };

    /// The whole file, and never more than `limit` bytes. `TooLong` exactly where the file is longer.
    fn read(&mut self, path: &str, limit: u64) -> Result<Vec<u8>, HostError>
        ensures tells { IfOk result (λ v. IfSome (files self.old) (λ m. HasFile m path.now v.items)) }
        ensures limit { IfOk result (λ v. length v.items ≤ limit) }
        ensures too_long { result ≡ Err HostError.TooLong → IfSome (files self.old) (λ m. (bytes : List ℕ) × HasFile m path.now bytes × (limit < length bytes)) }
        ensures files { files self.new ≡ files self.old }
        ensures said { said self.new ≡ said self.old }
        ensures count { faults self.old ≤ faults self.new }
        ensures fault { result ≡ Err HostError.Fault → Rose (faults self.old) (faults self.new) }
        ensures steady_fault { steady self.old ≡ true → result ≡ Err HostError.Fault → IfSome (files self.old) (λ m. ¬ (IsFile m path.now)) }
        ensures steady { steady self.new ≡ steady self.old }
        ensures sources { source_steady self.new ≡ source_steady self.old }
        ensures sinks { sink_steady self.new ≡ sink_steady self.old };

    /// A source over the bytes of a file.
    fn open(&mut self, path: &str) -> Result<Self::In, HostError>
        ensures tells { IfOk result (λ s. IfSome (files self.old) (λ m. (bytes : List ℕ) × HasFile m path.now bytes × (Self.In.left s ≡ Some bytes))) }
        ensures steadiness { IfOk result (λ s. Self.In.steady s ≡ source_steady self.old path.now) }
        ensures files { files self.new ≡ files self.old }
        ensures said { said self.new ≡ said self.old }
        ensures kinds { result ≡ Err HostError.TooLong → ⊥ }
        ensures count { faults self.old ≤ faults self.new }
        ensures fault { result ≡ Err HostError.Fault → Rose (faults self.old) (faults self.new) }
        ensures steady_fault { steady self.old ≡ true → result ≡ Err HostError.Fault → IfSome (files self.old) (λ m. ¬ (IsFile m path.now)) }
        ensures steady { steady self.new ≡ steady self.old }
        ensures sources { source_steady self.new ≡ source_steady self.old }
        ensures sinks { sink_steady self.new ≡ sink_steady self.old };

    /// Makes the file, empty, where no folder stands, and a sink whose label is the path and to which nothing is written yet.
    fn create(&mut self, path: &str) -> Result<Self::Out, HostError>
        ensures made { OnOk result (files self.new ≡ option_map (λ m. file_set m path.now []) (files self.old)) }
        ensures place { OnOk result (IfSome (files self.old) (λ m. ¬ (IsFolder m path.now))) }
        ensures label { IfOk result (λ s. Self.Out.label s ≡ path.now) }
        ensures tells { IfOk result (λ s. IfSome (files self.old) (λ _. Self.Out.written s ≡ Some [])) }
        ensures unwritten { IfOk result (λ s. IfSome (Self.Out.written s) (λ w. w ≡ [])) }
        ensures steadiness { IfOk result (λ s. Self.Out.steady s ≡ sink_steady self.old path.now) }
        ensures unmade { OnErr result (files self.new ≡ files self.old) }
        ensures said { said self.new ≡ said self.old }
        ensures kinds { result ≡ Err HostError.TooLong → ⊥ }
        ensures count { faults self.old ≤ faults self.new }
        ensures fault { result ≡ Err HostError.Fault → Rose (faults self.old) (faults self.new) }
        ensures steady_fault { steady self.old ≡ true → result ≡ Err HostError.Fault → IfSome (files self.old) (λ m. IsFolder m path.now) }
        ensures steady { steady self.new ≡ steady self.old }
        ensures sources { source_steady self.new ≡ source_steady self.old }
        ensures sinks { sink_steady self.new ≡ sink_steady self.old };

    /// Makes the file at the sink's label hold what was written. It takes no memory.
    fn close(&mut self, out: Self::Out) -> Result<(), HostError>
        ensures made { OnOk result (IfSome (Self.Out.written out) (λ w. files self.new ≡ option_map (λ m. file_set m (Self.Out.label out) w) (files self.old))) }
        ensures place { OnOk result (IfSome (files self.old) (λ m. IsFile m (Self.Out.label out))) }
        ensures others { OnOk result (KeepsOthers (Self.Out.label out) (files self.old) (files self.new)) }
        ensures unmade { OnErr result (files self.new ≡ files self.old) }
        ensures said { said self.new ≡ said self.old }
        ensures kinds { OnErr result (result ≡ Err HostError.Fault) }
        ensures count { faults self.old ≤ faults self.new }
        ensures fault { result ≡ Err HostError.Fault → Rose (faults self.old) (faults self.new) }
        ensures steady_fault { steady self.old ≡ true → result ≡ Err HostError.Fault → IfSome (files self.old) (λ m. ¬ (IsFile m (Self.Out.label out))) }
        ensures steady { steady self.new ≡ steady self.old }
        ensures sources { source_steady self.new ≡ source_steady self.old }
        ensures sinks { sink_steady self.new ≡ sink_steady self.old };

    /// Appends to the bytes said.
    fn say(&mut self, bytes: &[u8]) -> Result<(), HostError>
        ensures said { OnOk result (said self.new ≡ option_map (λ w. w ++ bytes.now) (said self.old)) }
        ensures unsaid { OnErr result (said self.new ≡ said self.old) }
        ensures files { files self.new ≡ files self.old }
        ensures kinds { result ≡ Err HostError.TooLong → ⊥ }
        ensures count { faults self.old ≤ faults self.new }
        ensures fault { result ≡ Err HostError.Fault → Rose (faults self.old) (faults self.new) }
        ensures steady_fault { steady self.old ≡ true → result ≡ Err HostError.Fault → ⊥ }
        ensures steady { steady self.new ≡ steady self.old }
        ensures sources { source_steady self.new ≡ source_steady self.old }
        ensures sinks { sink_steady self.new ≡ sink_steady self.old };
}
