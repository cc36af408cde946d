// A host in memory.
ghost use Rattle.std.specs.Prelude.{◌≡◌, All, IfOk};
ghost use Rattle.std.specs.Str.{IsUtf8};
ghost use Rattle.edge_io.specs.Paths.{AreOnce};

use crate::calls::Calls;
use crate::fail_plan::FailPlan;
use crate::host::{Entry, Host, HostError, Item};
use crate::memory_sink::MemorySink;
use crate::memory_source::MemorySource;
pub use crate::stored::are_paths;
use crate::stored::{calls_at, entries_in, entry_at, place_of, put_file, set_file};
use slicer_ids::ids::NoMemory;
use slicer_ids::list::List;
use slicer_ids::name::{Name, Text};
use std::alloc::Global;

/// Files and a screen in memory. It tells both. The host is steady exactly where its plan names no call of its own, and a source
/// or a sink that it makes exactly where the plan names no call of the file. Each call scans the list of files.
#[derive(Drop, Debug)]
pub struct MemoryHost {
    alloc: Global,
    files: Vec<(Text, Entry)>,
    said: Vec<u8>,
    sources: List<(Name, u64)>,
    sinks: List<(Name, u64)>,
    calls: Calls,
    ghost once: { AreOnce files.items },
}

impl MemoryHost {
    ghost use Rattle.std.specs.Prelude.{◌≡◌, ◌↔◌, [], IfOk, IsTrue, MatchOption};
    ghost use Rattle.std.specs.Option.{option_copied};
    ghost use Rattle.std.specs.FinMap as map;
    ghost use Rattle.edge_io.specs.Files.{HasFile, IsFile, IsFolder};
    ghost use Rattle.edge_io.specs.Memory.{files_of};
    ghost use Rattle.edge_io.specs.Paths.{ArePaths, IsPlaceOf, files_in};

    /// A host with these files by path, to which nothing is said yet. No path stands twice, and each is UTF-8; `are_paths` is
    /// the test of it.
    pub fn new(
        alloc: Global,
        files: List<(Name, Entry)>,
        plan: FailPlan,
    ) -> Result<MemoryHost, NoMemory>
        requires { ArePaths files }
        ensures files { IfOk result (λ h. files_of h ≡ files_in files) }
        ensures said { IfOk result (λ h. h.said.items ≡ []) }
        ensures host { IfOk result (λ h. h.calls.failing ≡ plan.host) }
        ensures start { IfOk result (λ h. (h.calls.count ≡ 0) × (h.calls.faults ≡ 0)) }
        ensures sources { IfOk result (λ h. h.sources ≡ plan.sources) }
        ensures sinks { IfOk result (λ h. h.sinks ≡ plan.sinks) }
    {
        let FailPlan {
            host,
            sources,
            sinks,
        } = plan;
        let files = with_texts(alloc, files.into_vec())?;
        Ok(MemoryHost {
            alloc,
            files,
            said: Vec::new(alloc),
            sources,
            sinks,
            calls: Calls::new(host),
        })
    }

    /// The bytes of the file at the path, and `None` exactly where no file stands there.
    pub fn file(&self, path: &str) -> Option<&[u8]>
        ensures { MatchOption result (¬ (IsFile (files_of self.now) path.now)) (λ b. HasFile (files_of self.now) path.now b.now) }
    {
        match self.entry(path) {
            Some(Entry::File(bytes)) => Some(bytes.bytes()),
            Some(Entry::Folder) => None,
            None => None,
        }
    }

    /// The bytes said so far.
    pub fn said(&self) -> &[u8]
        ensures { result.now ≡ self.now.said.items }
    {
        self.said.as_slice()
    }

    // What stands at the path.
    fn entry(&self, path: &str) -> Option<&Entry>
        ensures { option_copied result ≡ map.get (files_of self.now) path.now }
    {
        entry_at(self.files.as_slice(), path.as_bytes())
    }

    // The place of the file with this path.
    fn file_place(&self, path: &Name) -> Option<usize>
        ensures { MatchOption result (¬ (IsFile (files_of self.now) path.now)) (λ k. IsPlaceOf self.now.files.items path.now k × IsFile (files_of self.now) path.now) }
    {
        let Some(place) = place_of(self.files.as_slice(), path.bytes()) else {
            return None;
        };
        match &self.files[place].1 {
            Entry::File(_) => Some(place),
            Entry::Folder => None,
        }
    }

    fn is_folder(&self, path: &str) -> bool
        ensures { IsTrue result ↔ IsFolder (files_of self.now) path.now }
    {
        match self.entry(path) {
            Some(Entry::Folder) => true,
            Some(Entry::File(_)) => false,
            None => false,
        }
    }
}

// The same entries, by paths that are texts.
fn with_texts(alloc: Global, files: Vec<(Name, Entry)>) -> Result<Vec<(Text, Entry)>, NoMemory>
    requires { All (λ e. IsUtf8 e.0) files.items }
    ensures { IfOk result (λ v. v.items ≡ files.items) }
{
    let mut all = Vec::new(alloc);
    for (name, entry) in files {
        let path = String::from_utf8_lossy(alloc, name.bytes())?;
        all.push((Text::from_string(path), entry))?;
    }
    Ok(all)
}

impl Host for MemoryHost {
    type In = MemorySource;

    type Out = MemorySink;

    ghost use Rattle.std.specs.Prelude.{Some};
    ghost use Rattle.edge_io.specs.Memory.{files_of, is_steady_host, is_source_steady, is_sink_steady};

    ghost files = { λ h. Some (files_of h) };

    ghost said = { λ h. Some h.said.items };

    ghost faults = { λ h. h.calls.faults };

    ghost steady = { is_steady_host };

    ghost source_steady = { is_source_steady };

    ghost sink_steady = { is_sink_steady };

    fn list(&mut self, path: &str) -> Result<Vec<Item>, HostError> {
        self.calls.next()?;
        if !self.is_folder(path) {
            return Err(HostError::from(self.calls.fault()));
        }
        let items = entries_in(self.alloc, self.files.as_slice(), path)?;
        Ok(items)
    }

    fn read(&mut self, path: &str, limit: u64) -> Result<Vec<u8>, HostError> {
        self.calls.next()?;
        let Some(bytes) = self.file(path) else {
            return Err(HostError::from(self.calls.fault()));
        };
        if bytes.len() as u64 > limit {
            return Err(HostError::TooLong);
        }
        match bytes.to_vec(self.alloc) {
            Ok(bytes) => Ok(bytes),
            Err(_) => Err(HostError::NoMemory),
        }
    }

    fn open(&mut self, path: &str) -> Result<MemorySource, HostError> {
        self.calls.next()?;
        let Some(bytes) = self.file(path) else {
            return Err(HostError::from(self.calls.fault()));
        };
        let bytes = Name::from_bytes(self.alloc, bytes)?;
        let failing = calls_at(self.alloc, self.sources.items(), path.as_bytes())?;
        Ok(MemorySource::new(self.alloc, bytes, failing))
    }

    fn create(&mut self, path: &str) -> Result<MemorySink, HostError> {
        self.calls.next()?;
        if self.is_folder(path) {
            return Err(HostError::from(self.calls.fault()));
        }
        let label = Name::from_bytes(self.alloc, path.as_bytes())?;
        let failing = calls_at(self.alloc, self.sinks.items(), path.as_bytes())?;
        let empty = Name::from_vec(Vec::new(self.alloc));
        put_file(self.alloc, &mut self.files, path, empty)?;
        Ok(MemorySink::new(self.alloc, label, failing))
    }

    fn close(&mut self, out: MemorySink) -> Result<(), HostError> {
        self.calls.next()?;
        let (label, bytes) = out.into_parts();
        match self.file_place(&label) {
            Some(place) => {
                set_file(&mut self.files, place, bytes);
                Ok(())
            }
            None => Err(HostError::from(self.calls.fault())),
        }
    }

    fn say(&mut self, bytes: &[u8]) -> Result<(), HostError> {
        self.calls.next()?;
        match self.said.extend_from_slice(bytes) {
            Ok(()) => Ok(()),
            Err(_) => Err(HostError::NoMemory),
        }
    }
}
