// The files and the standard output of a runtime.
ghost use Rattle.std.specs.Prelude.{◌≡◌, ◌≤◌};
ghost use Rattle.edge_io.specs.Faults.{Rose};

use crate::file_sink::FileSink;
use crate::file_source::FileSource;
use crate::reads::{create_file, list_folder, open_file, read_file};
use edge_io::host::{Host, HostError, Item};
use slicer_ids::name::Name;
use std::alloc::Global;
use std::io::BufWriter;
use std::rt::Files;

/// The files and the standard output of a runtime, and how often a call failed.
#[derive(Drop)]
pub struct RealHost<R> {
    rt: R,
    faults: u64,
}

impl<R> RealHost<R> {
    /// A host that did not fail yet.
    pub fn new(rt: R) -> RealHost<R> {
        RealHost { rt, faults: 0 }
    }

    // The same error. A fault is counted.
    fn counted(&mut self, error: HostError) -> HostError
        ensures error { result ≡ error }
        ensures fault { error ≡ HostError.Fault → Rose self.old.faults self.new.faults }
        ensures count { self.old.faults ≤ self.new.faults }
    {
        if error == HostError::Fault {
            self.faults = self.faults.saturating_add(1);
        }
        error
    }
}

impl<R: Files + Alloc<A = Global> + Print + Clone + Drop> Host for RealHost<R>
where
    R::File: Send,
{
    type In = FileSource<R::File>;

    type Out = FileSink<BufWriter<R::File>>;

    ghost use Rattle.std.specs.Prelude.{None, false};

    ghost files = { λ _. None };

    ghost said = { λ _. None };

    ghost faults = { λ h. h.faults };

    ghost steady = { λ _. false };

    ghost source_steady = { λ _ _. false };

    ghost sink_steady = { λ _ _. false };

    fn list(&mut self, path: &str) -> Result<Vec<Item>, HostError> {
        match list_folder(&self.rt, path) {
            Ok(items) => Ok(items),
            Err(error) => Err(self.counted(error)),
        }
    }

    fn read(&mut self, path: &str, limit: u64) -> Result<Vec<u8>, HostError> {
        match read_file(&self.rt, path, limit) {
            Ok(bytes) => Ok(bytes),
            Err(error) => Err(self.counted(error)),
        }
    }

    fn open(&mut self, path: &str) -> Result<FileSource<R::File>, HostError> {
        match open_file(&self.rt, path) {
            Ok(file) => Ok(FileSource::new(file)),
            Err(error) => Err(self.counted(error)),
        }
    }

    fn create(&mut self, path: &str) -> Result<FileSink<BufWriter<R::File>>, HostError> {
        let label = Name::from_bytes(self.rt.alloc(), path.as_bytes())?;
        match create_file(&self.rt, path) {
            Ok(file) => match BufWriter::new(self.rt.alloc(), file) {
                Ok(file) => Ok(FileSink::new(file, label)),
                Err(_) => Err(HostError::NoMemory),
            },
            Err(error) => Err(self.counted(error)),
        }
    }

    fn close(&mut self, out: FileSink<BufWriter<R::File>>) -> Result<(), HostError> {
        if out.finish() {
            Ok(())
        } else {
            Err(self.counted(HostError::Fault))
        }
    }

    fn say(&mut self, bytes: &[u8]) -> Result<(), HostError> {
        match self.rt.write_all(bytes) {
            Ok(()) => Ok(()),
            Err(_) => Err(self.counted(HostError::Fault)),
        }
    }
}
