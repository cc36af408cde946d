// An open file to read from.
use edge_io::source::{Fault, Source};
use std::io::Read;

/// An open file, and how often reading it failed.
#[derive(Drop)]
pub struct FileSource<F> {
    file: F,
    faults: u64,
}

impl<F> FileSource<F> {
    /// The file did not fail yet.
    pub fn new(file: F) -> FileSource<F> {
        FileSource { file, faults: 0 }
    }
}

impl<F: Read> Source for FileSource<F> {
    ghost use Rattle.std.specs.Prelude.{None, false};
    ghost use Rattle.real_host.specs.Never.{never};

    ghost left = { λ _. None };

    ghost faults = { λ s. s.faults };

    ghost steady = { λ _. false };

    ghost steady_below = { λ s e. never e };

    fn read(&mut self, into: &mut [u8]) -> Result<usize, Fault> {
        match self.file.read(into) {
            Ok(count) => Ok(count),
            Err(_) => {
                self.faults = self.faults.saturating_add(1);
                Err(Fault)
            }
        }
    }
}
