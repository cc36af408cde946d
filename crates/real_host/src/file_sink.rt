// An open file to write to.
ghost use Rattle.std.specs.Prelude.{◌≡◌};

use edge_io::sink::{Sink, SinkError};
use slicer_ids::name::Name;
use std::io::{self, Write};

/// An open file with its path, and how often writing it failed.
#[derive(Drop)]
pub struct FileSink<F> {
    file: F,
    path: Name,
    faults: u64,
}

impl<F> FileSink<F> {
    /// The file did not fail yet.
    pub fn new(file: F, path: Name) -> FileSink<F>
        ensures { result.path ≡ path }
    {
        FileSink {
            file,
            path,
            faults: 0,
        }
    }
}

impl<F: Write> FileSink<F> {
    /// Hands on what the file still keeps back, and closes it. Whether that succeeded.
    pub fn finish(self) -> bool
    where
        F: Drop,
    {
        let FileSink {
            mut file,
            path: _,
            faults: _,
        } = self;
        file.flush().is_ok()
    }
}

// Writes a piece, and hands on what is kept back where the piece ends a line.
fn put<F: Write>(file: &mut F, piece: &[u8]) -> io::Result<usize> {
    let count = file.write(piece)?;
    if piece.ends_with(b"\n") {
        file.flush()?;
    }
    Ok(count)
}

impl<F: Write> Sink for FileSink<F> {
    ghost use Rattle.std.specs.Prelude.{None, false};
    ghost use Rattle.real_host.specs.Never.{never};

    ghost label = { λ s. s.path };

    ghost written = { λ _. None };

    ghost faults = { λ s. s.faults };

    ghost steady = { λ _. false };

    ghost steady_below = { λ s e. never e };

    // A device that takes nothing is a fault. What a writer keeps back is handed on with each end of a line, so that a reply that was
    // written to its end was taken by the device.
    fn write(&mut self, piece: &[u8]) -> Result<usize, SinkError> {
        match put(&mut self.file, piece) {
            Ok(count) if count > 0 && count <= piece.len() => Ok(count),
            _ => {
                self.faults = self.faults.saturating_add(1);
                Err(SinkError::Fault)
            }
        }
    }
}
