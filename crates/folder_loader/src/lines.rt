// What is said of class files that are no hierarchy, or whose program starts nowhere.
ghost use Rattle.std.specs.Prelude.{◌≡◌, ◌++◌, List, ℕ, IfOk, codes};
ghost use Rattle.slicer_ids.specs.Escapes.{printed};
ghost use Rattle.refusal_lines.specs.Refusals.{limit_refusal};
ghost use Rattle.folder_loader.specs.Lines.{IsLimitLine, IsTreeLine};

use crate::error::LoadError;
use folder_reader::FolderError;
use hierarchy::TreeError;
use refusal_lines::{limit_refusal, push_printed};
use slicer_ids::limits::LimitKind;
use slicer_ids::name::Name;
use std::alloc::{AllocError, Global};

// A limit is exceeded.
fn limit(alloc: Global, kind: LimitKind, count: u64) -> LoadError
    ensures line { (line : List ℕ) → result ≡ LoadError.Refused line → line ≡ limit_refusal kind count }
    ensures host { result ≡ LoadError.Host → ⊥ }
{
    match limit_refusal(alloc, kind, count) {
        Ok(line) => LoadError::Refused(line),
        Err(_) => LoadError::NoMemory,
    }
}

/// The class files of a folder weren't read.
pub fn unread(alloc: Global, error: FolderError) -> LoadError
    ensures line { (line : List ℕ) → result ≡ LoadError.Refused line → IsLimitLine error line }
    ensures host { result ≡ LoadError.Host → error ≡ FolderError.Host }
{
    match error {
        FolderError::NoMemory => LoadError::NoMemory,
        FolderError::Host => LoadError::Host,
        FolderError::TooMany(kind, count) => limit(alloc, kind, count),
    }
}

// Some words, and a name as it is printed.
fn named_text(alloc: Global, words: &[u8], name: &[u8]) -> Result<Vec<u8>, AllocError>
    ensures { IfOk result (λ v. v.items ≡ words.now ++ printed name.now) }
{
    let mut text = Vec::from_slice(alloc, words)?;
    push_printed(&mut text, name)?;
    Ok(text)
}

fn named(alloc: Global, words: &[u8], name: &[u8]) -> LoadError
    ensures line { (line : List ℕ) → result ≡ LoadError.Refused line → line ≡ words.now ++ printed name.now }
    ensures host { result ≡ LoadError.Host → ⊥ }
{
    match named_text(alloc, words, name) {
        Ok(text) => LoadError::Refused(Name::from_vec(text)),
        Err(_) => LoadError::NoMemory,
    }
}

/// Class files are no hierarchy.
pub fn no_hierarchy(alloc: Global, error: &TreeError) -> LoadError
    ensures line { (line : List ℕ) → result ≡ LoadError.Refused line → IsTreeLine error.now line }
    ensures host { result ≡ LoadError.Host → ⊥ }
{
    match error {
        TreeError::NoMemory => LoadError::NoMemory,
        TreeError::Duplicate(name) => named(alloc, b"refused duplicate class ", name.bytes()),
        TreeError::Cycle(name) => named(alloc, b"refused cyclic class ", name.bytes()),
    }
}

/// There is no entry.
pub fn no_entry(alloc: Global) -> LoadError
    ensures line { (line : List ℕ) → result ≡ LoadError.Refused line → line ≡ codes "refused no entry method" }
    ensures host { result ≡ LoadError.Host → ⊥ }
{
    match Name::from_bytes(alloc, b"refused no entry method") {
        Ok(line) => LoadError::Refused(line),
        Err(_) => LoadError::NoMemory,
    }
}
