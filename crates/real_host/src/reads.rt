// What is asked of the file system.
ghost use Rattle.std.specs.Prelude.{◌≡◌, ◌≤◌, length, vec_len, IfOk, Err};
ghost use Rattle.edge_io.specs.declared.host.HostError.{HostError};

use edge_io::host::{HostError, Item};
use slicer_ids::name::Text;
use std::alloc::Global;
use std::fs::DirEntry;
use std::io::{ErrorKind, Read};
use std::rt::Files;
use std::{fs, io};

// Want of memory, or a fault.
fn refusal(error: &io::Error) -> HostError
    ensures { result ≡ HostError.TooLong → ⊥ }
{
    if error.kind() == ErrorKind::OutOfMemory {
        HostError::NoMemory
    } else {
        HostError::Fault
    }
}

// Opens a file that is no folder.
pub fn open_file<R: Files>(rt: &R, path: &str) -> Result<R::File, HostError>
    ensures { result ≡ Err HostError.TooLong → ⊥ }
{
    if is_folder(rt, path)? {
        return Err(HostError::Fault);
    }
    match fs::open(rt, path) {
        Ok(file) => Ok(file),
        Err(error) => Err(refusal(&error)),
    }
}

fn is_folder<R: Files>(rt: &R, path: &str) -> Result<bool, HostError>
    ensures { result ≡ Err HostError.TooLong → ⊥ }
{
    match fs::metadata(rt, path) {
        Ok(about) => Ok(about.is_dir()),
        Err(error) => Err(refusal(&error)),
    }
}

// Makes a file, empty.
pub fn create_file<R: Files>(rt: &R, path: &str) -> Result<R::File, HostError>
    ensures { result ≡ Err HostError.TooLong → ⊥ }
{
    match fs::create(rt, path) {
        Ok(file) => Ok(file),
        Err(error) => Err(refusal(&error)),
    }
}

// The whole file, where it has at most this many bytes.
pub fn read_file<R: Files + Alloc<A = Global>>(
    rt: &R,
    path: &str,
    limit: u64,
) -> Result<Vec<u8>, HostError>
    ensures { IfOk result (λ v. length v.items ≤ limit) }
{
    let mut file = open_file(rt, path)?;
    let mut bytes = Vec::new(rt.alloc());
    for _ in 0..u64::MAX {
        if !add_piece(&mut file, &mut bytes, limit)? {
            return Ok(bytes);
        }
    }
    Err(HostError::Fault)
}

// Reads one piece, unless the file is at its end.
fn add_piece<F: Read>(file: &mut F, bytes: &mut Vec<u8>, limit: u64) -> Result<bool, HostError>
    requires { vec_len bytes.old ≤ limit }
    ensures { vec_len bytes.new ≤ limit }
{
    let mut piece = [0u8; 4096];
    let count = match file.read(&mut piece) {
        Ok(count) => count,
        Err(error) => return Err(refusal(&error)),
    };
    if count as u64 > limit - bytes.len() as u64 {
        return Err(HostError::TooLong);
    }
    match bytes.extend_from_slice(&piece[..count]) {
        Ok(()) => Ok(count > 0),
        Err(_) => Err(HostError::NoMemory),
    }
}

// The plain files and the folders directly in a folder. Links are left out.
pub fn list_folder<R: Files + Alloc<A = Global> + Clone + Drop>(
    rt: &R,
    path: &str,
) -> Result<Vec<Item>, HostError>
    ensures { result ≡ Err HostError.TooLong → ⊥ }
{
    let entries = match fs::read_dir(rt, path) {
        Ok(entries) => entries,
        Err(error) => return Err(refusal(&error)),
    };
    let mut items = Vec::new(rt.alloc());
    for entry in entries {
        add_item(rt.alloc(), &mut items, entry)?;
    }
    Ok(items)
}

// Adds an entry that is a plain file or a folder. A name that isn't UTF-8 came as an error.
fn add_item<R: Files + Clone + Drop>(
    alloc: Global,
    items: &mut Vec<Item>,
    entry: io::Result<DirEntry<R, Global>>,
) -> Result<(), HostError>
    ensures { result ≡ Err HostError.TooLong → ⊥ }
{
    let entry = match entry {
        Ok(entry) => entry,
        Err(error) => return Err(refusal(&error)),
    };
    match entry.file_type() {
        Ok(kind) if kind.is_file() || kind.is_dir() => {
            add_name(alloc, items, entry.file_name(), kind.is_dir())
        }
        Ok(_) => Ok(()),
        Err(error) => Err(refusal(&error)),
    }
}

fn add_name(alloc: Global, items: &mut Vec<Item>, name: &str, folder: bool) -> Result<(), HostError>
    ensures { result ≡ Err HostError.TooLong → ⊥ }
{
    let Ok(name) = String::from_str(alloc, name) else {
        return Err(HostError::NoMemory);
    };
    let item = Item {
        name: Text::from_string(name),
        folder,
    };
    match items.push(item) {
        Ok(()) => Ok(()),
        Err(_) => Err(HostError::NoMemory),
    }
}
