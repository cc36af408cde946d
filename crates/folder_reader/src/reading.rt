// The bytes of files.
ghost use Rattle.std.specs.Prelude.{◌≡◌, ◌≤◌, ◌<◌, ◌+◌, ◌++◌, ◌∷◌, [], ℕ, true, List, All, IfOk, IfSome, OnOk, Err, length};
ghost use Rattle.std.specs.List.{sum_by};
ghost use Rattle.slicer_ids.specs.declared.limits.LimitKind.{LimitKind};
ghost use Rattle.slicer_ids.specs.declared.limits.LimitKind.TheVariants.{FileBytes};
ghost use Rattle.edge_io.specs.Faults.{Rose};
ghost use Rattle.edge_io.specs.Files.{IsFile, HasFile};
ghost use Rattle.folder_form.specs.Reading.{ReadsAll, Contents, TooLong};
ghost use Rattle.folder_reader.specs.Hosts.{Goes, Keeps};
ghost use Rattle.folder_reader.specs.Turns.{IsTooLong};

use crate::error::FolderError;
use edge_io::host::{Host, HostError};
use slicer_ids::limits::{FILE_BYTES, LimitKind, TOTAL_BYTES};
use slicer_ids::name::{Name, Text};
use std::alloc::Global;

/// The bytes of the files at these paths, in order.
///
/// Refused, where it is met, is a file of more than `FILE_BYTES`, with the number 16,777,217, and one with which they are more
/// than `TOTAL_BYTES` together, with their number. A host that is steady and tells its files fails only where one of the paths
/// is that of no file.
///
/// Reads each file once.
pub fn contents<H: Host>(
    alloc: Global,
    host: &mut H,
    paths: &[Text],
) -> Result<Vec<Name>, FolderError>
    ensures found { IfOk result (λ v. IfSome (H.files host.old) (λ m. ReadsAll m paths.now (Contents v.items))) }
    ensures number { IfOk result (λ v. length v.items ≡ length paths.now) }
    ensures total { IfOk result (λ v. sum_by length v.items ≤ 67108864) }
    ensures too_long { (kind : LimitKind) (count : ℕ) → result ≡ Err (FolderError.TooMany kind count) → IfSome (H.files host.old) (λ m. ReadsAll m paths.now (TooLong kind count)) }
    ensures fault { result ≡ Err FolderError.Host → Rose (H.faults host.old) (H.faults host.new) }
    ensures cause { result ≡ Err FolderError.Host → H.steady host.old ≡ true → IfSome (H.files host.old) (λ m. All (IsFile m) paths.now → ⊥) }
    ensures goes { Goes H.faults H.steady H.source_steady H.sink_steady host.old host.new }
    ensures keeps { Keeps H.files H.said host.old host.new }
{
    let mut all = Vec::new(alloc);
    let mut total = 0;
    for path in paths {
        total = add_content(host, path.as_str(), total, &mut all)?;
    }
    Ok(all)
}

// Reads a file, and adds its bytes to those of others; how many they are together.
fn add_content<H: Host>(
    host: &mut H,
    path: &str,
    total: u64,
    all: &mut Vec<Name>,
) -> Result<u64, FolderError>
    requires { total ≤ 67108864 }
    ensures found { IfOk result (λ n. (bytes : List ℕ) × IfSome (H.files host.old) (λ m. HasFile m path.now bytes) × (length bytes ≤ 16777216)
        × (n ≡ total + length bytes) × (n ≤ 67108864) × (all.new.items ≡ all.old.items ++ bytes ∷ [])) }
    ensures too_long { (kind : LimitKind) (count : ℕ) → result ≡ Err (FolderError.TooMany kind count) → IfSome (H.files host.old) (λ m. IsTooLong m path.now total kind count) }
    ensures fault { result ≡ Err FolderError.Host → Rose (H.faults host.old) (H.faults host.new) }
    ensures cause { result ≡ Err FolderError.Host → H.steady host.old ≡ true → IfSome (H.files host.old) (λ m. IsFile m path.now → ⊥) }
    ensures goes { Goes H.faults H.steady H.source_steady H.sink_steady host.old host.new }
    ensures keeps { Keeps H.files H.said host.old host.new }
{
    let bytes = content(host, path)?;
    let after = total + bytes.len() as u64;
    if after > TOTAL_BYTES {
        return Err(FolderError::TooMany(LimitKind::TotalBytes, after));
    }
    match all.push(Name::from_vec(bytes)) {
        Ok(()) => Ok(after),
        Err(_) => Err(FolderError::NoMemory),
    }
}

// The bytes of a file that is not too long by itself.
fn content<H: Host>(host: &mut H, path: &str) -> Result<Vec<u8>, FolderError>
    ensures found { IfOk result (λ v. IfSome (H.files host.old) (λ m. HasFile m path.now v.items)) }
    ensures limit { IfOk result (λ v. length v.items ≤ 16777216) }
    ensures too_long { (kind : LimitKind) (count : ℕ) → result ≡ Err (FolderError.TooMany kind count) →
        (kind ≡ FileBytes) × (count ≡ 16777217) × IfSome (H.files host.old) (λ m. (bytes : List ℕ) × HasFile m path.now bytes × (16777216 < length bytes)) }
    ensures fault { result ≡ Err FolderError.Host → Rose (H.faults host.old) (H.faults host.new) }
    ensures cause { result ≡ Err FolderError.Host → H.steady host.old ≡ true → IfSome (H.files host.old) (λ m. IsFile m path.now → ⊥) }
    ensures goes { Goes H.faults H.steady H.source_steady H.sink_steady host.old host.new }
    ensures keeps { Keeps H.files H.said host.old host.new }
{
    match host.read(path, FILE_BYTES) {
        Ok(bytes) => Ok(bytes),
        Err(HostError::Fault) => Err(FolderError::Host),
        Err(HostError::TooLong) => Err(FolderError::TooMany(LimitKind::FileBytes, FILE_BYTES + 1)),
        Err(HostError::NoMemory) => Err(FolderError::NoMemory),
    }
}
