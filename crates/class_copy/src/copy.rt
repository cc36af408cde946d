// A class file, read and written.
ghost use Rattle.std.specs.Prelude.{◌≡◌, ◌<◌, ◌^◌, ℕ, List, [], Some, length, IfOk, OnOk, IfSome};
ghost use Rattle.std.specs.Option.{option_map};
ghost use Rattle.edge_io.specs.Files.{HasFile, file_set};
ghost use Rattle.edge_io.specs.Reads.{appended};
ghost use Rattle.class_form.specs.ClassRules.{Spells};
ghost use Rattle.class_form.specs.declared.class_file.ClassFile.{ClassFile};

use class_reader::{ReadError, read_class};
use class_writer::write_class;
use edge_io::host::{Host, HostError};
use edge_io::sink::{Sink, SinkError};
use edge_io::whole::write_whole;
use slicer_ids::limits::FILE_BYTES;
use std::alloc::Global;
use thiserror::Error;

/// Why a class file was not copied.
#[derive(Clone, Copy, PartialEq, Eq, Debug, Error)]
pub enum CopyError {
    #[error("no memory")]
    NoMemory,
    #[error("not read")]
    NotRead,
    #[error("not written")]
    NotWritten,
    /// The file is no class file.
    #[error("{0}")]
    Refused(ReadError),
}

fn content<H: Host>(host: &mut H, path: &str) -> Result<Vec<u8>, CopyError>
    ensures tells { IfOk result (λ v. IfSome (H.files host.old) (λ m. HasFile m path.now v.items)) }
    ensures limit { IfOk result (λ v. length v.items < 2 ^ 32) }
    ensures files { H.files host.new ≡ H.files host.old }
{
    match host.read(path, FILE_BYTES) {
        Ok(bytes) => Ok(bytes),
        Err(HostError::NoMemory) => Err(CopyError::NoMemory),
        Err(_) => Err(CopyError::NotRead),
    }
}

/// The bytes of the class file that the bytes spell: the same ones.
pub fn rewritten(alloc: Global, bytes: &[u8]) -> Result<Vec<u8>, CopyError>
    requires { length bytes.now < 2 ^ 32 }
    ensures { IfOk result (λ v. v.items ≡ bytes.now) }
{
    match read_class(alloc, bytes) {
        Ok(class) => match write_class(alloc, &class) {
            Ok(written) => Ok(written),
            Err(_) => Err(CopyError::NoMemory),
        },
        Err(error) => Err(CopyError::Refused(error)),
    }
}

fn created<H: Host>(host: &mut H, path: &str) -> Result<H::Out, CopyError>
    ensures label { IfOk result (λ s. H.Out.label s ≡ path.now) }
    ensures made { OnOk result (H.files host.new ≡ option_map (λ m. file_set m path.now []) (H.files host.old)) }
    ensures empty { IfOk result (λ s. IfSome (H.files host.old) (λ _. H.Out.written s ≡ Some [])) }
{
    match host.create(path) {
        Ok(sink) => Ok(sink),
        Err(HostError::NoMemory) => Err(CopyError::NoMemory),
        Err(_) => Err(CopyError::NotWritten),
    }
}

fn filled<K: Sink>(sink: &mut K, bytes: &[u8]) -> Result<(), CopyError>
    ensures whole { OnOk result (K.written sink.new ≡ appended bytes.now (K.written sink.old)) }
    ensures label { K.label sink.new ≡ K.label sink.old }
{
    match write_whole(sink, bytes) {
        Ok(()) => Ok(()),
        Err(SinkError::NoMemory) => Err(CopyError::NoMemory),
        Err(_) => Err(CopyError::NotWritten),
    }
}

fn closed<H: Host>(host: &mut H, sink: H::Out) -> Result<(), CopyError>
    ensures { OnOk result (IfSome (H.Out.written sink) (λ w. H.files host.new ≡ option_map (λ m. file_set m (H.Out.label sink) w) (H.files host.old))) }
{
    match host.close(sink) {
        Ok(()) => Ok(()),
        Err(_) => Err(CopyError::NotWritten),
    }
}

// Makes the file at the path have these bytes.
fn put<H: Host>(host: &mut H, path: &str, bytes: &[u8]) -> Result<(), CopyError>
    ensures { OnOk result (IfSome (H.files host.old) (λ _. IfSome (H.files host.new) (λ n. HasFile n path.now bytes.now))) }
{
    let mut sink = created(host, path)?;
    filled(&mut sink, bytes)?;
    closed(host, sink)?;
    Ok(())
}

/// Reads a class file. Where files are told, the one at the path is a class file.
pub fn read<H: Host>(alloc: Global, host: &mut H, from: &str) -> Result<(), CopyError>
    ensures read { OnOk result (IfSome (H.files host.old) (λ m. (bytes : List ℕ) × (c : ClassFile) × HasFile m from.now bytes × Spells bytes c)) }
    ensures files { H.files host.new ≡ H.files host.old }
{
    let bytes = content(host, from)?;
    match read_class(alloc, &bytes) {
        Ok(_class) => Ok(()),
        Err(error) => Err(CopyError::Refused(error)),
    }
}

/// Reads a class file and writes it to another path. Where files are told, both paths had or have the same bytes.
pub fn copy<H: Host>(alloc: Global, host: &mut H, from: &str, to: &str) -> Result<(), CopyError>
    ensures { OnOk result (IfSome (H.files host.old) (λ m. (bytes : List ℕ) × HasFile m from.now bytes × IfSome (H.files host.new) (λ n. HasFile n to.now bytes))) }
{
    let bytes = content(host, from)?;
    let written = rewritten(alloc, &bytes)?;
    put(host, to, &written)?;
    Ok(())
}
