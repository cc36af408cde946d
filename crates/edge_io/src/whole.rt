// All of a text, and all that a source gives up to a limit, over as many calls as that takes.
ghost use Rattle.std.specs.Prelude.{◌≡◌, ℕ, ◌+◌, ◌<◌, ◌≤◌, true, length, take, drop, [], List, ◌↔◌, ◌++◌, OnOk, OnErr, IfOk, IfSome, Err};
ghost use Rattle.std.specs.Option.{option_map};
ghost use Rattle.edge_io.specs.Faults.{Rose};
ghost use Rattle.edge_io.specs.Reads.{appended};

use crate::sink::{Sink, SinkError};
use crate::source::Source;
use std::alloc::Global;
use thiserror::Error;

/// Why not all was read.
#[derive(Clone, Copy, Debug, Drop, PartialEq, Eq, Error)]
pub enum ReadError {
    #[error("no memory")]
    NoMemory,
    #[error("the source failed")]
    Fault,
}

// Writes some of the bytes from a place on, at least one; how many.
fn write_piece<K: Sink>(sink: &mut K, bytes: &[u8], at: usize) -> Result<usize, SinkError>
    requires { at < length bytes.now }
    ensures within { IfOk result (λ n. (1 ≤ n) × (at + n ≤ length bytes.now)) }
    ensures written { IfOk result (λ n. K.written sink.new ≡ appended (take n (drop at bytes.now)) (K.written sink.old)) }
    ensures unwritten { OnErr result (K.written sink.new ≡ K.written sink.old) }
    ensures label { K.label sink.new ≡ K.label sink.old }
    ensures count { K.faults sink.old ≤ K.faults sink.new }
    ensures fault { result ≡ Err SinkError.Fault → Rose (K.faults sink.old) (K.faults sink.new) }
    ensures steady { K.steady sink.new ≡ K.steady sink.old }
    ensures still { K.steady sink.old ≡ true → K.faults sink.new ≡ K.faults sink.old }
{
    sink.write(&bytes[at..])
}

/// Writes all of the bytes, in as many calls as the sink takes for them. After a refusal a proper prefix of them is
/// written.
pub fn write_whole<K: Sink>(sink: &mut K, bytes: &[u8]) -> Result<(), SinkError>
    ensures whole { OnOk result (K.written sink.new ≡ appended bytes.now (K.written sink.old)) }
    ensures part { OnErr result ((k : ℕ) × (k < length bytes.now) × (K.written sink.new ≡ appended (take k bytes.now) (K.written sink.old))) }
    ensures label { K.label sink.new ≡ K.label sink.old }
    ensures count { K.faults sink.old ≤ K.faults sink.new }
    ensures fault { result ≡ Err SinkError.Fault → Rose (K.faults sink.old) (K.faults sink.new) }
    ensures steady { K.steady sink.new ≡ K.steady sink.old }
    ensures still { K.steady sink.old ≡ true → K.faults sink.new ≡ K.faults sink.old }
    // A steady sink refuses for want of memory alone.
    ensures sure { K.steady sink.old ≡ true → result ≡ Err SinkError.Fault → ⊥ }
{
    let mut at = 0;
    while at < bytes.len() {
        let count = write_piece(sink, bytes, at)?;
        at += count;
    }
    Ok(())
}

// Reads a piece into a buffer, and puts it behind the bytes so far; the number of bytes read.
fn read_piece<S: Source>(
    source: &mut S,
    buffer: &mut [u8],
    bytes: &mut Vec<u8>,
) -> Result<usize, ReadError>
    requires { 0 < length buffer.old }
    ensures read { IfOk result (λ n. (piece : List ℕ) × (length piece ≡ n) × (n ≤ length buffer.old) × (bytes.new.items ≡ bytes.old.items ++ piece)
        × (S.left source.new ≡ option_map (drop n) (S.left source.old)) × IfSome (S.left source.old) (λ left. (piece ≡ take (length piece) left) × ((n ≡ 0) ↔ (left ≡ [])))) }
    ensures count { S.faults source.old ≤ S.faults source.new }
    ensures fault { result ≡ Err ReadError.Fault → Rose (S.faults source.old) (S.faults source.new) }
    ensures steady { S.steady source.new ≡ S.steady source.old }
    ensures still { S.steady source.old ≡ true → S.faults source.new ≡ S.faults source.old }
{
    let Ok(count) = source.read(buffer) else {
        return Err(ReadError::Fault);
    };
    if bytes.extend_from_slice(&buffer[..count]).is_err() {
        return Err(ReadError::NoMemory);
    }
    Ok(count)
}

/// Reads to the end of the source, or until `limit` bytes are read.
pub fn read_up_to<S: Source>(
    alloc: Global,
    source: &mut S,
    limit: usize,
) -> Result<Vec<u8>, ReadError>
    ensures content { IfOk result (λ v. IfSome (S.left source.old) (λ left. v.items ≡ take limit left)) }
    ensures limit { IfOk result (λ v. length v.items ≤ limit) }
    ensures count { S.faults source.old ≤ S.faults source.new }
    ensures fault { result ≡ Err ReadError.Fault → Rose (S.faults source.old) (S.faults source.new) }
    ensures steady { S.steady source.new ≡ S.steady source.old }
    // A steady source refuses for want of memory alone.
    ensures sure { S.steady source.old ≡ true → result ≡ Err ReadError.Fault → ⊥ }
{
    let mut bytes = Vec::new(alloc);
    let mut buffer = [0u8; 512];
    while bytes.len() < limit {
        let room = buffer.len().min(limit - bytes.len());
        let count = read_piece(source, &mut buffer[..room], &mut bytes)?;
        if count == 0 {
            return Ok(bytes);
        }
    }
    Ok(bytes)
}
