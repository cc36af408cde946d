// A reader of lines.
ghost use Rattle.std.specs.Prelude.{◌≡◌, ◌≢◌, ◌+◌, ◌<◌, ◌≤◌, ◌++◌, ◌∷◌, [], ℕ, List, true, false, length, take, IfOk, OnOk, OnErr, IfSome, IfNone, MatchOption, vec_len, vec_capacity, Option, Some, None};
ghost use Rattle.edge_io.specs.Faults.{Rose};
ghost use Rattle.script_lines.specs.Limits.{most_lines, most_bytes, kept_bytes};

use crate::next::Next;
use edge_io::source::{Fault, Source};
use slicer_ids::ids::NoMemory;
use std::alloc::Global;

// The most lines of a script.
const MOST_LINES: u32 = 1048576;

// The most bytes of a script.
const MOST_BYTES: u32 = 268435456;

// How many bytes of a line are kept: with so many it is too long, whatever follows.
const KEPT_BYTES: usize = 4098;

// How many bytes are read at once.
const CHUNK_BYTES: usize = 4096;

/// Reads a script line by line.
#[derive(Drop)]
pub struct ScriptReader {
    chunk: Vec<u8>,
    // the bytes of the chunk from `at` to `end` aren't taken yet
    at: usize,
    end: usize,
    // the first bytes of the line
    line: Vec<u8>,
    lines: u32,
    bytes: u32,
    pub ghost within_chunk: { end ≤ length chunk.items },
    pub ghost in_order: { at ≤ end },
    pub ghost some_chunk: { 0 < length chunk.items },
    pub ghost room: { kept_bytes ≤ vec_capacity line },
    pub ghost short: { vec_len line ≤ kept_bytes },
    pub ghost few_lines: { lines ≤ most_lines },
    pub ghost few_bytes: { bytes ≤ most_bytes },
}

// Adds a byte, unless so many are kept already.
fn keep(line: &mut Vec<u8>, byte: u8)
    requires room { kept_bytes ≤ vec_capacity line.old }
    requires short { vec_len line.old ≤ kept_bytes }
    ensures room { kept_bytes ≤ vec_capacity line.new }
    ensures short { vec_len line.new ≤ kept_bytes }
    ensures kept { (rest : List ℕ) → line.old.items ≡ take kept_bytes rest → line.new.items ≡ take kept_bytes (rest ++ byte ∷ []) }
{
    if line.len() < KEPT_BYTES {
        match line.push(byte) {
            Ok(()) => {}
            Err(_) => unreachable!(),
        }
    }
}

impl ScriptReader {
    ghost use Rattle.script_lines.specs.Reading.{line_in, IsBetween, IsWithin, Comes, Ends};

    /// A reader that has read nothing yet.
    pub fn new(alloc: Global) -> Result<ScriptReader, NoMemory>
        ensures { IfOk result (λ r. (script : List ℕ) → IsBetween script [] r (Some script)) }
    {
        let chunk = vec![in alloc; 0u8; CHUNK_BYTES]?;
        let line = Vec::with_capacity(alloc, KEPT_BYTES)?;
        Ok(ScriptReader {
            chunk,
            at: 0,
            end: 0,
            line,
            lines: 0,
            bytes: 0,
        })
    }

    /// The line that came last, without its end: all its bytes where they are fewer than 4098, and else the first 4098.
    pub fn line(&self) -> &[u8]
        ensures { result.now ≡ line_in self.now }
    {
        self.line.as_slice()
    }

    // Reads on, where all that was read is taken.
    fn fill<S: Source>(&mut self, source: &mut S) -> Result<(), Fault>
        requires { self.old.at ≡ self.old.end }
        ensures within { OnOk result ((script : List ℕ) (lines : List (List ℕ)) (rest : List ℕ) → IsWithin script lines rest self.old (S.left source.old) → IsWithin script lines rest self.new (S.left source.new)) }
        ensures end { OnOk result (self.new.end ≡ 0 → (left : List ℕ) → S.left source.new ≡ Some left → left ≡ []) }
        ensures start { OnOk result (self.new.at ≡ 0) }
        ensures bytes { self.new.bytes ≡ self.old.bytes }
        ensures line { line_in self.new ≡ line_in self.old }
        ensures count { S.faults source.old ≤ S.faults source.new }
        ensures fault { OnErr result (Rose (S.faults source.old) (S.faults source.new)) }
        ensures steady { S.steady source.new ≡ S.steady source.old }
        ensures still { S.steady source.old ≡ true → S.faults source.new ≡ S.faults source.old }
    {
        let count = source.read(self.chunk.as_mut_slice())?;
        self.at = 0;
        self.end = count;
        Ok(())
    }

    // What comes where nothing is left.
    fn ending(&self) -> Next
        ensures { Ends self.now result }
    {
        if self.line.is_empty() {
            Next::End
        } else {
            Next::Last
        }
    }

    // What comes after a read. None where it gave something.
    fn after_read(&self) -> Option<Next>
        requires { self.now.at ≡ 0 }
        ensures { MatchOption result (self.now.at < self.now.end) (λ n. (self.now.end ≡ 0) × Ends self.now n) }
    {
        if self.end == 0 {
            return Some(self.ending());
        }
        None
    }

    // Takes the next byte that was read. None where it belongs to the line and doesn't end it.
    fn step(&mut self) -> Option<Next>
        requires { self.old.at < self.old.end }
        ensures within { (script : List ℕ) (lines : List (List ℕ)) (rest : List ℕ) (left : Option (List ℕ)) → IsWithin script lines rest self.old left → MatchOption result ((more : List ℕ) × IsWithin script lines more self.new left) (Comes script lines self.new left) }
        ensures bytes { result ≢ Some Next.TooLong → self.old.bytes < self.new.bytes }
        ensures no_less { self.old.bytes ≤ self.new.bytes }
        ensures kinds { result ≢ Some Next.Fault }
    {
        if self.lines == MOST_LINES {
            return Some(Next::TooLong);
        }
        if self.bytes == MOST_BYTES {
            return Some(Next::TooLong);
        }
        let byte = self.chunk[self.at];
        self.at += 1;
        self.bytes += 1;
        if byte == 10 {
            self.lines += 1;
            return Some(Next::Line);
        }
        keep(&mut self.line, byte);
        None
    }

    // Sees to it that there is a byte to take. What comes where there is none.
    fn have_byte<S: Source>(&mut self, source: &mut S) -> Option<Next>
        ensures within { (script : List ℕ) (lines : List (List ℕ)) (rest : List ℕ) → IsWithin script lines rest self.old (S.left source.old) → MatchOption result (IsWithin script lines rest self.new (S.left source.new)) (Comes script lines self.new (S.left source.new)) }
        ensures some { result ≡ None → self.new.at < self.new.end }
        ensures bytes { self.new.bytes ≡ self.old.bytes }
        ensures kinds { result ≢ Some Next.Line }
        ensures count { S.faults source.old ≤ S.faults source.new }
        ensures fault { result ≡ Some Next.Fault → Rose (S.faults source.old) (S.faults source.new) }
        ensures steady { S.steady source.new ≡ S.steady source.old }
        ensures still { S.steady source.old ≡ true → S.faults source.new ≡ S.faults source.old }
    {
        if self.at < self.end {
            return None;
        }
        match self.fill(source) {
            Ok(()) => self.after_read(),
            Err(_) => Some(Next::Fault),
        }
    }

    // Takes one byte, which is read where none is there. None where the line goes on.
    fn turn<S: Source>(&mut self, source: &mut S) -> Option<Next>
        ensures within { (script : List ℕ) (lines : List (List ℕ)) (rest : List ℕ) → IsWithin script lines rest self.old (S.left source.old) → MatchOption result ((more : List ℕ) × IsWithin script lines more self.new (S.left source.new)) (Comes script lines self.new (S.left source.new)) }
        ensures on { result ≡ None → self.old.bytes < self.new.bytes }
        ensures line { result ≡ Some Next.Line → self.old.bytes < self.new.bytes }
        ensures bytes { self.old.bytes ≤ self.new.bytes }
        ensures count { S.faults source.old ≤ S.faults source.new }
        ensures fault { result ≡ Some Next.Fault → Rose (S.faults source.old) (S.faults source.new) }
        ensures steady { S.steady source.new ≡ S.steady source.old }
        ensures still { S.steady source.old ≡ true → S.faults source.new ≡ S.faults source.old }
    {
        match self.have_byte(source) {
            Some(next) => Some(next),
            None => self.step(),
        }
    }

    /// What comes next. It reads on only where all that was read is taken. Each line takes a byte or more of those that a script may
    /// have, so that a script ends whatever its source gives.
    pub fn next<S: Source>(&mut self, source: &mut S) -> Next
        ensures comes { (script : List ℕ) (lines : List (List ℕ)) → IsBetween script lines self.old (S.left source.old) → Comes script lines self.new (S.left source.new) result }
        ensures line { result ≡ Next.Line → self.old.bytes < self.new.bytes }
        ensures count { S.faults source.old ≤ S.faults source.new }
        ensures fault { result ≡ Next.Fault → Rose (S.faults source.old) (S.faults source.new) }
        ensures steady { S.steady source.new ≡ S.steady source.old }
        ensures still { S.steady source.old ≡ true → S.faults source.new ≡ S.faults source.old }
    {
        self.line.clear();
        loop {
            if let Some(next) = self.turn(source) {
                return next;
            }
        }
    }
}
