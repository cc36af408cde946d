// Bytes that are written one behind the other.
use byteorder::{BigEndian, ByteOrder};
use slicer_ids::ids::NoMemory;
use std::alloc::Global;
use std::marker::Model;

/// What was written so far.
#[derive(Drop)]
pub struct Output {
    bytes: Vec<u8>,
}

impl Model for Output {
    ghost use Rattle.std.specs.Prelude.{List, ℕ};

    ghost Value = { List ℕ };

    ghost view = { λ s. s.bytes.items };
}

impl Output {
    ghost use Rattle.std.specs.Prelude.{◌≡◌, ◌++◌, [], IfOk, OnOk};
    ghost use Rattle.byteorder.specs.Endian.{big_bytes};

    /// Nothing, with memory for so many bytes.
    pub fn new(alloc: Global, capacity: usize) -> Result<Output, NoMemory>
        ensures { IfOk result (λ o. o ≡ []) }
    {
        let bytes = Vec::with_capacity(alloc, capacity)?;
        Ok(Output { bytes })
    }

    /// The bytes.
    pub fn into_vec(self) -> Vec<u8>
        ensures { result.items ≡ self }
    {
        let Output { bytes } = self;
        bytes
    }

    /// Writes the bytes.
    pub fn bytes(&mut self, bytes: &[u8]) -> Result<(), NoMemory>
        ensures { OnOk result (self.new ≡ self.old ++ bytes.now) }
    {
        self.bytes.extend_from_slice(bytes)?;
        Ok(())
    }

    /// Writes a number of one byte.
    pub fn u1(&mut self, n: u8) -> Result<(), NoMemory>
        ensures { OnOk result (self.new ≡ self.old ++ big_bytes 1 n) }
    {
        self.bytes(&[n])
    }

    /// Writes a number of two bytes.
    pub fn u2(&mut self, n: u16) -> Result<(), NoMemory>
        ensures { OnOk result (self.new ≡ self.old ++ big_bytes 2 n) }
    {
        let mut bytes = [0; 2];
        BigEndian::write_u16(&mut bytes, n);
        self.bytes(&bytes)
    }

    /// Writes a number of four bytes.
    pub fn u4(&mut self, n: u32) -> Result<(), NoMemory>
        ensures { OnOk result (self.new ≡ self.old ++ big_bytes 4 n) }
    {
        let mut bytes = [0; 4];
        BigEndian::write_u32(&mut bytes, n);
        self.bytes(&bytes)
    }

    /// Writes a number of eight bytes.
    pub fn u8(&mut self, n: u64) -> Result<(), NoMemory>
        ensures { OnOk result (self.new ≡ self.old ++ big_bytes 8 n) }
    {
        let mut bytes = [0; 8];
        BigEndian::write_u64(&mut bytes, n);
        self.bytes(&bytes)
    }
}
