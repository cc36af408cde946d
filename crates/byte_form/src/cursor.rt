// A place in some bytes.
ghost use Rattle.std.specs.Prelude.{◌+◌, ◌<◌, ◌^◌, length};
ghost use Rattle.byte_form.specs.Places.{IsBytes};

use crate::error::ItemError;
use byteorder::{BigEndian, ByteOrder};
use slicer_ids::name::Name;
use std::alloc::Global;

/// What is left of some bytes, and the offset of its first byte.
#[derive(Drop)]
pub struct Cursor<'a> {
    rest: &'a [u8],
    at: u32,
    ghost fits: { at + length rest.now < 2 ^ 32 },
    ghost bytes: { IsBytes rest.now },
}

impl<'a> Cursor<'a> {
    ghost use Rattle.std.specs.Prelude.{◌≡◌, ◌==◌, length, IfOk};
    ghost use Rattle.byte_form.specs.Reading.{Gives, number_at, bytes_at};
    ghost use Rattle.byte_form.specs.States.{state};
    ghost use Rattle.byte_form.specs.Places.{start};

    /// The first byte of the bytes.
    pub fn new(bytes: &'a [u8]) -> Cursor<'a>
        requires { length bytes.now < 2 ^ 32 }
        ensures { state result ≡ start bytes.now }
    {
        Cursor { rest: bytes, at: 0 }
    }

    /// The offset of the next byte.
    pub fn at(&self) -> u32
        ensures { result ≡ (state self.now).at }
    {
        self.at
    }

    /// Whether no byte is left.
    pub fn is_at_end(&self) -> bool
        ensures { result ≡ (length (state self.now).rest == 0) }
    {
        self.rest.is_empty()
    }

    /// The next bytes.
    #[tactic(auto, unfolding(crate::specs::Reading::bytes_at))]
    pub fn take(&mut self, count: usize) -> Result<&'a [u8], ItemError>
        ensures gives { Gives (λ x. x.now) result (state self.new) (bytes_at count (state self.old)) }
        ensures len { IfOk result (λ x. length x.now ≡ count) }
    {
        if self.rest.len() < count {
            return Err(ItemError::Truncated);
        }
        let (bytes, rest) = self.rest.split_at(count);
        self.rest = rest;
        self.at += count as u32;
        Ok(bytes)
    }

    /// A number of one byte.
    #[tactic(auto, unfolding(crate::specs::Reading::number_at))]
    pub fn u1(&mut self) -> Result<u8, ItemError>
        ensures { Gives (λ x. x) result (state self.new) (number_at 1 (state self.old)) }
    {
        let bytes = self.take(1)?;
        Ok(bytes[0])
    }

    /// A number of two bytes.
    #[tactic(auto, unfolding(crate::specs::Reading::number_at))]
    pub fn u2(&mut self) -> Result<u16, ItemError>
        ensures { Gives (λ x. x) result (state self.new) (number_at 2 (state self.old)) }
    {
        let bytes = self.take(2)?;
        Ok(BigEndian::read_u16(bytes))
    }

    /// A number of four bytes.
    #[tactic(auto, unfolding(crate::specs::Reading::number_at))]
    pub fn u4(&mut self) -> Result<u32, ItemError>
        ensures { Gives (λ x. x) result (state self.new) (number_at 4 (state self.old)) }
    {
        let bytes = self.take(4)?;
        Ok(BigEndian::read_u32(bytes))
    }

    /// A number of eight bytes.
    #[tactic(auto, unfolding(crate::specs::Reading::number_at))]
    pub fn u8(&mut self) -> Result<u64, ItemError>
        ensures { Gives (λ x. x) result (state self.new) (number_at 8 (state self.old)) }
    {
        let bytes = self.take(8)?;
        Ok(BigEndian::read_u64(bytes))
    }

    /// The next bytes, in memory of their own.
    pub fn name(&mut self, alloc: Global, count: usize) -> Result<Name, ItemError>
        ensures { Gives (λ x. x) result (state self.new) (bytes_at count (state self.old)) }
    {
        let bytes = self.take(count)?;
        Ok(Name::from_bytes(alloc, bytes)?)
    }

    /// A cursor over the next bytes alone.
    #[tactic(auto, unfolding(crate::specs::Reading::bytes_at))]
    pub fn part(&mut self, count: usize) -> Result<Cursor<'a>, ItemError>
        ensures gives { Gives (λ x. (state x).rest) result (state self.new) (bytes_at count (state self.old)) }
        ensures at { IfOk result (λ x. (state x).at ≡ (state self.old).at) }
    {
        let at = self.at;
        let rest = self.take(count)?;
        Ok(Cursor { rest, at })
    }
}
