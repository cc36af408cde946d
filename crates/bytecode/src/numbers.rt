// Numbers in code, most significant byte first, and where jumps go.
ghost use Rattle.std.specs.Prelude.{◌≡◌, ◌<◌, ◌+◌, ◌^◌, length};
ghost use Rattle.class_form.specs.Bytes.{short_at, word_at, signed_short_at, signed_word_at, aligned, target_of};
ghost use Rattle.bytecode.specs.Parts.{clamped};

/// The unsigned number of two bytes at a place.
pub(crate) fn short_at(code: &[u8], k: usize) -> u16
    requires { k + 1 < length code.now }
    ensures { result ≡ short_at code.now k }
{
    u16::from(code[k]) * 256 + u16::from(code[k + 1])
}

/// The unsigned number of four bytes at a place.
pub(crate) fn word_at(code: &[u8], k: usize) -> u32
    requires { k + 3 < length code.now }
    ensures { result ≡ word_at code.now k }
{
    u32::from(short_at(code, k)) * 65536 + u32::from(short_at(code, k + 2))
}

/// The signed number of two bytes at a place, as how far it lies above -2^31.
pub(crate) fn signed_short_at(code: &[u8], k: usize) -> u32
    requires { k + 1 < length code.now }
    ensures { result ≡ signed_short_at code.now k }
{
    (u32::from(short_at(code, k)) + 0x8000) % 0x1_0000 + (0x8000_0000 - 0x8000)
}

/// The signed number of four bytes at a place, as how far it lies above -2^31.
pub(crate) fn signed_word_at(code: &[u8], k: usize) -> u32
    requires { k + 3 < length code.now }
    ensures { result ≡ signed_word_at code.now k }
{
    word_at(code, k).wrapping_add(0x8000_0000)
}

/// The first multiple of 4 above a place.
pub(crate) fn aligned(pc: usize) -> usize
    requires { pc < 65536 }
    ensures { result ≡ aligned pc }
{
    (pc + 4) / 4 * 4
}

/// Where a jump from a place goes, by a signed number as above. The greatest number, at which no instruction begins,
/// stands for all places that are no pc.
pub(crate) fn target_of(pc: usize, distance: u32) -> u16
    requires { pc < 65536 }
    ensures { result ≡ clamped (target_of pc distance) }
{
    let sum = pc as u64 + u64::from(distance);
    if sum < 0x8000_0000 {
        return u16::MAX;
    }
    (sum - 0x8000_0000).min(65535) as u16
}
