// Names and numbers as they are printed.
ghost use Rattle.std.specs.Prelude.{◌≡◌, ◌<◌, ◌++◌, OnOk};
ghost use Rattle.std.specs.Fmt.{decimal};
ghost use Rattle.slicer_ids.specs.Escapes.{hex_digit, printed_byte, printed};

use std::alloc::{AllocError, Global};

fn hex_digit(value: u8) -> u8
    requires { value < 16 }
    ensures { result ≡ hex_digit value }
{
    if value < 10 {
        b'0' + value
    } else {
        b'a' - 10 + value
    }
}

fn push_byte(text: &mut Vec<u8>, byte: u8) -> Result<(), AllocError>
    ensures { OnOk result (text.new.items ≡ text.old.items ++ printed_byte byte) }
{
    if byte <= 32 || byte == b'\\' || byte == 127 {
        text.extend_from_slice(&[b'\\', hex_digit(byte / 16), hex_digit(byte % 16)])
    } else {
        text.push(byte)?;
        Ok(())
    }
}

/// Appends a name as it is printed: a byte that is at most 32, or 92, or 127 as `\` and two lower-case hexadecimal digits.
pub fn push_printed(text: &mut Vec<u8>, name: &[u8]) -> Result<(), AllocError>
    ensures { OnOk result (text.new.items ≡ text.old.items ++ printed name.now) }
{
    for byte in name {
        push_byte(text, *byte)?;
    }
    Ok(())
}

/// Appends a number in decimal.
pub fn push_number(alloc: Global, text: &mut Vec<u8>, number: u64) -> Result<(), AllocError>
    ensures { OnOk result (text.new.items ≡ text.old.items ++ decimal number) }
{
    let digits = number.to_string(alloc)?;
    text.extend_from_slice(digits.as_bytes())
}
