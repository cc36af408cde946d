// Pieces of a text, written to a sink.
ghost use Rattle.std.specs.Prelude.{◌≡◌, ◌↔◌, ◌<◌, ◌++◌, ◌∷◌, [], true, codes, IsTrue};
ghost use Rattle.std.specs.Fmt.{decimal};
ghost use Rattle.slicer_ids.specs.Escapes.{hex_digit, printed_byte, printed};
ghost use Rattle.report.specs.Writing.{Wrote};
ghost use Rattle.report.specs.Texts.{line_word};
ghost use Rattle.report.specs.Replies.{counted};

use edge_io::sink::{Sink, SinkError};
use edge_io::whole::write_whole;
use itoa::Buffer;

/// Writes the bytes.
pub fn write<K: Sink>(sink: &mut K, text: &[u8]) -> Result<(), SinkError>
    ensures { Wrote K.written K.label K.faults K.steady text.now result sink.old sink.new }
{
    write_whole(sink, text)
}

/// Writes a number in decimal.
pub fn write_number<K: Sink>(sink: &mut K, number: u64) -> Result<(), SinkError>
    ensures { Wrote K.written K.label K.faults K.steady (decimal number) result sink.old sink.new }
{
    let mut digits = Buffer::new();
    write(sink, digits.format(number).as_bytes())
}

/// Writes a line number, or a dash.
pub fn write_line_word<K: Sink>(sink: &mut K, line: Option<u16>) -> Result<(), SinkError>
    ensures { Wrote K.written K.label K.faults K.steady (line_word line) result sink.old sink.new }
{
    match line {
        Some(line) => write_number(sink, line as u64),
        None => write(sink, b"-"),
    }
}

fn hex_digit(value: u8) -> u8
    requires { value < 16 }
    ensures { result ≡ hex_digit value }
{
    if value < 10 {
        b'0' + value
    } else {
        b'a' - 10 + value
    }
}

// Writes a byte of a name.
fn write_byte<K: Sink>(sink: &mut K, byte: u8) -> Result<(), SinkError>
    ensures { Wrote K.written K.label K.faults K.steady (printed_byte byte) result sink.old sink.new }
{
    if byte <= 32 || byte == b'\\' || byte == 127 {
        write(sink, &[b'\\', hex_digit(byte / 16), hex_digit(byte % 16)])
    } else {
        write(sink, &[byte])
    }
}

fn is_plain(byte: u8) -> bool
    ensures { IsTrue result ↔ (printed_byte byte ≡ byte ∷ []) }
{
    byte > 32 && byte != b'\\' && byte != 127
}

// Whether each byte of a name stands for itself.
fn are_plain(name: &[u8]) -> bool
    ensures { result ≡ true → printed name.now ≡ name.now }
{
    for byte in name {
        if !is_plain(*byte) {
            return false;
        }
    }
    true
}

// Writes a name byte by byte.
fn write_escaped<K: Sink>(sink: &mut K, name: &[u8]) -> Result<(), SinkError>
    ensures { Wrote K.written K.label K.faults K.steady (printed name.now) result sink.old sink.new }
{
    for byte in name {
        write_byte(sink, *byte)?;
    }
    Ok(())
}

/// Writes a name as it is printed, in one piece where no byte of it is escaped.
pub fn write_name<K: Sink>(sink: &mut K, name: &[u8]) -> Result<(), SinkError>
    ensures { Wrote K.written K.label K.faults K.steady (printed name.now) result sink.old sink.new }
{
    if are_plain(name) {
        write(sink, name)
    } else {
        write_escaped(sink, name)
    }
}

/// Writes a space and then a number.
pub fn write_spaced_number<K: Sink>(sink: &mut K, number: u64) -> Result<(), SinkError>
    ensures { Wrote K.written K.label K.faults K.steady (codes " " ++ decimal number) result sink.old sink.new }
{
    write(sink, b" ")?;
    write_number(sink, number)
}

/// Writes a number and the end of the line.
pub fn write_last_number<K: Sink>(sink: &mut K, number: u64) -> Result<(), SinkError>
    ensures { Wrote K.written K.label K.faults K.steady (decimal number ++ codes "\n") result sink.old sink.new }
{
    write_number(sink, number)?;
    write(sink, b"\n")
}

/// Writes a line number, or a dash, and the end of the line.
pub fn write_last_line<K: Sink>(sink: &mut K, line: Option<u16>) -> Result<(), SinkError>
    ensures { Wrote K.written K.label K.faults K.steady (line_word line ++ codes "\n") result sink.old sink.new }
{
    write_line_word(sink, line)?;
    write(sink, b"\n")
}

/// Writes a word, how many lines follow, and the end of the line.
pub fn write_counted<K: Sink>(sink: &mut K, word: &[u8], count: u64) -> Result<(), SinkError>
    ensures { Wrote K.written K.label K.faults K.steady (counted word.now count) result sink.old sink.new }
{
    write(sink, word)?;
    write(sink, b" ")?;
    write_last_number(sink, count)
}
