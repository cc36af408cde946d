// Modified UTF-8, byte by byte.
ghost use Rattle.std.specs.Prelude.{◌≡◌, ◌↔◌, IsTrue, option_map};
ghost use Rattle.class_form.specs.Utf8.{IsModifiedUtf8};
ghost use Rattle.class_form.specs.NameTests.{reached, go_on, begin_character, is_nothing, is_modified_utf8};
ghost use Rattle.class_form.specs.NameTests as tests;
ghost use Rattle.jvm_names.specs.States.{left_of};

/// What is left of a character.
#[derive(Clone, Copy)]
pub enum Left {
    /// The next byte begins a character.
    Nothing,
    /// Byte 80, after c0.
    Zero,
    /// One byte.
    One,
    /// Two bytes.
    Two,
    /// Two bytes, of which the first is at least a0.
    High,
}

/// What a first byte leaves of its character; none where it begins none.
pub fn begin(byte: u8) -> Option<Left>
    ensures { option_map left_of result ≡ begin_character byte }
{
    match byte {
        0x01..=0x7f => Some(Left::Nothing),
        0xc0 => Some(Left::Zero),
        0xc2..=0xdf => Some(Left::One),
        0xe0 => Some(Left::High),
        0xe1..=0xef => Some(Left::Two),
        _ => None,
    }
}

impl Left {
    /// What a byte leaves of the character; none where it doesn't go on with it.
    pub fn next(self, byte: u8) -> Option<Left>
        ensures { option_map left_of result ≡ go_on (left_of self) byte }
    {
        match self {
            Left::Nothing => begin(byte),
            Left::Zero => {
                if byte == 0x80 {
                    Some(Left::Nothing)
                } else {
                    None
                }
            }
            Left::One => {
                if 0x80 <= byte && byte <= 0xbf {
                    Some(Left::Nothing)
                } else {
                    None
                }
            }
            Left::Two => {
                if 0x80 <= byte && byte <= 0xbf {
                    Some(Left::One)
                } else {
                    None
                }
            }
            Left::High => {
                if 0xa0 <= byte && byte <= 0xbf {
                    Some(Left::One)
                } else {
                    None
                }
            }
        }
    }
}

/// What the bytes leave of a character; none where some byte goes on with none.
fn left_after(bytes: &[u8]) -> Option<Left>
    ensures { option_map left_of result ≡ reached go_on tests.Nothing bytes.now }
{
    let mut left = Left::Nothing;
    for byte in bytes {
        left = left.next(*byte)?;
    }
    Some(left)
}

/// Whether a character isn't left in its midst.
fn is_whole(left: Option<Left>) -> bool
    ensures { result ≡ is_nothing (option_map left_of left) }
{
    matches!(left, Some(Left::Nothing))
}

/// Whether the bytes are modified UTF-8 (JVMS SE 7 4.4.7), in one pass.
pub fn check_utf(bytes: &[u8]) -> bool
    ensures exact { IsTrue result ↔ IsModifiedUtf8 bytes.now }
    ensures test { result ≡ is_modified_utf8 bytes.now }
{
    is_whole(left_after(bytes))
}
