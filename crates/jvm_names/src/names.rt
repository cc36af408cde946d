// Names of members and classes.
ghost use Rattle.std.specs.Prelude.{◌≡◌, ◌↔◌, ◌||◌, IsTrue, option_map, codes};
ghost use Rattle.std.specs.Str.{bytes_eq};
ghost use Rattle.std.specs.List.{list_all};
ghost use Rattle.class_form.specs.Names.{IsUnqualifiedName, IsMethodName, IsClassName};
ghost use Rattle.class_form.specs.NameTests.{reached, go_on_name, is_outside_brackets, is_unqualified_name, is_method_name, is_class_name};
ghost use Rattle.class_form.specs.NameTests as tests;
ghost use Rattle.jvm_names.specs.States.{name_of};

use crate::utf8::{Left, begin, check_utf};

/// A place in the name of a class.
#[derive(Clone, Copy)]
pub enum InName {
    /// At the start of a part.
    Fresh,
    /// After a byte of a part; what is left of the character.
    Begun(Left),
}

/// Whether a byte is none of `.`, `;`, `[` and `/`.
fn is_plain(byte: u8) -> bool
    ensures { result ≡ tests.is_plain byte }
{
    !matches!(byte, b'.' | b';' | b'[' | b'/')
}

/// The place after a byte that begins a character of a part; none where it begins none.
fn begin_plain(byte: u8) -> Option<InName>
    ensures { option_map name_of result ≡ tests.begin_plain byte }
{
    if is_plain(byte) {
        let left = begin(byte)?;
        Some(InName::Begun(left))
    } else {
        None
    }
}

impl InName {
    /// The place after a byte; none where no class name goes on so.
    pub fn next(self, byte: u8) -> Option<InName>
        ensures { option_map name_of result ≡ go_on_name (name_of self) byte }
    {
        match self {
            InName::Fresh => begin_plain(byte),
            InName::Begun(Left::Nothing) => {
                if byte == b'/' {
                    Some(InName::Fresh)
                } else {
                    begin_plain(byte)
                }
            }
            InName::Begun(left) => {
                let left = left.next(byte)?;
                Some(InName::Begun(left))
            }
        }
    }

    /// Whether a name may end here.
    pub fn is_whole(self) -> bool
        ensures { result ≡ tests.is_whole (name_of self) }
    {
        matches!(self, InName::Begun(Left::Nothing))
    }
}

/// The place after the bytes; none where no class name begins so.
fn place_after(bytes: &[u8]) -> Option<InName>
    ensures { option_map name_of result ≡ reached go_on_name tests.Fresh bytes.now }
{
    let mut place = InName::Fresh;
    for byte in bytes {
        place = place.next(*byte)?;
    }
    Some(place)
}

/// Whether a name may end at the place, if there is one.
fn ends_whole(place: Option<InName>) -> bool
    ensures { result ≡ tests.is_whole_name (option_map name_of place) }
{
    match place {
        Some(place) => place.is_whole(),
        None => false,
    }
}

/// Whether the bytes are the name of a class (JVMS SE 7 4.2.1): unqualified names joined by `/`. One pass.
pub fn is_class_name(bytes: &[u8]) -> bool
    ensures exact { IsTrue result ↔ IsClassName bytes.now }
    ensures test { result ≡ is_class_name bytes.now }
{
    ends_whole(place_after(bytes))
}

/// Whether none of the bytes is `.`, `;`, `[` or `/`.
fn are_plain(bytes: &[u8]) -> bool
    ensures { result ≡ list_all tests.is_plain bytes.now }
{
    for byte in bytes {
        if !is_plain(*byte) {
            return false;
        }
    }
    true
}

/// Whether none of the bytes is `<` or `>`.
fn are_outside_brackets(bytes: &[u8]) -> bool
    ensures { result ≡ list_all is_outside_brackets bytes.now }
{
    for byte in bytes {
        if *byte == b'<' || *byte == b'>' {
            return false;
        }
    }
    true
}

/// Whether the bytes are an unqualified name (JVMS SE 7 4.2.2), the name of a field. Linear in the bytes.
pub fn is_unqualified_name(bytes: &[u8]) -> bool
    ensures exact { IsTrue result ↔ IsUnqualifiedName bytes.now }
    ensures test { result ≡ is_unqualified_name bytes.now }
{
    check_utf(bytes) && !bytes.is_empty() && are_plain(bytes)
}

/// Whether the bytes are one of the two names of methods that have `<` and `>`.
fn is_special(bytes: &[u8]) -> bool
    ensures { result ≡ (bytes_eq bytes.now (codes "<init>") || bytes_eq bytes.now (codes "<clinit>")) }
{
    bytes == b"<init>".as_slice() || bytes == b"<clinit>".as_slice()
}

/// Whether the bytes are the name of a method (JVMS SE 7 4.2.2): an unqualified name without `<` and `>`, or `<init>`, or `<clinit>`.
/// Linear in the bytes.
pub fn is_method_name(bytes: &[u8]) -> bool
    ensures exact { IsTrue result ↔ IsMethodName bytes.now }
    ensures test { result ≡ is_method_name bytes.now }
{
    is_unqualified_name(bytes) && (are_outside_brackets(bytes) || is_special(bytes))
}
