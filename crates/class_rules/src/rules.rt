// The rules, one test each.
ghost use Rattle.std.specs.Prelude.{◌≡◌, codes};
ghost use Rattle.std.specs.List.{list_any, list_all};
ghost use Rattle.class_form.specs.ClassReading.{is_set, is_named, names_array, is_plain_class, is_class_named, is_superclass, are_field_texts, are_method_texts, is_initializer, slots_at, has_slots, is_of_kind, needs_code, is_code, has_code_where_needed, has_locals, has_locals_for_all, is_handler};
ghost use Rattle.const_pool.specs.Texts.{AreKindsOf};

use class_form::class_file::{Attribute, Content, Handler};
use class_form::pool::Pool;
use const_pool::texts::TextKinds;
use const_pool::{is_class, kinds_at};

/// Whether a flag is set; the flags' bits have the numbers of JVMS SE 7 tables 4.1-A, 4.5-A and 4.6-A.
pub fn is_static(flags: u16) -> bool
    ensures { result ≡ is_set flags 3 }
{
    flags & 0x0008 != 0
}

pub fn is_native(flags: u16) -> bool
    ensures { result ≡ is_set flags 8 }
{
    flags & 0x0100 != 0
}

pub fn is_interface(flags: u16) -> bool
    ensures { result ≡ is_set flags 9 }
{
    flags & 0x0200 != 0
}

pub fn is_abstract(flags: u16) -> bool
    ensures { result ≡ is_set flags 10 }
{
    flags & 0x0400 != 0
}

/// Whether this text stands at the index.
pub fn is_named(pool: &Pool, i: u16, text: &[u8]) -> bool
    ensures { result ≡ is_named pool.now i text.now }
{
    match pool.utf(i) {
        Some(found) => found == text,
        None => false,
    }
}

fn names_array(text: &[u8]) -> bool
    ensures { result ≡ names_array text.now }
{
    !text.is_empty() && text[0] == b'['
}

/// Whether a class that is no array stands at the index.
pub fn is_plain_class(pool: &Pool, i: u16) -> bool
    ensures { result ≡ is_plain_class pool.now i }
{
    match pool.class(i) {
        Some(text) => !names_array(text),
        None => false,
    }
}

fn is_object(pool: &Pool, i: u16) -> bool
    ensures { result ≡ is_class_named pool.now i (codes "java/lang/Object") }
{
    match pool.class(i) {
        Some(text) => text == b"java/lang/Object".as_slice(),
        None => false,
    }
}

/// Whether a class of these two indices may have this superclass.
pub fn is_superclass(pool: &Pool, this: u16, above: u16) -> bool
    ensures { result ≡ is_superclass pool.now this above }
{
    is_plain_class(pool, above) || (above == 0 && is_object(pool, this))
}

/// Whether an unqualified name and a field type stand at the indices.
pub fn are_field_texts(pool: &Pool, kinds: &[TextKinds], name: u16, descriptor: u16) -> bool
    requires { AreKindsOf pool.now kinds.now }
    ensures { result ≡ are_field_texts pool.now name descriptor }
{
    kinds_at(pool, kinds, name).unqualified && kinds_at(pool, kinds, descriptor).field
}

/// Whether the name is that of class initializers.
pub fn is_initializer(pool: &Pool, name: u16) -> bool
    ensures { result ≡ is_initializer pool.now name }
{
    is_named(pool, name, b"<clinit>")
}

/// Whether a method name and a fitting method type stand at the indices.
pub fn are_method_texts(pool: &Pool, kinds: &[TextKinds], name: u16, descriptor: u16) -> bool
    requires { AreKindsOf pool.now kinds.now }
    ensures { result ≡ are_method_texts pool.now name descriptor }
{
    kinds_at(pool, kinds, name).method_name
        && kinds_at(pool, kinds, descriptor).slots.is_some()
        && (!is_initializer(pool, name) || is_named(pool, descriptor, b"()V"))
}

/// The slots that the parameters take, with the receiver's; none where no method type stands at the index.
pub fn slots_at(pool: &Pool, kinds: &[TextKinds], flags: u16, descriptor: u16) -> Option<u16>
    requires { AreKindsOf pool.now kinds.now }
    ensures { result ≡ slots_at pool.now flags descriptor }
{
    match kinds_at(pool, kinds, descriptor).slots {
        Some(slots) => {
            if is_static(flags) {
                Some(slots as u16)
            } else {
                Some(slots as u16 + 1)
            }
        }
        None => None,
    }
}

/// Whether the parameters take 255 slots at most.
pub fn has_slots(pool: &Pool, kinds: &[TextKinds], flags: u16, descriptor: u16) -> bool
    requires { AreKindsOf pool.now kinds.now }
    ensures { result ≡ has_slots pool.now flags descriptor }
{
    match slots_at(pool, kinds, flags, descriptor) {
        Some(slots) => slots <= 255,
        None => false,
    }
}

/// Whether a method may stand in a class of these flags.
pub fn is_of_kind(pool: &Pool, class_flags: u16, flags: u16, name: u16) -> bool
    ensures { result ≡ is_of_kind pool.now class_flags flags name }
{
    !is_interface(class_flags) || (is_abstract(flags) || is_initializer(pool, name))
}

fn needs_code(pool: &Pool, flags: u16, name: u16) -> bool
    ensures { result ≡ needs_code pool.now flags name }
{
    (!is_abstract(flags) && !is_native(flags)) || is_initializer(pool, name)
}

/// Whether the attribute is a Code.
pub fn is_code(attribute: &Attribute) -> bool
    ensures { result ≡ is_code attribute.now }
{
    matches!(attribute.content, Content::Code(_))
}

/// Whether one of the attributes is a Code.
pub fn has_code(attributes: &[Attribute]) -> bool
    ensures { result ≡ list_any is_code attributes.now }
{
    attributes.iter().any(|attribute| is_code(attribute))
}

/// Whether a method has code exactly where it needs it.
pub fn has_code_where_needed(pool: &Pool, flags: u16, name: u16, attributes: &[Attribute]) -> bool
    ensures { result ≡ has_code_where_needed pool.now flags name attributes.now }
{
    if has_code(attributes) {
        needs_code(pool, flags, name)
    } else {
        !needs_code(pool, flags, name)
    }
}

fn has_locals(slots: u16, attribute: &Attribute) -> bool
    ensures { result ≡ has_locals slots attribute.now }
{
    match &attribute.content {
        Content::Code(body) => slots <= body.max_locals,
        Content::Other(_) => true,
    }
}

fn all_have_locals(slots: u16, attributes: &[Attribute]) -> bool
    ensures { result ≡ list_all (has_locals slots) attributes.now }
{
    attributes
        .iter()
        .all(|attribute| has_locals(slots, attribute))
}

/// Whether the code has a local for each slot of the parameters.
pub fn has_locals_for_all(
    pool: &Pool,
    kinds: &[TextKinds],
    flags: u16,
    descriptor: u16,
    attributes: &[Attribute],
) -> bool
    requires { AreKindsOf pool.now kinds.now }
    ensures { result ≡ has_locals_for_all pool.now flags descriptor attributes.now }
{
    match slots_at(pool, kinds, flags, descriptor) {
        Some(slots) => all_have_locals(slots, attributes),
        None => false,
    }
}

/// Whether an entry of the exception table fits code of this length.
pub fn is_handler(pool: &Pool, len: u32, handler: &Handler) -> bool
    ensures { result ≡ is_handler pool.now len handler.now }
{
    handler.start < handler.end
        && (u32::from(handler.end) <= len
            && (u32::from(handler.handler) < len
                && (handler.catch_type == 0 || is_class(pool, handler.catch_type))))
}
