// What a member of a class is.
ghost use Rattle.std.specs.Prelude.{◌≡◌, ◌↔◌, Some, IsTrue};
ghost use Rattle.class_form.specs.Classes.{IsPublic, IsStatic};
ghost use Rattle.class_form.specs.Pools.{class_at, utf_at};
ghost use Rattle.class_form.specs.declared.class_file.CodeBody.{CodeBody};
ghost use Rattle.class_form.specs.declared.class_file.Content.TheVariants.{Code};
ghost use Rattle.call_graph.specs.Looking.{HasCodeAmong};

use class_form::class_file::{Attribute, Content};
use class_form::pool::Pool;

/// Whether the text at an index is this one.
pub fn is_text(pool: &Pool, index: u16, text: &[u8]) -> bool
    ensures { IsTrue result ↔ (utf_at pool.now index ≡ Some text.now) }
{
    match pool.utf(index) {
        None => false,
        Some(bytes) => bytes == text,
    }
}

/// Whether the text of the class at an index is this one.
pub fn is_class_text(pool: &Pool, index: u16, text: &[u8]) -> bool
    ensures { IsTrue result ↔ (class_at pool.now index ≡ Some text.now) }
{
    match pool.class(index) {
        None => false,
        Some(bytes) => bytes == text,
    }
}

pub fn is_public(flags: u16) -> bool
    ensures { IsTrue result ↔ IsPublic flags }
{
    flags & 1 != 0
}

pub fn is_static(flags: u16) -> bool
    ensures { IsTrue result ↔ IsStatic flags }
{
    flags & 8 != 0
}

fn is_code(content: &Content) -> bool
    ensures { IsTrue result ↔ ((c : CodeBody) × (content.now ≡ Code c)) }
{
    match content {
        Content::Code(_) => true,
        Content::Other(_) => false,
    }
}

/// Whether one of the attributes is code.
pub fn has_code(attributes: &[Attribute]) -> bool
    ensures { IsTrue result ↔ HasCodeAmong attributes.now }
{
    for attribute in attributes {
        if is_code(&attribute.content) {
            return true;
        }
    }
    false
}
