// Which attributes keep the rules.
ghost use Rattle.std.specs.Prelude.{◌≡◌, false};
ghost use Rattle.std.specs.List.{list_all};
ghost use Rattle.class_writer.specs.Tests.{is_line, is_code_content, is_code_attribute, are_code_attributes, is_sized_handler, are_handlers, is_body, is_content, is_method_attribute, are_method_attributes, is_plain_attribute, are_plain_attributes, has_one_code};

use crate::numbers;
use crate::sizes::{code_content_size, content_size};
use class_form::class_file::{Attribute, CodeAttribute, CodeBody, CodeContent, Content, Handler};
use class_form::pool::Pool;
use class_rules::rules::{is_code, is_handler, is_named};
use const_pool::is_utf;

fn is_line(len: usize, line: &(u16, u16)) -> bool
    ensures { result ≡ is_line len line.now }
{
    numbers::of_line(line);
    usize::from(line.0) < len
}

fn are_lines(len: usize, lines: &[(u16, u16)]) -> bool
    ensures { result ≡ list_all (is_line len) lines.now }
{
    lines.iter().all(|line| is_line(len, line))
}

// Whether the content of an attribute of this name may stand in code of this length.
fn is_code_content(pool: &Pool, len: usize, name: u16, content: &CodeContent) -> bool
    ensures { result ≡ is_code_content pool.now len name content.now }
{
    match content {
        CodeContent::Lines(lines) => {
            is_named(pool, name, b"LineNumberTable")
                && lines.items().len() <= 65535
                && are_lines(len, lines.items())
        }
        CodeContent::Other(_) => !is_named(pool, name, b"LineNumberTable"),
    }
}

fn is_code_attribute(pool: &Pool, len: usize, attribute: &CodeAttribute) -> bool
    ensures { result ≡ is_code_attribute pool.now len attribute.now }
{
    numbers::of_short(attribute.name);
    is_utf(pool, attribute.name)
        && code_content_size(&attribute.content) <= 0xffff_ffff
        && is_code_content(pool, len, attribute.name, &attribute.content)
}

fn each_is_code_attribute(pool: &Pool, len: usize, attributes: &[CodeAttribute]) -> bool
    ensures { result ≡ list_all (is_code_attribute pool.now len) attributes.now }
{
    attributes
        .iter()
        .all(|attribute| is_code_attribute(pool, len, attribute))
}

fn are_code_attributes(pool: &Pool, len: usize, attributes: &[CodeAttribute]) -> bool
    ensures { result ≡ are_code_attributes pool.now len attributes.now }
{
    attributes.len() <= 65535 && each_is_code_attribute(pool, len, attributes)
}

fn is_sized_handler(pool: &Pool, len: u32, handler: &Handler) -> bool
    ensures { result ≡ is_sized_handler pool.now len handler.now }
{
    numbers::of_handler(handler);
    is_handler(pool, len, handler)
}

fn each_is_handler(pool: &Pool, len: u32, handlers: &[Handler]) -> bool
    ensures { result ≡ list_all (is_sized_handler pool.now len) handlers.now }
{
    handlers
        .iter()
        .all(|handler| is_sized_handler(pool, len, handler))
}

fn are_handlers(pool: &Pool, len: u32, handlers: &[Handler]) -> bool
    ensures { result ≡ are_handlers pool.now len handlers.now }
{
    handlers.len() <= 65535 && each_is_handler(pool, len, handlers)
}

fn is_body(pool: &Pool, body: &CodeBody) -> bool
    ensures { result ≡ is_body pool.now body.now }
{
    numbers::of_body(body);
    let len = body.code.bytes().len();
    0 < len
        && len <= 65535
        && are_handlers(pool, len as u32, body.handlers.items())
        && are_code_attributes(pool, len, body.attributes.items())
}

// Whether the content of an attribute of this name may stand in a method.
fn is_content(pool: &Pool, name: u16, content: &Content) -> bool
    ensures { result ≡ is_content pool.now name content.now }
{
    match content {
        Content::Code(body) => is_named(pool, name, b"Code") && is_body(pool, body),
        Content::Other(_) => !is_named(pool, name, b"Code"),
    }
}

fn is_method_attribute(pool: &Pool, attribute: &Attribute) -> bool
    ensures { result ≡ is_method_attribute pool.now attribute.now }
{
    numbers::of_short(attribute.name);
    is_utf(pool, attribute.name)
        && content_size(&attribute.content) <= 0xffff_ffff
        && is_content(pool, attribute.name, &attribute.content)
}

// Whether no two of the attributes are a Code.
fn has_one_code(attributes: &[Attribute]) -> bool
    ensures { result ≡ has_one_code false attributes.now }
{
    let mut found = false;
    for attribute in attributes {
        let code = is_code(attribute);
        if found && code {
            return false;
        }
        found = found || code;
    }
    true
}

fn each_is_method_attribute(pool: &Pool, attributes: &[Attribute]) -> bool
    ensures { result ≡ list_all (is_method_attribute pool.now) attributes.now }
{
    attributes
        .iter()
        .all(|attribute| is_method_attribute(pool, attribute))
}

/// Whether the attributes may stand in a method.
pub fn are_method_attributes(pool: &Pool, attributes: &[Attribute]) -> bool
    ensures { result ≡ are_method_attributes pool.now attributes.now }
{
    attributes.len() <= 65535
        && each_is_method_attribute(pool, attributes)
        && has_one_code(attributes)
}

fn is_plain_attribute(pool: &Pool, attribute: &Attribute) -> bool
    ensures { result ≡ is_plain_attribute pool.now attribute.now }
{
    numbers::of_short(attribute.name);
    is_utf(pool, attribute.name)
        && content_size(&attribute.content) <= 0xffff_ffff
        && !is_code(attribute)
}

fn each_is_plain_attribute(pool: &Pool, attributes: &[Attribute]) -> bool
    ensures { result ≡ list_all (is_plain_attribute pool.now) attributes.now }
{
    attributes
        .iter()
        .all(|attribute| is_plain_attribute(pool, attribute))
}

/// Whether the attributes may stand in a field or a class.
pub fn are_plain_attributes(pool: &Pool, attributes: &[Attribute]) -> bool
    ensures { result ≡ are_plain_attributes pool.now attributes.now }
{
    attributes.len() <= 65535 && each_is_plain_attribute(pool, attributes)
}
