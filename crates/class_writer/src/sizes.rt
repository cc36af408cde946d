// How many bytes items take. Sums stop at the greatest number of their type.
ghost use Rattle.std.specs.Prelude.{◌≡◌, length};
ghost use Rattle.std.specs.List.{flat_map};
ghost use Rattle.class_form.specs.Spelling.{spell_constant, spell_pool, spell_code_content, spell_code_attribute, spell_code, spell_content, spell_attribute, spell_member, spelling};
ghost use Rattle.class_writer.specs.Sizes.{capped};

use class_form::class_file::{
    Attribute, ClassFile, CodeAttribute, CodeBody, CodeContent, Content, Member,
};
use class_form::pool::Constant;
use const_pool::spelled_len;

/// Of the content of an attribute of code.
pub fn code_content_size(content: &CodeContent) -> usize
    ensures { result ≡ capped (length (spell_code_content content.now)) }
{
    match content {
        CodeContent::Lines(lines) => lines.items().len().saturating_mul(4).saturating_add(2),
        CodeContent::Other(content) => content.bytes().len(),
    }
}

// Of attributes of code.
fn code_attributes_size(attributes: &[CodeAttribute]) -> usize
    ensures { result ≡ capped (length (flat_map spell_code_attribute attributes.now)) }
{
    let mut size: usize = 0;
    for attribute in attributes {
        size = size
            .saturating_add(6)
            .saturating_add(code_content_size(&attribute.content));
    }
    size
}

// Of code.
fn code_size(body: &CodeBody) -> usize
    ensures { result ≡ capped (length (spell_code body.now)) }
{
    let handlers = body.handlers.items().len().saturating_mul(8);
    let attributes = code_attributes_size(body.attributes.items());
    body.code
        .bytes()
        .len()
        .saturating_add(12)
        .saturating_add(handlers)
        .saturating_add(attributes)
}

/// Of the content of an attribute.
pub fn content_size(content: &Content) -> usize
    ensures { result ≡ capped (length (spell_content content.now)) }
{
    match content {
        Content::Code(body) => code_size(body),
        Content::Other(content) => content.bytes().len(),
    }
}

// Of attributes.
fn attributes_size(attributes: &[Attribute]) -> usize
    ensures { result ≡ capped (length (flat_map spell_attribute attributes.now)) }
{
    let mut size: usize = 0;
    for attribute in attributes {
        size = size
            .saturating_add(6)
            .saturating_add(content_size(&attribute.content));
    }
    size
}

// Of fields or methods.
fn members_size(members: &[Member]) -> usize
    ensures { result ≡ capped (length (flat_map spell_member members.now)) }
{
    let mut size: usize = 0;
    for member in members {
        size = size
            .saturating_add(8)
            .saturating_add(attributes_size(member.attributes.items()));
    }
    size
}

// Of constants.
fn constants_size(constants: &[Constant]) -> usize
    ensures { result ≡ capped (length (flat_map spell_constant constants.now)) }
{
    let mut size: usize = 0;
    for constant in constants {
        size = size.saturating_add(spelled_len(constant));
    }
    size
}

/// Of a class file.
pub fn class_size(class: &ClassFile) -> usize
    ensures { result ≡ capped (length (spelling class.now)) }
{
    let interfaces = class.interfaces.items().len().saturating_mul(2);
    constants_size(class.pool.constants.items())
        .saturating_add(24)
        .saturating_add(interfaces)
        .saturating_add(members_size(class.fields.items()))
        .saturating_add(members_size(class.methods.items()))
        .saturating_add(attributes_size(class.attributes.items()))
}
