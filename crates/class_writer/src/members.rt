// Attributes, fields and methods.
ghost use Rattle.std.specs.Prelude.{◌≡◌, ◌++◌, All, OnOk};
ghost use Rattle.std.specs.List.{flat_map};
ghost use Rattle.class_form.specs.Spelling.{spell_counted, spell_content, spell_attribute, spell_member};
ghost use Rattle.class_writer.specs.Sizes.{FitsContent, FitsAttribute, FitsAttributes, FitsMember, FitsMembers};

use crate::code::code;
use crate::output::Output;
use crate::sizes::content_size;
use class_form::class_file::{Attribute, Content, Member};
use slicer_ids::ids::NoMemory;

fn content(output: &mut Output, content: &Content) -> Result<(), NoMemory>
    requires { FitsContent content.now }
    ensures { OnOk result (output.new ≡ output.old ++ spell_content content.now) }
{
    match content {
        Content::Code(body) => code(output, body),
        Content::Other(content) => output.bytes(content.bytes()),
    }
}

fn attribute(output: &mut Output, attribute: &Attribute) -> Result<(), NoMemory>
    requires { FitsAttribute attribute.now }
    ensures { OnOk result (output.new ≡ output.old ++ spell_attribute attribute.now) }
{
    output.u2(attribute.name)?;
    output.u4(content_size(&attribute.content) as u32)?;
    content(output, &attribute.content)
}

fn each_attribute(output: &mut Output, attributes: &[Attribute]) -> Result<(), NoMemory>
    requires { All FitsAttribute attributes.now }
    ensures { OnOk result (output.new ≡ output.old ++ flat_map spell_attribute attributes.now) }
{
    for next in attributes {
        attribute(output, next)?;
    }
    Ok(())
}

/// Writes the count of the attributes, and these.
pub fn attributes(output: &mut Output, attributes: &[Attribute]) -> Result<(), NoMemory>
    requires { FitsAttributes attributes.now }
    ensures { OnOk result (output.new ≡ output.old ++ spell_counted spell_attribute attributes.now) }
{
    output.u2(attributes.len() as u16)?;
    each_attribute(output, attributes)
}

fn member(output: &mut Output, member: &Member) -> Result<(), NoMemory>
    requires { FitsMember member.now }
    ensures { OnOk result (output.new ≡ output.old ++ spell_member member.now) }
{
    output.u2(member.flags)?;
    output.u2(member.name)?;
    output.u2(member.descriptor)?;
    attributes(output, member.attributes.items())
}

fn each_member(output: &mut Output, members: &[Member]) -> Result<(), NoMemory>
    requires { All FitsMember members.now }
    ensures { OnOk result (output.new ≡ output.old ++ flat_map spell_member members.now) }
{
    for next in members {
        member(output, next)?;
    }
    Ok(())
}

/// Writes the count of the members, and these.
pub fn members(output: &mut Output, members: &[Member]) -> Result<(), NoMemory>
    requires { FitsMembers members.now }
    ensures { OnOk result (output.new ≡ output.old ++ spell_counted spell_member members.now) }
{
    output.u2(members.len() as u16)?;
    each_member(output, members)
}
