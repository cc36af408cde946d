// The constant pool.
ghost use Rattle.std.specs.Prelude.{◌≡◌, ◌<◌, ◌^◌, ◌++◌, length, All, OnOk};
ghost use Rattle.std.specs.List.{flat_map};
ghost use Rattle.byteorder.specs.Endian.{big_bytes};
ghost use Rattle.class_form.specs.Spelling.{spell_info, spell_constant, spell_pool, tag_of};
ghost use Rattle.class_form.specs.PoolRules.{IsInfo};
ghost use Rattle.class_writer.specs.Sizes.{FitsInfo, FitsPool};

use crate::output::Output;
use class_form::pool::{Constant, Pool};
use slicer_ids::ids::NoMemory;

fn text(output: &mut Output, text: &[u8]) -> Result<(), NoMemory>
    requires { length text.now < 2 ^ 16 }
    ensures { OnOk result (output.new ≡ output.old ++ (big_bytes 2 (length text.now) ++ text.now)) }
{
    output.u2(text.len() as u16)?;
    output.bytes(text)
}

fn two(output: &mut Output, one: u16, other: u16) -> Result<(), NoMemory>
    ensures { OnOk result (output.new ≡ output.old ++ (big_bytes 2 one ++ big_bytes 2 other)) }
{
    output.u2(one)?;
    output.u2(other)
}

fn handle(output: &mut Output, kind: u8, reference: u16) -> Result<(), NoMemory>
    ensures { OnOk result (output.new ≡ output.old ++ (big_bytes 1 kind ++ big_bytes 2 reference)) }
{
    output.u1(kind)?;
    output.u2(reference)
}

// What stands behind the tag.
fn info(output: &mut Output, constant: &Constant) -> Result<(), NoMemory>
    requires { FitsInfo constant.now }
    ensures { OnOk result (output.new ≡ output.old ++ spell_info constant.now) }
{
    match constant {
        Constant::Utf8(content) => text(output, content.bytes()),
        Constant::Integer(n) => output.u4(*n),
        Constant::Float(n) => output.u4(*n),
        Constant::Long(n) => output.u8(*n),
        Constant::Double(n) => output.u8(*n),
        Constant::Class(name) => output.u2(*name),
        Constant::Text(text) => output.u2(*text),
        Constant::Field(class, rest) => two(output, *class, *rest),
        Constant::Method(class, rest) => two(output, *class, *rest),
        Constant::InterfaceMethod(class, rest) => two(output, *class, *rest),
        Constant::NameAndType(name, descriptor) => two(output, *name, *descriptor),
        Constant::Handle(kind, reference) => handle(output, *kind, *reference),
        Constant::MethodType(descriptor) => output.u2(*descriptor),
        Constant::Dynamic(bootstrap, rest) => two(output, *bootstrap, *rest),
        Constant::Second => Ok(()),
    }
}

// The tag of JVMS SE 7 table 4.4-A; 0 for the second index of a Long or Double, which has none.
fn tag(constant: &Constant) -> u8
    ensures { result ≡ tag_of constant.now }
{
    match constant {
        Constant::Utf8(_) => 1,
        Constant::Integer(_) => 3,
        Constant::Float(_) => 4,
        Constant::Long(_) => 5,
        Constant::Double(_) => 6,
        Constant::Class(_) => 7,
        Constant::Text(_) => 8,
        Constant::Field(_, _) => 9,
        Constant::Method(_, _) => 10,
        Constant::InterfaceMethod(_, _) => 11,
        Constant::NameAndType(_, _) => 12,
        Constant::Handle(_, _) => 15,
        Constant::MethodType(_) => 16,
        Constant::Dynamic(_, _) => 18,
        Constant::Second => 0,
    }
}

// A constant; the second index of a Long or Double has no bytes.
fn constant(output: &mut Output, constant: &Constant) -> Result<(), NoMemory>
    requires { FitsInfo constant.now }
    ensures { OnOk result (output.new ≡ output.old ++ spell_constant constant.now) }
{
    let tag = tag(constant);
    if tag == 0 {
        return Ok(());
    }
    output.u1(tag)?;
    info(output, constant)
}

fn constants(output: &mut Output, constants: &[Constant]) -> Result<(), NoMemory>
    requires { All FitsInfo constants.now }
    ensures { OnOk result (output.new ≡ output.old ++ flat_map spell_constant constants.now) }
{
    for next in constants {
        constant(output, next)?;
    }
    Ok(())
}

/// Writes the count and the constants.
pub fn pool(output: &mut Output, pool: &Pool) -> Result<(), NoMemory>
    requires { FitsPool pool.now }
    ensures { OnOk result (output.new ≡ output.old ++ spell_pool pool.now) }
{
    let items = pool.constants.items();
    output.u2(items.len() as u16 + 1)?;
    constants(output, items)
}
