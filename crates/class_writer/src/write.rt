// The class file.
ghost use Rattle.std.specs.Prelude.{◌≡◌, ◌<◌, ◌^◌, ◌++◌, length, IfOk, OnOk};
ghost use Rattle.std.specs.List.{flat_map};
ghost use Rattle.byteorder.specs.Endian.{big_bytes};
ghost use Rattle.class_form.specs.Spelling.{spell_counted, spell_class, spelling};
ghost use Rattle.class_form.specs.ClassRules.{Spells};
ghost use Rattle.class_writer.specs.Spelled.{IsSpelled};
ghost use Rattle.class_writer.specs.Sizes.{FitsClass};

use crate::constants::pool;
use crate::members::{attributes, members};
use crate::output::Output;
use crate::sizes::class_size;
use class_form::class_file::ClassFile;
use slicer_ids::ids::NoMemory;
use std::alloc::Global;

fn each_interface(output: &mut Output, interfaces: &[u16]) -> Result<(), NoMemory>
    ensures { OnOk result (output.new ≡ output.old ++ flat_map (big_bytes 2) interfaces.now) }
{
    for i in interfaces {
        output.u2(*i)?;
    }
    Ok(())
}

fn interfaces(output: &mut Output, interfaces: &[u16]) -> Result<(), NoMemory>
    requires { length interfaces.now < 2 ^ 16 }
    ensures { OnOk result (output.new ≡ output.old ++ spell_counted (big_bytes 2) interfaces.now) }
{
    output.u2(interfaces.len() as u16)?;
    each_interface(output, interfaces)
}

// All behind the version.
fn rest(output: &mut Output, class: &ClassFile) -> Result<(), NoMemory>
    requires { FitsClass class.now }
    ensures { OnOk result (output.new ≡ output.old ++ spell_class class.now) }
{
    pool(output, &class.pool)?;
    output.u2(class.flags)?;
    output.u2(class.this_class)?;
    output.u2(class.super_class)?;
    interfaces(output, class.interfaces.items())?;
    members(output, class.fields.items())?;
    members(output, class.methods.items())?;
    attributes(output, class.attributes.items())
}

fn class_file(output: &mut Output, class: &ClassFile) -> Result<(), NoMemory>
    requires { FitsClass class.now }
    ensures { OnOk result (output.new ≡ output.old ++ spelling class.now) }
{
    output.u4(0xcafebabe)?;
    output.u2(class.minor)?;
    output.u2(class.major)?;
    rest(output, class)
}

/// The bytes of a well-formed class file (JVMS SE 7 4.1). Its size is counted first, so that each byte is written once; linear in the size.
pub fn write_class(alloc: Global, class: &ClassFile) -> Result<Vec<u8>, NoMemory>
    requires { IsSpelled class.now }
    ensures { IfOk result (λ v. Spells v.items class.now) }
{
    let mut output = Output::new(alloc, class_size(class))?;
    class_file(&mut output, class)?;
    Ok(output.into_vec())
}
