// Class files that are made here.
ghost use Rattle.std.specs.Prelude.{◌≡◌, ◌≤◌, ◌++◌, ◌∷◌, [], length, All, IfOk, OnOk};
ghost use Rattle.hierarchy_tests.specs.TestClasses.{HasTestTexts, IsTestClass};
ghost use Rattle.large_folders.specs.Pools.{pool_of};

use class_form::class_file::{ClassFile, Member};
use class_form::pool::{Constant, Pool};
use slicer_ids::list::List;
use slicer_ids::name::Name;
use std::alloc::{AllocError, Global};

pub const PUBLIC: u16 = 1;

pub const ABSTRACT: u16 = 1024;

/// The name of no class of the folder.
pub const MISSING: u16 = u16::MAX;

fn text(alloc: Global, bytes: &[u8]) -> Result<Constant, AllocError>
    ensures { IfOk result (λ c. c ≡ Constant.Utf8 bytes.now) }
{
    match Name::from_bytes(alloc, bytes) {
        Ok(name) => Ok(Constant::Utf8(name)),
        Err(_) => Err(AllocError),
    }
}

// The constants of a class of this name and superclass. A class is named by two bytes, its number.
fn texts(alloc: Global, this: u16, above: u16) -> Result<Vec<Constant>, AllocError>
    ensures { IfOk result (λ constants. HasTestTexts (pool_of constants.items)) }
{
    let constants = vec![in alloc;
        text(alloc, &this.to_be_bytes())?,
        Constant::Class(1),
        text(alloc, &above.to_be_bytes())?,
        Constant::Class(3),
        text(alloc, b"x")?,
        Constant::Class(5),
        text(alloc, b"x")?,
        Constant::Class(7),
        text(alloc, b"f")?,
        text(alloc, b"I")?,
        text(alloc, b"m")?,
        text(alloc, b"()V")?,
    ]?;
    Ok(constants)
}

fn push_constant(constants: &mut Vec<Constant>, constant: Constant) -> Result<(), AllocError>
    ensures { OnOk result (constants.new.items ≡ constants.old.items ++ constant ∷ []) }
{
    match constants.push(constant) {
        Ok(()) => Ok(()),
        Err(_) => Err(AllocError),
    }
}

fn push_index(indices: &mut Vec<u16>, index: u16) -> Result<(), AllocError> {
    match indices.push(index) {
        Ok(()) => Ok(()),
        Err(_) => Err(AllocError),
    }
}

// Adds the interface of a number to a class whose interfaces are those of the numbers below.
fn push_interface(
    alloc: Global,
    constants: &mut Vec<Constant>,
    indices: &mut Vec<u16>,
    number: u16,
) -> Result<(), AllocError>
    requires { HasTestTexts (pool_of constants.old.items) }
    ensures { OnOk result (HasTestTexts (pool_of constants.new.items)) }
{
    let name = text(alloc, &number.to_be_bytes())?;
    let index = number.wrapping_mul(2).wrapping_add(13);
    push_constant(constants, name)?;
    push_constant(constants, Constant::Class(index))?;
    push_index(indices, index.wrapping_add(1))
}

// Adds the interfaces of the numbers below a count.
fn push_interfaces(
    alloc: Global,
    constants: &mut Vec<Constant>,
    indices: &mut Vec<u16>,
    count: u16,
) -> Result<(), AllocError>
    requires { HasTestTexts (pool_of constants.old.items) }
    ensures { OnOk result (HasTestTexts (pool_of constants.new.items)) }
{
    for number in 0..count {
        push_interface(alloc, constants, indices, number)?;
    }
    Ok(())
}

// A member with the texts at these indices.
fn member(alloc: Global, flags: u16, name: u16, descriptor: u16) -> Member
    ensures name { result.name ≡ name }
    ensures descriptor { result.descriptor ≡ descriptor }
{
    Member {
        flags,
        name,
        descriptor,
        attributes: List::from_vec(Vec::new(alloc)),
    }
}

// A member with these flags, or none.
fn members(
    alloc: Global,
    flags: Option<u16>,
    name: u16,
    descriptor: u16,
) -> Result<List<Member>, AllocError>
    ensures few { IfOk result (λ members. length members ≤ 1) }
    ensures texts { IfOk result (All (λ member. (member.name ≡ name) × (member.descriptor ≡ descriptor))) }
{
    match flags {
        Some(flags) => {
            let members = vec![in alloc; member(alloc, flags, name, descriptor)]?;
            Ok(List::from_vec(members))
        }
        None => Ok(List::from_vec(Vec::new(alloc))),
    }
}

// A class with these constants and interfaces; with flags a field f and a method m that have them, or neither.
fn class(
    alloc: Global,
    constants: Vec<Constant>,
    interfaces: Vec<u16>,
    flags: Option<u16>,
) -> Result<ClassFile, AllocError>
    requires { HasTestTexts (pool_of constants.items) }
    ensures { IfOk result IsTestClass }
{
    let fields = members(alloc, flags, 9, 10)?;
    let methods = members(alloc, flags, 11, 12)?;
    Ok(ClassFile {
        minor: 0,
        major: 50,
        pool: Pool {
            constants: List::from_vec(constants),
            major: 50,
        },
        flags: 33,
        this_class: 2,
        super_class: 4,
        interfaces: List::from_vec(interfaces),
        fields,
        methods,
        attributes: List::from_vec(Vec::new(alloc)),
    })
}

/// A class without interfaces; with flags a field f and a method m that have them, or neither.
pub fn plain(
    alloc: Global,
    this: u16,
    above: u16,
    flags: Option<u16>,
) -> Result<ClassFile, AllocError>
    ensures { IfOk result IsTestClass }
{
    let constants = texts(alloc, this, above)?;
    class(alloc, constants, Vec::new(alloc), flags)
}

/// A class with the interfaces of the numbers below a count, and without members.
pub fn implementing(alloc: Global, this: u16, count: u16) -> Result<ClassFile, AllocError>
    ensures { IfOk result IsTestClass }
{
    let mut constants = texts(alloc, this, MISSING)?;
    let mut interfaces = Vec::new(alloc);
    push_interfaces(alloc, &mut constants, &mut interfaces, count)?;
    class(alloc, constants, interfaces, None)
}
