// Folders of tests: classes with one method each.
ghost use Rattle.std.specs.Prelude.{◌≡◌, ◌≤◌, ◌+◌, ◌^◌, length, All, IfOk, OnOk};
ghost use Rattle.class_form.specs.declared.class_file.Member.{Member};
ghost use Rattle.hierarchy_tests.specs.TestClasses.{HasTestTexts, IsTestClass};

use class_form::class_file::{Attribute, ClassFile, CodeBody, Content, Member};
use class_form::pool::{Constant, Pool};
use hierarchy::{Hierarchy, TreeError, build};
use slicer_ids::list::List;
use slicer_ids::name::Name;
use std::alloc::{AllocError, Global};

pub const PUBLIC_STATIC: u16 = 9;

pub const ARGUMENTS: &[u8] = b"([Ljava/lang/String;)V";

/// A class by its name and flags, and its method by its name, descriptor, flags and code.
#[derive(Clone, Copy)]
pub struct Shape<'a> {
    pub this: &'a [u8],
    pub class_flags: u16,
    pub name: &'a [u8],
    pub descriptor: &'a [u8],
    pub flags: u16,
    pub code: Option<&'a [u8]>,
}

/// A class with an entry method that returns at once.
pub fn with_main(this: &[u8]) -> Shape<'_> {
    Shape {
        this,
        class_flags: 33,
        name: b"main",
        descriptor: ARGUMENTS,
        flags: PUBLIC_STATIC,
        code: Some(&[177]),
    }
}

fn text(alloc: Global, bytes: &[u8]) -> Result<Constant, AllocError>
    ensures { IfOk result (λ c. c ≡ Constant.Utf8 bytes.now) }
{
    match Name::from_bytes(alloc, bytes) {
        Ok(name) => Ok(Constant::Utf8(name)),
        Err(_) => Err(AllocError),
    }
}

fn pool(
    alloc: Global,
    shape: Shape,
    above: &[u8],
    code: &[u8],
    other: &[u8],
) -> Result<Pool, AllocError>
    ensures { IfOk result HasTestTexts }
{
    let constants = vec![in alloc;
        text(alloc, shape.this)?,
        Constant::Class(1),
        text(alloc, above)?,
        Constant::Class(3),
        text(alloc, code)?,
        Constant::Class(5),
        text(alloc, other)?,
        Constant::Class(7),
        text(alloc, b"f")?,
        text(alloc, b"I")?,
        text(alloc, shape.name)?,
        text(alloc, shape.descriptor)?,
    ]?;
    Ok(Pool {
        constants: List::from_vec(constants),
        major: 51,
    })
}

// An attribute that is no code stands before the code.
fn attributes(alloc: Global, code: Option<&[u8]>) -> Result<List<Attribute>, AllocError> {
    let Ok(other) = Name::from_bytes(alloc, &[186, 186, 186, 186]) else {
        return Err(AllocError);
    };
    let other = Attribute {
        name: 7,
        content: Content::Other(other),
    };
    let Some(code) = code else {
        return Ok(List::from_vec(vec![in alloc; other]?));
    };
    let Ok(code) = Name::from_bytes(alloc, code) else {
        return Err(AllocError);
    };
    let body = CodeBody {
        max_stack: 2,
        max_locals: 2,
        code,
        handlers: List::from_vec(Vec::new(alloc)),
        attributes: List::from_vec(Vec::new(alloc)),
    };
    let code = Attribute {
        name: 5,
        content: Content::Code(body),
    };
    Ok(List::from_vec(vec![in alloc; other, code]?))
}

fn members(alloc: Global, shape: Shape) -> Result<List<Member>, AllocError>
    ensures few { IfOk result (λ members. length members ≤ 1) }
    ensures texts { IfOk result (All (λ (member : Member). (member.name ≡ 11) × (member.descriptor ≡ 12))) }
{
    let method = Member {
        flags: shape.flags,
        name: 11,
        descriptor: 12,
        attributes: attributes(alloc, shape.code)?,
    };
    Ok(List::from_vec(vec![in alloc; method]?))
}

fn no_members(alloc: Global) -> List<Member>
    ensures few { length result ≤ 1 }
    ensures texts { All (λ (member : Member). (member.name ≡ 9) × (member.descriptor ≡ 10)) result }
{
    List::from_vec(Vec::new(alloc))
}

fn class(alloc: Global, shape: Shape) -> Result<ClassFile, AllocError>
    ensures { IfOk result IsTestClass }
{
    let texts = pool(alloc, shape, b"java/lang/Object", b"Code", b"Other")?;
    let methods = members(alloc, shape)?;
    let fields = no_members(alloc);
    Ok(ClassFile {
        minor: 0,
        major: 51,
        pool: texts,
        flags: shape.class_flags,
        this_class: 2,
        super_class: 4,
        interfaces: List::from_vec(Vec::new(alloc)),
        fields,
        methods,
        attributes: List::from_vec(Vec::new(alloc)),
    })
}

// Adds a class.
fn push(alloc: Global, files: &mut Vec<ClassFile>, shape: Shape) -> Result<(), AllocError>
    requires { All IsTestClass files.old.items }
    ensures classes { OnOk result (All IsTestClass files.new.items) }
    ensures len { OnOk result (length files.new.items ≡ length files.old.items + 1) }
{
    let class = class(alloc, shape)?;
    match files.push(class) {
        Ok(()) => Ok(()),
        Err(_) => Err(AllocError),
    }
}

fn hierarchy(alloc: Global, files: Vec<ClassFile>) -> Result<Hierarchy, TreeError>
    requires classes { All IsTestClass files.items }
    requires few { length files.items ≤ 2 ^ 20 }
{
    build(alloc, files)
}

/// The hierarchy of a table of classes.
pub fn folder(alloc: Global, shapes: &[Shape]) -> Result<Hierarchy, AllocError>
    requires { length shapes.now ≤ 2 ^ 20 }
{
    let mut files = Vec::new(alloc);
    for shape in shapes {
        push(alloc, &mut files, *shape)?;
    }
    match hierarchy(alloc, files) {
        Ok(folder) => Ok(folder),
        Err(_) => Err(AllocError),
    }
}
