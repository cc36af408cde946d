ghost use Rattle.std.specs.Prelude.{◌≡◌, ◌<◌, ◌≤◌, ◌+◌, ◌^◌, ◌++◌, ◌∷◌, [], length, All, IfOk, OnOk};
ghost use Rattle.hierarchy_tests.specs.TestClasses.{HasTestTexts, IsTestClass};

use class_form::class_file::{ClassFile, Member};
use class_form::pool::{Constant, Pool};
use hierarchy::{Hierarchy, Select, TreeError, build};
use slicer_ids::ids::{ClassId, MethodId};
use slicer_ids::list::List;
use slicer_ids::name::Name;
use std::alloc::{AllocError, Global};
use std::test::Fail;

const PRIVATE: u16 = 2;

const STATIC: u16 = 8;

const ABSTRACT: u16 = 1024;

// A class by its name, its superclass and two interfaces, the flags of its field f of type I and of its method m, where it
// has them, and the method's descriptor.
#[derive(Clone, Copy)]
struct Shape<'a> {
    this: &'a [u8],
    above: &'a [u8],
    first: &'a [u8],
    second: &'a [u8],
    field: Option<u16>,
    method: Option<u16>,
    descriptor: &'a [u8],
}

// A class with neither.
fn plain<'a>(this: &'a [u8], above: &'a [u8], first: &'a [u8], second: &'a [u8]) -> Shape<'a> {
    Shape {
        this,
        above,
        first,
        second,
        field: None,
        method: None,
        descriptor: b"()V",
    }
}

fn with_field(shape: Shape) -> Shape {
    Shape {
        field: Some(0),
        ..shape
    }
}

fn with_method(shape: Shape, flags: u16) -> Shape {
    Shape {
        method: Some(flags),
        ..shape
    }
}

fn text(alloc: Global, bytes: &[u8]) -> Result<Constant, AllocError>
    ensures { IfOk result (λ c. c ≡ Constant.Utf8 bytes.now) }
{
    match Name::from_bytes(alloc, bytes) {
        Ok(name) => Ok(Constant::Utf8(name)),
        Err(_) => Err(AllocError),
    }
}

// A member with the texts at these indices.
fn member(alloc: Global, flags: u16, name: u16, descriptor: u16) -> Member
    ensures name { result.name ≡ name }
    ensures descriptor { result.descriptor ≡ descriptor }
{
    Member {
        flags,
        name,
        descriptor,
        attributes: List::from_vec(Vec::new(alloc)),
    }
}

// No member, or one.
fn members(
    alloc: Global,
    flags: Option<u16>,
    name: u16,
    descriptor: u16,
) -> Result<List<Member>, AllocError>
    ensures few { IfOk result (λ members. length members ≤ 1) }
    ensures texts { IfOk result (All (λ member. (member.name ≡ name) × (member.descriptor ≡ descriptor))) }
{
    match flags {
        Some(flags) => {
            let members = vec![in alloc; member(alloc, flags, name, descriptor)]?;
            Ok(List::from_vec(members))
        }
        None => Ok(List::from_vec(Vec::new(alloc))),
    }
}

fn pool(alloc: Global, shape: Shape) -> Result<Pool, AllocError>
    ensures { IfOk result HasTestTexts }
{
    let constants = vec![in alloc;
        text(alloc, shape.this)?,
        Constant::Class(1),
        text(alloc, shape.above)?,
        Constant::Class(3),
        text(alloc, shape.first)?,
        Constant::Class(5),
        text(alloc, shape.second)?,
        Constant::Class(7),
        text(alloc, b"f")?,
        text(alloc, b"I")?,
        text(alloc, b"m")?,
        text(alloc, shape.descriptor)?,
    ]?;
    Ok(Pool {
        constants: List::from_vec(constants),
        major: 50,
    })
}

fn class(alloc: Global, shape: Shape) -> Result<ClassFile, AllocError>
    ensures { IfOk result IsTestClass }
{
    let texts = pool(alloc, shape)?;
    let interfaces = vec![in alloc; 6u16, 8]?;
    let fields = members(alloc, shape.field, 9, 10)?;
    let methods = members(alloc, shape.method, 11, 12)?;
    Ok(ClassFile {
        minor: 0,
        major: 50,
        pool: texts,
        flags: 33,
        this_class: 2,
        super_class: 4,
        interfaces: List::from_vec(interfaces),
        fields,
        methods,
        attributes: List::from_vec(Vec::new(alloc)),
    })
}

// Adds a class.
fn push(alloc: Global, files: &mut Vec<ClassFile>, shape: Shape) -> Result<(), AllocError>
    requires { All IsTestClass files.old.items }
    ensures classes { OnOk result (All IsTestClass files.new.items) }
    ensures len { OnOk result (length files.new.items ≡ length files.old.items + 1) }
{
    let class = class(alloc, shape)?;
    match files.push(class) {
        Ok(()) => Ok(()),
        Err(_) => Err(AllocError),
    }
}

fn hierarchy(alloc: Global, files: Vec<ClassFile>) -> Result<Hierarchy, TreeError>
    requires classes { All IsTestClass files.items }
    requires few { length files.items ≤ 2 ^ 20 }
{
    build(alloc, files)
}

// The hierarchy of a table of classes.
fn tree_of(alloc: Global, shapes: &[Shape]) -> Result<Result<Hierarchy, TreeError>, AllocError>
    requires { length shapes.now ≤ 2 ^ 20 }
{
    let mut files = Vec::new(alloc);
    for shape in shapes {
        push(alloc, &mut files, *shape)?;
    }
    Ok(hierarchy(alloc, files))
}

// The number of the field that is found from a class.
fn field(tree: &Result<Hierarchy, TreeError>, class: &[u8]) -> Option<u32> {
    match tree {
        Ok(tree) => tree.find_field(class, b"f", b"I").map(|n| n.0),
        Err(_) => None,
    }
}

// The class of the method that is found from a class.
fn method(tree: &Result<Hierarchy, TreeError>, class: &[u8]) -> Option<u32> {
    match tree {
        Ok(tree) => match tree.find_method(class, b"m", b"()V") {
            Some(n) => tree
                .method_places()
                .get(n.0 as usize)
                .map(|place| place.0.0),
            None => None,
        },
        Err(_) => None,
    }
}

// What a class selects.
fn selected(tree: &Result<Hierarchy, TreeError>, class: &[u8]) -> Option<Select> {
    match tree {
        Ok(tree) => match tree.find_class(class) {
            Some(c) => Some(tree.select(c, b"m", b"()V")),
            None => None,
        },
        Err(_) => None,
    }
}

// Whether one class is the other or below it.
fn is_below(tree: &Result<Hierarchy, TreeError>, a: u32, b: u32) -> bool {
    match tree {
        Ok(tree) => {
            let len = tree.classes().len();
            (a as usize) < len && (b as usize) < len && tree.is_sub(ClassId(a), ClassId(b))
        }
        Err(_) => false,
    }
}

#[test]
fn fields_of_interfaces_come_first(rt: HostRuntime) -> Result<(), Fail> {
    let c = plain(b"C", b"S", b"I", b"J");
    let i = plain(b"I", b"x", b"x", b"x");
    let j = plain(b"J", b"x", b"K", b"x");
    let k = with_field(plain(b"K", b"x", b"x", b"x"));
    let s = with_field(plain(b"S", b"x", b"x", b"x"));
    let tree = tree_of(rt.alloc(), &[s, k, j, i, c])?;
    assert_eq!(rt; field(&tree, b"C"), Some(0));
    assert_eq!(rt; field(&tree, b"S"), Some(1));
    assert_eq!(rt; field(&tree, b"I"), None);
    assert_eq!(rt; field(&tree, b"x"), None);
    Ok(())
}

#[test]
fn fields_above_an_interface(rt: HostRuntime) -> Result<(), Fail> {
    let c = plain(b"C", b"x", b"I", b"J");
    let i = plain(b"I", b"S", b"x", b"x");
    let j = with_field(plain(b"J", b"x", b"x", b"x"));
    let s = with_field(plain(b"S", b"x", b"x", b"x"));
    let tree = tree_of(rt.alloc(), &[c, i, j, s])?;
    assert_eq!(rt; field(&tree, b"C"), Some(1));
    Ok(())
}

#[test]
fn methods_of_superclasses_come_first(rt: HostRuntime) -> Result<(), Fail> {
    let c = plain(b"C", b"D", b"J", b"x");
    let d = plain(b"D", b"S", b"I", b"x");
    let i = with_method(plain(b"I", b"x", b"x", b"x"), ABSTRACT);
    let j = with_method(plain(b"J", b"x", b"x", b"x"), ABSTRACT);
    let s = with_method(plain(b"S", b"x", b"x", b"x"), 1);
    let tree = tree_of(rt.alloc(), &[c, d, i, j, s])?;
    assert_eq!(rt; method(&tree, b"C"), Some(4));
    let tree = tree_of(rt.alloc(), &[c, d, i, j])?;
    assert_eq!(rt; method(&tree, b"C"), Some(3));
    assert_eq!(rt; method(&tree, b"D"), Some(2));
    Ok(())
}

#[test]
fn methods_above_an_interface_are_not_found(rt: HostRuntime) -> Result<(), Fail> {
    let c = plain(b"C", b"x", b"I", b"J");
    let i = plain(b"I", b"S", b"x", b"x");
    let j = with_method(plain(b"J", b"x", b"x", b"x"), ABSTRACT);
    let s = with_method(plain(b"S", b"x", b"x", b"x"), 1);
    let tree = tree_of(rt.alloc(), &[c, i, j, s])?;
    assert_eq!(rt; method(&tree, b"C"), Some(2));
    let tree = tree_of(rt.alloc(), &[c, i, s])?;
    assert_eq!(rt; method(&tree, b"C"), None);
    assert_eq!(rt; method(&tree, b"I"), Some(2));
    Ok(())
}

#[test]
fn selections(rt: HostRuntime) -> Result<(), Fail> {
    let a = with_method(plain(b"A", b"B", b"x", b"x"), PRIVATE);
    let b = with_method(plain(b"B", b"C", b"x", b"x"), STATIC);
    let c = with_method(plain(b"C", b"D", b"x", b"x"), 1);
    let d = with_method(plain(b"D", b"x", b"I", b"x"), ABSTRACT);
    let i = with_method(plain(b"I", b"x", b"x", b"x"), ABSTRACT);
    let tree = tree_of(rt.alloc(), &[i, d, c, b, a])?;
    assert_eq!(rt; selected(&tree, b"A"), Some(Select::Folder(MethodId(2))));
    assert_eq!(rt; selected(&tree, b"D"), Some(Select::Abstract));
    let tree = tree_of(rt.alloc(), &[i, d, b, a])?;
    assert_eq!(rt; selected(&tree, b"A"), Some(Select::Outside));
    assert_eq!(rt; selected(&tree, b"D"), Some(Select::Abstract));
    Ok(())
}

#[test]
fn ways_up(rt: HostRuntime) -> Result<(), Fail> {
    let c = plain(b"C", b"S", b"I", b"x");
    let i = plain(b"I", b"x", b"K", b"x");
    let k = plain(b"K", b"x", b"x", b"x");
    let s = plain(b"S", b"x", b"x", b"x");
    let tree = tree_of(rt.alloc(), &[c, i, k, s])?;
    assert!(rt; is_below(&tree, 0, 2));
    assert!(rt; is_below(&tree, 0, 3));
    assert!(rt; is_below(&tree, 3, 3));
    assert!(rt; !is_below(&tree, 3, 0));
    assert!(rt; !is_below(&tree, 1, 3));
    Ok(())
}

#[test]
fn other_descriptors(rt: HostRuntime) -> Result<(), Fail> {
    let c = Shape {
        descriptor: b"(I)V",
        ..with_method(plain(b"C", b"S", b"x", b"x"), 1)
    };
    let s = with_method(plain(b"S", b"x", b"x", b"x"), 1);
    let tree = tree_of(rt.alloc(), &[c, s])?;
    assert_eq!(rt; method(&tree, b"C"), Some(1));
    assert_eq!(rt; selected(&tree, b"C"), Some(Select::Folder(MethodId(1))));
    Ok(())
}

// The first of two interfaces extends a third one, which comes before the second.
#[test]
fn diamonds(rt: HostRuntime) -> Result<(), Fail> {
    let c = plain(b"C", b"x", b"I", b"J");
    let i = plain(b"I", b"x", b"K", b"x");
    let j = with_field(with_method(plain(b"J", b"x", b"K", b"x"), ABSTRACT));
    let k = with_field(with_method(plain(b"K", b"x", b"x", b"x"), ABSTRACT));
    let tree = tree_of(rt.alloc(), &[c, i, j, k])?;
    assert_eq!(rt; field(&tree, b"C"), Some(1));
    assert_eq!(rt; method(&tree, b"C"), Some(3));
    assert_eq!(rt; method(&tree, b"J"), Some(2));
    Ok(())
}

// An abstract method on the way to one that isn't, and one that is found in an interface and never selected.
#[test]
fn abstract_methods(rt: HostRuntime) -> Result<(), Fail> {
    let a = plain(b"A", b"B", b"x", b"x");
    let b = with_method(plain(b"B", b"C", b"x", b"x"), ABSTRACT);
    let c = with_method(plain(b"C", b"x", b"x", b"x"), 1);
    let d = plain(b"D", b"x", b"I", b"x");
    let i = with_method(plain(b"I", b"x", b"x", b"x"), ABSTRACT);
    let tree = tree_of(rt.alloc(), &[a, b, c, d, i])?;
    assert_eq!(rt; selected(&tree, b"A"), Some(Select::Abstract));
    assert_eq!(rt; method(&tree, b"D"), Some(4));
    assert_eq!(rt; selected(&tree, b"D"), Some(Select::Outside));
    Ok(())
}

fn is_refused(tree: &Result<Hierarchy, TreeError>, twice: bool, name: &[u8]) -> bool {
    match tree {
        Err(TreeError::Duplicate(n)) => twice && n.bytes() == name,
        Err(TreeError::Cycle(n)) => !twice && n.bytes() == name,
        _ => false,
    }
}

#[test]
fn names_that_stand_twice(rt: HostRuntime) -> Result<(), Fail> {
    let a = plain(b"A", b"A", b"x", b"x");
    let b = plain(b"B", b"x", b"x", b"x");
    let other = with_field(plain(b"B", b"C", b"I", b"x"));
    let c = plain(b"C", b"x", b"x", b"x");
    let tree = tree_of(rt.alloc(), &[c, other, a, c, b])?;
    assert!(rt; is_refused(&tree, true, b"B"));
    Ok(())
}

#[test]
fn own_ancestors(rt: HostRuntime) -> Result<(), Fail> {
    let a = plain(b"A", b"B", b"x", b"x");
    let b = plain(b"B", b"B", b"x", b"x");
    let c = plain(b"C", b"x", b"D", b"x");
    let d = plain(b"D", b"x", b"x", b"E");
    let e = plain(b"E", b"C", b"x", b"x");
    let tree = tree_of(rt.alloc(), &[e, d, c, b, a])?;
    assert!(rt; is_refused(&tree, false, b"B"));
    let tree = tree_of(rt.alloc(), &[e, d, c])?;
    assert!(rt; is_refused(&tree, false, b"C"));
    Ok(())
}

// Levels of two interfaces, each of which extends both of the level below, and a class of the number 80 with the topmost
// one and the interface 82, which alone has the method.
fn ladder(alloc: Global) -> Result<Result<Hierarchy, TreeError>, AllocError> {
    let mut files = Vec::new(alloc);
    for n in 0u16..80 {
        let this = n.to_be_bytes();
        let below = (n / 2 * 2).wrapping_sub(2);
        let first = below.to_be_bytes();
        let second = below.wrapping_add(1).to_be_bytes();
        push(alloc, &mut files, plain(&this, b"x", &first, &second))?;
    }
    let top = plain(&[0, 80], b"x", &[0, 78], &[0, 82]);
    push(alloc, &mut files, top)?;
    let other = with_method(plain(&[0, 82], b"x", b"x", b"x"), ABSTRACT);
    push(alloc, &mut files, with_field(other))?;
    Ok(hierarchy(alloc, files))
}

#[test]
fn ladders(rt: HostRuntime) -> Result<(), Fail> {
    let tree = ladder(rt.alloc())?;
    assert_eq!(rt; method(&tree, &[0, 80]), Some(81));
    assert_eq!(rt; method(&tree, &[0, 78]), None);
    assert_eq!(rt; field(&tree, &[0, 80]), Some(0));
    assert_eq!(rt; field(&tree, &[0, 78]), None);
    Ok(())
}

// 256 classes, each the superclass of the next; the first has the field and the method.
fn chain(alloc: Global) -> Result<Result<Hierarchy, TreeError>, AllocError> {
    let mut files = Vec::new(alloc);
    let first = with_field(plain(&[0, 0], b"x", b"x", b"x"));
    push(alloc, &mut files, with_method(first, 1))?;
    for n in 1u16..256 {
        let this = n.to_be_bytes();
        let above = (n - 1).to_be_bytes();
        push(alloc, &mut files, plain(&this, &above, b"x", b"x"))?;
    }
    Ok(hierarchy(alloc, files))
}

#[test]
fn chains(rt: HostRuntime) -> Result<(), Fail> {
    let tree = chain(rt.alloc())?;
    assert_eq!(rt; method(&tree, &[0, 255]), Some(0));
    assert_eq!(rt; field(&tree, &[0, 255]), Some(0));
    assert_eq!(rt;
        selected(&tree, &[0, 255]),
        Some(Select::Folder(MethodId(0)))
    );
    assert!(rt; is_below(&tree, 255, 0));
    Ok(())
}
