ghost use Rattle.std.specs.Prelude.{◌≡◌, IfOk};
ghost use Rattle.class_form.specs.Numbers.{IsNamedClass};

use class_form::class_file::ClassFile;
use class_form::pool::{Constant, Pool};
use hierarchy::{Hierarchy, TreeError, build};
use slicer_ids::list::List;
use slicer_ids::name::Name;
use std::alloc::{AllocError, Global};
use std::test::Fail;

fn name(alloc: Global, text: &str) -> Result<Name, AllocError>
    ensures { IfOk result (λ n. n ≡ text.now) }
{
    match Name::from_bytes(alloc, text.as_bytes()) {
        Ok(name) => Ok(name),
        Err(_) => Err(AllocError),
    }
}

// A class without members: its name, a superclass and an interface.
fn class(alloc: Global, this: &str, above: &str, interface: &str) -> Result<ClassFile, AllocError>
    ensures { IfOk result IsNamedClass }
{
    let constants = vec![in alloc;
        Constant::Utf8(name(alloc, this)?),
        Constant::Class(1),
        Constant::Utf8(name(alloc, above)?),
        Constant::Class(3),
        Constant::Utf8(name(alloc, interface)?),
        Constant::Class(5),
    ]?;
    let interfaces = vec![in alloc; 6u16]?;
    Ok(ClassFile {
        minor: 0,
        major: 50,
        pool: Pool {
            constants: List::from_vec(constants),
            major: 50,
        },
        flags: 33,
        this_class: 2,
        super_class: 4,
        interfaces: List::from_vec(interfaces),
        fields: List::from_vec(Vec::new(alloc)),
        methods: List::from_vec(Vec::new(alloc)),
        attributes: List::from_vec(Vec::new(alloc)),
    })
}

// What the folder of three classes is; each has a name, a superclass and an interface.
fn tree_of(
    alloc: Global,
    first: (&str, &str, &str),
    second: (&str, &str, &str),
    third: (&str, &str, &str),
) -> Result<Result<Hierarchy, TreeError>, AllocError> {
    let first = class(alloc, first.0, first.1, first.2)?;
    let second = class(alloc, second.0, second.1, second.2)?;
    let third = class(alloc, third.0, third.1, third.2)?;
    let files = vec![in alloc; first, second, third]?;
    Ok(build(alloc, files))
}

// The number of a class among three.
fn number(
    alloc: Global,
    first: (&str, &str, &str),
    second: (&str, &str, &str),
    third: (&str, &str, &str),
    name: &str,
) -> Result<Option<u32>, AllocError> {
    match tree_of(alloc, first, second, third)? {
        Ok(tree) => Ok(tree.find_class(name.as_bytes()).map(|c| c.0)),
        Err(_) => Ok(None),
    }
}

fn is_duplicate(error: &TreeError, name: &str) -> bool {
    match error {
        TreeError::Duplicate(twice) => twice.bytes() == name.as_bytes(),
        _ => false,
    }
}

fn is_cycle(error: &TreeError, name: &str) -> bool {
    match error {
        TreeError::Cycle(own) => own.bytes() == name.as_bytes(),
        _ => false,
    }
}

fn refuses_twice(
    alloc: Global,
    first: (&str, &str, &str),
    second: (&str, &str, &str),
    third: (&str, &str, &str),
    name: &str,
) -> Result<bool, AllocError> {
    match tree_of(alloc, first, second, third)? {
        Ok(_) => Ok(false),
        Err(error) => Ok(is_duplicate(&error, name)),
    }
}

fn refuses_cycle(
    alloc: Global,
    first: (&str, &str, &str),
    second: (&str, &str, &str),
    third: (&str, &str, &str),
    name: &str,
) -> Result<bool, AllocError> {
    match tree_of(alloc, first, second, third)? {
        Ok(_) => Ok(false),
        Err(error) => Ok(is_cycle(&error, name)),
    }
}

#[test]
fn numbers(rt: HostRuntime) -> Result<(), Fail> {
    let a = ("b/A", "java/lang/Object", "I");
    let b = ("b", "b/A", "I");
    let c = ("a/Z", "b", "I");
    assert_eq!(rt; number(rt.alloc(), a, b, c, "a/Z")?, Some(0));
    assert_eq!(rt; number(rt.alloc(), a, b, c, "b")?, Some(1));
    assert_eq!(rt; number(rt.alloc(), a, b, c, "b/A")?, Some(2));
    assert_eq!(rt; number(rt.alloc(), a, b, c, "I")?, None);
    Ok(())
}

#[test]
fn duplicates(rt: HostRuntime) -> Result<(), Fail> {
    let object = "java/lang/Object";
    assert!(rt;
        refuses_twice(
            rt.alloc(),
            ("One", object, "I"),
            ("Two", object, "I"),
            ("One", "Two", "J"),
            "One"
        )?
    );
    assert!(rt;
        refuses_twice(
            rt.alloc(),
            ("A", "A", "I"),
            ("A", object, "I"),
            ("B", object, "J"),
            "A"
        )?
    );
    Ok(())
}

#[test]
fn cycles(rt: HostRuntime) -> Result<(), Fail> {
    let object = "java/lang/Object";
    assert!(rt;
        refuses_cycle(
            rt.alloc(),
            ("B", "A", "I"),
            ("A", "B", "I"),
            ("C", object, "I"),
            "A"
        )?
    );
    assert!(rt;
        refuses_cycle(
            rt.alloc(),
            ("C", object, "C"),
            ("A", "C", "I"),
            ("B", object, "I"),
            "C"
        )?
    );
    assert!(rt;
        refuses_cycle(
            rt.alloc(),
            ("C", object, "B"),
            ("A", "B", "I"),
            ("B", "X", "C"),
            "B"
        )?
    );
    assert_eq!(rt;
        number(
            rt.alloc(),
            ("C", "X", "I"),
            ("A", "X", "C"),
            ("B", "C", "Y"),
            "C"
        )?,
        Some(2)
    );
    Ok(())
}
