// Entry methods of small folders, by the definition: public, static, `main`, its descriptor, and code.
use crate::test_classes::{ARGUMENTS, PUBLIC_STATIC, Shape, folder, with_main};
use call_graph::{EntryError, entries};
use dep_form::rules::Entry;
use hierarchy::Hierarchy;
use slicer_ids::list::List;
use std::alloc::Global;
use std::test::Fail;

// The answer is the entries of these methods.
fn gives(answer: &Result<List<Entry>, EntryError>, numbers: &[u32]) -> bool {
    let Ok(found) = answer else {
        return false;
    };
    let found = found.items();
    if found.len() != numbers.len() {
        return false;
    }
    for k in 0..found.len() {
        if found[k].method.0 != numbers[k] || !found[k].arguments {
            return false;
        }
    }
    true
}

fn gives_none(answer: &Result<List<Entry>, EntryError>) -> bool {
    match answer {
        Ok(_) => false,
        Err(error) => *error == EntryError::NoEntry,
    }
}

fn has_none(alloc: Global, shape: Shape) -> Result<bool, Fail> {
    let h = folder(alloc, &[shape])?;
    Ok(gives_none(&entries(alloc, &h, None)))
}

// Classes A and C with an entry method, and B without; they are handed over in another order.
fn three(alloc: Global) -> Result<Hierarchy, Fail> {
    let run = Shape {
        name: b"run",
        ..with_main(b"B")
    };
    Ok(folder(alloc, &[with_main(b"C"), run, with_main(b"A")])?)
}

#[test]
fn each_main_is_an_entry(rt: HostRuntime) -> Result<(), Fail> {
    let alloc = rt.alloc();
    let h = three(alloc)?;
    assert!(rt; gives(&entries(alloc, &h, None), &[0, 2]));
    Ok(())
}

#[test]
fn a_name_chooses_the_class(rt: HostRuntime) -> Result<(), Fail> {
    let alloc = rt.alloc();
    let h = three(alloc)?;
    assert!(rt; gives(&entries(alloc, &h, Some(b"C")), &[2]));
    assert!(rt; gives_none(&entries(alloc, &h, Some(b"B"))));
    assert!(rt; gives_none(&entries(alloc, &h, Some(b"D"))));
    Ok(())
}

#[test]
fn an_empty_folder_has_none(rt: HostRuntime) -> Result<(), Fail> {
    let alloc = rt.alloc();
    let h = folder(alloc, &[])?;
    assert!(rt; gives_none(&entries(alloc, &h, None)));
    Ok(())
}

// One thing after the other is missing.
#[test]
fn other_methods_are_none(rt: HostRuntime) -> Result<(), Fail> {
    let alloc = rt.alloc();
    let main = with_main(b"A");
    assert!(rt; has_none(alloc, Shape { flags: 8, ..main })?);
    assert!(rt; has_none(alloc, Shape { flags: 1, ..main })?);
    assert!(rt;
        has_none(
            alloc,
            Shape {
                name: b"Main",
                ..main
            }
        )?
    );
    assert!(rt;
        has_none(
            alloc,
            Shape {
                descriptor: b"()V",
                ..main
            }
        )?
    );
    assert!(rt; has_none(alloc, Shape { code: None, ..main })?);
    Ok(())
}

// An initializer is no entry, also where it is public and has code.
#[test]
fn an_initializer_is_none(rt: HostRuntime) -> Result<(), Fail> {
    let alloc = rt.alloc();
    let initializer = Shape {
        name: b"<clinit>",
        descriptor: b"()V",
        ..with_main(b"A")
    };
    assert!(rt; has_none(alloc, initializer)?);
    Ok(())
}

// A folder class may be an interface. Its `main` is an entry where it has code, as from class files of version 52 on; an abstract
// one is none.
#[test]
fn an_interface_may_have_one(rt: HostRuntime) -> Result<(), Fail> {
    let alloc = rt.alloc();
    let with_code = Shape {
        class_flags: 0x0601,
        ..with_main(b"I")
    };
    let without = Shape {
        class_flags: 0x0601,
        name: b"main",
        descriptor: ARGUMENTS,
        flags: PUBLIC_STATIC | 0x0400,
        code: None,
        ..with_main(b"I")
    };
    let h = folder(alloc, &[with_code])?;
    assert!(rt; gives(&entries(alloc, &h, None), &[0]));
    assert!(rt; has_none(alloc, without)?);
    Ok(())
}
