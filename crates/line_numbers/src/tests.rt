// Lines of a body with two tables, worked out by hand.

use crate::LineNumbers;
use class_form::class_file::{CodeAttribute, CodeBody, CodeContent};
use slicer_ids::list::List;
use slicer_ids::name::Name;
use std::alloc::Global;
use std::test::Fail;

fn table(alloc: Global, lines: &[(u16, u16)]) -> Result<CodeAttribute, Fail> {
    let lines = lines.to_vec(alloc)?;
    Ok(CodeAttribute {
        name: 1,
        content: CodeContent::Lines(List::from_vec(lines)),
    })
}

fn body(alloc: Global) -> Result<CodeBody, Fail> {
    let mut attributes = Vec::new(alloc);
    attributes.push(table(alloc, &[(4, 20), (2, 10)])?)?;
    attributes.push(table(alloc, &[(4, 30), (6, 40)])?)?;
    Ok(CodeBody {
        max_stack: 0,
        max_locals: 0,
        code: Name::from_bytes(alloc, b"")?,
        handlers: List::from_vec(Vec::new(alloc)),
        attributes: List::from_vec(attributes),
    })
}

#[test]
fn greatest_not_above(rt: HostRuntime) -> Result<(), Fail> {
    let numbers = LineNumbers::of(rt.alloc(), &body(rt.alloc())?)?;
    assert_eq!(rt; numbers.at(1), None);
    assert_eq!(rt; numbers.at(3), Some(10));
    assert_eq!(rt; numbers.at(4), Some(30));
    assert_eq!(rt; numbers.at(9), Some(40));
    Ok(())
}
