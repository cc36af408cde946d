// Names of types and statements by line, worked out by hand.
ghost use Rattle.std.specs.Ordering.{nat_cmp};
ghost use Rattle.dep_form.specs.Orders.{RiseBy};

use crate::lines::line_table;
use crate::site_texts::elements_text;
use crate::spelling::layer_text;
use class_form::types::{BaseType, FieldType};
use dep_form::texts::MethodText;
use slicer_ids::ids::{ClassId, NoMemory, Statement};
use slicer_ids::list::List;
use slicer_ids::name::Name;
use std::alloc::Global;
use std::test::Fail;

fn array_of_arrays(alloc: Global) -> Result<FieldType, NoMemory> {
    Ok(FieldType {
        dims: 2,
        base: BaseType::Class(Name::from_bytes(alloc, b"a/B")?),
    })
}

#[test]
fn outer_dimensions_are_left_out(rt: HostRuntime) -> Result<(), Fail> {
    let alloc = rt.alloc();
    let t = array_of_arrays(alloc)?;
    assert!(rt; layer_text(alloc, &t, 0)?.bytes() == b"[[La/B;".as_slice());
    assert!(rt; layer_text(alloc, &t, 1)?.bytes() == b"[La/B;".as_slice());
    assert!(rt; layer_text(alloc, &t, 2)?.bytes() == b"a/B".as_slice());
    Ok(())
}

// newarray of int (JVMS SE 7, 6.5).
#[test]
fn arrays_of_primitives_have_a_letter(rt: HostRuntime) -> Result<(), Fail> {
    let alloc = rt.alloc();
    assert!(rt; elements_text(alloc, &[188, 10], 0)?.bytes() == b"[I".as_slice());
    Ok(())
}

fn text(alloc: Global, class: u32, lines: Vec<(u16, Option<u16>)>) -> Result<MethodText, NoMemory>
    requires { RiseBy nat_cmp (λ x. x.0) lines.items }
{
    Ok(MethodText {
        class: ClassId(class),
        name: Name::from_bytes(alloc, b"run")?,
        descriptor: Name::from_bytes(alloc, b"()V")?,
        lines: List::from_vec(lines),
    })
}

// Two methods of one class with a statement each at line 7, and one of another class.
fn texts(alloc: Global) -> Result<Vec<MethodText>, NoMemory> {
    let first = vec![in alloc; (0u16, Some(7u16)), (4u16, Some(3u16))]?;
    let second = vec![in alloc; (0u16, Some(7u16)), (2u16, None)]?;
    let third = vec![in alloc; (0u16, Some(7u16))]?;
    let mut texts = Vec::new(alloc);
    texts.push(text(alloc, 0, first)?)?;
    texts.push(text(alloc, 0, second)?)?;
    texts.push(text(alloc, 1, third)?)?;
    Ok(texts)
}

fn are_of(statements: &[Statement], methods: &[u32]) -> bool {
    if statements.len() != methods.len() {
        return false;
    }
    for k in 0..statements.len() {
        if statements[k].method.0 != methods[k] {
            return false;
        }
    }
    true
}

fn has_group(
    groups: &[(ClassId, u16, List<Statement>)],
    k: usize,
    class: u32,
    line: u16,
    methods: &[u32],
) -> bool {
    match groups.get(k) {
        Some((c, l, statements)) => {
            c.0 == class && *l == line && are_of(statements.items(), methods)
        }
        None => false,
    }
}

#[test]
fn statements_of_a_line_stand_together(rt: HostRuntime) -> Result<(), Fail> {
    let texts = texts(rt.alloc())?;
    let table = line_table(rt.alloc(), texts.as_slice())?;
    let groups = table.items();
    assert_eq!(rt; groups.len(), 3);
    assert!(rt; has_group(groups, 0, 0, 3, &[0]));
    assert!(rt; has_group(groups, 1, 0, 7, &[0, 1]));
    assert!(rt; has_group(groups, 2, 1, 7, &[2]));
    Ok(())
}
