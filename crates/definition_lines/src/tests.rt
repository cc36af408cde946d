// Lines worked out by hand, and code that is refused.
use crate::lines::{Place, push_line};
use crate::listing::{ListError, lines_of};
use class_form::body::Def;
use class_form::code_error::CodeError;
use class_reader::ReadError;
use std::alloc::Global;
use std::test::Fail;

// A class `One` with one method `main` (JVMS SE 7, 4.1), up to the length of its code attribute; its code needs 3 locals.
const HEAD: &[u8] =
    b"\xca\xfe\xba\xbe\x00\x00\x00\x33\x00\x08\x01\x00\x03One\x07\x00\x01\x01\x00\x10java/lang/Object\x07\x00\x03\x01\x00\x04main\x01\x00\x16([Ljava/lang/String;)V\x01\x00\x04Code\x00\x21\x00\x02\x00\x04\x00\x00\x00\x00\x00\x01\x00\x09\x00\x05\x00\x06\x00\x01\x00\x07";

// iadd with nothing on the stack, and return
const SHALLOW: &[u8] =
    b"\x00\x00\x00\x0e\x00\x02\x00\x03\x00\x00\x00\x02\x60\xb1\x00\x00\x00\x00\x00\x00";

fn line_of(alloc: Global, place: Place, defs: &[Def]) -> Result<Vec<u8>, Fail> {
    let mut text = Vec::new(alloc);
    push_line(alloc, &mut text, b"A b ()V", place, defs)?;
    Ok(text)
}

#[test]
fn a_local_and_a_slot_of_the_stack(rt: HostRuntime) -> Result<(), Fail> {
    let local = Place {
        pc: 4,
        slot: 2,
        locals: 3,
    };
    let stack = Place {
        pc: 4,
        slot: 3,
        locals: 3,
    };
    let all = [Def::Formal(1), Def::Value(20), Def::Caught(300)];
    assert_eq!(rt;
        line_of(rt.alloc(), local, &[])?.as_slice(),
        b"A b ()V 4 local 2: none\n".as_slice()
    );
    assert_eq!(rt;
        line_of(rt.alloc(), stack, &all)?.as_slice(),
        b"A b ()V 4 stack 0: formal 1, value 20, caught 300\n".as_slice()
    );
    Ok(())
}

#[test]
fn no_class_file(rt: HostRuntime) {
    let refused = Some(ListError::Refused(ReadError::NotClass));
    assert_eq!(rt; lines_of(rt.alloc(), b"\x00\x00\x00\x00").err(), refused);
}

#[test]
fn a_fault_of_code(rt: HostRuntime) -> Result<(), Fail> {
    let mut bytes = Vec::from_slice(rt.alloc(), HEAD)?;
    bytes.extend_from_slice(SHALLOW)?;
    let fault = CodeError::Broken { rule: 9, pc: 0 };
    let refused = Some(ListError::Code {
        number: 0,
        error: fault,
    });
    assert_eq!(rt; lines_of(rt.alloc(), &bytes).err(), refused);
    Ok(())
}
