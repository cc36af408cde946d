// Lines worked out by hand.

use crate::{file_refusal, limit_refusal, method_refusal};
use class_form::code_error::CodeError;
use class_reader::ReadError;
use slicer_ids::limits::LimitKind;
use std::alloc::Global;
use std::process::Abort;
use std::test::Fail;

fn file_line<R: Abort>(rt: &R, alloc: Global, error: ReadError, line: &[u8]) -> Result<(), Fail> {
    let text = file_refusal(alloc, b"a b/One.class", error)?;
    assert_eq!(rt; text.bytes(), line);
    Ok(())
}

#[test]
fn files(rt: HostRuntime) -> Result<(), Fail> {
    let alloc = rt.alloc();
    file_line(
        &rt,
        alloc,
        ReadError::NotClass,
        b"refused a b/One.class not a class file",
    )?;
    file_line(
        &rt,
        alloc,
        ReadError::Version(53),
        b"refused a b/One.class version 53",
    )?;
    file_line(
        &rt,
        alloc,
        ReadError::Truncated,
        b"refused a b/One.class truncated",
    )?;
    file_line(
        &rt,
        alloc,
        ReadError::Trailing(127),
        b"refused a b/One.class trailing bytes at 127",
    )?;
    file_line(
        &rt,
        alloc,
        ReadError::Broken { rule: 7, at: 84 },
        b"refused a b/One.class broken rule 7 at 84",
    )
}

#[test]
fn methods(rt: HostRuntime) -> Result<(), Fail> {
    let alloc = rt.alloc();
    let broken = method_refusal(
        alloc,
        b"A.class",
        b"a \\",
        b"()V",
        CodeError::Broken { rule: 9, pc: 0 },
    )?;
    assert_eq!(rt;
        broken.bytes(),
        b"refused A.class method a\\20\\5c ()V code rule 9 at pc 0".as_slice()
    );
    let jsr = method_refusal(alloc, b"A.class", b"\x7f", b"()V", CodeError::Jsr(3))?;
    assert_eq!(rt;
        jsr.bytes(),
        b"refused A.class method \\7f ()V jsr at pc 3".as_slice()
    );
    Ok(())
}

#[test]
fn limits(rt: HostRuntime) -> Result<(), Fail> {
    let line = limit_refusal(rt.alloc(), LimitKind::FileBytes, 16777217)?;
    assert_eq!(rt;
        line.bytes(),
        b"refused limit file-bytes 16777217".as_slice()
    );
    Ok(())
}
