// Bytes of a class file come back, and others are refused.
use crate::copy::{CopyError, rewritten};
use class_reader::ReadError;
use std::test::Fail;

// class java/lang/Object, which has no superclass, and a byte behind it
const OBJECT: [u8; 47] = [
    0xca, 0xfe, 0xba, 0xbe, 0, 0, 0, 0x33, 0, 3, 1, 0, 0x10, 0x6a, 0x61, 0x76, 0x61, 0x2f, 0x6c,
    0x61, 0x6e, 0x67, 0x2f, 0x4f, 0x62, 0x6a, 0x65, 0x63, 0x74, 7, 0, 1, 0, 0x21, 0, 2, 0, 0, 0, 0,
    0, 0, 0, 0, 0, 0, 0,
];

#[test]
fn comes_back(rt: HostRuntime) -> Result<(), Fail> {
    let written = rewritten(rt.alloc(), &OBJECT[..46])?;
    assert!(rt; written.as_slice() == &OBJECT[..46]);
    Ok(())
}

#[test]
fn longer(rt: HostRuntime) {
    let error = rewritten(rt.alloc(), &OBJECT).err();
    assert_eq!(rt; error, Some(CopyError::Refused(ReadError::Trailing(46))));
}
