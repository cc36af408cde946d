// One class read whole, cut, and with one byte changed.
use crate::{ReadError, read_class};
use std::test::Fail;

// class One extends Object, with a static method main of 7 bytes of code
const ONE: [u8; 127] = [
    0xca, 0xfe, 0xba, 0xbe, 0, 0, 0, 0x33, 0, 8, 1, 0, 3, 0x4f, 0x6e, 0x65, 7, 0, 1, 1, 0, 0x10,
    0x6a, 0x61, 0x76, 0x61, 0x2f, 0x6c, 0x61, 0x6e, 0x67, 0x2f, 0x4f, 0x62, 0x6a, 0x65, 0x63, 0x74,
    7, 0, 3, 1, 0, 4, 0x6d, 0x61, 0x69, 0x6e, 1, 0, 0x16, 0x28, 0x5b, 0x4c, 0x6a, 0x61, 0x76, 0x61,
    0x2f, 0x6c, 0x61, 0x6e, 0x67, 0x2f, 0x53, 0x74, 0x72, 0x69, 0x6e, 0x67, 0x3b, 0x29, 0x56, 1, 0,
    4, 0x43, 0x6f, 0x64, 0x65, 0, 0x21, 0, 2, 0, 4, 0, 0, 0, 0, 0, 1, 0, 9, 0, 5, 0, 6, 0, 1, 0, 7,
    0, 0, 0, 0x13, 0, 2, 0, 3, 0, 0, 0, 7, 5, 4, 0x60, 0x3c, 0x1b, 0x3d, 0xb1, 0, 0, 0, 0, 0, 0,
];

// The changed byte, its new value, and the broken rule with its offset.
const CHANGES: [(usize, u8, u8, u32); 13] = [
    (10, 0x02, 1, 10),
    (13, 0xf0, 2, 10),
    (9, 0x00, 3, 8),
    (18, 0x02, 4, 16),
    (13, 0x2e, 5, 16),
    (83, 0x01, 6, 82),
    (85, 0x00, 7, 84),
    (95, 0x02, 9, 92),
    (105, 0x14, 12, 100),
    (92, 0x04, 13, 92),
    (113, 0x00, 14, 110),
    (109, 0x00, 17, 92),
    (80, 0x02, 18, 92),
];

#[test]
fn whole(rt: HostRuntime) -> Result<(), Fail> {
    let class = read_class(rt.alloc(), &ONE)?;
    assert_eq!(rt; class.major, 51);
    assert_eq!(rt; class.flags, 0x21);
    assert!(rt; class.pool.class(class.this_class).ok_or("no class")? == b"One".as_slice());
    assert_eq!(rt; class.fields.items().len(), 0);
    assert_eq!(rt; class.methods.items().len(), 1);
    Ok(())
}

#[test]
fn cut(rt: HostRuntime) {
    for end in 0..127 {
        let refused = matches!(
            read_class(rt.alloc(), &ONE[..end]),
            Err(ReadError::Truncated)
        );
        assert!(rt; refused);
    }
}

#[test]
fn changed(rt: HostRuntime) {
    for (offset, byte, rule, at) in &CHANGES {
        let mut bytes = ONE;
        assert!(rt; *offset < 127);
        bytes[*offset] = *byte;
        match read_class(rt.alloc(), &bytes) {
            Ok(_) => assert!(rt; false),
            Err(error) => {
                assert_eq!(rt;
                    error,
                    ReadError::Broken {
                        rule: *rule,
                        at: *at
                    }
                );
            }
        }
    }
}

#[test]
fn other_files(rt: HostRuntime) -> Result<(), Fail> {
    let mut magic = ONE;
    magic[0] = 0;
    assert_eq!(rt;
        read_class(rt.alloc(), &magic).err(),
        Some(ReadError::NotClass)
    );
    let mut version = ONE;
    version[7] = 0x35;
    assert_eq!(rt;
        read_class(rt.alloc(), &version).err(),
        Some(ReadError::Version(53))
    );
    let mut longer = ONE.to_vec(rt.alloc())?;
    longer.push(0)?;
    assert_eq!(rt;
        read_class(rt.alloc(), &longer).err(),
        Some(ReadError::Trailing(127))
    );
    Ok(())
}
