// A pool read whole, cut, and with one byte changed.
use crate::{PoolError, read_pool};
use std::test::Fail;

// One, class 1, java/lang/Object, class 3, main, ([Ljava/lang/String;)V, Code
const POOL: [u8; 72] = [
    0, 8, 1, 0, 3, 0x4f, 0x6e, 0x65, 7, 0, 1, 1, 0, 0x10, 0x6a, 0x61, 0x76, 0x61, 0x2f, 0x6c, 0x61,
    0x6e, 0x67, 0x2f, 0x4f, 0x62, 0x6a, 0x65, 0x63, 0x74, 7, 0, 3, 1, 0, 4, 0x6d, 0x61, 0x69, 0x6e,
    1, 0, 0x16, 0x28, 0x5b, 0x4c, 0x6a, 0x61, 0x76, 0x61, 0x2f, 0x6c, 0x61, 0x6e, 0x67, 0x2f, 0x53,
    0x74, 0x72, 0x69, 0x6e, 0x67, 0x3b, 0x29, 0x56, 1, 0, 4, 0x43, 0x6f, 0x64, 0x65,
];

// The changed byte, and the broken rule.
const CHANGES: [(usize, u8, u8, u32); 5] = [
    (2, 0x02, 1, 2),
    (5, 0xf0, 2, 2),
    (1, 0x00, 3, 0),
    (10, 0x02, 4, 8),
    (5, 0x2e, 5, 8),
];

#[test]
fn whole(rt: HostRuntime) -> Result<(), Fail> {
    let (pool, size) = read_pool(rt.alloc(), &POOL, 51)?;
    assert_eq!(rt; size, 72);
    assert_eq!(rt; pool.constants.items().len(), 7);
    assert!(rt; pool.utf(1).ok_or("no text")? == b"One".as_slice());
    assert!(rt; pool.class(4).ok_or("no class")? == b"java/lang/Object".as_slice());
    assert!(rt; pool.class(1).is_none());
    Ok(())
}

#[test]
fn cut(rt: HostRuntime) {
    for end in 0..72 {
        let refused = matches!(
            read_pool(rt.alloc(), &POOL[..end], 51),
            Err(PoolError::Truncated)
        );
        assert!(rt; refused);
    }
}

#[test]
fn changed(rt: HostRuntime) {
    for (offset, byte, rule, at) in &CHANGES {
        let mut bytes = POOL;
        assert!(rt; *offset < 72);
        bytes[*offset] = *byte;
        match read_pool(rt.alloc(), &bytes, 51) {
            Ok(_) => assert!(rt; false),
            Err(error) => {
                assert_eq!(rt;
                    error,
                    PoolError::Broken {
                        rule: *rule,
                        at: *at
                    }
                );
            }
        }
    }
}

#[test]
fn borders(rt: HostRuntime) {
    // a Long at the last index, before its bytes are looked for
    let long = read_pool(rt.alloc(), &[0, 2, 5], 51).err();
    assert_eq!(rt; long, Some(PoolError::Broken { rule: 3, at: 2 }));
    // a method handle in a class file that is too old
    let old = read_pool(rt.alloc(), &[0, 2, 15], 50).err();
    assert_eq!(rt; old, Some(PoolError::Broken { rule: 1, at: 2 }));
    // a Long, and the count right behind it; U+0000 in two bytes
    let wide = read_pool(
        rt.alloc(),
        &[0, 4, 5, 0, 0, 0, 0, 0, 0, 0, 1, 1, 0, 2, 0xc0, 0x80],
        51,
    )
    .err();
    assert_eq!(rt; wide, None);
    // the second index of a Long is no text
    let second = read_pool(rt.alloc(), &[0, 4, 5, 0, 0, 0, 0, 0, 0, 0, 1, 7, 0, 2], 51).err();
    assert_eq!(rt; second, Some(PoolError::Broken { rule: 4, at: 11 }));
}
