// What no clause says: that the calls succeed.

use crate::rows::{clear_row, copy_row, copy_taken, has, is_empty};
use std::test::Fail;

#[test]
fn copies_rows(rt: HostRuntime) -> Result<(), Fail> {
    let mut row = Vec::new(rt.alloc());
    copy_row(&[1, 2, 3], 1, 2, &mut row)?;
    assert_eq!(rt; row.as_slice(), [2, 3].as_slice());
    copy_taken(&[7, 6], &[1, 2], 0, 2, &mut row)?;
    assert_eq!(rt; row.as_slice(), [6, 4].as_slice());
    Ok(())
}

#[test]
fn empties_a_row(rt: HostRuntime) {
    let mut words = [3, 3];
    assert!(rt; has(&words, 1, 1));
    clear_row(&mut words, 1, 1);
    assert!(rt; !has(&words, 1, 1));
    assert!(rt; is_empty(&words[1..2]));
    assert!(rt; !is_empty(&words));
}
