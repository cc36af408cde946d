use crate::texts::{Texts, in_order, place_of};
use std::alloc::{AllocError, Global};
use std::test::Fail;

fn pair<'a>(name: &'a str, descriptor: &'a str) -> Texts<'a> {
    Texts {
        name: name.as_bytes(),
        descriptor: descriptor.as_bytes(),
    }
}

// The place of a pair among four, of which two are the same.
fn place(alloc: Global, name: &str, descriptor: &str) -> Result<Option<usize>, AllocError> {
    let texts = vec![in alloc;
        pair("run", "()V"),
        pair("get", "()I"),
        pair("get", "(I)I"),
        pair("run", "()V"),
    ]?;
    let texts = in_order(texts);
    Ok(place_of(texts.as_slice(), name.as_bytes(), descriptor.as_bytes()))
}

#[test]
fn each_once_by_name_and_descriptor(rt: HostRuntime) -> Result<(), Fail> {
    let alloc = rt.alloc();
    assert_eq!(rt; place(alloc, "get", "()I")?, Some(0));
    assert_eq!(rt; place(alloc, "get", "(I)I")?, Some(1));
    assert_eq!(rt; place(alloc, "run", "()V")?, Some(2));
    assert_eq!(rt; place(alloc, "run", "()I")?, None);
    Ok(())
}
