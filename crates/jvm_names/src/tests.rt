// Texts that are names and descriptors, and texts that aren't, with the length of their longest prefix that some descriptor begins with.

use crate::error::NameError;
use crate::kinds::{is_array_type, is_field_type, is_method_type, parameter_slots};
use crate::names::{is_class_name, is_method_name, is_unqualified_name};
use crate::types::{field_type, method_type};
use crate::utf8::check_utf;
use class_form::types::{BaseType, FieldType, MethodType};
use std::alloc::Global;
use std::process::Abort;
use std::test::Fail;

// Reads a short field descriptor.
fn field(rt: &impl Abort, alloc: Global, text: &[u8]) -> Result<FieldType, NameError> {
    assert!(rt; text.len() < 1000);
    field_type(alloc, text)
}

// Reads a short method descriptor.
fn method(rt: &impl Abort, alloc: Global, text: &[u8]) -> Result<MethodType, NameError> {
    assert!(rt; text.len() < 1000);
    method_type(alloc, text)
}

// Whether a type has so many dimensions, and the letter or the name of a class.
fn is_type(found: &FieldType, dims: u8, letter: u8, name: &[u8]) -> bool {
    let base = match &found.base {
        BaseType::Primitive(found) => *found == letter,
        BaseType::Class(found) => letter == b'L' && found.bytes() == name,
    };
    found.dims == dims && base
}

#[test]
fn tells_modified_utf8(rt: HostRuntime) {
    let good: [&[u8]; 8] = [
        b"",
        b"a\x01\x7f",
        b"\xc0\x80",
        b"\xc2\x80",
        b"\xdf\xbf",
        b"\xe0\xa0\x80",
        b"\xed\xa0\x80",
        b"\xef\xbf\xbf",
    ];
    for text in good {
        assert!(rt; check_utf(text));
    }
    let bad: [&[u8]; 10] = [
        b"\x00",
        b"\x80",
        b"\xc0",
        b"\xc0\x81",
        b"\xc1\x80",
        b"\xc2\x7f",
        b"\xe0\x9f\x80",
        b"\xe1\x80",
        b"\xf0\x90\x80\x80",
        b"\xff",
    ];
    for text in bad {
        assert!(rt; !check_utf(text));
    }
}

#[test]
fn tells_names(rt: HostRuntime) {
    let unqualified: [&[u8]; 4] = [b"x", b"<init>", b"a<b", b"\xc3\xa9"];
    for text in unqualified {
        assert!(rt; is_unqualified_name(text));
    }
    let others: [&[u8]; 6] = [b"", b"a.b", b"a;", b"[a", b"a/b", b"\xc3"];
    for text in others {
        assert!(rt; !is_unqualified_name(text));
        assert!(rt; !is_method_name(text));
    }
    let methods: [&[u8]; 3] = [b"run", b"<init>", b"<clinit>"];
    for text in methods {
        assert!(rt; is_method_name(text));
    }
    let no_methods: [&[u8]; 4] = [b"<init", b"<clinit>x", b"a>", b"<>"];
    for text in no_methods {
        assert!(rt; is_unqualified_name(text));
        assert!(rt; !is_method_name(text));
    }
    let classes: [&[u8]; 3] = [b"A", b"java/lang/Object", b"a/<b>"];
    for text in classes {
        assert!(rt; is_class_name(text));
    }
    let no_classes: [&[u8]; 7] = [b"", b"/", b"/a", b"a/", b"a//b", b"[I", b"a.b"];
    for text in no_classes {
        assert!(rt; !is_class_name(text));
    }
}

#[test]
fn reads_field_types(rt: HostRuntime) -> Result<(), Fail> {
    let alloc = rt.alloc();
    let letters: [(&[u8], u8, u8); 4] = [
        (b"I", 0, b'I'),
        (b"Z", 0, b'Z'),
        (b"[J", 1, b'J'),
        (b"[[[D", 3, b'D'),
    ];
    for (text, dims, letter) in letters {
        let found = field(&rt, alloc, text)?;
        assert!(rt; is_type(&found, dims, letter, b""));
        assert!(rt; is_field_type(text));
        assert_eq!(rt; is_array_type(text), dims > 0);
    }
    let classes: [(&[u8], u8, &[u8]); 4] = [
        (b"Ljava/lang/Object;", 0, b"java/lang/Object"),
        (b"[La;", 1, b"a"),
        (b"L\xc0\x80;", 0, b"\xc0\x80"),
        (b"L\xed\xa0\x80;", 0, b"\xed\xa0\x80"),
    ];
    for (text, dims, name) in classes {
        let found = field(&rt, alloc, text)?;
        assert!(rt; is_type(&found, dims, b'L', name));
    }
    Ok(())
}

#[test]
fn refuses_field_types(rt: HostRuntime) {
    let alloc = rt.alloc();
    let bad: [(&[u8], u32); 22] = [
        (b"", 0),
        (b"X", 0),
        (b"V", 0),
        (b"(", 0),
        (b"II", 1),
        (b"[", 1),
        (b"[V", 1),
        (b"L", 1),
        (b"L;", 1),
        (b"La", 2),
        (b"La/", 3),
        (b"La/;", 3),
        (b"La//b;", 3),
        (b"L/a;", 1),
        (b"La.b;", 2),
        (b"L[a;", 1),
        (b"La;b", 3),
        (b"L\xc0", 2),
        (b"L\xc0\x81;", 2),
        (b"L\xe0\x9f\x80;", 2),
        (b"L\xf0\x90\x80\x80;", 1),
        (b"L\x00;", 1),
    ];
    for (text, at) in bad {
        assert!(rt;
            matches!(field(&rt, alloc, text), Err(NameError::Malformed(found)) if found == at),
            "at {at}"
        );
        assert!(rt; !is_field_type(text));
        assert!(rt; !is_array_type(text));
    }
}

#[test]
fn reads_method_types(rt: HostRuntime) -> Result<(), Fail> {
    let alloc = rt.alloc();
    let good: [(&[u8], usize, u8); 5] = [
        (b"()V", 0, 0),
        (b"()[[I", 0, 0),
        (b"(I)J", 1, 1),
        (b"(IJ[D)Ljava/lang/String;", 3, 4),
        (b"(DLa/b;D)V", 3, 5),
    ];
    for (text, arguments, slots) in good {
        let found = method(&rt, alloc, text)?;
        assert_eq!(rt; found.arguments.items().len(), arguments);
        assert_eq!(rt; parameter_slots(text), Some(slots));
        assert!(rt; is_method_type(text));
    }
    let found = method(&rt, alloc, b"(IJ[D)Ljava/lang/String;")?;
    let arguments = found.arguments.items();
    assert_eq!(rt; arguments.len(), 3);
    assert!(rt; is_type(&arguments[0], 0, b'I', b""));
    assert!(rt; is_type(&arguments[1], 0, b'J', b""));
    assert!(rt; is_type(&arguments[2], 1, b'D', b""));
    let result = found.result.as_ref().ok_or("no result")?;
    assert!(rt; is_type(result, 0, b'L', b"java/lang/String"));
    assert!(rt; method(&rt, alloc, b"()V")?.result.is_none());
    Ok(())
}

#[test]
fn refuses_method_types(rt: HostRuntime) {
    let alloc = rt.alloc();
    let bad: [(&[u8], u32); 16] = [
        (b"", 0),
        (b"I", 0),
        (b"(", 1),
        (b"()", 2),
        (b"()VV", 3),
        (b"(V)V", 1),
        (b"([V)V", 2),
        (b"()[V", 3),
        (b"(I", 2),
        (b"(L", 2),
        (b"(La", 3),
        (b"(La;", 4),
        (b"(I)", 3),
        (b"(I)X", 3),
        (b"(()V)V", 1),
        (b"()La", 4),
    ];
    for (text, at) in bad {
        assert!(rt;
            matches!(method(&rt, alloc, text), Err(NameError::Malformed(found)) if found == at),
            "at {at}"
        );
        assert!(rt; !is_method_type(text));
        assert_eq!(rt; parameter_slots(text), None);
    }
}

// So many times a byte between two texts.
fn repeated(
    alloc: Global,
    before: &[u8],
    byte: u8,
    times: usize,
    after: &[u8],
) -> Result<Vec<u8>, Fail> {
    let mut text = Vec::from_slice(alloc, before)?;
    for _ in 0..times {
        text.push(byte)?;
    }
    text.extend_from_slice(after)?;
    Ok(text)
}

#[test]
fn keeps_the_limits(rt: HostRuntime) -> Result<(), Fail> {
    let alloc = rt.alloc();
    let deepest = repeated(alloc, b"", b'[', 255, b"I")?;
    assert!(rt; is_type(&field(&rt, alloc, &deepest)?, 255, b'I', b""));
    let deeper = repeated(alloc, b"", b'[', 256, b"I")?;
    assert!(rt; matches!(field(&rt, alloc, &deeper), Err(NameError::Malformed(255))));

    let most: [(usize, &[u8]); 3] = [(255, b")V"), (254, b"I)V"), (254, b"[J)V")];
    for (times, after) in most {
        let text = repeated(alloc, b"(", b'I', times, after)?;
        assert_eq!(rt; method(&rt, alloc, &text)?.arguments.items().len(), 255);
        assert_eq!(rt; parameter_slots(&text), Some(255));
    }
    let more: [(usize, &[u8], u32); 4] = [
        (256, b")V", 256),
        (254, b"J)V", 255),
        (255, b"[I)V", 256),
        (255, b"La;)V", 256),
    ];
    for (times, after, at) in more {
        let text = repeated(alloc, b"(", b'I', times, after)?;
        assert!(rt;
            matches!(method(&rt, alloc, &text), Err(NameError::Malformed(found)) if found == at),
            "at {at}"
        );
    }
    Ok(())
}
