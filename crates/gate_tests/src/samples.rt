// Programs of one or two classes, as files in memory (JVMS SE 7, 4.1), scripts over them, and the replies, worked out by hand.

use edge_io::fail_plan::FailPlan;
use edge_io::host::Entry;
use edge_io::memory_host::{MemoryHost, are_paths};
use slicer_ids::list::List;
use slicer_ids::name::Name;
use std::alloc::Global;
use std::test::Fail;

// A class `One`. Its `main` calls `id (I)I` at 1 with the constant 1, and at 6 with the constant 2, and stores each result; `id` gives
// its argument back.
const ONE: &[u8] =
    b"\xca\xfe\xba\xbe\x00\x00\x00\x33\x00\x0c\x01\x00\x03One\x07\x00\x01\x01\x00\x10java/lang/Object\x07\x00\x03\x01\x00\x04main\x01\x00\x16([Ljava/lang/String;)V\x01\x00\x04Code\x01\x00\x02id\x01\x00\x04(I)I\x0c\x00\x08\x00\x09\x0a\x00\x02\x00\x0a\x00\x21\x00\x02\x00\x04\x00\x00\x00\x00\x00\x02\x00\x09\x00\x05\x00\x06\x00\x01\x00\x07\x00\x00\x00\x17\x00\x01\x00\x03\x00\x00\x00\x0b\x04\xb8\x00\x0b\x3c\x05\xb8\x00\x0b\x3d\xb1\x00\x00\x00\x00\x00\x09\x00\x08\x00\x09\x00\x01\x00\x07\x00\x00\x00\x0e\x00\x01\x00\x01\x00\x00\x00\x02\x1a\xac\x00\x00\x00\x00\x00\x00";

/// The first result of `id`, and what it depends on.
pub const CALLS: &[u8] = b"seed One main ([Ljava/lang/String;)V 4\nslice\n";

/// The replies: of the second call and of its constant there is nothing.
pub const CALLED: &[u8] =
    b"ok\nstatements 5\nOne id (I)I 0 -\nOne id (I)I 1 -\nOne main ([Ljava/lang/String;)V 0 -\nOne main ([Ljava/lang/String;)V 1 -\nOne main ([Ljava/lang/String;)V 4 -\n";

// A class `Box` with a field `v I` and a constructor.
const BOX: &[u8] =
    b"\xca\xfe\xba\xbe\x00\x00\x00\x33\x00\x0c\x01\x00\x03Box\x07\x00\x01\x01\x00\x10java/lang/Object\x07\x00\x03\x01\x00\x01v\x01\x00\x01I\x01\x00\x06<init>\x01\x00\x03()V\x01\x00\x04Code\x0c\x00\x07\x00\x08\x0a\x00\x04\x00\x0a\x00\x21\x00\x02\x00\x04\x00\x00\x00\x01\x00\x01\x00\x05\x00\x06\x00\x00\x00\x01\x00\x01\x00\x07\x00\x08\x00\x01\x00\x09\x00\x00\x00\x11\x00\x01\x00\x01\x00\x00\x00\x05\x2a\xb7\x00\x0b\xb1\x00\x00\x00\x00\x00\x00";

// A class `Main`. Its `main` makes a box, puts 7 into its field at 11, and reads it at 15 into a local.
const MAIN: &[u8] =
    b"\xca\xfe\xba\xbe\x00\x00\x00\x33\x00\x12\x01\x00\x04Main\x07\x00\x01\x01\x00\x10java/lang/Object\x07\x00\x03\x01\x00\x04main\x01\x00\x16([Ljava/lang/String;)V\x01\x00\x04Code\x01\x00\x03Box\x07\x00\x08\x01\x00\x06<init>\x01\x00\x03()V\x0c\x00\x0a\x00\x0b\x0a\x00\x09\x00\x0c\x01\x00\x01v\x01\x00\x01I\x0c\x00\x0e\x00\x0f\x09\x00\x09\x00\x10\x00\x21\x00\x02\x00\x04\x00\x00\x00\x00\x00\x01\x00\x09\x00\x05\x00\x06\x00\x01\x00\x07\x00\x00\x00\x20\x00\x02\x00\x03\x00\x00\x00\x14\xbb\x00\x09\x59\xb7\x00\x0d\x4c\x2b\x10\x07\xb5\x00\x11\x2b\xb4\x00\x11\x3d\xb1\x00\x00\x00\x00\x00\x00";

/// What is read out of the box, with an explanation of the read.
pub const EXPANDS: &[u8] =
    b"seed Main main ([Ljava/lang/String;)V 18\nexpand Main main ([Ljava/lang/String;)V 15\nslice\n";

/// The replies: the value, and whence the box comes that is read.
pub const EXPANDED: &[u8] =
    b"ok\nok\nstatements 7\nMain main ([Ljava/lang/String;)V 0 -\nMain main ([Ljava/lang/String;)V 7 -\nMain main ([Ljava/lang/String;)V 9 -\nMain main ([Ljava/lang/String;)V 11 -\nMain main ([Ljava/lang/String;)V 14 -\nMain main ([Ljava/lang/String;)V 15 -\nMain main ([Ljava/lang/String;)V 18 -\n";

/// What is read out of the box.
pub const READS: &[u8] = b"seed Main main ([Ljava/lang/String;)V 18\nslice\n";

/// The replies: the value alone.
pub const READ: &[u8] =
    b"ok\nstatements 4\nMain main ([Ljava/lang/String;)V 9 -\nMain main ([Ljava/lang/String;)V 11 -\nMain main ([Ljava/lang/String;)V 15 -\nMain main ([Ljava/lang/String;)V 18 -\n";

fn add_file(
    alloc: Global,
    files: &mut Vec<(Name, Entry)>,
    path: &[u8],
    bytes: &[u8],
) -> Result<(), Fail> {
    let name = Name::from_bytes(alloc, path)?;
    let bytes = Name::from_bytes(alloc, bytes)?;
    files.push((name, Entry::File(bytes)))?;
    Ok(())
}

// A folder `f` with these files, and the scripts `s` and `t`.
fn folder(
    alloc: Global,
    classes: &[(&[u8], &[u8])],
    first: &[u8],
    second: &[u8],
) -> Result<Vec<(Name, Entry)>, Fail> {
    let mut files = Vec::new(alloc);
    files.push((Name::from_bytes(alloc, b"f")?, Entry::Folder))?;
    for (path, bytes) in classes {
        add_file(alloc, &mut files, path, bytes)?;
    }
    add_file(alloc, &mut files, b"s", first)?;
    add_file(alloc, &mut files, b"t", second)?;
    Ok(files)
}

fn host_of(alloc: Global, files: Vec<(Name, Entry)>, plan: FailPlan) -> Result<MemoryHost, Fail> {
    if !are_paths(files.as_slice()) {
        return Err("no paths".into());
    }
    Ok(MemoryHost::new(alloc, List::from_vec(files), plan)?)
}

/// No call fails.
pub fn calm(alloc: Global) -> FailPlan {
    FailPlan {
        host: List::from_vec(Vec::new(alloc)),
        sources: List::from_vec(Vec::new(alloc)),
        sinks: List::from_vec(Vec::new(alloc)),
    }
}

/// A folder `f` with the program of two calls, and its script twice, in `s` and in `t`.
pub fn calling(alloc: Global) -> Result<MemoryHost, Fail> {
    let files = folder(alloc, &[(b"f/One.class", ONE)], CALLS, CALLS)?;
    host_of(alloc, files, calm(alloc))
}

/// A folder `f` with the program of a box, its script with an explanation in `s`, and the one without in `t`.
pub fn boxed(alloc: Global, plan: FailPlan) -> Result<MemoryHost, Fail> {
    let classes = [
        (b"f/Box.class".as_slice(), BOX),
        (b"f/Main.class".as_slice(), MAIN),
    ];
    let files = folder(alloc, &classes, EXPANDS, READS)?;
    host_of(alloc, files, plan)
}

/// The words as a command line has them.
pub fn texts(alloc: Global, words: &[&str]) -> Result<Vec<String>, Fail> {
    let mut texts = Vec::new(alloc);
    for word in words {
        texts.push(String::from_str(alloc, word)?)?;
    }
    Ok(texts)
}
