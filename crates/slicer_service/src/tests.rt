// Runs over files in memory: texts and statuses worked out by hand, and each call failing in turn.

use crate::run;
use edge_io::fail_plan::FailPlan;
use edge_io::host::Entry;
use edge_io::memory_host::{MemoryHost, are_paths};
use slicer_ids::list::List;
use slicer_ids::name::Name;
use std::alloc::Global;
use std::test::Fail;
use std::thread::Threads;

// The first bytes of a class `One` with one method `main` (JVMS SE 7, 4.1), up to the length of its code attribute.
const HEAD: &[u8] =
    b"\xca\xfe\xba\xbe\x00\x00\x00\x33\x00\x08\x01\x00\x03One\x07\x00\x01\x01\x00\x10java/lang/Object\x07\x00\x03\x01\x00\x04main\x01\x00\x16([Ljava/lang/String;)V\x01\x00\x04Code\x00\x21\x00\x02\x00\x04\x00\x00\x00\x00\x00\x01\x00\x09\x00\x05\x00\x06\x00\x01\x00\x07";
// The code of the first example, and its script.
const CODE: &[u8] = b"\x05\x04\x60\x3c\x1b\x3d\xb1";

// A class `A b` with the code of the first example. Line 4 begins at 0, and lines 5 and 6 both at 4.
const LINED: &[u8] =
    b"\xca\xfe\xba\xbe\x00\x00\x00\x33\x00\x09\x01\x00\x03A b\x07\x00\x01\x01\x00\x10java/lang/Object\x07\x00\x03\x01\x00\x04main\x01\x00\x16([Ljava/lang/String;)V\x01\x00\x04Code\x01\x00\x0fLineNumberTable\x00\x21\x00\x02\x00\x04\x00\x00\x00\x00\x00\x01\x00\x09\x00\x05\x00\x06\x00\x01\x00\x07\x00\x00\x00\x27\x00\x02\x00\x03\x00\x00\x00\x07\x05\x04\x60\x3c\x1b\x3d\xb1\x00\x00\x00\x01\x00\x08\x00\x00\x00\x0e\x00\x03\x00\x00\x00\x04\x00\x04\x00\x05\x00\x04\x00\x06\x00\x00";

const SCRIPT: &[u8] = b"seed One main ([Ljava/lang/String;)V 5\nslice\n";

// The reply to the first example's script.
const REPLIES: &[u8] =
    b"ok\nstatements 6\nOne main ([Ljava/lang/String;)V 0 -\nOne main ([Ljava/lang/String;)V 1 -\nOne main ([Ljava/lang/String;)V 2 -\nOne main ([Ljava/lang/String;)V 3 -\nOne main ([Ljava/lang/String;)V 4 -\nOne main ([Ljava/lang/String;)V 5 -\n";

const DONE: &[u8] = b"session 1 done 2 replies\n";

const USAGE: &[u8] = b"usage: slicer [--main NAME] FOLDER SCRIPT...\n";

/// What a run answered and said, and what it left at `s.out` and `t.out`.
#[derive(Debug, Drop)]
struct Ended {
    status: u8,
    said: Vec<u8>,
    first: Option<Vec<u8>>,
    second: Option<Vec<u8>>,
}

// The class with this code, and what stands behind its code: the exception table and the attributes.
fn class_with(
    alloc: Global,
    code: &[u8],
    max_stack: u8,
    max_locals: u8,
    behind: &[u8],
) -> Result<Vec<u8>, Fail> {
    let Ok(length) = u8::try_from(code.len()) else {
        return Err("code".into());
    };
    let Ok(rest) = u8::try_from(behind.len()) else {
        return Err("table".into());
    };
    let Some(whole) = length.saturating_add(8).checked_add(rest) else {
        return Err("code".into());
    };
    let mut bytes = Vec::from_slice(alloc, HEAD)?;
    bytes.extend_from_slice(&[0, 0, 0, whole, 0, max_stack, 0, max_locals, 0, 0, 0, length])?;
    bytes.extend_from_slice(code)?;
    bytes.extend_from_slice(behind)?;
    bytes.extend_from_slice(&[0, 0])?;
    Ok(bytes)
}

fn class_of(alloc: Global, code: &[u8], max_stack: u8, max_locals: u8) -> Result<Vec<u8>, Fail> {
    class_with(alloc, code, max_stack, max_locals, &[0, 0, 0, 0])
}

fn one(alloc: Global) -> Result<Vec<u8>, Fail> {
    class_of(alloc, CODE, 2, 3)
}

fn plan(alloc: Global, host: &[u64], reads: &[u64], writes: &[u64]) -> Result<FailPlan, Fail> {
    let mut sources = Vec::new(alloc);
    for number in reads {
        sources.push((Name::from_bytes(alloc, b"s")?, *number))?;
    }
    let mut sinks = Vec::new(alloc);
    for number in writes {
        sinks.push((Name::from_bytes(alloc, b"s.out")?, *number))?;
    }
    Ok(FailPlan {
        host: List::from_vec(host.to_vec(alloc)?),
        sources: List::from_vec(sources),
        sinks: List::from_vec(sinks),
    })
}

fn add_folder(alloc: Global, files: &mut Vec<(Name, Entry)>, path: &[u8]) -> Result<(), Fail> {
    let name = Name::from_bytes(alloc, path)?;
    files.push((name, Entry::Folder))?;
    Ok(())
}

fn add_file(
    alloc: Global,
    files: &mut Vec<(Name, Entry)>,
    path: &[u8],
    bytes: &[u8],
) -> Result<(), Fail> {
    let name = Name::from_bytes(alloc, path)?;
    let bytes = Name::from_bytes(alloc, bytes)?;
    files.push((name, Entry::File(bytes)))?;
    Ok(())
}

// A folder `f` with the class in `f/One.class`, and the script `s`.
fn files(alloc: Global, class: &[u8], script: &[u8]) -> Result<Vec<(Name, Entry)>, Fail> {
    let mut files = Vec::new(alloc);
    add_folder(alloc, &mut files, b"f")?;
    add_file(alloc, &mut files, b"f/One.class", class)?;
    add_file(alloc, &mut files, b"s", script)?;
    Ok(files)
}

fn copy_of(alloc: Global, bytes: Option<&[u8]>) -> Result<Option<Vec<u8>>, Fail> {
    match bytes {
        Some(bytes) => Ok(Some(bytes.to_vec(alloc)?)),
        None => Ok(None),
    }
}

fn trial<R: Threads + Sync>(
    rt: &R,
    alloc: Global,
    files: Vec<(Name, Entry)>,
    plan: FailPlan,
    words: &[&str],
) -> Result<Ended, Fail> {
    if !are_paths(files.as_slice()) {
        return Err("no paths".into());
    }
    let mut texts = Vec::new(alloc);
    for word in words {
        texts.push(String::from_str(alloc, word)?)?;
    }
    let mut host = MemoryHost::new(alloc, List::from_vec(files), plan)?;
    let status = run(rt, alloc, texts.as_slice(), &mut host);
    let said = host.said().to_vec(alloc)?;
    let first = copy_of(alloc, host.file("s.out"))?;
    let second = copy_of(alloc, host.file("t.out"))?;
    Ok(Ended {
        status,
        said,
        first,
        second,
    })
}

// A run in which nothing fails.
fn calm<R: Threads + Sync>(
    rt: &R,
    alloc: Global,
    files: Vec<(Name, Entry)>,
    words: &[&str],
) -> Result<Ended, Fail> {
    let plan = plan(alloc, &[], &[], &[])?;
    trial(rt, alloc, files, plan, words)
}

// .. over one class.
fn served<R: Threads + Sync>(
    rt: &R,
    alloc: Global,
    class: &[u8],
    script: &[u8],
) -> Result<Ended, Fail> {
    calm(rt, alloc, files(alloc, class, script)?, &["f", "s"])
}

// .. of the first example, of which these calls fail.
fn failing<R: Threads + Sync>(
    rt: &R,
    alloc: Global,
    host: &[u64],
    reads: &[u64],
    writes: &[u64],
) -> Result<Ended, Fail> {
    let class = one(alloc)?;
    let plan = plan(alloc, host, reads, writes)?;
    trial(rt, alloc, files(alloc, &class, SCRIPT)?, plan, &["f", "s"])
}

fn is_text(output: &Option<Vec<u8>>, text: &[u8]) -> bool {
    match output {
        Some(bytes) => bytes.as_slice() == text,
        None => false,
    }
}

// Whether a script is served to its end, with this output.
fn gives<R: Threads + Sync>(
    rt: &R,
    alloc: Global,
    class: &[u8],
    script: &[u8],
    output: &[u8],
) -> Result<bool, Fail> {
    let trial = served(rt, alloc, class, script)?;
    Ok(trial.status == 0 && is_text(&trial.first, output))
}

#[test]
fn slices_are_those_worked_out_by_hand(rt: HostRuntime) -> Result<(), Fail> {
    let class = one(rt.alloc())?;
    let trial = served(&rt, rt.alloc(), &class, SCRIPT)?;
    assert_eq!(rt; trial.status, 0);
    assert_eq!(rt; trial.said.as_slice(), DONE);
    assert!(rt; is_text(&trial.first, REPLIES));
    Ok(())
}

// Two constants of which the seed depends on the second.
#[test]
fn a_slice_leaves_out_what_does_not_matter(rt: HostRuntime) -> Result<(), Fail> {
    let class = class_of(rt.alloc(), b"\x03\x3c\x04\x3d\xb1", 1, 3)?;
    let script = b"seed One main ([Ljava/lang/String;)V 3\nslice\n";
    let output =
        b"ok\nstatements 2\nOne main ([Ljava/lang/String;)V 2 -\nOne main ([Ljava/lang/String;)V 3 -\n";
    assert!(rt; gives(&rt, rt.alloc(), &class, script, output)?);
    Ok(())
}

// A constant, doubled on the stack, goes to two locals, and back from the first: dup2 and the second store are left out.
#[test]
fn a_slice_follows_moves_of_slots(rt: HostRuntime) -> Result<(), Fail> {
    let class = class_of(rt.alloc(), b"\x0a\x5c\x40\x42\x1f\x88\x36\x05\xb1", 4, 6)?;
    let script = b"seed One main ([Ljava/lang/String;)V 6\nslice\n";
    let output =
        b"ok\nstatements 5\nOne main ([Ljava/lang/String;)V 0 -\nOne main ([Ljava/lang/String;)V 2 -\nOne main ([Ljava/lang/String;)V 4 -\nOne main ([Ljava/lang/String;)V 5 -\nOne main ([Ljava/lang/String;)V 6 -\n";
    assert!(rt; gives(&rt, rt.alloc(), &class, script, output)?);
    Ok(())
}

// A local is written again in one branch; both values come to where the branches meet.
#[test]
fn a_slice_follows_branches(rt: HostRuntime) -> Result<(), Fail> {
    let class = class_of(
        rt.alloc(),
        b"\x04\x3c\x1b\x99\x00\x08\x05\x3c\xa7\x00\x03\x1b\x3d\xb1",
        1,
        3,
    )?;
    let script = b"seed One main ([Ljava/lang/String;)V 12\nslice\n";
    let output =
        b"ok\nstatements 6\nOne main ([Ljava/lang/String;)V 0 -\nOne main ([Ljava/lang/String;)V 1 -\nOne main ([Ljava/lang/String;)V 6 -\nOne main ([Ljava/lang/String;)V 7 -\nOne main ([Ljava/lang/String;)V 11 -\nOne main ([Ljava/lang/String;)V 12 -\n";
    assert!(rt; gives(&rt, rt.alloc(), &class, script, output)?);
    Ok(())
}

// The second store is covered by a handler, which reads the local: it may have the first value or the second.
#[test]
fn a_slice_follows_handlers(rt: HostRuntime) -> Result<(), Fail> {
    let class = class_with(
        rt.alloc(),
        b"\x04\x3c\x05\x3c\xb1\x4d\x1b\x3e\xb1",
        1,
        4,
        b"\x00\x01\x00\x02\x00\x05\x00\x05\x00\x00\x00\x00",
    )?;
    let script = b"seed One main ([Ljava/lang/String;)V 7\nslice\n";
    let output =
        b"ok\nstatements 6\nOne main ([Ljava/lang/String;)V 0 -\nOne main ([Ljava/lang/String;)V 1 -\nOne main ([Ljava/lang/String;)V 2 -\nOne main ([Ljava/lang/String;)V 3 -\nOne main ([Ljava/lang/String;)V 6 -\nOne main ([Ljava/lang/String;)V 7 -\n";
    assert!(rt; gives(&rt, rt.alloc(), &class, script, output)?);
    Ok(())
}

// The blank in the class's name is printed as an escape; of two lines that begin at one place the later one counts.
#[test]
fn statements_have_their_lines(rt: HostRuntime) -> Result<(), Fail> {
    let script = b"seed A\\20b main ([Ljava/lang/String;)V 5\nslice\nlines\n";
    let output =
        b"ok\nstatements 6\nA\\20b main ([Ljava/lang/String;)V 0 4\nA\\20b main ([Ljava/lang/String;)V 1 4\nA\\20b main ([Ljava/lang/String;)V 2 4\nA\\20b main ([Ljava/lang/String;)V 3 4\nA\\20b main ([Ljava/lang/String;)V 4 6\nA\\20b main ([Ljava/lang/String;)V 5 6\nlines 2\nA\\20b main ([Ljava/lang/String;)V 4\nA\\20b main ([Ljava/lang/String;)V 6\n";
    assert!(rt; gives(&rt, rt.alloc(), LINED, script, output)?);
    Ok(())
}

#[test]
fn an_empty_script_has_no_replies(rt: HostRuntime) -> Result<(), Fail> {
    let class = one(rt.alloc())?;
    let trial = served(&rt, rt.alloc(), &class, b"")?;
    assert_eq!(rt; trial.status, 0);
    assert_eq!(rt;
        trial.said.as_slice(),
        b"session 1 done 0 replies\n".as_slice()
    );
    assert!(rt; is_text(&trial.first, b""));
    Ok(())
}

// One line for each error but those on long lines and scripts; then the first example, without the end of its last line.
#[test]
fn refused_commands_change_nothing(rt: HostRuntime) -> Result<(), Fail> {
    let class = one(rt.alloc())?;
    let script =
        b"slice\njump\nseed One\nseed One main ([Ljava/lang/String;)V 70000\nseed Two main ([Ljava/lang/String;)V 0\nseedline One 3\nexpand One main ([Ljava/lang/String;)V 5\nseed One main ([Ljava/lang/String;)V 5\nslice";
    let trial = served(&rt, rt.alloc(), &class, script)?;
    let mut text = Vec::from_slice(
        rt.alloc(),
        b"error 6 no seed\nerror 9 unknown command\nerror 10 wrong number of words\nerror 11 bad number\nerror 1 no such class\nerror 4 no such line\nerror 5 not a heap access\n",
    )?;
    text.extend_from_slice(REPLIES)?;
    assert_eq!(rt; trial.status, 0);
    assert_eq!(rt;
        trial.said.as_slice(),
        b"session 1 done 9 replies\n".as_slice()
    );
    assert!(rt; is_text(&trial.first, text.as_slice()));
    Ok(())
}

// Each output is that of its script alone.
#[test]
fn two_scripts_have_an_output_each(rt: HostRuntime) -> Result<(), Fail> {
    let class = one(rt.alloc())?;
    let mut files = files(rt.alloc(), &class, SCRIPT)?;
    add_file(rt.alloc(), &mut files, b"t", b"slice\n")?;
    let trial = calm(&rt, rt.alloc(), files, &["f", "s", "t"])?;
    assert_eq!(rt; trial.status, 0);
    assert_eq!(rt;
        trial.said.as_slice(),
        b"session 1 done 2 replies\nsession 2 done 1 replies\n".as_slice()
    );
    assert!(rt; is_text(&trial.first, REPLIES));
    assert!(rt; is_text(&trial.second, b"error 6 no seed\n"));
    Ok(())
}

// Whether a run on the words says how the program is called, and does nothing.
fn is_usage<R: Threads + Sync>(rt: &R, alloc: Global, words: &[&str]) -> Result<bool, Fail> {
    let class = one(alloc)?;
    let trial = calm(rt, alloc, files(alloc, &class, SCRIPT)?, words)?;
    Ok(trial.status == 2 && trial.said.as_slice() == USAGE && trial.first.is_none())
}

#[test]
fn words_that_are_not_taken_are_usage(rt: HostRuntime) -> Result<(), Fail> {
    assert!(rt; is_usage(&rt, rt.alloc(), &[])?);
    assert!(rt; is_usage(&rt, rt.alloc(), &["f"])?);
    assert!(rt; is_usage(&rt, rt.alloc(), &["f", "--help"])?);
    Ok(())
}

#[test]
fn scripts_that_are_not_apart_are_usage(rt: HostRuntime) -> Result<(), Fail> {
    assert!(rt; is_usage(&rt, rt.alloc(), &["f", "s", "s"])?);
    assert!(rt; is_usage(&rt, rt.alloc(), &["f", "s.out", "s"])?);
    Ok(())
}

// Whether a run over these files says this, with status 4, and writes nothing.
fn refuses<R: Threads + Sync>(
    rt: &R,
    alloc: Global,
    files: Vec<(Name, Entry)>,
    words: &[&str],
    said: &[u8],
) -> Result<bool, Fail> {
    let trial = calm(rt, alloc, files, words)?;
    Ok(trial.status == 4 && trial.said.as_slice() == said && trial.first.is_none())
}

// .. over one class.
fn is_refused<R: Threads + Sync>(
    rt: &R,
    alloc: Global,
    class: &[u8],
    said: &[u8],
) -> Result<bool, Fail> {
    refuses(rt, alloc, files(alloc, class, SCRIPT)?, &["f", "s"], said)
}

// An addition with nothing on the stack; a subroutine.
#[test]
fn code_that_breaks_a_rule_is_refused(rt: HostRuntime) -> Result<(), Fail> {
    let shallow = class_of(rt.alloc(), b"\x60\xb1", 2, 3)?;
    let line = b"refused One.class method main ([Ljava/lang/String;)V code rule 9 at pc 0\n";
    assert!(rt; is_refused(&rt, rt.alloc(), &shallow, line)?);
    let subroutine = class_of(rt.alloc(), b"\xa8\x00\x03\xb1", 2, 3)?;
    let line = b"refused One.class method main ([Ljava/lang/String;)V jsr at pc 0\n";
    assert!(rt; is_refused(&rt, rt.alloc(), &subroutine, line)?);
    Ok(())
}

#[test]
fn a_file_with_a_byte_more_is_refused(rt: HostRuntime) -> Result<(), Fail> {
    let mut class = one(rt.alloc())?;
    class.push(0)?;
    let line = b"refused One.class trailing bytes at 127\n";
    assert!(rt; is_refused(&rt, rt.alloc(), &class, line)?);
    Ok(())
}

// No local for the argument of `main`, whose bytes begin at 92.
#[test]
fn a_method_without_room_for_its_argument_is_refused(rt: HostRuntime) -> Result<(), Fail> {
    let narrow = class_of(rt.alloc(), b"\xb1", 0, 0)?;
    let line = b"refused One.class broken rule 17 at 92\n";
    assert!(rt; is_refused(&rt, rt.alloc(), &narrow, line)?);
    Ok(())
}

// One class in two files, of which one is in a folder of the folder.
#[test]
fn a_class_that_stands_twice_is_refused(rt: HostRuntime) -> Result<(), Fail> {
    let class = one(rt.alloc())?;
    let mut files = files(rt.alloc(), &class, SCRIPT)?;
    add_folder(rt.alloc(), &mut files, b"f/sub")?;
    add_file(rt.alloc(), &mut files, b"f/sub/One.class", &class)?;
    let line = b"refused duplicate class One\n";
    assert!(rt; refuses(&rt, rt.alloc(), files, &["f", "s"], line)?);
    Ok(())
}

// A `main` that isn't static, no class of the name, and no class at all.
#[test]
fn a_folder_without_entry_is_refused(rt: HostRuntime) -> Result<(), Fail> {
    let line = b"refused no entry method\n";
    let mut instance = one(rt.alloc())?;
    assert!(rt; instance.len() > 93);
    instance[93] = 1;
    assert!(rt; is_refused(&rt, rt.alloc(), &instance, line)?);
    let class = one(rt.alloc())?;
    let files_with = files(rt.alloc(), &class, SCRIPT)?;
    assert!(rt;
        refuses(
            &rt,
            rt.alloc(),
            files_with,
            &["--main", "Two", "f", "s"],
            line
        )?
    );
    let mut bare = Vec::new(rt.alloc());
    add_folder(rt.alloc(), &mut bare, b"f")?;
    add_file(rt.alloc(), &mut bare, b"s", SCRIPT)?;
    assert!(rt; refuses(&rt, rt.alloc(), bare, &["f", "s"], line)?);
    Ok(())
}

// The first of these words that isn't what it should be: the folder, a script, an output.
#[test]
fn a_path_that_is_not_there_is_a_fault(rt: HostRuntime) -> Result<(), Fail> {
    for words in [["s", "s"], ["f", "t"], ["f", "d"]] {
        let class = one(rt.alloc())?;
        let mut files = files(rt.alloc(), &class, SCRIPT)?;
        add_file(rt.alloc(), &mut files, b"d", SCRIPT)?;
        add_folder(rt.alloc(), &mut files, b"d.out")?;
        let trial = calm(&rt, rt.alloc(), files, &words)?;
        assert_eq!(rt; trial.status, 3);
        assert_eq!(rt; trial.said.as_slice(), b"host fault\n".as_slice());
        assert!(rt; trial.first.is_none());
    }
    Ok(())
}

// The calls of a run are list, read, open, create, close and say.
#[test]
fn each_host_call_fails_in_turn(rt: HostRuntime) -> Result<(), Fail> {
    for (number, said) in [
        (1, b"host fault\n".as_slice()),
        (2, b"host fault\n".as_slice()),
        (3, b"host fault\n".as_slice()),
        (4, b"host fault\n".as_slice()),
        (5, b"session 1 done 2 replies\nhost fault\n".as_slice()),
        (6, b"host fault\n".as_slice()),
    ] {
        let trial = failing(&rt, rt.alloc(), &[number], &[], &[])?;
        assert_eq!(rt; trial.status, 3);
        assert_eq!(rt; trial.said.as_slice(), said);
    }
    Ok(())
}

#[test]
fn every_host_call_fails(rt: HostRuntime) -> Result<(), Fail> {
    let trial = failing(&rt, rt.alloc(), &[1, 2, 3, 4, 5, 6, 7, 8], &[], &[])?;
    assert_eq!(rt; trial.status, 3);
    assert!(rt; trial.said.is_empty());
    assert!(rt; trial.first.is_none());
    Ok(())
}

// The first read gives the whole script, and is answered before the second one is tried.
#[test]
fn the_script_can_not_be_read(rt: HostRuntime) -> Result<(), Fail> {
    for (number, said, text) in [
        (
            1,
            b"session 1 read fault after 0 replies\n".as_slice(),
            b"".as_slice(),
        ),
        (
            2,
            b"session 1 read fault after 2 replies\n".as_slice(),
            REPLIES,
        ),
    ] {
        let trial = failing(&rt, rt.alloc(), &[], &[number], &[])?;
        assert_eq!(rt; trial.status, 5);
        assert_eq!(rt; trial.said.as_slice(), said);
        assert!(rt; is_text(&trial.first, text));
    }
    Ok(())
}

#[test]
fn the_output_can_not_be_written(rt: HostRuntime) -> Result<(), Fail> {
    for (number, said, text) in [
        (
            1,
            b"session 1 write fault after 0 replies\n".as_slice(),
            b"".as_slice(),
        ),
        (
            2,
            b"session 1 write fault after 1 replies\n".as_slice(),
            b"ok\n".as_slice(),
        ),
    ] {
        let trial = failing(&rt, rt.alloc(), &[], &[], &[number])?;
        assert_eq!(rt; trial.status, 5);
        assert_eq!(rt; trial.said.as_slice(), said);
        assert!(rt; is_text(&trial.first, text));
    }
    Ok(())
}
