use crate::command::{Command, LineError, Place};
use crate::parse::parse_line;
use std::alloc::Global;
use std::test::Fail;

// Why a line is refused; none where it isn't.
fn refusal(alloc: Global, line: &[u8]) -> Option<LineError> {
    match parse_line(alloc, line) {
        Ok(_) => None,
        Err(error) => Some(error),
    }
}

// The number of a command in the order of its type.
fn kind(command: &Command) -> u8 {
    match command {
        Command::Blank => 0,
        Command::Seed(_) => 1,
        Command::SeedLine(_, _) => 2,
        Command::Reset => 3,
        Command::Slice => 4,
        Command::Full => 5,
        Command::Lines => 6,
        Command::Expand(_) => 7,
        Command::ExpandAll => 8,
        Command::Explain(_, _) => 9,
    }
}

fn kind_of(alloc: Global, line: &[u8]) -> Result<u8, LineError> {
    let command = parse_line(alloc, line)?;
    Ok(kind(&command))
}

fn is_place(place: &Place, class: &[u8], name: &[u8], descriptor: &[u8], pc: u16) -> bool {
    place.class.bytes() == class
        && place.name.bytes() == name
        && place.descriptor.bytes() == descriptor
        && place.pc == pc
}

fn is_seed(command: &Command, class: &[u8], name: &[u8], descriptor: &[u8], pc: u16) -> bool {
    match command {
        Command::Seed(place) => is_place(place, class, name, descriptor, pc),
        _ => false,
    }
}

// Whether a line adds this place to the seeds.
fn seeds(
    alloc: Global,
    line: &[u8],
    class: &[u8],
    name: &[u8],
    descriptor: &[u8],
    pc: u16,
) -> Result<bool, LineError> {
    let command = parse_line(alloc, line)?;
    Ok(is_seed(&command, class, name, descriptor, pc))
}

fn is_seed_line(command: &Command, class: &[u8], line: u16) -> bool {
    match command {
        Command::SeedLine(name, number) => name.bytes() == class && *number == line,
        _ => false,
    }
}

fn is_explanation(command: &Command) -> bool {
    match command {
        Command::Explain(first, second) => {
            is_place(first, b"a/A", b"f", b"()V", 20) && is_place(second, b"b/B", b"g", b"()I", 16)
        }
        _ => false,
    }
}

#[test]
fn commands_with_operands(rt: HostRuntime) -> Result<(), Fail> {
    assert_eq!(rt;
        kind_of(rt.alloc(), b"seed One main ([Ljava/lang/String;)V 5")?,
        1
    );
    assert_eq!(rt; kind_of(rt.alloc(), b"seedline One 3")?, 2);
    assert_eq!(rt;
        kind_of(rt.alloc(), b"expand One main ([Ljava/lang/String;)V 5")?,
        7
    );
    assert_eq!(rt;
        kind_of(rt.alloc(), b"explain Main main ()V 20 Main main ()V 16")?,
        9
    );
    Ok(())
}

#[test]
fn commands_alone(rt: HostRuntime) -> Result<(), Fail> {
    assert_eq!(rt; kind_of(rt.alloc(), b"reset")?, 3);
    assert_eq!(rt; kind_of(rt.alloc(), b"slice")?, 4);
    assert_eq!(rt; kind_of(rt.alloc(), b"full")?, 5);
    assert_eq!(rt; kind_of(rt.alloc(), b"lines")?, 6);
    assert_eq!(rt; kind_of(rt.alloc(), b"expand-all")?, 8);
    Ok(())
}

#[test]
fn blank_lines(rt: HostRuntime) -> Result<(), Fail> {
    assert_eq!(rt; kind_of(rt.alloc(), b"")?, 0);
    assert_eq!(rt; kind_of(rt.alloc(), b" \t \t")?, 0);
    assert_eq!(rt; kind_of(rt.alloc(), b"#")?, 0);
    assert_eq!(rt; kind_of(rt.alloc(), b"\t #slice with many words")?, 0);
    Ok(())
}

#[test]
fn places_of_words(rt: HostRuntime) -> Result<(), Fail> {
    assert!(rt;
        seeds(
            rt.alloc(),
            b"seed One main ([Ljava/lang/String;)V 5",
            b"One",
            b"main",
            b"([Ljava/lang/String;)V",
            5
        )?
    );
    assert!(rt;
        seeds(
            rt.alloc(),
            b" \tseed\t\tOne main  ([Ljava/lang/String;)V\t5 ",
            b"One",
            b"main",
            b"([Ljava/lang/String;)V",
            5
        )?
    );
    assert!(rt;
        seeds(
            rt.alloc(),
            b"seed java.lang.Object a.b c.d 0",
            b"java/lang/Object",
            b"a.b",
            b"c.d",
            0
        )?
    );
    Ok(())
}

#[test]
fn escapes_of_words(rt: HostRuntime) -> Result<(), Fail> {
    assert!(rt;
        seeds(
            rt.alloc(),
            b"seed a\\2eb \\3cinit\\3e ()V 00012",
            b"a/b",
            b"<init>",
            b"()V",
            12
        )?
    );
    assert!(rt;
        seeds(
            rt.alloc(),
            b"seed a\\20b \\09 \\5c 65535",
            b"a b",
            b"\t",
            b"\\",
            65535
        )?
    );
    assert!(rt;
        seeds(
            rt.alloc(),
            b"\\73eed \xff\x00 \x80 \xc0 \\31",
            b"\xff\x00",
            b"\x80",
            b"\xc0",
            1
        )?
    );
    Ok(())
}

#[test]
fn no_escapes(rt: HostRuntime) -> Result<(), Fail> {
    assert!(rt; seeds(rt.alloc(), b"seed \\ \\5 \\5G 5", b"\\", b"\\5", b"\\5G", 5)?);
    assert!(rt;
        seeds(
            rt.alloc(),
            b"seed \\5C \\\\5c a\\ 1",
            b"\\5C",
            b"\\\\",
            b"a\\",
            1
        )?
    );
    Ok(())
}

#[test]
fn unknown_commands(rt: HostRuntime) -> Result<(), Fail> {
    assert_eq!(rt; refusal(rt.alloc(), b"jump"), Some(LineError::Unknown));
    assert_eq!(rt; refusal(rt.alloc(), b"Slice"), Some(LineError::Unknown));
    assert_eq!(rt; refusal(rt.alloc(), b"slice\r"), Some(LineError::Unknown));
    assert_eq!(rt;
        refusal(rt.alloc(), b"\\23 slice"),
        Some(LineError::Unknown)
    );
    Ok(())
}

#[test]
fn wrong_counts(rt: HostRuntime) -> Result<(), Fail> {
    assert_eq!(rt; refusal(rt.alloc(), b"seed One"), Some(LineError::Arity));
    assert_eq!(rt;
        refusal(rt.alloc(), b"seed One main ()V 1 2"),
        Some(LineError::Arity)
    );
    assert_eq!(rt;
        refusal(rt.alloc(), b"seedline One x 1"),
        Some(LineError::Arity)
    );
    assert_eq!(rt; refusal(rt.alloc(), b"slice #"), Some(LineError::Arity));
    assert_eq!(rt;
        refusal(rt.alloc(), b"explain A f ()V 1 B g ()V"),
        Some(LineError::Arity)
    );
    Ok(())
}

#[test]
fn bad_numbers(rt: HostRuntime) -> Result<(), Fail> {
    assert_eq!(rt;
        refusal(rt.alloc(), b"seed One main ([Ljava/lang/String;)V 70000"),
        Some(LineError::BadNumber)
    );
    assert_eq!(rt;
        refusal(rt.alloc(), b"seedline One 65536"),
        Some(LineError::BadNumber)
    );
    assert_eq!(rt;
        refusal(rt.alloc(), b"seedline One 123456"),
        Some(LineError::BadNumber)
    );
    assert_eq!(rt;
        refusal(rt.alloc(), b"seedline One 000001"),
        Some(LineError::BadNumber)
    );
    Ok(())
}

#[test]
fn bad_numbers_of_explain(rt: HostRuntime) -> Result<(), Fail> {
    assert_eq!(rt;
        refusal(rt.alloc(), b"explain A f ()V x B g ()V 1"),
        Some(LineError::BadNumber)
    );
    assert_eq!(rt;
        refusal(rt.alloc(), b"explain A f ()V 1 B g ()V 1x"),
        Some(LineError::BadNumber)
    );
    assert_eq!(rt;
        refusal(rt.alloc(), b"seedline One -1"),
        Some(LineError::BadNumber)
    );
    Ok(())
}

#[test]
fn other_operands(rt: HostRuntime) -> Result<(), Fail> {
    let line = parse_line(rt.alloc(), b"seedline a.B 65535")?;
    assert!(rt; is_seed_line(&line, b"a/B", 65535));
    let explanation = parse_line(rt.alloc(), b"explain a.A f ()V 20 b.B g ()I 16")?;
    assert!(rt; is_explanation(&explanation));
    Ok(())
}

#[test]
fn commands_in_escapes(rt: HostRuntime) -> Result<(), Fail> {
    assert_eq!(rt; kind_of(rt.alloc(), b"\\73\\6c\\69\\63\\65")?, 4);
    assert_eq!(rt; kind_of(rt.alloc(), b" expand\\2dall\t")?, 8);
    assert_eq!(rt; refusal(rt.alloc(), b"s\\6Cice"), Some(LineError::Unknown));
    assert_eq!(rt; refusal(rt.alloc(), b"slice\\20"), Some(LineError::Unknown));
    assert_eq!(rt; refusal(rt.alloc(), b"\\20"), Some(LineError::Unknown));
    Ok(())
}

// What an escape stands for begins no further escape.
#[test]
fn escapes_once(rt: HostRuntime) -> Result<(), Fail> {
    assert!(rt;
        seeds(
            rt.alloc(),
            b"seed \\5c2e \\5c41 \\2f\\2E 0",
            b"\\2e",
            b"\\41",
            b"/\\2E",
            0
        )?
    );
    assert!(rt;
        seeds(
            rt.alloc(),
            b"seed .\\2e. \\0a\\0d \\00\\ff 00000",
            b"///",
            b"\n\r",
            b"\x00\xff",
            0
        )?
    );
    Ok(())
}

#[test]
fn numbers_in_escapes(rt: HostRuntime) -> Result<(), Fail> {
    let line = parse_line(rt.alloc(), b"seedline A \\3012\\33\\34")?;
    assert!(rt; is_seed_line(&line, b"A", 1234));
    assert_eq!(rt;
        refusal(rt.alloc(), b"seedline A 1\\20"),
        Some(LineError::BadNumber)
    );
    assert_eq!(rt;
        refusal(rt.alloc(), b"seedline A \\5"),
        Some(LineError::BadNumber)
    );
    assert_eq!(rt;
        refusal(rt.alloc(), b"seedline A 1\r"),
        Some(LineError::BadNumber)
    );
    Ok(())
}

// The first rule that a line breaks: the length, the word, the count of words, the number.
#[test]
fn first_broken_rules(rt: HostRuntime) -> Result<(), Fail> {
    assert_eq!(rt;
        refusal(rt.alloc(), b"seedlines One"),
        Some(LineError::Unknown)
    );
    assert_eq!(rt;
        refusal(rt.alloc(), b"seedline One 65536 1"),
        Some(LineError::Arity)
    );
    assert_eq!(rt;
        refusal(rt.alloc(), b"seedline One 99999"),
        Some(LineError::BadNumber)
    );
    assert_eq!(rt; refusal(rt.alloc(), b"\xff"), Some(LineError::Unknown));
    Ok(())
}

#[test]
fn long_lines(rt: HostRuntime) -> Result<(), Fail> {
    let blanks = vec![in rt.alloc(); b' '; 4097]?;
    assert_eq!(rt; refusal(rt.alloc(), &blanks), Some(LineError::TooLong));
    let blanks = vec![in rt.alloc(); b' '; 4096]?;
    assert_eq!(rt; kind_of(rt.alloc(), &blanks)?, 0);
    Ok(())
}

#[test]
fn long_comments(rt: HostRuntime) -> Result<(), Fail> {
    let marks = vec![in rt.alloc(); b'#'; 4097]?;
    assert_eq!(rt; refusal(rt.alloc(), &marks), Some(LineError::TooLong));
    let marks = vec![in rt.alloc(); b'#'; 4096]?;
    assert_eq!(rt; kind_of(rt.alloc(), &marks)?, 0);
    Ok(())
}

// The longest line and a byte 13 that isn't dropped are one byte too many; within the limit it is a byte of a word.
#[test]
fn long_lines_with_a_return(rt: HostRuntime) -> Result<(), Fail> {
    let mut line = vec![in rt.alloc(); b' '; 4096]?;
    line[4095] = b'\r';
    assert_eq!(rt; refusal(rt.alloc(), &line), Some(LineError::Unknown));
    line.push(b'\r')?;
    assert_eq!(rt; refusal(rt.alloc(), &line), Some(LineError::TooLong));
    Ok(())
}
