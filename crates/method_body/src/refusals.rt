// Code that breaks a rule, and code that is accepted.

use crate::tests::{STATIC, Source, read};
use class_form::code_error::CodeError;
use std::process::Abort;
use std::test::Fail;

// Code of a static method without arguments, and why it is refused; none where it is accepted.
#[derive(Clone, Copy)]
struct Case {
    source: Source,
    fault: Option<CodeError>,
}

macro_rules! case {
    ($fault:expr, $stack:expr, $locals:expr, $code:expr, $entries:expr) => {
        Case {
            source: Source { stack: $stack, locals: $locals, code: &$code, entries: &$entries },
            fault: $fault,
        }
    };
}

const ACCEPTED: Option<CodeError> = None;

macro_rules! broken {
    ($rule:expr, $pc:expr) => {
        Some(CodeError::Broken { rule: $rule, pc: $pc })
    };
}

macro_rules! subroutine {
    ($pc:expr) => {
        Some(CodeError::Jsr($pc))
    };
}

fn check_case(rt: &(impl Abort + AllocGlobal), case: &Case) -> Result<(), Fail> {
    let fault = match read(rt, STATIC, b"()V", &case.source)? {
        Ok(_) => None,
        Err(error) => Some(error),
    };
    assert_eq!(rt; fault, case.fault, "{:?}", case.source.code);
    Ok(())
}

fn check(rt: &(impl Abort + AllocGlobal), cases: &[Case]) -> Result<(), Fail> {
    for case in cases {
        check_case(rt, case)?;
    }
    Ok(())
}

static INSTRUCTIONS: [Case; 9] = [
    case!(broken!(1, 0), 1, 1, [202, 177], []),
    // wide nop
    case!(broken!(1, 0), 1, 1, [196, 0, 177], []),
    // jsr 3
    case!(subroutine!(0), 1, 1, [168, 0, 3, 177], []),
    // wide ret 0
    case!(subroutine!(1), 1, 1, [0, 196, 169, 0, 0], []),
    // sipush without its last byte
    case!(broken!(2, 0), 1, 1, [17, 0], []),
    // ldc of a text
    case!(broken!(3, 0), 1, 1, [18, 1, 87, 177], []),
    // tableswitch with low 1 and high 0
    case!(
        broken!(4, 1),
        1,
        1,
        [3, 170, 0, 0, 0, 0, 0, 16, 0, 0, 0, 1, 0, 0, 0, 0, 177],
        []
    ),
    // lookupswitch with the keys 1 and 1
    case!(
        broken!(4, 1),
        1,
        1,
        [
            3, 171, 0, 0, 0, 0, 0, 27, 0, 0, 0, 2, 0, 0, 0, 1, 0, 0, 0, 27, 0, 0, 0, 1, 0, 0, 0,
            27, 177
        ],
        []
    ),
    // goto into sipush
    case!(broken!(5, 0), 1, 1, [167, 0, 4, 17, 0, 0, 87, 177], []),
];

#[test]
fn instructions(rt: HostRuntime) -> Result<(), Fail> {
    check(&rt, &INSTRUCTIONS)
}

// 0 sipush 0, 3 pop, 4 return
static ENTRIES: [Case; 8] = [
    case!(ACCEPTED, 1, 0, [17, 0, 0, 87, 177], [(0, 3, 3)]),
    // up to the end of the code, and past it
    case!(ACCEPTED, 1, 0, [17, 0, 0, 87, 177], [(3, 5, 3)]),
    case!(broken!(6, 3), 1, 0, [17, 0, 0, 87, 177], [(3, 6, 3)]),
    // a start, an end and a handler inside sipush
    case!(broken!(6, 1), 1, 0, [17, 0, 0, 87, 177], [(1, 4, 3)]),
    case!(broken!(6, 0), 1, 0, [17, 0, 0, 87, 177], [(0, 2, 3)]),
    case!(broken!(6, 0), 1, 0, [17, 0, 0, 87, 177], [(0, 3, 2)]),
    // a handler at the end of the code
    case!(broken!(6, 0), 1, 0, [17, 0, 0, 87, 177], [(0, 3, 5)]),
    // the first of two in the table, not the least
    case!(
        broken!(6, 3),
        1,
        0,
        [17, 0, 0, 87, 177],
        [(0, 3, 3), (3, 5, 1), (0, 1, 3)]
    ),
];

#[test]
fn entries(rt: HostRuntime) -> Result<(), Fail> {
    check(&rt, &ENTRIES)
}

static LOCALS: [Case; 8] = [
    // iload_1, pop, return
    case!(broken!(7, 0), 1, 1, [27, 87, 177], []),
    case!(ACCEPTED, 1, 2, [27, 87, 177], []),
    // lload_0, pop2, return
    case!(broken!(7, 0), 2, 1, [30, 88, 177], []),
    case!(ACCEPTED, 2, 2, [30, 88, 177], []),
    // lconst_0, lstore_1, return
    case!(broken!(7, 1), 2, 2, [9, 64, 177], []),
    // iinc 5 1, return
    case!(broken!(7, 0), 0, 5, [132, 5, 1, 177], []),
    // wide iload 256, pop, return
    case!(broken!(7, 0), 1, 256, [196, 21, 1, 0, 87, 177], []),
    // the least of two, in code that isn't reached: return, iload_3, iload_2
    case!(broken!(7, 1), 2, 2, [177, 29, 28], []),
];

#[test]
fn locals(rt: HostRuntime) -> Result<(), Fail> {
    check(&rt, &LOCALS)
}

static ENDS: [Case; 8] = [
    case!(broken!(8, 0), 0, 0, [0], []),
    // return, nop: the end isn't reached
    case!(ACCEPTED, 0, 0, [177, 0], []),
    // iconst_0, ifeq 5, return, nop
    case!(broken!(8, 5), 1, 0, [3, 153, 0, 4, 177, 0], []),
    // iconst_0, ifeq 0: it may go on
    case!(broken!(8, 1), 1, 0, [3, 153, 255, 255], []),
    // goto 0
    case!(ACCEPTED, 0, 0, [167, 0, 0], []),
    // aconst_null, athrow
    case!(ACCEPTED, 1, 0, [1, 191], []),
    // return, pop: reached as a handler alone
    case!(ACCEPTED, 1, 0, [177, 87], []),
    case!(broken!(8, 1), 1, 0, [177, 87], [(0, 1, 1)]),
];

#[test]
fn ends(rt: HostRuntime) -> Result<(), Fail> {
    check(&rt, &ENDS)
}

static DEPTHS: [Case; 9] = [
    // iadd, return
    case!(broken!(9, 0), 2, 1, [96, 177], []),
    // iconst_1, pop, return, with a stack that is too small, and with one that isn't
    case!(broken!(9, 0), 0, 0, [4, 87, 177], []),
    case!(ACCEPTED, 1, 0, [4, 87, 177], []),
    // iconst_0, ifeq 5, iconst_0, return: depths 0 and 1 meet
    case!(broken!(9, 0), 1, 0, [3, 153, 0, 4, 3, 177], []),
    // nop, return: the handler is reached with depths 0 and 1
    case!(broken!(9, 0), 1, 0, [0, 177], [(0, 1, 1)]),
    // a loop that grows: iconst_0, goto 0
    case!(broken!(9, 0), 5, 0, [3, 167, 255, 255], []),
    // lconst_0, pop, pop, return: only depths are checked
    case!(ACCEPTED, 2, 0, [9, 87, 87, 177], []),
    // return, pop, pop: not reached
    case!(ACCEPTED, 0, 0, [177, 87, 87], []),
    // ireturn leaves what is below it
    case!(ACCEPTED, 2, 0, [3, 3, 172], []),
];

#[test]
fn depths(rt: HostRuntime) -> Result<(), Fail> {
    check(&rt, &DEPTHS)
}

static PAIRS: [Case; 8] = [
    // of rules 1 to 4 the least pc counts, and all come before rule 5: goto into itself, then an opcode that there is not
    case!(broken!(1, 3), 0, 0, [167, 0, 1, 202], []),
    // a subroutine at a later pc before rule 5
    case!(subroutine!(3), 0, 0, [167, 0, 1, 168, 0, 3, 177], []),
    // rule 5 before rule 6
    case!(broken!(5, 0), 0, 0, [167, 0, 1, 177], [(1, 3, 3)]),
    // rule 6 before rule 7: nop, iload_0 without locals; the entry begins at no instruction
    case!(broken!(6, 9), 1, 0, [26, 87, 177], [(9, 3, 2)]),
    // rule 7 before rule 8: nop, iload_0 at the end
    case!(broken!(7, 1), 1, 0, [0, 26], []),
    // rule 8 before rule 9: pop at the end
    case!(broken!(8, 0), 0, 0, [87], []),
    // rule 6 before rule 9: pop, return
    case!(broken!(6, 0), 0, 0, [87, 177], [(0, 1, 7)]),
    // rule 7 before rule 9: pop, iload_0, return
    case!(broken!(7, 1), 0, 0, [87, 26, 177], []),
];

#[test]
fn pairs(rt: HostRuntime) -> Result<(), Fail> {
    check(&rt, &PAIRS)
}
