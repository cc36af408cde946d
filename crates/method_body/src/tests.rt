// Bodies whose shape and definitions were worked out by hand from the standard.

use crate::{is_readable, read_body};
use class_form::body::{Body, Def, Point};
use class_form::class_file::{CodeBody, Handler, Member};
use class_form::code_error::CodeError;
use class_form::pool::{Constant, Pool};
use slicer_ids::ids::MethodId;
use slicer_ids::list::List;
use slicer_ids::name::Name;
use std::alloc::Global;
use std::process::Abort;
use std::test::Fail;

/// Code, how deep its stack may be, how many locals it has, and its exception table: from where up to where each entry catches
/// everything, and its handler.
#[derive(Clone, Copy)]
pub(crate) struct Source {
    pub stack: u16,
    pub locals: u16,
    pub code: &'static [u8],
    pub entries: &'static [(u16, u16, u16)],
}

/// A static method's flags.
pub(crate) const STATIC: u16 = 8;

// A method of these flags, whose descriptor is the constant of a pool's one text.
fn method(alloc: Global, flags: u16) -> Member {
    Member {
        flags,
        name: 1,
        descriptor: 1,
        attributes: List::from_vec(Vec::new(alloc)),
    }
}

fn pool(alloc: Global, descriptor: &[u8]) -> Result<Pool, Fail> {
    let text = Constant::Utf8(Name::from_bytes(alloc, descriptor)?);
    Ok(Pool {
        constants: List::from_vec(vec![in alloc; text]?),
        major: 51,
    })
}

fn handlers(alloc: Global, entries: &[(u16, u16, u16)]) -> Result<Vec<Handler>, Fail> {
    let mut handlers = Vec::new(alloc);
    for entry in entries {
        let (start, end, handler) = *entry;
        handlers.push(Handler {
            start,
            end,
            handler,
            catch_type: 0,
        })?;
    }
    Ok(handlers)
}

fn code(alloc: Global, source: &Source) -> Result<CodeBody, Fail> {
    Ok(CodeBody {
        max_stack: source.stack,
        max_locals: source.locals,
        code: Name::from_bytes(alloc, source.code)?,
        handlers: List::from_vec(handlers(alloc, source.entries)?),
        attributes: List::from_vec(Vec::new(alloc)),
    })
}

/// Reads the code of a method of these flags and this descriptor.
pub(crate) fn read(
    rt: &(impl Abort + AllocGlobal),
    flags: u16,
    descriptor: &[u8],
    source: &Source,
) -> Result<Result<Body, CodeError>, Fail> {
    let alloc = rt.alloc();
    let pool = pool(alloc, descriptor)?;
    let method = method(alloc, flags);
    let code = code(alloc, source)?;
    assert!(rt; is_readable(&pool, &method, &code));
    Ok(read_body(alloc, MethodId(7), &pool, &method, &code))
}

// The body of a method of these flags and this descriptor.
fn body(
    rt: &(impl Abort + AllocGlobal),
    flags: u16,
    descriptor: &[u8],
    source: &Source,
) -> Result<Body, Fail> {
    let body = read(rt, flags, descriptor, source)??;
    Ok(body)
}

// The definitions before a pc in a slot.
#[derive(Clone, Copy)]
struct Held {
    pc: u16,
    slot: u32,
    defs: &'static [Def],
}

macro_rules! held {
    ($pc:expr, $slot:expr, $defs:expr) => {
        Held { pc: $pc, slot: $slot, defs: &$defs }
    };
}

fn check_held(rt: &impl Abort, body: &Body, held: &[Held]) {
    for one in held {
        assert_eq!(rt;
            body.reach.at(one.pc, one.slot),
            one.defs,
            "pc {} slot {}",
            one.pc,
            one.slot
        );
    }
}

// 0 lconst_1, 1 dup2, 2 lstore_1, 3 lstore_3, 4 lload_1, 5 l2i, 6 istore 5, 8 return; the stack's slots are 6 and on.
static TWO_STORES: Source = Source {
    stack: 4,
    locals: 6,
    code: &[10, 92, 64, 66, 31, 136, 54, 5, 177],
    entries: &[],
};

static TWO_STORES_HELD: [Held; 18] = [
    held!(0, 0, [Def::Formal(0)]),
    held!(0, 1, []),
    held!(1, 6, [Def::Value(0)]),
    held!(1, 7, [Def::Value(0)]),
    held!(1, 8, []),
    // both copies are what lconst_1 made
    held!(2, 6, [Def::Value(0)]),
    held!(2, 8, [Def::Value(0)]),
    held!(2, 9, [Def::Value(0)]),
    held!(3, 1, [Def::Value(2)]),
    held!(3, 6, [Def::Value(0)]),
    held!(3, 8, []),
    held!(4, 2, [Def::Value(2)]),
    held!(4, 3, [Def::Value(3)]),
    held!(5, 7, [Def::Value(4)]),
    held!(6, 6, [Def::Value(5)]),
    held!(6, 7, []),
    held!(8, 5, [Def::Value(6)]),
    held!(8, 0, [Def::Formal(0)]),
];

#[test]
fn two_stores(rt: HostRuntime) -> Result<(), Fail> {
    let body = body(&rt, STATIC, b"([Ljava/lang/String;)V", &TWO_STORES)?;
    assert_eq!(rt; body.method, MethodId(7));
    assert_eq!(rt; body.instrs.items().len(), 8);
    assert_eq!(rt; body.shape.points.items().len(), 8);
    check_held(&rt, &body, &TWO_STORES_HELD);
    Ok(())
}

// 0 iconst_1, 1 istore_1, 2 iload_1, 3 ifeq 11, 6 iconst_2, 7 istore_1, 8 goto 11, 11 iload_1, 12 istore_2, 13 return; the stack's
// slot is 3.
static BRANCH: Source = Source {
    stack: 1,
    locals: 3,
    code: &[4, 60, 27, 153, 0, 8, 5, 60, 167, 0, 3, 27, 61, 177],
    entries: &[],
};

static BRANCH_HELD: [Held; 13] = [
    held!(1, 3, [Def::Value(0)]),
    held!(2, 1, [Def::Value(1)]),
    held!(3, 3, [Def::Value(2)]),
    held!(6, 3, []),
    held!(7, 3, [Def::Value(6)]),
    held!(7, 1, [Def::Value(1)]),
    held!(8, 1, [Def::Value(7)]),
    // what either way stored
    held!(11, 1, [Def::Value(1), Def::Value(7)]),
    held!(11, 2, []),
    held!(12, 3, [Def::Value(11)]),
    held!(13, 2, [Def::Value(12)]),
    held!(13, 1, [Def::Value(1), Def::Value(7)]),
    held!(13, 0, [Def::Formal(0)]),
];

#[test]
fn branch(rt: HostRuntime) -> Result<(), Fail> {
    let body = body(&rt, STATIC, b"([Ljava/lang/String;)V", &BRANCH)?;
    check_held(&rt, &body, &BRANCH_HELD);
    Ok(())
}

// A handler is given the locals as they were before each instruction that it covers, and the exception alone on the stack:
// 0 iconst_1, 1 istore_1, 2 iconst_2, 3 istore_1, 4 return, 5 astore_2, 6 iload_1, 7 istore_0, 8 return. Exceptions from 0 up to 4
// go to 5. The stack's slot is 3.
static HANDLER: Source = Source {
    stack: 1,
    locals: 3,
    code: &[4, 60, 5, 60, 177, 77, 27, 59, 177],
    entries: &[(0, 4, 5)],
};

static HANDLER_HELD: [Held; 11] = [
    held!(3, 1, [Def::Value(1)]),
    held!(4, 1, [Def::Value(3)]),
    held!(5, 0, [Def::Formal(0)]),
    held!(5, 1, [Def::Value(1)]),
    held!(5, 2, []),
    held!(5, 3, [Def::Caught(5)]),
    held!(6, 2, [Def::Value(5)]),
    held!(6, 3, []),
    held!(7, 3, [Def::Value(6)]),
    held!(8, 0, [Def::Value(7)]),
    held!(8, 1, [Def::Value(1)]),
];

#[test]
fn handler(rt: HostRuntime) -> Result<(), Fail> {
    let body = body(&rt, STATIC, b"(I)V", &HANDLER)?;
    check_held(&rt, &body, &HANDLER_HELD);
    Ok(())
}

// An instance method with a long between two ints: 0 lload_1, 1 iload_3, 2 lshl, 3 lstore_1, 4 return. `this` is argument 0, the
// long in locals 1 and 2 argument 1, the int in local 3 argument 2. The stack's slots are 4 to 6.
static WIDE_ARGUMENT: Source = Source {
    stack: 3,
    locals: 4,
    code: &[31, 29, 121, 64, 177],
    entries: &[],
};

static WIDE_ARGUMENT_HELD: [Held; 12] = [
    held!(0, 0, [Def::Formal(0)]),
    held!(0, 1, [Def::Formal(1)]),
    held!(0, 2, [Def::Formal(1)]),
    held!(0, 3, [Def::Formal(2)]),
    held!(2, 4, [Def::Value(0)]),
    held!(2, 5, [Def::Value(0)]),
    held!(2, 6, [Def::Value(1)]),
    held!(3, 5, [Def::Value(2)]),
    held!(3, 6, []),
    held!(4, 1, [Def::Value(3)]),
    held!(4, 2, [Def::Value(3)]),
    held!(4, 3, [Def::Formal(2)]),
];

#[test]
fn wide_argument(rt: HostRuntime) -> Result<(), Fail> {
    let body = body(&rt, 0, b"(JI)V", &WIDE_ARGUMENT)?;
    assert_eq!(rt; body.shape.arguments.items(), [1, 2, 1].as_slice());
    check_held(&rt, &body, &WIDE_ARGUMENT_HELD);
    Ok(())
}

// Slots that are moved: 0 iconst_1, 1 iconst_2, 2 iconst_3, 3 dup_x2, 4 swap, 5 pop2, 6 pop2, 7 return.
static MOVES: Source = Source {
    stack: 4,
    locals: 0,
    code: &[4, 5, 6, 91, 95, 88, 88, 177],
    entries: &[],
};

static MOVES_HELD: [Held; 9] = [
    // the top below the other two, too
    held!(4, 0, [Def::Value(2)]),
    held!(4, 1, [Def::Value(0)]),
    held!(4, 2, [Def::Value(1)]),
    held!(4, 3, [Def::Value(2)]),
    held!(5, 1, [Def::Value(0)]),
    held!(5, 2, [Def::Value(2)]),
    held!(5, 3, [Def::Value(1)]),
    held!(6, 1, [Def::Value(0)]),
    held!(6, 2, []),
];

#[test]
fn moves(rt: HostRuntime) -> Result<(), Fail> {
    let body = body(&rt, STATIC, b"()V", &MOVES)?;
    check_held(&rt, &body, &MOVES_HELD);
    Ok(())
}

// A loop, in which a definition comes round: 0 iconst_0, 1 istore_0, 2 iinc 0 1, 5 iload_0, 6 ifne 2, 9 return.
static LOOP: Source = Source {
    stack: 1,
    locals: 1,
    code: &[3, 59, 132, 0, 1, 26, 154, 255, 252, 177],
    entries: &[],
};

static LOOP_HELD: [Held; 4] = [
    held!(2, 0, [Def::Value(1), Def::Value(2)]),
    held!(5, 0, [Def::Value(2)]),
    held!(6, 1, [Def::Value(5)]),
    held!(9, 0, [Def::Value(2)]),
];

#[test]
fn comes_round(rt: HostRuntime) -> Result<(), Fail> {
    let body = body(&rt, STATIC, b"()V", &LOOP)?;
    check_held(&rt, &body, &LOOP_HELD);
    Ok(())
}

// The shape of a point.
fn check_point(
    rt: &impl Abort,
    point: &Point,
    pc: u16,
    depth: u16,
    next: &[u16],
    handlers: &[u16],
) {
    assert_eq!(rt; point.pc, pc);
    assert_eq!(rt; point.depth, depth, "pc {}", pc);
    assert_eq!(rt; point.next.items(), next, "pc {}", pc);
    assert_eq!(rt; point.handlers.items(), handlers, "pc {}", pc);
}

#[test]
fn flow_of_a_branch(rt: HostRuntime) -> Result<(), Fail> {
    let body = body(&rt, STATIC, b"([Ljava/lang/String;)V", &BRANCH)?;
    let points = body.shape.points.items();
    assert_eq!(rt; points.len(), 10);
    check_point(&rt, &points[3], 3, 1, &[6, 11], &[]);
    check_point(&rt, &points[6], 8, 0, &[11], &[]);
    check_point(&rt, &points[9], 13, 0, &[], &[]);
    Ok(())
}

#[test]
fn flow_of_a_handler(rt: HostRuntime) -> Result<(), Fail> {
    let body = body(&rt, STATIC, b"(I)V", &HANDLER)?;
    let points = body.shape.points.items();
    assert_eq!(rt; points.len(), 9);
    check_point(&rt, &points[3], 3, 1, &[4], &[5]);
    check_point(&rt, &points[4], 4, 0, &[], &[]);
    check_point(&rt, &points[5], 5, 1, &[6], &[]);
    Ok(())
}

// What l2i and istore 5 take and make.
#[test]
fn slots_of_points(rt: HostRuntime) -> Result<(), Fail> {
    let body = body(&rt, STATIC, b"([Ljava/lang/String;)V", &TWO_STORES)?;
    let points = body.shape.points.items();
    assert_eq!(rt; points.len(), 8);
    assert_eq!(rt;
        points[1].moves.items(),
        [(6, 6), (7, 7), (6, 8), (7, 9)].as_slice()
    );
    assert_eq!(rt; points[1].uses.items().len(), 0);
    assert_eq!(rt; points[5].uses.items().len(), 2);
    assert_eq!(rt; points[5].makes.items(), [6].as_slice());
    assert_eq!(rt; points[6].makes.items(), [5].as_slice());
    Ok(())
}

fn readable(
    rt: &(impl Abort + AllocGlobal),
    flags: u16,
    descriptor: &[u8],
    source: &Source,
) -> Result<bool, Fail> {
    let alloc = rt.alloc();
    Ok(is_readable(
        &pool(alloc, descriptor)?,
        &method(alloc, flags),
        &code(alloc, source)?,
    ))
}

#[test]
fn tells_what_is_readable(rt: HostRuntime) -> Result<(), Fail> {
    let few = Source {
        stack: 0,
        locals: 3,
        code: &[177],
        entries: &[],
    };
    let empty = Source {
        stack: 0,
        locals: 3,
        code: &[],
        entries: &[],
    };
    assert!(rt; readable(&rt, STATIC, b"(JI)V", &few)?);
    assert!(rt; !readable(&rt, 0, b"(JI)V", &few)?);
    assert!(rt; !readable(&rt, STATIC, b"(JI)", &few)?);
    assert!(rt; !readable(&rt, STATIC, b"()V", &empty)?);
    Ok(())
}
