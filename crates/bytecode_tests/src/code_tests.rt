// Instructions as the standard gives them (JVMS SE 7, chapter 6), and codes that are refused.
ghost use Rattle.std.specs.Prelude.{◌<◌, length};

use bytecode::decode;
use class_form::body::{Instr, Operand};
use class_form::code_error::CodeError;
use class_form::pool::{Constant, Pool};
use slicer_ids::list::List;
use slicer_ids::name::Name;
use std::alloc::Global;
use std::process::Abort;
use std::test::Fail;

// An opcode, the bytes after it, its operands and the slots that it leaves. Of the operands, `1` and `2` are values of so
// many slots, and `b` is one that is reached through.
#[derive(Clone, Copy)]
struct Row {
    op: u8,
    rest: &'static [u8],
    takes: &'static [u8],
    leaves: u8,
}

macro_rules! row {
    ($op:expr, $rest:expr, $takes:expr, $leaves:expr) => {
        Row { op: $op, rest: &$rest, takes: $takes, leaves: $leaves }
    };
}

static ROWS: [Row; 198] = [
    row!(0, [], b"", 0), // nop
    row!(1, [], b"", 1), // aconst_null
    row!(2, [], b"", 1), // iconst_m1
    row!(3, [], b"", 1), // iconst_0
    row!(4, [], b"", 1), // iconst_1
    row!(5, [], b"", 1), // iconst_2
    row!(6, [], b"", 1), // iconst_3
    row!(7, [], b"", 1), // iconst_4
    row!(8, [], b"", 1), // iconst_5
    row!(9, [], b"", 2), // lconst_0
    row!(10, [], b"", 2), // lconst_1
    row!(11, [], b"", 1), // fconst_0
    row!(12, [], b"", 1), // fconst_1
    row!(13, [], b"", 1), // fconst_2
    row!(14, [], b"", 2), // dconst_0
    row!(15, [], b"", 2), // dconst_1
    row!(16, [0x80], b"", 1), // bipush
    row!(17, [0x80, 0x00], b"", 1), // sipush
    row!(18, [0x0d], b"", 1), // ldc
    row!(19, [0x00, 0x0d], b"", 1), // ldc_w
    row!(20, [0x00, 0x0e], b"", 2), // ldc2_w
    row!(21, [0x07], b"1", 1), // iload
    row!(22, [0x07], b"2", 2), // lload
    row!(23, [0x07], b"1", 1), // fload
    row!(24, [0x07], b"2", 2), // dload
    row!(25, [0x07], b"1", 1), // aload
    row!(26, [], b"1", 1), // iload_0
    row!(27, [], b"1", 1), // iload_1
    row!(28, [], b"1", 1), // iload_2
    row!(29, [], b"1", 1), // iload_3
    row!(30, [], b"2", 2), // lload_0
    row!(31, [], b"2", 2), // lload_1
    row!(32, [], b"2", 2), // lload_2
    row!(33, [], b"2", 2), // lload_3
    row!(34, [], b"1", 1), // fload_0
    row!(35, [], b"1", 1), // fload_1
    row!(36, [], b"1", 1), // fload_2
    row!(37, [], b"1", 1), // fload_3
    row!(38, [], b"2", 2), // dload_0
    row!(39, [], b"2", 2), // dload_1
    row!(40, [], b"2", 2), // dload_2
    row!(41, [], b"2", 2), // dload_3
    row!(42, [], b"1", 1), // aload_0
    row!(43, [], b"1", 1), // aload_1
    row!(44, [], b"1", 1), // aload_2
    row!(45, [], b"1", 1), // aload_3
    row!(46, [], b"bb", 1), // iaload
    row!(47, [], b"bb", 2), // laload
    row!(48, [], b"bb", 1), // faload
    row!(49, [], b"bb", 2), // daload
    row!(50, [], b"bb", 1), // aaload
    row!(51, [], b"bb", 1), // baload
    row!(52, [], b"bb", 1), // caload
    row!(53, [], b"bb", 1), // saload
    row!(54, [0x07], b"1", 0), // istore
    row!(55, [0x07], b"2", 0), // lstore
    row!(56, [0x07], b"1", 0), // fstore
    row!(57, [0x07], b"2", 0), // dstore
    row!(58, [0x07], b"1", 0), // astore
    row!(59, [], b"1", 0), // istore_0
    row!(60, [], b"1", 0), // istore_1
    row!(61, [], b"1", 0), // istore_2
    row!(62, [], b"1", 0), // istore_3
    row!(63, [], b"2", 0), // lstore_0
    row!(64, [], b"2", 0), // lstore_1
    row!(65, [], b"2", 0), // lstore_2
    row!(66, [], b"2", 0), // lstore_3
    row!(67, [], b"1", 0), // fstore_0
    row!(68, [], b"1", 0), // fstore_1
    row!(69, [], b"1", 0), // fstore_2
    row!(70, [], b"1", 0), // fstore_3
    row!(71, [], b"2", 0), // dstore_0
    row!(72, [], b"2", 0), // dstore_1
    row!(73, [], b"2", 0), // dstore_2
    row!(74, [], b"2", 0), // dstore_3
    row!(75, [], b"1", 0), // astore_0
    row!(76, [], b"1", 0), // astore_1
    row!(77, [], b"1", 0), // astore_2
    row!(78, [], b"1", 0), // astore_3
    row!(79, [], b"bb1", 0), // iastore
    row!(80, [], b"bb2", 0), // lastore
    row!(81, [], b"bb1", 0), // fastore
    row!(82, [], b"bb2", 0), // dastore
    row!(83, [], b"bb1", 0), // aastore
    row!(84, [], b"bb1", 0), // bastore
    row!(85, [], b"bb1", 0), // castore
    row!(86, [], b"bb1", 0), // sastore
    row!(87, [], b"", 0), // pop
    row!(88, [], b"", 0), // pop2
    row!(89, [], b"", 0), // dup
    row!(90, [], b"", 0), // dup_x1
    row!(91, [], b"", 0), // dup_x2
    row!(92, [], b"", 0), // dup2
    row!(93, [], b"", 0), // dup2_x1
    row!(94, [], b"", 0), // dup2_x2
    row!(95, [], b"", 0), // swap
    row!(96, [], b"11", 1), // iadd
    row!(97, [], b"22", 2), // ladd
    row!(98, [], b"11", 1), // fadd
    row!(99, [], b"22", 2), // dadd
    row!(100, [], b"11", 1), // isub
    row!(101, [], b"22", 2), // lsub
    row!(102, [], b"11", 1), // fsub
    row!(103, [], b"22", 2), // dsub
    row!(104, [], b"11", 1), // imul
    row!(105, [], b"22", 2), // lmul
    row!(106, [], b"11", 1), // fmul
    row!(107, [], b"22", 2), // dmul
    row!(108, [], b"11", 1), // idiv
    row!(109, [], b"22", 2), // ldiv
    row!(110, [], b"11", 1), // fdiv
    row!(111, [], b"22", 2), // ddiv
    row!(112, [], b"11", 1), // irem
    row!(113, [], b"22", 2), // lrem
    row!(114, [], b"11", 1), // frem
    row!(115, [], b"22", 2), // drem
    row!(116, [], b"1", 1), // ineg
    row!(117, [], b"2", 2), // lneg
    row!(118, [], b"1", 1), // fneg
    row!(119, [], b"2", 2), // dneg
    row!(120, [], b"11", 1), // ishl
    row!(121, [], b"21", 2), // lshl
    row!(122, [], b"11", 1), // ishr
    row!(123, [], b"21", 2), // lshr
    row!(124, [], b"11", 1), // iushr
    row!(125, [], b"21", 2), // lushr
    row!(126, [], b"11", 1), // iand
    row!(127, [], b"22", 2), // land
    row!(128, [], b"11", 1), // ior
    row!(129, [], b"22", 2), // lor
    row!(130, [], b"11", 1), // ixor
    row!(131, [], b"22", 2), // lxor
    row!(132, [0x07, 0xff], b"1", 0), // iinc
    row!(133, [], b"1", 2), // i2l
    row!(134, [], b"1", 1), // i2f
    row!(135, [], b"1", 2), // i2d
    row!(136, [], b"2", 1), // l2i
    row!(137, [], b"2", 1), // l2f
    row!(138, [], b"2", 2), // l2d
    row!(139, [], b"1", 1), // f2i
    row!(140, [], b"1", 2), // f2l
    row!(141, [], b"1", 2), // f2d
    row!(142, [], b"2", 1), // d2i
    row!(143, [], b"2", 2), // d2l
    row!(144, [], b"2", 1), // d2f
    row!(145, [], b"1", 1), // i2b
    row!(146, [], b"1", 1), // i2c
    row!(147, [], b"1", 1), // i2s
    row!(148, [], b"22", 1), // lcmp
    row!(149, [], b"11", 1), // fcmpl
    row!(150, [], b"11", 1), // fcmpg
    row!(151, [], b"22", 1), // dcmpl
    row!(152, [], b"22", 1), // dcmpg
    row!(153, [0x00, 0x00], b"1", 0), // ifeq
    row!(154, [0x00, 0x00], b"1", 0), // ifne
    row!(155, [0x00, 0x00], b"1", 0), // iflt
    row!(156, [0x00, 0x00], b"1", 0), // ifge
    row!(157, [0x00, 0x00], b"1", 0), // ifgt
    row!(158, [0x00, 0x00], b"1", 0), // ifle
    row!(159, [0x00, 0x00], b"11", 0), // if_icmpeq
    row!(160, [0x00, 0x00], b"11", 0), // if_icmpne
    row!(161, [0x00, 0x00], b"11", 0), // if_icmplt
    row!(162, [0x00, 0x00], b"11", 0), // if_icmpge
    row!(163, [0x00, 0x00], b"11", 0), // if_icmpgt
    row!(164, [0x00, 0x00], b"11", 0), // if_icmple
    row!(165, [0x00, 0x00], b"11", 0), // if_acmpeq
    row!(166, [0x00, 0x00], b"11", 0), // if_acmpne
    row!(167, [0x00, 0x00], b"", 0), // goto
    row!(
        170,
        [
            0x01, 0x02, 0x03, 0x00, 0x00, 0x00, 0x00, 0x7f, 0xff, 0xff, 0xff, 0x7f, 0xff, 0xff,
            0xff, 0x00, 0x00, 0x00, 0x00
        ],
        b"1",
        0
    ), // tableswitch
    row!(
        171,
        [
            0xff, 0xff, 0xff, 0x00, 0x00, 0x00, 0x00, 0x00, 0x00, 0x00, 0x01, 0x80, 0x00, 0x00,
            0x00, 0x00, 0x00, 0x00, 0x00
        ],
        b"1",
        0
    ), // lookupswitch
    row!(172, [], b"1", 0), // ireturn
    row!(173, [], b"2", 0), // lreturn
    row!(174, [], b"1", 0), // freturn
    row!(175, [], b"2", 0), // dreturn
    row!(176, [], b"1", 0), // areturn
    row!(177, [], b"", 0), // return
    row!(178, [0x00, 0x06], b"", 2), // getstatic
    row!(179, [0x00, 0x06], b"2", 0), // putstatic
    row!(180, [0x00, 0x06], b"b", 2), // getfield
    row!(181, [0x00, 0x06], b"b2", 0), // putfield
    row!(182, [0x00, 0x0a], b"1121", 2), // invokevirtual
    row!(183, [0x00, 0x0a], b"1121", 2), // invokespecial
    row!(184, [0x00, 0x0a], b"121", 2), // invokestatic
    row!(185, [0x00, 0x0b, 0x05, 0x00], b"1121", 2), // invokeinterface
    row!(186, [0x00, 0x0c, 0x00, 0x00], b"121", 2), // invokedynamic
    row!(187, [0x00, 0x02], b"", 1), // new
    row!(188, [0x0a], b"1", 1), // newarray
    row!(189, [0x00, 0x02], b"1", 1), // anewarray
    row!(190, [], b"b", 1), // arraylength
    row!(191, [], b"1", 0), // athrow
    row!(192, [0x00, 0x02], b"1", 1), // checkcast
    row!(193, [0x00, 0x02], b"1", 1), // instanceof
    row!(194, [], b"1", 0), // monitorenter
    row!(195, [], b"1", 0), // monitorexit
    row!(197, [0x00, 0x11, 0x02], b"11", 1), // multianewarray
    row!(198, [0x00, 0x00], b"1", 0), // ifnull
    row!(199, [0x00, 0x00], b"1", 0), // ifnonnull
    row!(200, [0x00, 0x00, 0x00, 0x00], b"", 0), // goto_w
];

static WIDE_ROWS: [Row; 11] = [
    row!(21, [0x01, 0x02], b"1", 1), // iload
    row!(22, [0x01, 0x02], b"2", 2), // lload
    row!(23, [0x01, 0x02], b"1", 1), // fload
    row!(24, [0x01, 0x02], b"2", 2), // dload
    row!(25, [0x01, 0x02], b"1", 1), // aload
    row!(54, [0x01, 0x02], b"1", 0), // istore
    row!(55, [0x01, 0x02], b"2", 0), // lstore
    row!(56, [0x01, 0x02], b"1", 0), // fstore
    row!(57, [0x01, 0x02], b"2", 0), // dstore
    row!(58, [0x01, 0x02], b"1", 0), // astore
    row!(132, [0x01, 0x02, 0x80, 0x00], b"1", 0), // iinc
];

fn text(alloc: Global, bytes: &[u8]) -> Result<Constant, Fail> {
    Ok(Constant::Utf8(Name::from_bytes(alloc, bytes)?))
}

// 1 Utf8 C, 2 Class C, 3 Utf8 f, 4 Utf8 J, 5 f:J, 6 Field C.f:J, 7 Utf8 m, 8 Utf8 (ILC;)D .. as the comments say.
fn pool(alloc: Global, major: u16) -> Result<Pool, Fail> {
    let mut constants = Vec::new(alloc);
    constants.push(text(alloc, b"C")?)?; // 1
    constants.push(Constant::Class(1))?; // 2
    constants.push(text(alloc, b"f")?)?; // 3
    constants.push(text(alloc, b"J")?)?; // 4
    constants.push(Constant::NameAndType(3, 4))?; // 5
    constants.push(Constant::Field(2, 5))?; // 6
    constants.push(text(alloc, b"m")?)?; // 7
    constants.push(text(alloc, b"(IJLC;)D")?)?; // 8
    constants.push(Constant::NameAndType(7, 8))?; // 9
    constants.push(Constant::Method(2, 9))?; // 10
    constants.push(Constant::InterfaceMethod(2, 9))?; // 11
    constants.push(Constant::Dynamic(0, 9))?; // 12
    constants.push(Constant::Integer(0))?; // 13
    constants.push(Constant::Double(0))?; // 14
    constants.push(Constant::Second)?; // 15
    constants.push(text(alloc, b"[[I")?)?; // 16
    constants.push(Constant::Class(16))?; // 17
    more(alloc, constants, major)
}

fn more(alloc: Global, constants: Vec<Constant>, major: u16) -> Result<Pool, Fail> {
    let mut constants = constants;
    constants.push(text(alloc, b"()V")?)?; // 18
    constants.push(text(alloc, b"<clinit>")?)?; // 19
    constants.push(Constant::NameAndType(19, 18))?; // 20
    constants.push(Constant::Method(2, 20))?; // 21
    constants.push(text(alloc, b"<init>")?)?; // 22
    constants.push(Constant::NameAndType(22, 18))?; // 23
    constants.push(Constant::Method(2, 23))?; // 24
    constants.push(Constant::Dynamic(0, 23))?; // 25
    Ok(Pool {
        constants: List::from_vec(constants),
        major,
    })
}

fn letters(alloc: Global, operands: &[Operand]) -> Result<Vec<u8>, Fail> {
    let mut letters = Vec::new(alloc);
    for operand in operands {
        letters.push(match (operand.base, operand.slots) {
            (true, 1) => b'b',
            (false, 1) => b'1',
            (false, 2) => b'2',
            _ => b'?',
        })?;
    }
    Ok(letters)
}

// Decodes the instruction of a row, alone before a `return`, and compares it with the row.
fn check_row(
    rt: &(impl Abort + AllocGlobal),
    pool: &Pool,
    row: &Row,
    wide: bool,
) -> Result<(), Fail> {
    let alloc = rt.alloc();
    let mut code = Vec::new(alloc);
    if wide {
        code.push(196)?;
    }
    code.push(row.op)?;
    code.extend_from_slice(row.rest)?;
    let size = code.len();
    code.push(177)?;
    assert!(rt; code.len() < 100);
    let instrs = decode(alloc, code.as_slice(), pool)?;
    let instrs = instrs.items();
    assert_eq!(rt; instrs.len(), 2, "opcode {}", row.op);
    let instr = &instrs[0];
    assert_eq!(rt; instr.pc, 0);
    assert_eq!(rt; instr.op, row.op);
    assert_eq!(rt; instr.wide, wide);
    assert_eq!(rt; instr.size as usize, size, "opcode {}", row.op);
    let takes = letters(alloc, instr.takes.items())?;
    assert_eq!(rt; takes.as_slice(), row.takes, "opcode {}", row.op);
    assert_eq!(rt; instr.leaves, row.leaves, "opcode {}", row.op);
    assert_eq!(rt; instrs[1].pc as usize, size);
    Ok(())
}

#[test]
fn opcodes(rt: HostRuntime) -> Result<(), Fail> {
    let pool = pool(rt.alloc(), 51)?;
    for row in &ROWS {
        check_row(&rt, &pool, row, false)?;
    }
    for row in &WIDE_ROWS {
        check_row(&rt, &pool, row, true)?;
    }
    Ok(())
}

// The one instruction before a `return`.
fn first(rt: &(impl Abort + AllocGlobal), pool: &Pool, code: &[u8]) -> Result<Instr, Fail>
    requires { length code.now < 65536 }
{
    let mut instrs = decode(rt.alloc(), code, pool)?.into_vec().into_iter();
    let found = instrs.next();
    Ok(found.ok_or("no instruction")?)
}

#[test]
fn locals_and_indices(rt: HostRuntime) -> Result<(), Fail> {
    let pool = pool(rt.alloc(), 51)?;
    assert_eq!(rt; first(&rt, &pool, &[29, 177])?.index, 3); // iload_3
    assert_eq!(rt; first(&rt, &pool, &[66, 177])?.index, 3); // lstore_3
    assert_eq!(rt; first(&rt, &pool, &[21, 200, 177])?.index, 200); // iload 200
    assert_eq!(rt; first(&rt, &pool, &[132, 9, 1, 177])?.index, 9); // iinc 9
    assert_eq!(rt; first(&rt, &pool, &[196, 132, 1, 2, 0, 0, 177])?.index, 258); // wide iinc 258
    assert_eq!(rt; first(&rt, &pool, &[18, 13, 177])?.index, 13); // ldc
    assert_eq!(rt; first(&rt, &pool, &[182, 0, 10, 177])?.index, 10); // invokevirtual
    assert_eq!(rt; first(&rt, &pool, &[197, 0, 17, 2, 177])?.dims, 2); // multianewarray
    assert_eq!(rt; first(&rt, &pool, &[189, 0, 17, 177])?.dims, 0); // anewarray
    Ok(())
}

#[test]
fn jumps(rt: HostRuntime) -> Result<(), Fail> {
    let pool = pool(rt.alloc(), 51)?;
    // 0 nop, 1 goto -1, 4 return
    let instrs = decode(rt.alloc(), &[0, 167, 255, 255, 177], &pool)?;
    assert_eq!(rt; instrs.items().len(), 3);
    assert_eq!(rt; instrs.items()[1].targets.items(), [0].as_slice());
    // 0 tableswitch with padding of any value, default 28, keys -1 to 1: 0, 29, 28; 28 nop, 29 return
    let table = [
        170, 1, 2, 3, 0, 0, 0, 28, 255, 255, 255, 255, 0, 0, 0, 1, 0, 0, 0, 0, 0, 0, 0, 29, 0, 0,
        0, 28, 0, 177,
    ];
    let instr = first(&rt, &pool, &table)?;
    assert_eq!(rt; instr.size, 28);
    assert_eq!(rt; instr.targets.items(), [28, 0, 29, 28].as_slice());
    // 0 nop, 1 nop, 2 nop, 3 lookupswitch without padding, default to 28, keys -1 and 5 to 0 and 29; 28 nop, 29 return
    let lookup = [
        0, 0, 0, 171, 0, 0, 0, 25, 0, 0, 0, 2, 255, 255, 255, 255, 255, 255, 255, 253, 0, 0, 0, 5,
        0, 0, 0, 26, 0, 177,
    ];
    let instrs = decode(rt.alloc(), &lookup, &pool)?;
    assert_eq!(rt; instrs.items().len(), 6);
    assert_eq!(rt; instrs.items()[3].size, 25);
    assert_eq!(rt; instrs.items()[3].targets.items(), [28, 0, 29].as_slice());
    Ok(())
}

// A code, and why it is refused.
#[derive(Clone, Copy)]
struct Refused {
    code: &'static [u8],
    error: CodeError,
}

macro_rules! broken {
    ($rule:expr, $pc:expr, $code:expr) => {
        Refused { code: &$code, error: CodeError::Broken { rule: $rule, pc: $pc } }
    };
}

macro_rules! jsr {
    ($pc:expr, $code:expr) => {
        Refused { code: &$code, error: CodeError::Jsr($pc) }
    };
}

static REFUSED: [Refused; 51] = [
    // no such opcode, and `wide` before one that it doesn't widen
    broken!(1, 0, [202]),
    broken!(1, 1, [0, 255, 177]),
    broken!(1, 0, [196, 0, 177]),
    broken!(1, 0, [196, 196, 21, 0, 1, 177]),
    broken!(1, 0, [196, 168, 0, 3, 177]),
    broken!(1, 0, [196, 26, 177]),
    // subroutines, whole or not
    jsr!(0, [168, 0, 3, 177]),
    jsr!(1, [0, 169, 1, 177]),
    jsr!(0, [201, 0, 0, 0, 5, 177]),
    jsr!(0, [196, 169, 0, 1, 177]),
    jsr!(1, [0, 169]),
    jsr!(0, [196, 169]),
    // past the end
    broken!(2, 0, [16]),
    broken!(2, 1, [177, 17, 0]),
    broken!(2, 0, [196]),
    broken!(2, 0, [196, 21, 0]),
    broken!(2, 0, [196, 132, 0, 1, 0]),
    broken!(2, 0, [185, 0, 11, 5]),
    broken!(2, 0, [178, 0]),
    broken!(2, 0, [170, 0, 0, 0, 0, 0, 0, 0, 0, 0, 0, 0, 0, 0, 0]),
    broken!(2, 0, [171, 0, 0, 0, 0, 0, 0, 0, 255, 255, 255]),
    // counts of switches: low above high, negative; 2^32 and 2^31 keys, and one pair that isn't there
    broken!(4, 0, [170, 0, 0, 0, 0, 0, 0, 0, 0, 0, 0, 1, 0, 0, 0, 0]),
    broken!(
        4,
        0,
        [170, 0, 0, 0, 0, 0, 0, 0, 0, 0, 0, 0, 255, 255, 255, 255]
    ),
    broken!(4, 0, [171, 0, 0, 0, 0, 0, 0, 0, 255, 255, 255, 255]),
    broken!(
        2,
        0,
        [170, 0, 0, 0, 0, 0, 0, 0, 128, 0, 0, 0, 127, 255, 255, 255]
    ),
    broken!(
        2,
        0,
        [170, 0, 0, 0, 0, 0, 0, 0, 0, 0, 0, 0, 127, 255, 255, 255]
    ),
    broken!(2, 0, [171, 0, 0, 0, 0, 0, 0, 0, 0, 0, 0, 1, 0, 0, 0, 0]),
    // keys that don't ascend
    broken!(
        4,
        0,
        [
            171, 0, 0, 0, 0, 0, 0, 0, 0, 0, 0, 2, 0, 0, 0, 1, 0, 0, 0, 0, 0, 0, 0, 1, 0, 0, 0, 0
        ]
    ),
    broken!(
        4,
        0,
        [
            171, 0, 0, 0, 0, 0, 0, 0, 0, 0, 0, 2, 0, 0, 0, 0, 0, 0, 0, 0, 255, 255, 255, 255, 0, 0,
            0, 0
        ]
    ),
    // constants of another kind
    broken!(3, 0, [178, 0, 10, 177]),
    broken!(3, 0, [184, 0, 11, 177]),
    broken!(3, 0, [185, 0, 10, 1, 0, 177]),
    broken!(3, 0, [186, 0, 10, 0, 0, 177]),
    broken!(3, 0, [187, 0, 6, 177]),
    broken!(3, 0, [18, 14, 177]),
    broken!(3, 0, [20, 0, 13, 177]),
    broken!(3, 0, [20, 0, 15, 177]),
    broken!(3, 0, [19, 0, 0, 177]),
    broken!(3, 0, [19, 1, 0, 177]),
    // a new array, a class initializer, and a constructor by another than invokespecial
    broken!(3, 0, [187, 0, 17, 177]),
    broken!(3, 0, [184, 0, 21, 177]),
    broken!(3, 0, [182, 0, 24, 177]),
    broken!(3, 0, [186, 0, 25, 0, 0, 177]),
    // the type of newarray, the dimensions of multianewarray
    broken!(4, 0, [188, 3, 177]),
    broken!(4, 0, [188, 12, 177]),
    broken!(4, 0, [197, 0, 17, 0, 177]),
    broken!(4, 0, [197, 0, 17, 3, 177]),
    // the kind of the constant before the dimensions
    broken!(3, 0, [197, 0, 6, 0, 177]),
    // into an instruction, to the end, to the opcode after `wide`
    broken!(5, 0, [167, 0, 1, 177]),
    broken!(5, 1, [0, 167, 0, 3]),
    broken!(5, 4, [196, 21, 0, 1, 167, 255, 253, 177]),
];

static LATER: [Refused; 5] = [
    // before the start and past the end
    broken!(5, 0, [167, 255, 255, 177]),
    broken!(5, 0, [200, 127, 255, 255, 255, 177]),
    // the first of two jumps to nowhere, but all other rules first
    broken!(5, 0, [167, 0, 1, 167, 0, 1, 177]),
    broken!(1, 3, [167, 0, 1, 202]),
    jsr!(3, [167, 0, 1, 168, 0, 3, 177]),
];

fn check_refused(
    rt: &(impl Abort + AllocGlobal),
    pool: &Pool,
    refused: &Refused,
) -> Result<(), Fail> {
    assert!(rt; refused.code.len() < 100);
    match decode(rt.alloc(), refused.code, pool) {
        Ok(_) => assert!(rt; false, "accepted {:?}", refused.code),
        Err(error) => assert_eq!(rt; error, refused.error, "{:?}", refused.code),
    }
    Ok(())
}

#[test]
fn refusals(rt: HostRuntime) -> Result<(), Fail> {
    let pool = pool(rt.alloc(), 51)?;
    for refused in &REFUSED {
        check_refused(&rt, &pool, refused)?;
    }
    for refused in &LATER {
        check_refused(&rt, &pool, refused)?;
    }
    Ok(())
}

#[test]
fn invokedynamic_is_younger(rt: HostRuntime) -> Result<(), Fail> {
    let old = pool(rt.alloc(), 50)?;
    let refused = broken!(1, 1, [0, 186, 0, 12]);
    check_refused(&rt, &old, &refused)
}
