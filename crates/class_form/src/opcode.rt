// What each opcode takes and does.
ghost use Rattle.std.specs.Prelude.{◌≡◌, option_map};
ghost use Rattle.class_form.specs.Table.{opcode_of, moves_of};

/// Which constants an instruction may name.
#[derive(Clone, Copy)]
pub enum ConstantKind {
    /// One whose value takes one slot: Integer, Float, String, Class, MethodHandle or MethodType.
    OneSlot,
    /// One whose value takes two slots: Long or Double.
    TwoSlots,
    Field,
    Method,
    InterfaceMethod,
    Dynamic,
    Class,
}

/// What stands in the code after an opcode.
#[derive(Clone, Copy)]
pub enum Form {
    /// Nothing.
    Plain,
    /// Nothing; the opcode itself says which local it means.
    OwnLocal(u8),
    /// A number of one byte.
    Byte,
    /// A number of two bytes.
    Short,
    /// The number of a local in one byte.
    Local,
    /// The number of a local and what is added to it, one byte each.
    Increment,
    /// After `wide` and the opcode, the number of a local in two bytes.
    WideLocal,
    /// After `wide` and the opcode, the number of a local and what is added to it, two bytes each.
    WideIncrement,
    /// The index of a constant in one byte.
    ShortIndex(ConstantKind),
    /// The index of a constant in two bytes.
    Index(ConstantKind),
    /// The index of a constant in two bytes, and two further bytes.
    LongIndex(ConstantKind),
    /// The index of a Class in two bytes, and a number of dimensions in one.
    Dimensions,
    /// The number of a primitive type.
    ElementType,
    /// A distance of two bytes.
    Jump,
    /// A distance of four bytes.
    LongJump,
    /// Padding, a distance, the least key, the greatest key, and a distance for each key.
    TableSwitch,
    /// Padding, a distance, a count, and so many pairs of a key and a distance.
    LookupSwitch,
    /// The opcode that it widens.
    Wide,
    /// A jump to a subroutine.
    SubroutineCall,
    /// A return from a subroutine.
    SubroutineReturn,
    /// There is no such instruction.
    Undefined,
}

/// What an instruction takes off the stack, from the bottom to the top, or the local that it reads.
#[derive(Clone, Copy)]
pub enum Takes {
    /// Nothing, or what it moves.
    Nothing,
    /// A local of so many slots.
    Local(u8),
    /// A value of so many slots.
    Value(u8),
    /// Two values, each of so many slots.
    Two(u8, u8),
    /// An object that is reached through.
    Base,
    /// An array and an index that are reached through.
    Element,
    /// An array and an index that are reached through, and a value of so many slots.
    ElementAndValue(u8),
    /// A value of the field's type.
    FieldValue,
    /// An object that is reached through, and a value of the field's type.
    BaseAndFieldValue,
    /// Values of the types of the arguments.
    Arguments,
    /// An object, and values of the types of the arguments.
    ReceiverAndArguments,
    /// The length of each dimension that the instruction names.
    Lengths,
}

/// What an instruction leaves on the stack.
#[derive(Clone, Copy)]
pub enum Leaves {
    /// So many slots, perhaps none.
    Slots(u8),
    /// A value of the field's type.
    FieldValue,
    /// The result of the call.
    Result,
}

/// What an opcode takes and does (JVMS SE 7, 6.5).
#[derive(Clone, Copy)]
pub struct Opcode {
    pub form: Form,
    pub takes: Takes,
    pub leaves: Leaves,
    /// How many slots of a local it writes, from that local on.
    pub makes: u8,
    /// Whether control may go on to the next instruction.
    pub goes_on: bool,
}

/// How an instruction moves slots of the stack: it takes so many, numbered from the bottom, and leaves those with these
/// numbers, from the bottom too.
#[derive(Clone, Copy)]
pub struct StackMoves {
    pub takes: u8,
    pub leaves: &'static [u8],
}

const UNDEFINED: Opcode = Opcode {
    form: Form::Undefined,
    takes: Takes::Nothing,
    leaves: Leaves::Slots(0),
    makes: 0,
    goes_on: false,
};

// Takes operands, leaves a value or nothing, and control goes on.
macro_rules! plain {
    ($form:expr, $takes:expr, $leaves:expr) => {
        Opcode { form: $form, takes: $takes, leaves: $leaves, makes: 0, goes_on: true }
    };
}

// Writes a local of so many slots.
macro_rules! stores {
    ($form:expr, $takes:expr, $makes:expr) => {
        Opcode { form: $form, takes: $takes, leaves: Leaves::Slots(0), makes: $makes, goes_on: true }
    };
}

// Control doesn't go on to the next instruction.
macro_rules! ends {
    ($form:expr, $takes:expr) => {
        Opcode { form: $form, takes: $takes, leaves: Leaves::Slots(0), makes: 0, goes_on: false }
    };
}

// By opcode.
static OPCODES: [Opcode; 202] = [
    plain!(Form::Plain, Takes::Nothing, Leaves::Slots(0)), // 0 nop
    plain!(Form::Plain, Takes::Nothing, Leaves::Slots(1)), // 1 aconst_null
    plain!(Form::Plain, Takes::Nothing, Leaves::Slots(1)), // 2 iconst_m1
    plain!(Form::Plain, Takes::Nothing, Leaves::Slots(1)), // 3 iconst_0
    plain!(Form::Plain, Takes::Nothing, Leaves::Slots(1)), // 4 iconst_1
    plain!(Form::Plain, Takes::Nothing, Leaves::Slots(1)), // 5 iconst_2
    plain!(Form::Plain, Takes::Nothing, Leaves::Slots(1)), // 6 iconst_3
    plain!(Form::Plain, Takes::Nothing, Leaves::Slots(1)), // 7 iconst_4
    plain!(Form::Plain, Takes::Nothing, Leaves::Slots(1)), // 8 iconst_5
    plain!(Form::Plain, Takes::Nothing, Leaves::Slots(2)), // 9 lconst_0
    plain!(Form::Plain, Takes::Nothing, Leaves::Slots(2)), // 10 lconst_1
    plain!(Form::Plain, Takes::Nothing, Leaves::Slots(1)), // 11 fconst_0
    plain!(Form::Plain, Takes::Nothing, Leaves::Slots(1)), // 12 fconst_1
    plain!(Form::Plain, Takes::Nothing, Leaves::Slots(1)), // 13 fconst_2
    plain!(Form::Plain, Takes::Nothing, Leaves::Slots(2)), // 14 dconst_0
    plain!(Form::Plain, Takes::Nothing, Leaves::Slots(2)), // 15 dconst_1
    plain!(Form::Byte, Takes::Nothing, Leaves::Slots(1)), // 16 bipush
    plain!(Form::Short, Takes::Nothing, Leaves::Slots(1)), // 17 sipush
    plain!(
        Form::ShortIndex(ConstantKind::OneSlot),
        Takes::Nothing,
        Leaves::Slots(1)
    ), // 18 ldc
    plain!(
        Form::Index(ConstantKind::OneSlot),
        Takes::Nothing,
        Leaves::Slots(1)
    ), // 19 ldc_w
    plain!(
        Form::Index(ConstantKind::TwoSlots),
        Takes::Nothing,
        Leaves::Slots(2)
    ), // 20 ldc2_w
    plain!(Form::Local, Takes::Local(1), Leaves::Slots(1)), // 21 iload
    plain!(Form::Local, Takes::Local(2), Leaves::Slots(2)), // 22 lload
    plain!(Form::Local, Takes::Local(1), Leaves::Slots(1)), // 23 fload
    plain!(Form::Local, Takes::Local(2), Leaves::Slots(2)), // 24 dload
    plain!(Form::Local, Takes::Local(1), Leaves::Slots(1)), // 25 aload
    plain!(Form::OwnLocal(0), Takes::Local(1), Leaves::Slots(1)), // 26 iload_0
    plain!(Form::OwnLocal(1), Takes::Local(1), Leaves::Slots(1)), // 27 iload_1
    plain!(Form::OwnLocal(2), Takes::Local(1), Leaves::Slots(1)), // 28 iload_2
    plain!(Form::OwnLocal(3), Takes::Local(1), Leaves::Slots(1)), // 29 iload_3
    plain!(Form::OwnLocal(0), Takes::Local(2), Leaves::Slots(2)), // 30 lload_0
    plain!(Form::OwnLocal(1), Takes::Local(2), Leaves::Slots(2)), // 31 lload_1
    plain!(Form::OwnLocal(2), Takes::Local(2), Leaves::Slots(2)), // 32 lload_2
    plain!(Form::OwnLocal(3), Takes::Local(2), Leaves::Slots(2)), // 33 lload_3
    plain!(Form::OwnLocal(0), Takes::Local(1), Leaves::Slots(1)), // 34 fload_0
    plain!(Form::OwnLocal(1), Takes::Local(1), Leaves::Slots(1)), // 35 fload_1
    plain!(Form::OwnLocal(2), Takes::Local(1), Leaves::Slots(1)), // 36 fload_2
    plain!(Form::OwnLocal(3), Takes::Local(1), Leaves::Slots(1)), // 37 fload_3
    plain!(Form::OwnLocal(0), Takes::Local(2), Leaves::Slots(2)), // 38 dload_0
    plain!(Form::OwnLocal(1), Takes::Local(2), Leaves::Slots(2)), // 39 dload_1
    plain!(Form::OwnLocal(2), Takes::Local(2), Leaves::Slots(2)), // 40 dload_2
    plain!(Form::OwnLocal(3), Takes::Local(2), Leaves::Slots(2)), // 41 dload_3
    plain!(Form::OwnLocal(0), Takes::Local(1), Leaves::Slots(1)), // 42 aload_0
    plain!(Form::OwnLocal(1), Takes::Local(1), Leaves::Slots(1)), // 43 aload_1
    plain!(Form::OwnLocal(2), Takes::Local(1), Leaves::Slots(1)), // 44 aload_2
    plain!(Form::OwnLocal(3), Takes::Local(1), Leaves::Slots(1)), // 45 aload_3
    plain!(Form::Plain, Takes::Element, Leaves::Slots(1)), // 46 iaload
    plain!(Form::Plain, Takes::Element, Leaves::Slots(2)), // 47 laload
    plain!(Form::Plain, Takes::Element, Leaves::Slots(1)), // 48 faload
    plain!(Form::Plain, Takes::Element, Leaves::Slots(2)), // 49 daload
    plain!(Form::Plain, Takes::Element, Leaves::Slots(1)), // 50 aaload
    plain!(Form::Plain, Takes::Element, Leaves::Slots(1)), // 51 baload
    plain!(Form::Plain, Takes::Element, Leaves::Slots(1)), // 52 caload
    plain!(Form::Plain, Takes::Element, Leaves::Slots(1)), // 53 saload
    stores!(Form::Local, Takes::Value(1), 1), // 54 istore
    stores!(Form::Local, Takes::Value(2), 2), // 55 lstore
    stores!(Form::Local, Takes::Value(1), 1), // 56 fstore
    stores!(Form::Local, Takes::Value(2), 2), // 57 dstore
    stores!(Form::Local, Takes::Value(1), 1), // 58 astore
    stores!(Form::OwnLocal(0), Takes::Value(1), 1), // 59 istore_0
    stores!(Form::OwnLocal(1), Takes::Value(1), 1), // 60 istore_1
    stores!(Form::OwnLocal(2), Takes::Value(1), 1), // 61 istore_2
    stores!(Form::OwnLocal(3), Takes::Value(1), 1), // 62 istore_3
    stores!(Form::OwnLocal(0), Takes::Value(2), 2), // 63 lstore_0
    stores!(Form::OwnLocal(1), Takes::Value(2), 2), // 64 lstore_1
    stores!(Form::OwnLocal(2), Takes::Value(2), 2), // 65 lstore_2
    stores!(Form::OwnLocal(3), Takes::Value(2), 2), // 66 lstore_3
    stores!(Form::OwnLocal(0), Takes::Value(1), 1), // 67 fstore_0
    stores!(Form::OwnLocal(1), Takes::Value(1), 1), // 68 fstore_1
    stores!(Form::OwnLocal(2), Takes::Value(1), 1), // 69 fstore_2
    stores!(Form::OwnLocal(3), Takes::Value(1), 1), // 70 fstore_3
    stores!(Form::OwnLocal(0), Takes::Value(2), 2), // 71 dstore_0
    stores!(Form::OwnLocal(1), Takes::Value(2), 2), // 72 dstore_1
    stores!(Form::OwnLocal(2), Takes::Value(2), 2), // 73 dstore_2
    stores!(Form::OwnLocal(3), Takes::Value(2), 2), // 74 dstore_3
    stores!(Form::OwnLocal(0), Takes::Value(1), 1), // 75 astore_0
    stores!(Form::OwnLocal(1), Takes::Value(1), 1), // 76 astore_1
    stores!(Form::OwnLocal(2), Takes::Value(1), 1), // 77 astore_2
    stores!(Form::OwnLocal(3), Takes::Value(1), 1), // 78 astore_3
    plain!(Form::Plain, Takes::ElementAndValue(1), Leaves::Slots(0)), // 79 iastore
    plain!(Form::Plain, Takes::ElementAndValue(2), Leaves::Slots(0)), // 80 lastore
    plain!(Form::Plain, Takes::ElementAndValue(1), Leaves::Slots(0)), // 81 fastore
    plain!(Form::Plain, Takes::ElementAndValue(2), Leaves::Slots(0)), // 82 dastore
    plain!(Form::Plain, Takes::ElementAndValue(1), Leaves::Slots(0)), // 83 aastore
    plain!(Form::Plain, Takes::ElementAndValue(1), Leaves::Slots(0)), // 84 bastore
    plain!(Form::Plain, Takes::ElementAndValue(1), Leaves::Slots(0)), // 85 castore
    plain!(Form::Plain, Takes::ElementAndValue(1), Leaves::Slots(0)), // 86 sastore
    plain!(Form::Plain, Takes::Nothing, Leaves::Slots(0)), // 87 pop
    plain!(Form::Plain, Takes::Nothing, Leaves::Slots(0)), // 88 pop2
    plain!(Form::Plain, Takes::Nothing, Leaves::Slots(0)), // 89 dup
    plain!(Form::Plain, Takes::Nothing, Leaves::Slots(0)), // 90 dup_x1
    plain!(Form::Plain, Takes::Nothing, Leaves::Slots(0)), // 91 dup_x2
    plain!(Form::Plain, Takes::Nothing, Leaves::Slots(0)), // 92 dup2
    plain!(Form::Plain, Takes::Nothing, Leaves::Slots(0)), // 93 dup2_x1
    plain!(Form::Plain, Takes::Nothing, Leaves::Slots(0)), // 94 dup2_x2
    plain!(Form::Plain, Takes::Nothing, Leaves::Slots(0)), // 95 swap
    plain!(Form::Plain, Takes::Two(1, 1), Leaves::Slots(1)), // 96 iadd
    plain!(Form::Plain, Takes::Two(2, 2), Leaves::Slots(2)), // 97 ladd
    plain!(Form::Plain, Takes::Two(1, 1), Leaves::Slots(1)), // 98 fadd
    plain!(Form::Plain, Takes::Two(2, 2), Leaves::Slots(2)), // 99 dadd
    plain!(Form::Plain, Takes::Two(1, 1), Leaves::Slots(1)), // 100 isub
    plain!(Form::Plain, Takes::Two(2, 2), Leaves::Slots(2)), // 101 lsub
    plain!(Form::Plain, Takes::Two(1, 1), Leaves::Slots(1)), // 102 fsub
    plain!(Form::Plain, Takes::Two(2, 2), Leaves::Slots(2)), // 103 dsub
    plain!(Form::Plain, Takes::Two(1, 1), Leaves::Slots(1)), // 104 imul
    plain!(Form::Plain, Takes::Two(2, 2), Leaves::Slots(2)), // 105 lmul
    plain!(Form::Plain, Takes::Two(1, 1), Leaves::Slots(1)), // 106 fmul
    plain!(Form::Plain, Takes::Two(2, 2), Leaves::Slots(2)), // 107 dmul
    plain!(Form::Plain, Takes::Two(1, 1), Leaves::Slots(1)), // 108 idiv
    plain!(Form::Plain, Takes::Two(2, 2), Leaves::Slots(2)), // 109 ldiv
    plain!(Form::Plain, Takes::Two(1, 1), Leaves::Slots(1)), // 110 fdiv
    plain!(Form::Plain, Takes::Two(2, 2), Leaves::Slots(2)), // 111 ddiv
    plain!(Form::Plain, Takes::Two(1, 1), Leaves::Slots(1)), // 112 irem
    plain!(Form::Plain, Takes::Two(2, 2), Leaves::Slots(2)), // 113 lrem
    plain!(Form::Plain, Takes::Two(1, 1), Leaves::Slots(1)), // 114 frem
    plain!(Form::Plain, Takes::Two(2, 2), Leaves::Slots(2)), // 115 drem
    plain!(Form::Plain, Takes::Value(1), Leaves::Slots(1)), // 116 ineg
    plain!(Form::Plain, Takes::Value(2), Leaves::Slots(2)), // 117 lneg
    plain!(Form::Plain, Takes::Value(1), Leaves::Slots(1)), // 118 fneg
    plain!(Form::Plain, Takes::Value(2), Leaves::Slots(2)), // 119 dneg
    plain!(Form::Plain, Takes::Two(1, 1), Leaves::Slots(1)), // 120 ishl
    plain!(Form::Plain, Takes::Two(2, 1), Leaves::Slots(2)), // 121 lshl
    plain!(Form::Plain, Takes::Two(1, 1), Leaves::Slots(1)), // 122 ishr
    plain!(Form::Plain, Takes::Two(2, 1), Leaves::Slots(2)), // 123 lshr
    plain!(Form::Plain, Takes::Two(1, 1), Leaves::Slots(1)), // 124 iushr
    plain!(Form::Plain, Takes::Two(2, 1), Leaves::Slots(2)), // 125 lushr
    plain!(Form::Plain, Takes::Two(1, 1), Leaves::Slots(1)), // 126 iand
    plain!(Form::Plain, Takes::Two(2, 2), Leaves::Slots(2)), // 127 land
    plain!(Form::Plain, Takes::Two(1, 1), Leaves::Slots(1)), // 128 ior
    plain!(Form::Plain, Takes::Two(2, 2), Leaves::Slots(2)), // 129 lor
    plain!(Form::Plain, Takes::Two(1, 1), Leaves::Slots(1)), // 130 ixor
    plain!(Form::Plain, Takes::Two(2, 2), Leaves::Slots(2)), // 131 lxor
    stores!(Form::Increment, Takes::Local(1), 1), // 132 iinc
    plain!(Form::Plain, Takes::Value(1), Leaves::Slots(2)), // 133 i2l
    plain!(Form::Plain, Takes::Value(1), Leaves::Slots(1)), // 134 i2f
    plain!(Form::Plain, Takes::Value(1), Leaves::Slots(2)), // 135 i2d
    plain!(Form::Plain, Takes::Value(2), Leaves::Slots(1)), // 136 l2i
    plain!(Form::Plain, Takes::Value(2), Leaves::Slots(1)), // 137 l2f
    plain!(Form::Plain, Takes::Value(2), Leaves::Slots(2)), // 138 l2d
    plain!(Form::Plain, Takes::Value(1), Leaves::Slots(1)), // 139 f2i
    plain!(Form::Plain, Takes::Value(1), Leaves::Slots(2)), // 140 f2l
    plain!(Form::Plain, Takes::Value(1), Leaves::Slots(2)), // 141 f2d
    plain!(Form::Plain, Takes::Value(2), Leaves::Slots(1)), // 142 d2i
    plain!(Form::Plain, Takes::Value(2), Leaves::Slots(2)), // 143 d2l
    plain!(Form::Plain, Takes::Value(2), Leaves::Slots(1)), // 144 d2f
    plain!(Form::Plain, Takes::Value(1), Leaves::Slots(1)), // 145 i2b
    plain!(Form::Plain, Takes::Value(1), Leaves::Slots(1)), // 146 i2c
    plain!(Form::Plain, Takes::Value(1), Leaves::Slots(1)), // 147 i2s
    plain!(Form::Plain, Takes::Two(2, 2), Leaves::Slots(1)), // 148 lcmp
    plain!(Form::Plain, Takes::Two(1, 1), Leaves::Slots(1)), // 149 fcmpl
    plain!(Form::Plain, Takes::Two(1, 1), Leaves::Slots(1)), // 150 fcmpg
    plain!(Form::Plain, Takes::Two(2, 2), Leaves::Slots(1)), // 151 dcmpl
    plain!(Form::Plain, Takes::Two(2, 2), Leaves::Slots(1)), // 152 dcmpg
    plain!(Form::Jump, Takes::Value(1), Leaves::Slots(0)), // 153 ifeq
    plain!(Form::Jump, Takes::Value(1), Leaves::Slots(0)), // 154 ifne
    plain!(Form::Jump, Takes::Value(1), Leaves::Slots(0)), // 155 iflt
    plain!(Form::Jump, Takes::Value(1), Leaves::Slots(0)), // 156 ifge
    plain!(Form::Jump, Takes::Value(1), Leaves::Slots(0)), // 157 ifgt
    plain!(Form::Jump, Takes::Value(1), Leaves::Slots(0)), // 158 ifle
    plain!(Form::Jump, Takes::Two(1, 1), Leaves::Slots(0)), // 159 if_icmpeq
    plain!(Form::Jump, Takes::Two(1, 1), Leaves::Slots(0)), // 160 if_icmpne
    plain!(Form::Jump, Takes::Two(1, 1), Leaves::Slots(0)), // 161 if_icmplt
    plain!(Form::Jump, Takes::Two(1, 1), Leaves::Slots(0)), // 162 if_icmpge
    plain!(Form::Jump, Takes::Two(1, 1), Leaves::Slots(0)), // 163 if_icmpgt
    plain!(Form::Jump, Takes::Two(1, 1), Leaves::Slots(0)), // 164 if_icmple
    plain!(Form::Jump, Takes::Two(1, 1), Leaves::Slots(0)), // 165 if_acmpeq
    plain!(Form::Jump, Takes::Two(1, 1), Leaves::Slots(0)), // 166 if_acmpne
    ends!(Form::Jump, Takes::Nothing), // 167 goto
    ends!(Form::SubroutineCall, Takes::Nothing), // 168 jsr
    ends!(Form::SubroutineReturn, Takes::Nothing), // 169 ret
    ends!(Form::TableSwitch, Takes::Value(1)), // 170 tableswitch
    ends!(Form::LookupSwitch, Takes::Value(1)), // 171 lookupswitch
    ends!(Form::Plain, Takes::Value(1)), // 172 ireturn
    ends!(Form::Plain, Takes::Value(2)), // 173 lreturn
    ends!(Form::Plain, Takes::Value(1)), // 174 freturn
    ends!(Form::Plain, Takes::Value(2)), // 175 dreturn
    ends!(Form::Plain, Takes::Value(1)), // 176 areturn
    ends!(Form::Plain, Takes::Nothing), // 177 return
    plain!(
        Form::Index(ConstantKind::Field),
        Takes::Nothing,
        Leaves::FieldValue
    ), // 178 getstatic
    plain!(
        Form::Index(ConstantKind::Field),
        Takes::FieldValue,
        Leaves::Slots(0)
    ), // 179 putstatic
    plain!(
        Form::Index(ConstantKind::Field),
        Takes::Base,
        Leaves::FieldValue
    ), // 180 getfield
    plain!(
        Form::Index(ConstantKind::Field),
        Takes::BaseAndFieldValue,
        Leaves::Slots(0)
    ), // 181 putfield
    plain!(
        Form::Index(ConstantKind::Method),
        Takes::ReceiverAndArguments,
        Leaves::Result
    ), // 182 invokevirtual
    plain!(
        Form::Index(ConstantKind::Method),
        Takes::ReceiverAndArguments,
        Leaves::Result
    ), // 183 invokespecial
    plain!(
        Form::Index(ConstantKind::Method),
        Takes::Arguments,
        Leaves::Result
    ), // 184 invokestatic
    plain!(
        Form::LongIndex(ConstantKind::InterfaceMethod),
        Takes::ReceiverAndArguments,
        Leaves::Result
    ), // 185 invokeinterface
    plain!(
        Form::LongIndex(ConstantKind::Dynamic),
        Takes::Arguments,
        Leaves::Result
    ), // 186 invokedynamic
    plain!(
        Form::Index(ConstantKind::Class),
        Takes::Nothing,
        Leaves::Slots(1)
    ), // 187 new
    plain!(Form::ElementType, Takes::Value(1), Leaves::Slots(1)), // 188 newarray
    plain!(
        Form::Index(ConstantKind::Class),
        Takes::Value(1),
        Leaves::Slots(1)
    ), // 189 anewarray
    plain!(Form::Plain, Takes::Base, Leaves::Slots(1)), // 190 arraylength
    ends!(Form::Plain, Takes::Value(1)), // 191 athrow
    plain!(
        Form::Index(ConstantKind::Class),
        Takes::Value(1),
        Leaves::Slots(1)
    ), // 192 checkcast
    plain!(
        Form::Index(ConstantKind::Class),
        Takes::Value(1),
        Leaves::Slots(1)
    ), // 193 instanceof
    plain!(Form::Plain, Takes::Value(1), Leaves::Slots(0)), // 194 monitorenter
    plain!(Form::Plain, Takes::Value(1), Leaves::Slots(0)), // 195 monitorexit
    ends!(Form::Wide, Takes::Nothing), // 196 wide
    plain!(Form::Dimensions, Takes::Lengths, Leaves::Slots(1)), // 197 multianewarray
    plain!(Form::Jump, Takes::Value(1), Leaves::Slots(0)), // 198 ifnull
    plain!(Form::Jump, Takes::Value(1), Leaves::Slots(0)), // 199 ifnonnull
    ends!(Form::LongJump, Takes::Nothing), // 200 goto_w
    ends!(Form::SubroutineCall, Takes::Nothing), // 201 jsr_w
];

impl Opcode {
    /// What an opcode takes and does; of a number that is no opcode, that it is undefined.
    pub fn of(op: u8) -> Opcode
        ensures { result ≡ opcode_of op }
    {
        if op >= 202 {
            return UNDEFINED;
        }
        OPCODES[op as usize]
    }
}

/// The slots that an opcode moves; none where it is none of the moves from `pop` to `swap`.
pub fn stack_moves(op: u8) -> Option<StackMoves>
    ensures { option_map (λ m. record { takes = m.takes; leaves = m.leaves.now }) result ≡ moves_of op }
{
    match op {
        87 => Some(StackMoves {
            takes: 1,
            leaves: &[],
        }),
        88 => Some(StackMoves {
            takes: 2,
            leaves: &[],
        }),
        89 => Some(StackMoves {
            takes: 1,
            leaves: &[0, 0],
        }),
        90 => Some(StackMoves {
            takes: 2,
            leaves: &[1, 0, 1],
        }),
        91 => Some(StackMoves {
            takes: 3,
            leaves: &[2, 0, 1, 2],
        }),
        92 => Some(StackMoves {
            takes: 2,
            leaves: &[0, 1, 0, 1],
        }),
        93 => Some(StackMoves {
            takes: 3,
            leaves: &[1, 2, 0, 1, 2],
        }),
        94 => Some(StackMoves {
            takes: 4,
            leaves: &[2, 3, 0, 1, 2, 3],
        }),
        95 => Some(StackMoves {
            takes: 2,
            leaves: &[1, 0],
        }),
        _ => None,
    }
}
