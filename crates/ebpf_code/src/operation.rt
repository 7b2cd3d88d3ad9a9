//! The table of the instruction set (RFC 9669, 3 and 4): what an opcode says, and which fields an
//! operation uses.

ghost use Rattle.std.specs.Prelude.{◌≡◌, ◌<◌, ◌≤◌};
ghost use Rattle.ebpf_code.specs.Instruction.{operation_of, calculation_of, branch_of, arithmetic_of, condition_of, jump_of, load_of, source_of, without_source, swap_of, uses, is_wide, is_exit, is_load, is_swap, is_move, is_register, is_immediate, is_indirect, falls_through, slots_of};
ghost use Rattle.ebpf_code.specs.Spelling.{opcode, source_bit, arithmetic_code, condition_code};

/// Whether an operation is on the 64 bits of its operands or on their low 32 bits.
#[derive(Clone, Copy, Debug, PartialEq, Eq)]
pub enum Width {
    /// The classes ALU64 and JMP.
    Bits64,
    /// The classes ALU and JMP32.
    Bits32,
}

/// Where the second operand comes from.
#[derive(Clone, Copy, Debug, PartialEq, Eq)]
pub enum Source {
    /// K, the field imm.
    Immediate,
    /// X, the register of the field src.
    Register,
}

/// An arithmetic operation of two operands (RFC 9669, 4.1), in the order of the codes.
#[derive(Clone, Copy, Debug, PartialEq, Eq)]
pub enum Arithmetic {
    Add,
    Subtract,
    Multiply,
    Divide,
    Or,
    And,
    ShiftLeft,
    ShiftRight,
    Modulo,
    Xor,
    Move,
    ShiftRightSigned,
}

/// A condition of a jump (RFC 9669, 4.3), in the order of the codes.
#[derive(Clone, Copy, Debug, PartialEq, Eq)]
pub enum Condition {
    Equal,
    Above,
    AboveOrEqual,
    CommonBits,
    NotEqual,
    SignedAbove,
    SignedAboveOrEqual,
    Below,
    BelowOrEqual,
    SignedBelow,
    SignedBelowOrEqual,
}

/// The order of the bytes of a byte swap (RFC 9669, 4.2).
#[derive(Clone, Copy, Debug, PartialEq, Eq)]
pub enum ByteOrder {
    Little,
    Big,
}

/// Where a load from the frame begins (RFC 9669, 5.5).
#[derive(Clone, Copy, Debug, PartialEq, Eq)]
pub enum LoadMode {
    /// ABS: at the field imm.
    Absolute,
    /// IND: at the field imm plus a register.
    Indirect,
}

/// How many bytes a load takes: 4, 2 or 1.
#[derive(Clone, Copy, Debug, PartialEq, Eq)]
pub enum LoadSize {
    Word,
    Half,
    Byte,
}

/// What an instruction does, as its opcode says.
#[derive(Clone, Copy, Debug, PartialEq, Eq)]
pub enum Operation {
    Calculate(Width, Arithmetic, Source),
    Negate(Width),
    SwapBytes(ByteOrder),
    /// The wide instruction: a number of 64 bits from two slots.
    LoadImmediate,
    LoadFrame(LoadMode, LoadSize),
    Jump,
    Branch(Width, Condition, Source),
    Exit,
}

/// Which fields an operation uses.
#[derive(Clone, Copy, Debug, PartialEq, Eq)]
pub struct Uses {
    /// It reads the register of the field dst.
    pub reads_destination: bool,
    /// It writes the register of the field dst.
    pub writes_destination: bool,
    /// It reads the register of the field src.
    pub source: bool,
    /// The field offset says where to go on.
    pub offset: bool,
    /// It has a number in the field imm.
    pub immediate: bool,
}

impl Operation {
    /// The operation of an opcode, or none where the opcode isn't in the table.
    #[tactic(auto, unfolding(crate::specs::Instruction::operation_of))]
    pub fn of(opcode: u8) -> Option<Operation>
        ensures { result ≡ operation_of opcode }
    {
        let source = Source::of(opcode);
        let code = opcode / 16;
        match opcode % 8 {
            0 => load(opcode),
            4 => calculation(Width::Bits32, source, code),
            5 => jump(source, code),
            6 => branch(Width::Bits32, source, code),
            7 => calculation(Width::Bits64, source, code),
            _ => None,
        }
    }

    /// The opcode.
    pub fn opcode(self) -> u8
        ensures { result ≡ opcode self }
    {
        match self {
            Operation::Calculate(Width::Bits64, a, s) => 7 + s.bit() + 16 * a.code(),
            Operation::Calculate(Width::Bits32, a, s) => 4 + s.bit() + 16 * a.code(),
            Operation::Negate(Width::Bits64) => 0x87,
            Operation::Negate(Width::Bits32) => 0x84,
            Operation::SwapBytes(ByteOrder::Little) => 0xd4,
            Operation::SwapBytes(ByteOrder::Big) => 0xdc,
            Operation::LoadImmediate => 0x18,
            Operation::LoadFrame(LoadMode::Absolute, LoadSize::Word) => 0x20,
            Operation::LoadFrame(LoadMode::Absolute, LoadSize::Half) => 0x28,
            Operation::LoadFrame(LoadMode::Absolute, LoadSize::Byte) => 0x30,
            Operation::LoadFrame(LoadMode::Indirect, LoadSize::Word) => 0x40,
            Operation::LoadFrame(LoadMode::Indirect, LoadSize::Half) => 0x48,
            Operation::LoadFrame(LoadMode::Indirect, LoadSize::Byte) => 0x50,
            Operation::Jump => 0x05,
            Operation::Branch(Width::Bits64, c, s) => 5 + s.bit() + 16 * c.code(),
            Operation::Branch(Width::Bits32, c, s) => 6 + s.bit() + 16 * c.code(),
            Operation::Exit => 0x95,
        }
    }
}

impl Operation {
    /// Which fields it uses.
    pub fn uses(self) -> Uses
        ensures { result ≡ uses self }
    {
        match self {
            Operation::Calculate(_, arithmetic, source) => Uses {
                reads_destination: !arithmetic.is_move(),
                writes_destination: true,
                source: source.is_register(),
                offset: false,
                immediate: source.is_immediate(),
            },
            Operation::Negate(_) => Uses {
                reads_destination: true,
                writes_destination: true,
                source: false,
                offset: false,
                immediate: false,
            },
            Operation::SwapBytes(_) => Uses {
                reads_destination: true,
                writes_destination: true,
                source: false,
                offset: false,
                immediate: true,
            },
            Operation::LoadImmediate => Uses {
                reads_destination: false,
                writes_destination: true,
                source: false,
                offset: false,
                immediate: true,
            },
            Operation::LoadFrame(mode, _) => Uses {
                reads_destination: false,
                writes_destination: false,
                source: mode.is_indirect(),
                offset: false,
                immediate: true,
            },
            Operation::Jump => Uses {
                reads_destination: false,
                writes_destination: false,
                source: false,
                offset: true,
                immediate: false,
            },
            Operation::Branch(_, _, source) => Uses {
                reads_destination: true,
                writes_destination: false,
                source: source.is_register(),
                offset: true,
                immediate: source.is_immediate(),
            },
            Operation::Exit => Uses {
                reads_destination: false,
                writes_destination: false,
                source: false,
                offset: false,
                immediate: false,
            },
        }
    }

    /// Whether it is the wide instruction.
    pub fn is_wide(self) -> bool
        ensures { result ≡ is_wide self }
    {
        matches!(self, Operation::LoadImmediate)
    }

    /// Whether it ends the program.
    pub fn is_exit(self) -> bool
        ensures { result ≡ is_exit self }
    {
        matches!(self, Operation::Exit)
    }

    /// Whether it loads from the frame.
    pub fn is_load(self) -> bool
        ensures { result ≡ is_load self }
    {
        matches!(self, Operation::LoadFrame(_, _))
    }

    /// Whether it swaps bytes.
    pub fn is_swap(self) -> bool
        ensures { result ≡ is_swap self }
    {
        matches!(self, Operation::SwapBytes(_))
    }

    /// Whether it may go on at the next instruction.
    pub fn falls_through(self) -> bool
        ensures { result ≡ falls_through self }
    {
        !matches!(self, Operation::Jump | Operation::Exit)
    }

    /// How many slots it takes: 1 or 2.
    pub fn slots(self) -> usize
        ensures value { result ≡ slots_of self }
        ensures within { result ≤ 2 }
    {
        if self.is_wide() { 2 } else { 1 }
    }
}

impl Source {
    fn of(opcode: u8) -> Source
        ensures { result ≡ source_of opcode }
    {
        if opcode / 8 % 2 == 0 {
            Source::Immediate
        } else {
            Source::Register
        }
    }

    fn bit(self) -> u8
        ensures value { result ≡ source_bit self }
        ensures within { result ≤ 8 }
    {
        match self {
            Source::Immediate => 0,
            Source::Register => 8,
        }
    }

    fn is_register(self) -> bool
        ensures { result ≡ is_register self }
    {
        matches!(self, Source::Register)
    }

    fn is_immediate(self) -> bool
        ensures { result ≡ is_immediate self }
    {
        matches!(self, Source::Immediate)
    }
}

impl LoadMode {
    fn is_indirect(self) -> bool
        ensures { result ≡ is_indirect self }
    {
        matches!(self, LoadMode::Indirect)
    }
}

impl Arithmetic {
    fn of(code: u8) -> Option<Arithmetic>
        ensures { result ≡ arithmetic_of code }
    {
        match code {
            0x0 => Some(Arithmetic::Add),
            0x1 => Some(Arithmetic::Subtract),
            0x2 => Some(Arithmetic::Multiply),
            0x3 => Some(Arithmetic::Divide),
            0x4 => Some(Arithmetic::Or),
            0x5 => Some(Arithmetic::And),
            0x6 => Some(Arithmetic::ShiftLeft),
            0x7 => Some(Arithmetic::ShiftRight),
            0x9 => Some(Arithmetic::Modulo),
            0xa => Some(Arithmetic::Xor),
            0xb => Some(Arithmetic::Move),
            0xc => Some(Arithmetic::ShiftRightSigned),
            _ => None,
        }
    }

    fn code(self) -> u8
        ensures value { result ≡ arithmetic_code self }
        ensures within { result < 14 }
    {
        match self {
            Arithmetic::Add => 0x0,
            Arithmetic::Subtract => 0x1,
            Arithmetic::Multiply => 0x2,
            Arithmetic::Divide => 0x3,
            Arithmetic::Or => 0x4,
            Arithmetic::And => 0x5,
            Arithmetic::ShiftLeft => 0x6,
            Arithmetic::ShiftRight => 0x7,
            Arithmetic::Modulo => 0x9,
            Arithmetic::Xor => 0xa,
            Arithmetic::Move => 0xb,
            Arithmetic::ShiftRightSigned => 0xc,
        }
    }

    fn is_move(self) -> bool
        ensures { result ≡ is_move self }
    {
        matches!(self, Arithmetic::Move)
    }
}

impl Condition {
    fn of(code: u8) -> Option<Condition>
        ensures { result ≡ condition_of code }
    {
        match code {
            0x1 => Some(Condition::Equal),
            0x2 => Some(Condition::Above),
            0x3 => Some(Condition::AboveOrEqual),
            0x4 => Some(Condition::CommonBits),
            0x5 => Some(Condition::NotEqual),
            0x6 => Some(Condition::SignedAbove),
            0x7 => Some(Condition::SignedAboveOrEqual),
            0xa => Some(Condition::Below),
            0xb => Some(Condition::BelowOrEqual),
            0xc => Some(Condition::SignedBelow),
            0xd => Some(Condition::SignedBelowOrEqual),
            _ => None,
        }
    }

    fn code(self) -> u8
        ensures value { result ≡ condition_code self }
        ensures within { result < 14 }
    {
        match self {
            Condition::Equal => 0x1,
            Condition::Above => 0x2,
            Condition::AboveOrEqual => 0x3,
            Condition::CommonBits => 0x4,
            Condition::NotEqual => 0x5,
            Condition::SignedAbove => 0x6,
            Condition::SignedAboveOrEqual => 0x7,
            Condition::Below => 0xa,
            Condition::BelowOrEqual => 0xb,
            Condition::SignedBelow => 0xc,
            Condition::SignedBelowOrEqual => 0xd,
        }
    }
}

fn load(opcode: u8) -> Option<Operation>
    ensures { result ≡ load_of opcode }
{
    match opcode {
        0x18 => Some(Operation::LoadImmediate),
        0x20 => Some(Operation::LoadFrame(LoadMode::Absolute, LoadSize::Word)),
        0x28 => Some(Operation::LoadFrame(LoadMode::Absolute, LoadSize::Half)),
        0x30 => Some(Operation::LoadFrame(LoadMode::Absolute, LoadSize::Byte)),
        0x40 => Some(Operation::LoadFrame(LoadMode::Indirect, LoadSize::Word)),
        0x48 => Some(Operation::LoadFrame(LoadMode::Indirect, LoadSize::Half)),
        0x50 => Some(Operation::LoadFrame(LoadMode::Indirect, LoadSize::Byte)),
        _ => None,
    }
}

fn without_source(operation: Operation, source: Source) -> Option<Operation>
    ensures { result ≡ without_source operation source }
{
    match source {
        Source::Immediate => Some(operation),
        Source::Register => None,
    }
}

fn swap(width: Width, source: Source) -> Option<Operation>
    ensures { result ≡ swap_of width source }
{
    match (width, source) {
        (Width::Bits32, Source::Immediate) => Some(Operation::SwapBytes(ByteOrder::Little)),
        (Width::Bits32, Source::Register) => Some(Operation::SwapBytes(ByteOrder::Big)),
        (Width::Bits64, _) => None,
    }
}

fn calculation(width: Width, source: Source, code: u8) -> Option<Operation>
    ensures { result ≡ calculation_of width source code }
{
    match code {
        0x8 => without_source(Operation::Negate(width), source),
        0xd => swap(width, source),
        _ => match Arithmetic::of(code) {
            Some(arithmetic) => Some(Operation::Calculate(width, arithmetic, source)),
            None => None,
        },
    }
}

fn branch(width: Width, source: Source, code: u8) -> Option<Operation>
    ensures { result ≡ branch_of width source code }
{
    match Condition::of(code) {
        Some(condition) => Some(Operation::Branch(width, condition, source)),
        None => None,
    }
}

fn jump(source: Source, code: u8) -> Option<Operation>
    ensures { result ≡ jump_of source code }
{
    match code {
        0x0 => without_source(Operation::Jump, source),
        0x9 => without_source(Operation::Exit, source),
        _ => branch(Width::Bits64, source, code),
    }
}
