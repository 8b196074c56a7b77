// The instructions of the MC68020. Those of one shape share a variant.
#![tactic(auto)]

/// The width an instruction works at, by its two bits.
#[derive(Clone, Copy)]
pub enum Size {
    Byte = 0,
    Word = 1,
    Long = 2,
}

/// Which way a transfer between registers and memory goes.
#[derive(Clone, Copy)]
pub enum TargetDirection {
    ToMemory,
    FromMemory,
}

/// One of the sixteen general registers.
#[derive(Clone, Copy)]
pub enum RegisterOperand {
    Address(u8),
    Data(u8),
}

/// An index register and the width it is read at.
#[derive(Clone, Copy)]
pub struct IndexRegister {
    pub register: RegisterOperand,
    pub size: Size,
}

/// How wide an absolute address is encoded.
#[derive(Clone, Copy)]
pub enum AddressWidth {
    Word,
    Long,
}

/// An addressing mode with its registers and its value. In Extended, base is an IndexBase (A0 to A7 as 0 to 7, the
/// program counter as 8) and word an ExtensionWord.
#[derive(Clone, Copy)]
pub enum Operand {
    Immediate(u32),
    Register(RegisterOperand),
    Indirect(u8),
    PostIndirect(u8),
    PreIndirect(u8),
    IndirectDisplacement {
        offset: i32,
        base: RegisterOperand,
    },
    IndirectIndex {
        base: RegisterOperand,
        offset: i32,
        index: IndexRegister,
    },
    PcDisplacement {
        target: u32,
    },
    PcIndex {
        target: u32,
        index: IndexRegister,
    },
    Extended {
        base: u8,
        word: u16,
        displacement: i32,
        outer: i32,
    },
    Absolute {
        address: u64,
        width: AddressWidth,
    },
}

/// How wide a displacement of the full extension word is, by the two bits that say it.
#[derive(Clone, Copy)]
pub enum DisplacementSize {
    Null = 1,
    Word = 2,
    Long = 3,
}

/// Whether and how an Extended operand reads its address from memory.
#[derive(Clone, Copy)]
pub enum Indirection {
    None,
    Preindexed,
    Postindexed,
}

/// How a branch encodes its displacement.
#[derive(Clone, Copy)]
pub enum BranchSize {
    Short,
    Word,
    Long,
}

/// The condition of a Bcc, DBcc, Scc or TRAPcc, by its four-bit code.
#[derive(Clone, Copy)]
pub enum Condition {
    True = 0,
    False = 1,
    High = 2,
    LowOrSame = 3,
    CarryClear = 4,
    CarrySet = 5,
    NotEqual = 6,
    Equal = 7,
    OverflowClear = 8,
    OverflowSet = 9,
    Plus = 10,
    Minus = 11,
    GreaterThanOrEqual = 12,
    LessThan = 13,
    GreaterThan = 14,
    LessThanOrEqual = 15,
}

/// Which way a shift or rotate moves its bits.
#[derive(Clone, Copy)]
pub enum ShiftDirection {
    Right,
    Left,
}

/// How a multiply or divide reads its operands.
#[derive(Clone, Copy)]
pub enum Sign {
    Signed,
    Unsigned,
}

/// The offset or the width of a bit field: a number, or a data register that holds it.
#[derive(Clone, Copy)]
pub enum FieldValue {
    Immediate(u8),
    Register(u8),
}

/// The offset and the width of a bit field.
#[derive(Clone, Copy)]
pub struct BitField {
    pub offset: FieldValue,
    pub width: FieldValue,
}

/// The eight bit-field instructions, by their three-bit code.
#[derive(Clone, Copy)]
pub enum BitFieldOperation {
    Test = 0,
    ExtractUnsigned = 1,
    Change = 2,
    ExtractSigned = 3,
    Clear = 4,
    FindFirstOne = 5,
    Set = 6,
    Insert = 7,
}

/// The operand of TRAPcc.
#[derive(Clone, Copy)]
pub enum TrapOperand {
    None,
    Word(u16),
    Long(u32),
}

// The operations of each shape, numbered by their places among the instructions of encoded.rs.
#[derive(Clone, Copy)]
pub enum RegisterOperation {
    ADDA = 0,
    SUBA = 1,
    CMPA = 2,
    MOVEA = 3,
    CMP = 34,
    CHK2 = 93,
    CMP2 = 94,
}

#[derive(Clone, Copy)]
pub enum TransferOperation {
    MOVEP = 63,
    MOVES = 86,
}

#[derive(Clone, Copy)]
pub enum PairOperation {
    MOVE = 5,
    ADD = 6,
    SUB = 7,
    ADDX = 8,
    SUBX = 9,
    CMPM = 19,
    OR = 42,
    AND = 43,
    EOR = 44,
}

#[derive(Clone, Copy)]
pub enum QuickOperation {
    ADDQ = 10,
    SUBQ = 12,
}

#[derive(Clone, Copy)]
pub enum ImmediateOperation {
    ADDI = 13,
    SUBI = 14,
    ANDI = 15,
    ORI = 16,
    EORI = 17,
    CMPI = 18,
}

#[derive(Clone, Copy)]
pub enum WordOperation {
    DIVx = 20,
    MULx = 21,
}

#[derive(Clone, Copy)]
pub enum UnsizedRegisterOperation {
    LEA = 25,
    CHK = 76,
    CHKL = 87,
}

#[derive(Clone, Copy)]
pub enum UnsizedOneOperation {
    PEA = 26,
    NBCD = 31,
    JSR = 45,
    JMP = 54,
    TAS = 74,
    MOVEtoCCR = 64,
    MOVEfromCCR = 65,
    MOVEtoSR = 66,
    MOVEfromSR = 67,
}

#[derive(Clone, Copy)]
pub enum UnsizedPairOperation {
    ABCD = 29,
    SBCD = 30,
    BTST = 50,
    BCLR = 51,
    BSET = 52,
    BCHG = 53,
}

#[derive(Clone, Copy)]
pub enum OneOperation {
    CLR = 23,
    NEG = 27,
    NEGX = 28,
    NOT = 41,
    TST = 33,
}

#[derive(Clone, Copy)]
pub enum ShiftOperation {
    ASd = 46,
    ROd = 47,
    LSd = 48,
    ROXd = 49,
}

#[derive(Clone, Copy)]
pub enum PackOperation {
    PACK = 91,
    UNPK = 92,
}

#[derive(Clone, Copy)]
pub enum BranchOperation {
    BRA = 38,
    BSR = 55,
}

#[derive(Clone, Copy)]
pub enum LinkOperation {
    LINK = 39,
    LINKL = 88,
}

#[derive(Clone, Copy)]
pub enum StatusOperation {
    ANDItoSR = 71,
    ORItoSR = 72,
    EORItoSR = 73,
    STOP = 58,
}

#[derive(Clone, Copy)]
pub enum ConditionCodeOperation {
    ANDItoCCR = 68,
    ORItoCCR = 69,
    EORItoCCR = 70,
}

#[derive(Clone, Copy)]
pub enum VectorOperation {
    TRAP = 56,
    BKPT = 84,
}

#[derive(Clone, Copy)]
pub enum RawOperation {
    LINEA = 61,
    LINEF = 62,
    IllegalWord = 79,
}

#[derive(Clone, Copy)]
pub enum NoOperandOperation {
    RTE = 57,
    RESET = 59,
    RTR = 75,
    TRAPV = 77,
    ILLEGAL = 78,
    RTS = 80,
    NOP = 81,
    SIMHALT = 82,
}

/// One instruction.
#[derive(Clone, Copy)]
pub enum Instruction {
    IntoRegister(RegisterOperation, Operand, RegisterOperand, Size),
    MOVEM {
        direction: TargetDirection,
        size: Size,
        registers_mask: u16,
        target: Operand,
    },
    Transfer {
        operation: TransferOperation,
        direction: TargetDirection,
        size: Size,
        register: RegisterOperand,
        target: Operand,
    },
    Pair(PairOperation, Operand, Operand, Size),
    Quick(QuickOperation, u8, Operand, Size),
    MOVEQ(u8, RegisterOperand),
    ImmediateInto(ImmediateOperation, u32, Operand, Size),
    WordIntoData(WordOperation, Operand, RegisterOperand, Sign),
    SWAP(RegisterOperand),
    EXG(RegisterOperand, RegisterOperand),
    UnsizedIntoRegister(UnsizedRegisterOperation, Operand, RegisterOperand),
    UnsizedOne(UnsizedOneOperation, Operand),
    UnsizedPair(UnsizedPairOperation, Operand, Operand),
    EXT(RegisterOperand, Size, Size),
    OneOperand(OneOperation, Operand, Size),
    Bcc(u32, Condition, BranchSize),
    Scc(Operand, Condition),
    DBcc(RegisterOperand, u32, Condition),
    Branch(BranchOperation, u32, BranchSize),
    Link(LinkOperation, RegisterOperand, u32),
    UNLK(RegisterOperand),
    Shift(ShiftOperation, Operand, Operand, ShiftDirection, Size),
    Vector(VectorOperation, u8),
    Status(StatusOperation, u16),
    ConditionCode(ConditionCodeOperation, u8),
    MOVEUSP {
        to_usp: bool,
        register: RegisterOperand,
    },
    Raw(RawOperation, u16),
    NoOperand(NoOperandOperation),
    RTD(u32),
    MOVEC {
        to_control: bool,
        control: u16,
        register: RegisterOperand,
    },
    TRAPcc(Condition, TrapOperand),
    MULL {
        source: Operand,
        low: u8,
        high: Option<u8>,
        sign: Sign,
    },
    Pack(PackOperation, Operand, Operand, u16),
    CAS {
        compare: u8,
        update: u8,
        target: Operand,
        size: Size,
    },
    CAS2 {
        compare1: u8,
        compare2: u8,
        update1: u8,
        update2: u8,
        pointer1: RegisterOperand,
        pointer2: RegisterOperand,
        size: Size,
    },
    BF {
        operation: BitFieldOperation,
        target: Operand,
        field: BitField,
        register: u8,
    },
    DIVL {
        source: Operand,
        quotient: u8,
        remainder: u8,
        wide: bool,
        sign: Sign,
    },
}

/// The fields that hold a number, in the order of their numbers 1 to 20.
#[derive(Clone, Copy)]
pub enum Field {
    ShortBranch,
    WordBranch,
    PcDisplacement,
    PcIndex,
    Displacement,
    IndexDisplacement,
    ShortAddress,
    LongAddress,
    Immediate(Size),
    Count,
    TrapVector,
    BitNumber,
    LinkDisplacement,
    Register,
    RtdDisplacement,
    BreakpointVector,
    BaseDisplacement,
    OuterDisplacement,
    NullDisplacement,
    BitField,
}

/// A lowest and a highest value.
#[derive(Clone, Copy)]
pub struct Range {
    pub low: i64,
    pub high: i64,
}

/// The words of an instruction, or the refusal: number, detail and value.
#[derive(Clone, Copy)]
pub struct Encoded {
    pub words: [u16; 11],
    pub count: usize,
    pub number: u8,
    pub detail: u8,
    pub value: i64,
}

/// The size of an instruction in bytes, or the refusal.
#[derive(Clone, Copy)]
pub struct Measured {
    pub size: u32,
    pub number: u8,
    pub detail: u8,
    pub value: i64,
}
