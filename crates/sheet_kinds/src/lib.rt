// The kinds to come in a line as one number: five bits each, the next in the lowest; 0 where there are none.
// One number, not a list of kinds: a variant's fields put below the rest by one sum gained 5.6 of 39 million instructions on the whole sheet (docs/BENCHMARKS.md).
#![tactic(auto)]

ghost use Rattle.std.specs.Prelude.{◌≡◌, ◌%◌, ◌^◌, ◌<◌};
ghost use Rattle.sheet_spec.specs.Grammar.{kinds_of};
ghost use Rattle.sheet_kinds.specs.Packed.{packed, kind_at};
ghost use Rattle.sheet_kinds.specs.Next.{kinds_after, power_above};

use sheet_spec::Kind;

/// The next kind.
pub fn first(kinds: u64) -> Kind
    ensures { result ≡ kind_at (kinds % 32) }
{
    match kinds % 32 {
        0 => Kind::Number,
        1 => Kind::Number,
        2 => Kind::Target,
        3 => Kind::Place,
        4 => Kind::Size,
        5 => Kind::TargetDirection,
        6 => Kind::RegisterOperand,
        7 => Kind::AddressWidth,
        8 => Kind::Condition,
        9 => Kind::BranchSize,
        10 => Kind::ShiftDirection,
        11 => Kind::Sign,
        12 => Kind::BitFieldOperation,
        13 => Kind::FieldValue,
        14 => Kind::TrapOperand,
        15 => Kind::RegisterChoice,
        16 => Kind::Operand,
        17 => Kind::Instruction,
        _ => Kind::Number,
    }
}

// The codes of the kinds.
const NUMBER: u64 = 1;

const TARGET: u64 = 2;

const PLACE: u64 = 3;

const SIZE: u64 = 4;

const TARGET_DIRECTION: u64 = 5;

const REGISTER_OPERAND: u64 = 6;

const ADDRESS_WIDTH: u64 = 7;

const CONDITION: u64 = 8;

const BRANCH_SIZE: u64 = 9;

const SHIFT_DIRECTION: u64 = 10;

const SIGN: u64 = 11;

const BIT_FIELD_OPERATION: u64 = 12;

const FIELD_VALUE: u64 = 13;

const TRAP_OPERAND: u64 = 14;

const REGISTER_CHOICE: u64 = 15;

const OPERAND: u64 = 16;

/// A whole line.
pub const INSTRUCTION: u64 = 17;

// Fields in one number, named by their kinds in order or by the variant that has them.
const NUMBER_REGISTER_OPERAND: u64 = NUMBER + 32 * REGISTER_OPERAND;

const REGISTER_OPERAND_NUMBER_REGISTER_OPERAND_SIZE: u64 = REGISTER_OPERAND
    + 32 * (NUMBER + 32 * (REGISTER_OPERAND + 32 * SIZE));

const PLACE_REGISTER_OPERAND_SIZE: u64 = PLACE + 32 * (REGISTER_OPERAND + 32 * SIZE);

const EXTENDED_FIELDS: u64 = NUMBER + 32 * (NUMBER + 32 * (NUMBER + 32 * NUMBER));

const NUMBER_ADDRESS_WIDTH: u64 = NUMBER + 32 * ADDRESS_WIDTH;

const OPERAND_REGISTER_OPERAND_SIZE: u64 = OPERAND + 32 * (REGISTER_OPERAND + 32 * SIZE);

const TARGET_DIRECTION_SIZE_NUMBER_OPERAND: u64 = TARGET_DIRECTION
    + 32 * (SIZE + 32 * (NUMBER + 32 * OPERAND));

const OPERAND_OPERAND_SIZE: u64 = OPERAND + 32 * (OPERAND + 32 * SIZE);

const NUMBER_OPERAND_SIZE: u64 = NUMBER + 32 * (OPERAND + 32 * SIZE);

const OPERAND_REGISTER_OPERAND_SIGN: u64 = OPERAND + 32 * (REGISTER_OPERAND + 32 * SIGN);

const OPERAND_SIZE: u64 = OPERAND + 32 * SIZE;

const REGISTER_OPERAND_REGISTER_OPERAND: u64 = REGISTER_OPERAND + 32 * REGISTER_OPERAND;

const OPERAND_REGISTER_OPERAND: u64 = OPERAND + 32 * REGISTER_OPERAND;

const OPERAND_OPERAND: u64 = OPERAND + 32 * OPERAND;

const REGISTER_OPERAND_SIZE_SIZE: u64 = REGISTER_OPERAND + 32 * (SIZE + 32 * SIZE);

const TARGET_CONDITION_BRANCH_SIZE: u64 = TARGET + 32 * (CONDITION + 32 * BRANCH_SIZE);

const OPERAND_CONDITION: u64 = OPERAND + 32 * CONDITION;

const REGISTER_OPERAND_TARGET_CONDITION: u64 = REGISTER_OPERAND + 32 * (TARGET + 32 * CONDITION);

const TARGET_BRANCH_SIZE: u64 = TARGET + 32 * BRANCH_SIZE;

const REGISTER_OPERAND_NUMBER: u64 = REGISTER_OPERAND + 32 * NUMBER;

const OPERAND_OPERAND_SHIFT_DIRECTION_SIZE: u64 = OPERAND
    + 32 * (OPERAND + 32 * (SHIFT_DIRECTION + 32 * SIZE));

const TARGET_DIRECTION_SIZE_REGISTER_OPERAND_OPERAND: u64 = TARGET_DIRECTION
    + 32 * (SIZE + 32 * (REGISTER_OPERAND + 32 * OPERAND));

const NUMBER_NUMBER_REGISTER_OPERAND: u64 = NUMBER + 32 * (NUMBER + 32 * REGISTER_OPERAND);

const CONDITION_TRAP_OPERAND: u64 = CONDITION + 32 * TRAP_OPERAND;

const OPERAND_NUMBER_REGISTER_CHOICE_SIGN: u64 = OPERAND
    + 32 * (NUMBER + 32 * (REGISTER_CHOICE + 32 * SIGN));

const OPERAND_OPERAND_NUMBER: u64 = OPERAND + 32 * (OPERAND + 32 * NUMBER);

const NUMBER_NUMBER_OPERAND_SIZE: u64 = NUMBER + 32 * (NUMBER + 32 * (OPERAND + 32 * SIZE));

// The last fields of CAS2.
const POINTERS_AND_SIZE: u64 = REGISTER_OPERAND + 32 * (REGISTER_OPERAND + 32 * SIZE);

const CAS2_FIELDS: u64 = NUMBER
    + 32 * (NUMBER + 32 * (NUMBER + 32 * (NUMBER + 32 * POINTERS_AND_SIZE)));

const BF_FIELDS: u64 = BIT_FIELD_OPERATION
    + 32 * (OPERAND + 32 * (FIELD_VALUE + 32 * (FIELD_VALUE + 32 * NUMBER)));

const DIVL_FIELDS: u64 = OPERAND + 32 * (NUMBER + 32 * (NUMBER + 32 * (NUMBER + 32 * SIGN)));

// The fields of each variant, in one number.
fn trap_operand_fields(place: u64) -> u64
    ensures { result ≡ packed (kinds_of Kind.TrapOperand place) }
{
    match place {
        0 => 0, // None
        1 => NUMBER, // Word
        2 => NUMBER, // Long
        _ => 0,
    }
}

fn register_choice_fields(place: u64) -> u64
    ensures { result ≡ packed (kinds_of Kind.RegisterChoice place) }
{
    match place {
        0 => 0, // None
        1 => NUMBER, // Some
        _ => 0,
    }
}

fn operand_fields(place: u64) -> u64
    ensures { result ≡ packed (kinds_of Kind.Operand place) }
{
    match place {
        0 => NUMBER, // Immediate
        1 => REGISTER_OPERAND, // Register
        2 => NUMBER, // Indirect
        3 => NUMBER, // PostIndirect
        4 => NUMBER, // PreIndirect
        5 => NUMBER_REGISTER_OPERAND, // IndirectDisplacement
        6 => REGISTER_OPERAND_NUMBER_REGISTER_OPERAND_SIZE, // IndirectIndex
        7 => PLACE, // PcDisplacement
        8 => PLACE_REGISTER_OPERAND_SIZE, // PcIndex
        9 => EXTENDED_FIELDS, // Extended
        10 => NUMBER_ADDRESS_WIDTH, // Absolute
        _ => 0,
    }
}

fn instruction_fields(place: u64) -> u64
    ensures { result ≡ packed (kinds_of Kind.Instruction place) }
{
    match place {
        0 => OPERAND_REGISTER_OPERAND_SIZE, // ADDA
        1 => OPERAND_REGISTER_OPERAND_SIZE, // SUBA
        2 => OPERAND_REGISTER_OPERAND_SIZE, // CMPA
        3 => OPERAND_REGISTER_OPERAND_SIZE, // MOVEA
        4 => TARGET_DIRECTION_SIZE_NUMBER_OPERAND, // MOVEM
        5 => OPERAND_OPERAND_SIZE, // MOVE
        6 => OPERAND_OPERAND_SIZE, // ADD
        7 => OPERAND_OPERAND_SIZE, // SUB
        8 => OPERAND_OPERAND_SIZE, // ADDX
        9 => OPERAND_OPERAND_SIZE, // SUBX
        10 => NUMBER_OPERAND_SIZE, // ADDQ
        11 => NUMBER_REGISTER_OPERAND, // MOVEQ
        12 => NUMBER_OPERAND_SIZE, // SUBQ
        13 => NUMBER_OPERAND_SIZE, // ADDI
        14 => NUMBER_OPERAND_SIZE, // SUBI
        15 => NUMBER_OPERAND_SIZE, // ANDI
        16 => NUMBER_OPERAND_SIZE, // ORI
        17 => NUMBER_OPERAND_SIZE, // EORI
        18 => NUMBER_OPERAND_SIZE, // CMPI
        19 => OPERAND_OPERAND_SIZE, // CMPM
        20 => OPERAND_REGISTER_OPERAND_SIGN, // DIVx
        21 => OPERAND_REGISTER_OPERAND_SIGN, // MULx
        22 => REGISTER_OPERAND, // SWAP
        23 => OPERAND_SIZE, // CLR
        24 => REGISTER_OPERAND_REGISTER_OPERAND, // EXG
        25 => OPERAND_REGISTER_OPERAND, // LEA
        26 => OPERAND, // PEA
        27 => OPERAND_SIZE, // NEG
        28 => OPERAND_SIZE, // NEGX
        29 => OPERAND_OPERAND, // ABCD
        30 => OPERAND_OPERAND, // SBCD
        31 => OPERAND, // NBCD
        32 => REGISTER_OPERAND_SIZE_SIZE, // EXT
        33 => OPERAND_SIZE, // TST
        34 => OPERAND_REGISTER_OPERAND_SIZE, // CMP
        35 => TARGET_CONDITION_BRANCH_SIZE, // Bcc
        36 => OPERAND_CONDITION, // Scc
        37 => REGISTER_OPERAND_TARGET_CONDITION, // DBcc
        38 => TARGET_BRANCH_SIZE, // BRA
        39 => REGISTER_OPERAND_NUMBER, // LINK
        40 => REGISTER_OPERAND, // UNLK
        41 => OPERAND_SIZE, // NOT
        42 => OPERAND_OPERAND_SIZE, // OR
        43 => OPERAND_OPERAND_SIZE, // AND
        44 => OPERAND_OPERAND_SIZE, // EOR
        45 => OPERAND, // JSR
        46 => OPERAND_OPERAND_SHIFT_DIRECTION_SIZE, // ASd
        47 => OPERAND_OPERAND_SHIFT_DIRECTION_SIZE, // ROd
        48 => OPERAND_OPERAND_SHIFT_DIRECTION_SIZE, // LSd
        49 => OPERAND_OPERAND_SHIFT_DIRECTION_SIZE, // ROXd
        50 => OPERAND_OPERAND, // BTST
        51 => OPERAND_OPERAND, // BCLR
        52 => OPERAND_OPERAND, // BSET
        53 => OPERAND_OPERAND, // BCHG
        54 => OPERAND, // JMP
        55 => TARGET_BRANCH_SIZE, // BSR
        56 => NUMBER, // TRAP
        57 => 0, // RTE
        58 => NUMBER, // STOP
        59 => 0, // RESET
        60 => NUMBER_REGISTER_OPERAND, // MOVEUSP
        61 => NUMBER, // LINEA
        62 => NUMBER, // LINEF
        63 => TARGET_DIRECTION_SIZE_REGISTER_OPERAND_OPERAND, // MOVEP
        64 => OPERAND, // MOVEtoCCR
        65 => OPERAND, // MOVEfromCCR
        66 => OPERAND, // MOVEtoSR
        67 => OPERAND, // MOVEfromSR
        68 => NUMBER, // ANDItoCCR
        69 => NUMBER, // ORItoCCR
        70 => NUMBER, // EORItoCCR
        71 => NUMBER, // ANDItoSR
        72 => NUMBER, // ORItoSR
        73 => NUMBER, // EORItoSR
        74 => OPERAND, // TAS
        75 => 0, // RTR
        76 => OPERAND_REGISTER_OPERAND, // CHK
        77 => 0, // TRAPV
        78 => 0, // ILLEGAL
        79 => 0, // IllegalWord
        80 => 0, // RTS
        81 => 0, // NOP
        82 => 0, // SIMHALT
        83 => NUMBER, // RTD
        84 => NUMBER, // BKPT
        85 => NUMBER_NUMBER_REGISTER_OPERAND, // MOVEC
        86 => TARGET_DIRECTION_SIZE_REGISTER_OPERAND_OPERAND, // MOVES
        87 => OPERAND_REGISTER_OPERAND, // CHKL
        88 => REGISTER_OPERAND_NUMBER, // LINKL
        89 => CONDITION_TRAP_OPERAND, // TRAPcc
        90 => OPERAND_NUMBER_REGISTER_CHOICE_SIGN, // MULL
        91 => OPERAND_OPERAND_NUMBER, // PACK
        92 => OPERAND_OPERAND_NUMBER, // UNPK
        93 => OPERAND_REGISTER_OPERAND_SIZE, // CHK2
        94 => OPERAND_REGISTER_OPERAND_SIZE, // CMP2
        95 => NUMBER_NUMBER_OPERAND_SIZE, // CAS
        96 => CAS2_FIELDS, // CAS2
        97 => BF_FIELDS, // BF
        98 => DIVL_FIELDS, // DIVL
        _ => 0,
    }
}

// The fields of a kind's variant, in one number.
fn fields_of(kind: Kind, place: u64) -> u64
    ensures { result ≡ packed (kinds_of kind place) }
{
    match kind {
        Kind::RegisterOperand => NUMBER,
        Kind::FieldValue => NUMBER,
        Kind::TrapOperand => trap_operand_fields(place),
        Kind::RegisterChoice => register_choice_fields(place),
        Kind::Operand => operand_fields(place),
        Kind::Instruction => instruction_fields(place),
        _ => 0,
    }
}

// The power of 32 above fields; a recursion and other orders of the tests were slower.
fn shift(fields: u64) -> u64
    requires { fields < 32 ^ 7 }
    ensures { result ≡ power_above 7 fields }
{
    if fields < 32 {
        if fields == 0 {
            return 1;
        }
        return 32;
    }
    if fields < 1_024 {
        return 1_024;
    }
    if fields < 32_768 {
        return 32_768;
    }
    if fields < 1_048_576 {
        return 1_048_576;
    }
    if fields < 33_554_432 {
        return 33_554_432;
    }
    if fields < 1_073_741_824 {
        return 1_073_741_824;
    }
    34_359_738_368
}

/// The next kind taken off, and its fields put in its place.
pub fn next(kinds: u64, place: u64) -> u64
    requires { kinds_after kinds place < 2 ^ 64 }
    ensures { result ≡ kinds_after kinds place }
{
    let fields = fields_of(first(kinds), place);
    fields + shift(fields) * (kinds / 32)
}
