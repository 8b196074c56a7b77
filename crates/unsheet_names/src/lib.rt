// A variant's name, written into a lent buffer: a table of names for each kind, each name in its variant's place.
#![tactic(auto)]

ghost use Rattle.std.specs.Prelude.{◌≡◌, [], map, ◌+◌, ◌≤◌, length, get_or};
ghost use Rattle.base_text.specs.Wrote.{Wrote};
ghost use Rattle.sheet_spec.specs.Names.{bytes, names_of};
ghost use Rattle.sheet_kinds.specs.Packed.{code_of};
ghost use Rattle.unsheet_names.specs.Laid.{laid_name};
ghost use Rattle.unsheet_names.specs.Texts.{texts};

use sheet_spec::Kind;

static SIZE_NAMES: [&str; 3] = ["Byte", "Word", "Long"];

static TARGET_DIRECTION_NAMES: [&str; 2] = ["ToMemory", "FromMemory"];

static REGISTER_OPERAND_NAMES: [&str; 2] = ["Address", "Data"];

static ADDRESS_WIDTH_NAMES: [&str; 2] = ["Word", "Long"];

static CONDITION_NAMES: [&str; 16] = [
    "True",
    "False",
    "High",
    "LowOrSame",
    "CarryClear",
    "CarrySet",
    "NotEqual",
    "Equal",
    "OverflowClear",
    "OverflowSet",
    "Plus",
    "Minus",
    "GreaterThanOrEqual",
    "LessThan",
    "GreaterThan",
    "LessThanOrEqual",
];

static BRANCH_SIZE_NAMES: [&str; 3] = ["Short", "Word", "Long"];

static SHIFT_DIRECTION_NAMES: [&str; 2] = ["Right", "Left"];

static SIGN_NAMES: [&str; 2] = ["Signed", "Unsigned"];

static BIT_FIELD_OPERATION_NAMES: [&str; 8] = [
    "Test",
    "ExtractUnsigned",
    "Change",
    "ExtractSigned",
    "Clear",
    "FindFirstOne",
    "Set",
    "Insert",
];

static FIELD_VALUE_NAMES: [&str; 2] = ["Immediate", "Register"];

static TRAP_OPERAND_NAMES: [&str; 3] = ["None", "Word", "Long"];

static REGISTER_CHOICE_NAMES: [&str; 2] = ["None", "Some"];

static OPERAND_NAMES: [&str; 11] = [
    "Immediate",
    "Register",
    "Indirect",
    "PostIndirect",
    "PreIndirect",
    "IndirectDisplacement",
    "IndirectIndex",
    "PcDisplacement",
    "PcIndex",
    "Extended",
    "Absolute",
];

static INSTRUCTION_NAMES: [&str; 99] = [
    "ADDA",
    "SUBA",
    "CMPA",
    "MOVEA",
    "MOVEM",
    "MOVE",
    "ADD",
    "SUB",
    "ADDX",
    "SUBX",
    "ADDQ",
    "MOVEQ",
    "SUBQ",
    "ADDI",
    "SUBI",
    "ANDI",
    "ORI",
    "EORI",
    "CMPI",
    "CMPM",
    "DIVx",
    "MULx",
    "SWAP",
    "CLR",
    "EXG",
    "LEA",
    "PEA",
    "NEG",
    "NEGX",
    "ABCD",
    "SBCD",
    "NBCD",
    "EXT",
    "TST",
    "CMP",
    "Bcc",
    "Scc",
    "DBcc",
    "BRA",
    "LINK",
    "UNLK",
    "NOT",
    "OR",
    "AND",
    "EOR",
    "JSR",
    "ASd",
    "ROd",
    "LSd",
    "ROXd",
    "BTST",
    "BCLR",
    "BSET",
    "BCHG",
    "JMP",
    "BSR",
    "TRAP",
    "RTE",
    "STOP",
    "RESET",
    "MOVEUSP",
    "LINEA",
    "LINEF",
    "MOVEP",
    "MOVEtoCCR",
    "MOVEfromCCR",
    "MOVEtoSR",
    "MOVEfromSR",
    "ANDItoCCR",
    "ORItoCCR",
    "EORItoCCR",
    "ANDItoSR",
    "ORItoSR",
    "EORItoSR",
    "TAS",
    "RTR",
    "CHK",
    "TRAPV",
    "ILLEGAL",
    "",
    "RTS",
    "NOP",
    "",
    "RTD",
    "BKPT",
    "MOVEC",
    "MOVES",
    "CHKL",
    "LINKL",
    "TRAPcc",
    "MULL",
    "PACK",
    "UNPK",
    "CHK2",
    "CMP2",
    "CAS",
    "CAS2",
    "BF",
    "DIVL",
];

// The names of a kind, by its variants' places.
fn names(kind: Kind) -> &'static [&'static str]
    ensures { texts result.now ≡ map bytes (names_of kind) }
{
    match kind {
        Kind::Number => &[],
        Kind::Target => &[],
        Kind::Place => &[],
        Kind::Size => &SIZE_NAMES,
        Kind::TargetDirection => &TARGET_DIRECTION_NAMES,
        Kind::RegisterOperand => &REGISTER_OPERAND_NAMES,
        Kind::AddressWidth => &ADDRESS_WIDTH_NAMES,
        Kind::Condition => &CONDITION_NAMES,
        Kind::BranchSize => &BRANCH_SIZE_NAMES,
        Kind::ShiftDirection => &SHIFT_DIRECTION_NAMES,
        Kind::Sign => &SIGN_NAMES,
        Kind::BitFieldOperation => &BIT_FIELD_OPERATION_NAMES,
        Kind::FieldValue => &FIELD_VALUE_NAMES,
        Kind::TrapOperand => &TRAP_OPERAND_NAMES,
        Kind::RegisterChoice => &REGISTER_CHOICE_NAMES,
        Kind::Operand => &OPERAND_NAMES,
        Kind::Instruction => &INSTRUCTION_NAMES,
    }
}

/// The name of a kind's variant at a place, nothing where it has none; the next place.
pub fn put_name(out: &mut [u8], at: usize, kind: Kind, place: u64) -> usize
    requires { at + 20 ≤ length out.old }
    ensures name { Wrote out.old at (get_or (map bytes (names_of kind)) place []) out.new result × (result ≤ at + 20) }
    ensures laid { Wrote out.old at (laid_name (code_of kind) place) out.new result }
{
    match names(kind).get(place as usize) {
        Some(name) => base_text::put(out, at, name.as_bytes()),
        None => at,
    }
}
