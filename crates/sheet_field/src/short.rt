// The places of names of at most eight bytes, each by its key: its bytes as one number, the first in the lowest.
// A match on keys, not on texts: it gained 7.2 of 39 million instructions on the whole sheet (docs/BENCHMARKS.md).
#![tactic(auto, unfolding(crate::specs::Place::short_place))]

ghost use Rattle.std.specs.Prelude.{◌≡◌, ◌+◌, ◌≤◌, ◌<◌, length, get_or};
ghost use Rattle.sheet_field.specs.Place.{key_of, two_at, four_at, short_place};

use sheet_spec::Kind;

// A byte as a number.
fn byte(f: &[u8], at: usize) -> u64
    requires { at < length f.now }
    ensures { (result ≡ get_or f.now at 0) × (result < 256) }
{
    f[at] as u64
}

// Two bytes as one number.
fn two(f: &[u8], at: usize) -> u64
    requires { at + 1 < length f.now }
    ensures { (result ≡ two_at f.now at) × (result < 65536) }
{
    byte(f, at) + byte(f, at + 1) * 256
}

// Four bytes as one number.
fn four(f: &[u8], at: usize) -> u64
    requires { at + 3 < length f.now }
    ensures { (result ≡ four_at f.now at) × (result < 4294967296) }
{
    two(f, at) + two(f, at + 2) * 0x1_0000
}

/// The key of a field.
pub fn key(f: &[u8]) -> u64
    requires { (0 < length f.now) × (length f.now ≤ 8) }
    ensures { result ≡ key_of f.now }
{
    match f.len() {
        1 => byte(f, 0),
        2 => two(f, 0),
        3 => two(f, 0) + byte(f, 2) * 0x1_0000,
        4 => four(f, 0),
        5 => four(f, 0) + byte(f, 4) * 0x1_0000_0000,
        6 => four(f, 0) + two(f, 4) * 0x1_0000_0000,
        7 => four(f, 0) + two(f, 4) * 0x1_0000_0000 + byte(f, 6) * 0x1_0000_0000_0000,
        _ => four(f, 0) + four(f, 4) * 0x1_0000_0000,
    }
}

fn size_place(key: u64) -> Option<u64>
    ensures { result ≡ short_place Kind.Size key }
{
    match key {
        0x6574_7942 => Some(0), // Byte
        0x6472_6f57 => Some(1), // Word
        0x676e_6f4c => Some(2), // Long
        _ => None,
    }
}

fn target_direction_place(key: u64) -> Option<u64>
    ensures { result ≡ short_place Kind.TargetDirection key }
{
    match key {
        0x7972_6f6d_654d_6f54 => Some(0), // ToMemory
        _ => None,
    }
}

fn register_operand_place(key: u64) -> Option<u64>
    ensures { result ≡ short_place Kind.RegisterOperand key }
{
    match key {
        0x73_7365_7264_6441 => Some(0), // Address
        0x6174_6144 => Some(1), // Data
        _ => None,
    }
}

fn address_width_place(key: u64) -> Option<u64>
    ensures { result ≡ short_place Kind.AddressWidth key }
{
    match key {
        0x6472_6f57 => Some(0), // Word
        0x676e_6f4c => Some(1), // Long
        _ => None,
    }
}

fn condition_place(key: u64) -> Option<u64>
    ensures { result ≡ short_place Kind.Condition key }
{
    match key {
        0x6575_7254 => Some(0), // True
        0x65_736c_6146 => Some(1), // False
        0x6867_6948 => Some(2), // High
        0x7465_5379_7272_6143 => Some(5), // CarrySet
        0x6c61_7571_4574_6f4e => Some(6), // NotEqual
        0x6c_6175_7145 => Some(7), // Equal
        0x7375_6c50 => Some(10), // Plus
        0x73_756e_694d => Some(11), // Minus
        0x6e61_6854_7373_654c => Some(13), // LessThan
        _ => None,
    }
}

fn branch_size_place(key: u64) -> Option<u64>
    ensures { result ≡ short_place Kind.BranchSize key }
{
    match key {
        0x74_726f_6853 => Some(0), // Short
        0x6472_6f57 => Some(1), // Word
        0x676e_6f4c => Some(2), // Long
        _ => None,
    }
}

fn shift_direction_place(key: u64) -> Option<u64>
    ensures { result ≡ short_place Kind.ShiftDirection key }
{
    match key {
        0x74_6867_6952 => Some(0), // Right
        0x7466_654c => Some(1), // Left
        _ => None,
    }
}

fn sign_place(key: u64) -> Option<u64>
    ensures { result ≡ short_place Kind.Sign key }
{
    match key {
        0x6465_6e67_6953 => Some(0), // Signed
        0x6465_6e67_6973_6e55 => Some(1), // Unsigned
        _ => None,
    }
}

fn bit_field_operation_place(key: u64) -> Option<u64>
    ensures { result ≡ short_place Kind.BitFieldOperation key }
{
    match key {
        0x7473_6554 => Some(0), // Test
        0x6567_6e61_6843 => Some(2), // Change
        0x72_6165_6c43 => Some(4), // Clear
        0x74_6553 => Some(6), // Set
        0x7472_6573_6e49 => Some(7), // Insert
        _ => None,
    }
}

fn field_value_place(key: u64) -> Option<u64>
    ensures { result ≡ short_place Kind.FieldValue key }
{
    match key {
        0x7265_7473_6967_6552 => Some(1), // Register
        _ => None,
    }
}

fn trap_operand_place(key: u64) -> Option<u64>
    ensures { result ≡ short_place Kind.TrapOperand key }
{
    match key {
        0x656e_6f4e => Some(0), // None
        0x6472_6f57 => Some(1), // Word
        0x676e_6f4c => Some(2), // Long
        _ => None,
    }
}

fn register_choice_place(key: u64) -> Option<u64>
    ensures { result ≡ short_place Kind.RegisterChoice key }
{
    match key {
        0x656e_6f4e => Some(0), // None
        0x656d_6f53 => Some(1), // Some
        _ => None,
    }
}

fn operand_place(key: u64) -> Option<u64>
    ensures { result ≡ short_place Kind.Operand key }
{
    match key {
        0x7265_7473_6967_6552 => Some(1), // Register
        0x7463_6572_6964_6e49 => Some(2), // Indirect
        0x78_6564_6e49_6350 => Some(8), // PcIndex
        0x6465_646e_6574_7845 => Some(9), // Extended
        0x6574_756c_6f73_6241 => Some(10), // Absolute
        _ => None,
    }
}

fn instruction_place(key: u64) -> Option<u64>
    ensures { result ≡ short_place Kind.Instruction key }
{
    match key {
        0x4144_4441 => Some(0), // ADDA
        0x4142_5553 => Some(1), // SUBA
        0x4150_4d43 => Some(2), // CMPA
        0x41_4556_4f4d => Some(3), // MOVEA
        0x4d_4556_4f4d => Some(4), // MOVEM
        0x4556_4f4d => Some(5), // MOVE
        0x44_4441 => Some(6), // ADD
        0x42_5553 => Some(7), // SUB
        0x5844_4441 => Some(8), // ADDX
        0x5842_5553 => Some(9), // SUBX
        0x5144_4441 => Some(10), // ADDQ
        0x51_4556_4f4d => Some(11), // MOVEQ
        0x5142_5553 => Some(12), // SUBQ
        0x4944_4441 => Some(13), // ADDI
        0x4942_5553 => Some(14), // SUBI
        0x4944_4e41 => Some(15), // ANDI
        0x49_524f => Some(16), // ORI
        0x4952_4f45 => Some(17), // EORI
        0x4950_4d43 => Some(18), // CMPI
        0x4d50_4d43 => Some(19), // CMPM
        0x7856_4944 => Some(20), // DIVx
        0x784c_554d => Some(21), // MULx
        0x5041_5753 => Some(22), // SWAP
        0x52_4c43 => Some(23), // CLR
        0x47_5845 => Some(24), // EXG
        0x41_454c => Some(25), // LEA
        0x41_4550 => Some(26), // PEA
        0x47_454e => Some(27), // NEG
        0x5847_454e => Some(28), // NEGX
        0x4443_4241 => Some(29), // ABCD
        0x4443_4253 => Some(30), // SBCD
        0x4443_424e => Some(31), // NBCD
        0x54_5845 => Some(32), // EXT
        0x54_5354 => Some(33), // TST
        0x50_4d43 => Some(34), // CMP
        0x63_6342 => Some(35), // Bcc
        0x63_6353 => Some(36), // Scc
        0x6363_4244 => Some(37), // DBcc
        0x41_5242 => Some(38), // BRA
        0x4b4e_494c => Some(39), // LINK
        0x4b4c_4e55 => Some(40), // UNLK
        0x54_4f4e => Some(41), // NOT
        0x524f => Some(42), // OR
        0x44_4e41 => Some(43), // AND
        0x52_4f45 => Some(44), // EOR
        0x52_534a => Some(45), // JSR
        0x64_5341 => Some(46), // ASd
        0x64_4f52 => Some(47), // ROd
        0x64_534c => Some(48), // LSd
        0x6458_4f52 => Some(49), // ROXd
        0x5453_5442 => Some(50), // BTST
        0x524c_4342 => Some(51), // BCLR
        0x5445_5342 => Some(52), // BSET
        0x4748_4342 => Some(53), // BCHG
        0x50_4d4a => Some(54), // JMP
        0x52_5342 => Some(55), // BSR
        0x5041_5254 => Some(56), // TRAP
        0x45_5452 => Some(57), // RTE
        0x504f_5453 => Some(58), // STOP
        0x54_4553_4552 => Some(59), // RESET
        0x50_5355_4556_4f4d => Some(60), // MOVEUSP
        0x41_454e_494c => Some(61), // LINEA
        0x46_454e_494c => Some(62), // LINEF
        0x50_4556_4f4d => Some(63), // MOVEP
        0x5253_6f74_4556_4f4d => Some(66), // MOVEtoSR
        0x5243_436f_7449_524f => Some(69), // ORItoCCR
        0x5253_6f74_4944_4e41 => Some(71), // ANDItoSR
        0x52_536f_7449_524f => Some(72), // ORItoSR
        0x5253_6f74_4952_4f45 => Some(73), // EORItoSR
        0x53_4154 => Some(74), // TAS
        0x52_5452 => Some(75), // RTR
        0x4b_4843 => Some(76), // CHK
        0x56_5041_5254 => Some(77), // TRAPV
        0x4c_4147_454c_4c49 => Some(78), // ILLEGAL
        0x53_5452 => Some(80), // RTS
        0x50_4f4e => Some(81), // NOP
        0x44_5452 => Some(83), // RTD
        0x5450_4b42 => Some(84), // BKPT
        0x43_4556_4f4d => Some(85), // MOVEC
        0x53_4556_4f4d => Some(86), // MOVES
        0x4c4b_4843 => Some(87), // CHKL
        0x4c_4b4e_494c => Some(88), // LINKL
        0x6363_5041_5254 => Some(89), // TRAPcc
        0x4c4c_554d => Some(90), // MULL
        0x4b43_4150 => Some(91), // PACK
        0x4b50_4e55 => Some(92), // UNPK
        0x324b_4843 => Some(93), // CHK2
        0x3250_4d43 => Some(94), // CMP2
        0x53_4143 => Some(95), // CAS
        0x3253_4143 => Some(96), // CAS2
        0x4642 => Some(97), // BF
        0x4c56_4944 => Some(98), // DIVL
        _ => None,
    }
}

/// The place of the name of a kind that has a key.
pub fn short_place(kind: Kind, key: u64) -> Option<u64>
    ensures { result ≡ short_place kind key }
{
    match kind {
        Kind::Number => None,
        Kind::Target => None,
        Kind::Place => None,
        Kind::Size => size_place(key),
        Kind::TargetDirection => target_direction_place(key),
        Kind::RegisterOperand => register_operand_place(key),
        Kind::AddressWidth => address_width_place(key),
        Kind::Condition => condition_place(key),
        Kind::BranchSize => branch_size_place(key),
        Kind::ShiftDirection => shift_direction_place(key),
        Kind::Sign => sign_place(key),
        Kind::BitFieldOperation => bit_field_operation_place(key),
        Kind::FieldValue => field_value_place(key),
        Kind::TrapOperand => trap_operand_place(key),
        Kind::RegisterChoice => register_choice_place(key),
        Kind::Operand => operand_place(key),
        Kind::Instruction => instruction_place(key),
    }
}
