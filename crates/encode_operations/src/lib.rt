// The operations of each shape, each handed to its group.
#![tactic(auto)]

ghost use Rattle.std.specs.Prelude.{◌≡◌, ◌<◌, Ok};
ghost use Rattle.encode_spec.specs.Instruction.{register_parts, transfer_parts, pair_parts, word_parts, unsized_register_parts, unsized_one_parts, unsized_pair_parts, one_parts, branches_parts, links_parts, packs_parts, typed_two};
ghost use Rattle.encode_spec.specs.Ea.{single, data_alterable};
ghost use Rattle.isa_spec.specs.Mode.{control_column, data_column};
ghost use Rattle.isa.specs.declared.Size.TheVariants.{Word, Long};
ghost use Rattle.encode_state.specs.Encoder.{run, run_parts, next_address};

use encode_state::{Encoder, Refusal};
use isa::{
    BranchOperation, BranchSize, Condition, LinkOperation, OneOperation, Operand, PackOperation,
    PairOperation, RegisterOperand, RegisterOperation, Sign, Size, TargetDirection,
    TransferOperation, UnsizedOneOperation, UnsizedPairOperation, UnsizedRegisterOperation,
    WordOperation,
};

// ADDA SUBA CMPA MOVEA CMP CHK2 CMP2.
#[tactic(auto, unfolding(encode_spec::specs::Instruction::register_parts))]
#[inline(never)]
pub fn into_register(
    e: Encoder,
    op: RegisterOperation,
    o: &Operand,
    r: RegisterOperand,
    s: Size,
) -> Result<Encoder, Refusal>
    ensures { result ≡ run_parts (register_parts op o.now r s) (Ok e) }
{
    match op {
        RegisterOperation::ADDA => encode_arithmetic::into_address(e, 13, 44, *o, r, s),
        RegisterOperation::SUBA => encode_arithmetic::into_address(e, 9, 37, *o, r, s),
        RegisterOperation::CMPA => encode_arithmetic::into_address(e, 11, 40, *o, r, s),
        RegisterOperation::MOVEA => encode_movement::movea(e, *o, r, s),
        RegisterOperation::CMP => encode_arithmetic::into_data(e, 11, 39, *o, r, s),
        RegisterOperation::CHK2 => encode_arithmetic::bounds(e, true, *o, r, s),
        RegisterOperation::CMP2 => encode_arithmetic::bounds(e, false, *o, r, s),
    }
}

// MOVEP MOVES.
#[tactic(auto, unfolding(encode_spec::specs::Instruction::transfer_parts))]
#[inline(never)]
pub fn transfer(
    e: Encoder,
    op: TransferOperation,
    direction: TargetDirection,
    s: Size,
    r: RegisterOperand,
    o: &Operand,
) -> Result<Encoder, Refusal>
    ensures { result ≡ run_parts (transfer_parts op direction s r o.now) (Ok e) }
{
    match op {
        TransferOperation::MOVEP => encode_movement::movep(e, direction, s, r, *o),
        TransferOperation::MOVES => encode_system::moves(e, direction, s, r, *o),
    }
}

// MOVE ADD SUB ADDX SUBX CMPM OR AND EOR.
#[tactic(auto, unfolding(encode_spec::specs::Instruction::pair_parts))]
#[inline(never)]
pub fn pair(
    e: Encoder,
    op: PairOperation,
    o: &Operand,
    d: &Operand,
    s: Size,
) -> Result<Encoder, Refusal>
    ensures { result ≡ run_parts (pair_parts op o.now d.now s) (Ok e) }
{
    match op {
        PairOperation::MOVE => encode_movement::move_data(e, *o, *d, s),
        PairOperation::ADD => encode_arithmetic::arithmetic(e, 13, *o, *d, s),
        PairOperation::SUB => encode_arithmetic::arithmetic(e, 9, *o, *d, s),
        PairOperation::ADDX => encode_arithmetic::extended(
            e,
            13,
            4 + encode_state::standard_size(s),
            *o,
            *d,
        ),
        PairOperation::SUBX => encode_arithmetic::extended(
            e,
            9,
            4 + encode_state::standard_size(s),
            *o,
            *d,
        ),
        PairOperation::CMPM => encode_arithmetic::cmpm(e, *o, *d, s),
        PairOperation::OR => encode_logic::logical(e, 8, *o, *d, s),
        PairOperation::AND => encode_logic::logical(e, 12, *o, *d, s),
        PairOperation::EOR => encode_ea::from_data(
            e,
            11,
            isa_operands::DATA_ALTERABLE,
            42,
            *o,
            *d,
            s,
        ),
    }
}

// DIVx MULx.
#[tactic(auto, unfolding(encode_spec::specs::Instruction::word_parts))]
#[inline(never)]
pub fn word_into_data(
    e: Encoder,
    op: WordOperation,
    o: &Operand,
    r: RegisterOperand,
    sign: Sign,
) -> Result<Encoder, Refusal>
    ensures { result ≡ run_parts (word_parts op o.now r sign) (Ok e) }
{
    let opmode = 3 + 4 * encode_arithmetic::signed_bit(sign);
    match op {
        WordOperation::DIVx => encode_ea::with_data(
            e,
            8,
            r,
            opmode,
            *o,
            Size::Word,
            isa_operands::DATA,
            29,
        ),
        WordOperation::MULx => encode_ea::with_data(
            e,
            12,
            r,
            opmode,
            *o,
            Size::Word,
            isa_operands::DATA,
            28,
        ),
    }
}

// LEA CHK CHKL.
#[tactic(auto, unfolding(encode_spec::specs::Instruction::unsized_register_parts))]
#[inline(never)]
pub fn unsized_into_register(
    e: Encoder,
    op: UnsizedRegisterOperation,
    o: &Operand,
    r: RegisterOperand,
) -> Result<Encoder, Refusal>
    ensures { result ≡ run_parts (unsized_register_parts op o.now r) (Ok e) }
{
    match op {
        UnsizedRegisterOperation::LEA => encode_ea::with_address(
            e,
            4,
            r,
            7,
            *o,
            Size::Long,
            isa_operands::CONTROL,
            34,
        ),
        UnsizedRegisterOperation::CHK => encode_ea::with_data(
            e,
            4,
            r,
            6,
            *o,
            Size::Word,
            isa_operands::DATA,
            27,
        ),
        UnsizedRegisterOperation::CHKL => encode_ea::with_data(
            e,
            4,
            r,
            4,
            *o,
            Size::Long,
            isa_operands::DATA,
            27,
        ),
    }
}

// A control operand: PEA JSR JMP.
fn control_operand(
    e: Encoder,
    x: u16,
    opmode: u16,
    o: Operand,
    reason: u8,
) -> Result<Encoder, Refusal>
    requires { (x < 8) × (opmode < 8) }
    ensures { result ≡ run_parts (single 4 x opmode o Long control_column reason) (Ok e) }
{
    encode_ea::single(
        e,
        4,
        x,
        opmode,
        o,
        Size::Long,
        isa_operands::CONTROL,
        reason,
    )
}

// A word read from a data operand: MOVE to CCR and SR.
fn word_read(e: Encoder, x: u16, o: Operand, reason: u8) -> Result<Encoder, Refusal>
    requires { x < 8 }
    ensures { result ≡ run_parts (single 4 x 3 o Word data_column reason) (Ok e) }
{
    encode_ea::single(e, 4, x, 3, o, Size::Word, isa_operands::DATA, reason)
}

// A data alterable operand: NBCD TAS, and MOVE from CCR and SR.
fn written(
    e: Encoder,
    x: u16,
    opmode: u16,
    o: Operand,
    s: Size,
    reason: u8,
) -> Result<Encoder, Refusal>
    requires { (x < 8) × (opmode < 8) }
    ensures { result ≡ run_parts (single 4 x opmode o s data_alterable reason) (Ok e) }
{
    encode_ea::single(e, 4, x, opmode, o, s, isa_operands::DATA_ALTERABLE, reason)
}

// PEA NBCD JSR JMP TAS, and MOVE to and from CCR and SR.
#[tactic(auto, unfolding(encode_spec::specs::Instruction::unsized_one_parts))]
#[inline(never)]
pub fn unsized_one(e: Encoder, op: UnsizedOneOperation, o: &Operand) -> Result<Encoder, Refusal>
    ensures { result ≡ run_parts (unsized_one_parts op o.now) (Ok e) }
{
    match op {
        UnsizedOneOperation::PEA => control_operand(e, 4, 1, *o, 18),
        UnsizedOneOperation::NBCD => written(e, 4, 0, *o, Size::Byte, 17),
        UnsizedOneOperation::JSR => control_operand(e, 7, 2, *o, 25),
        UnsizedOneOperation::JMP => control_operand(e, 7, 3, *o, 26),
        UnsizedOneOperation::TAS => written(e, 5, 3, *o, Size::Byte, 23),
        UnsizedOneOperation::MOVEtoCCR => word_read(e, 2, *o, 15),
        UnsizedOneOperation::MOVEfromCCR => written(e, 1, 3, *o, Size::Word, 14),
        UnsizedOneOperation::MOVEtoSR => word_read(e, 3, *o, 16),
        UnsizedOneOperation::MOVEfromSR => written(e, 0, 3, *o, Size::Word, 13),
    }
}

// ABCD SBCD BTST BCLR BSET BCHG.
#[tactic(auto, unfolding(encode_spec::specs::Instruction::unsized_pair_parts))]
#[inline(never)]
pub fn unsized_pair(
    e: Encoder,
    op: UnsizedPairOperation,
    o: &Operand,
    d: &Operand,
) -> Result<Encoder, Refusal>
    ensures { result ≡ run_parts (unsized_pair_parts op o.now d.now) (Ok e) }
{
    match op {
        UnsizedPairOperation::ABCD => encode_arithmetic::extended(e, 12, 4, *o, *d),
        UnsizedPairOperation::SBCD => encode_arithmetic::extended(e, 8, 4, *o, *d),
        UnsizedPairOperation::BTST => encode_bits::bit(e, 0, *o, *d),
        UnsizedPairOperation::BCLR => encode_bits::bit(e, 2, *o, *d),
        UnsizedPairOperation::BSET => encode_bits::bit(e, 3, *o, *d),
        UnsizedPairOperation::BCHG => encode_bits::bit(e, 1, *o, *d),
    }
}

// CLR NEG NEGX NOT TST.
#[tactic(auto, unfolding(encode_spec::specs::Instruction::one_parts))]
#[inline(never)]
pub fn one_operand(e: Encoder, op: OneOperation, o: &Operand, s: Size) -> Result<Encoder, Refusal>
    ensures { result ≡ run_parts (one_parts op o.now s) (Ok e) }
{
    let opmode = encode_state::standard_size(s);
    match op {
        OneOperation::CLR => written(e, 1, opmode, *o, s, 54),
        OneOperation::NEG => written(e, 2, opmode, *o, s, 54),
        OneOperation::NEGX => written(e, 0, opmode, *o, s, 54),
        OneOperation::NOT => written(e, 3, opmode, *o, s, 54),
        OneOperation::TST => encode_arithmetic::tst(e, *o, s),
    }
}

// BRA BSR.
#[tactic(auto, unfolding(encode_spec::specs::Instruction::branches_parts))]
#[inline(never)]
pub fn branches(
    e: Encoder,
    op: BranchOperation,
    target: u32,
    s: BranchSize,
) -> Result<Encoder, Refusal>
    ensures { result ≡ run_parts (branches_parts op target s) (Ok e) }
{
    match op {
        BranchOperation::BRA => encode_control::branch(e, Condition::True, target, s),
        BranchOperation::BSR => encode_control::branch(e, Condition::False, target, s),
    }
}

// LINK LINK.L.
#[tactic(auto, unfolding(encode_spec::specs::Instruction::links_parts))]
#[inline(never)]
pub fn links(
    e: Encoder,
    op: LinkOperation,
    r: RegisterOperand,
    displacement: u32,
) -> Result<Encoder, Refusal>
    ensures { result ≡ run_parts (links_parts op r displacement) (Ok e) }
{
    match op {
        LinkOperation::LINK => encode_movement::link(e, r, displacement),
        LinkOperation::LINKL => encode_movement::linkl(e, r, displacement),
    }
}

// PACK UNPK.
#[tactic(auto, unfolding(encode_spec::specs::Instruction::packs_parts))]
#[inline(never)]
pub fn packs(
    e: Encoder,
    op: PackOperation,
    o: &Operand,
    d: &Operand,
    adjustment: u16,
) -> Result<Encoder, Refusal>
    ensures { result ≡ run_parts (packs_parts op o.now d.now adjustment) (Ok e) }
{
    match op {
        PackOperation::PACK => encode_bits::pack(e, 5, *o, *d, adjustment),
        PackOperation::UNPK => encode_bits::pack(e, 6, *o, *d, adjustment),
    }
}

// Refusal 1 of two operands.
pub fn typed_two(e: Encoder, o: Operand, d: Operand) -> Result<Encoder, Refusal>
    ensures { result ≡ run (typed_two o d (next_address e)) (Ok e) }
{
    let e = encode_ea::typed(e, o)?;
    encode_ea::typed(e, d)
}
