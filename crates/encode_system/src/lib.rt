// System control and the multiprocessor instructions.
#![tactic(auto)]

ghost use Rattle.std.specs.Prelude.{cond, ◌≡◌, ◌<◌, Ok};
ghost use Rattle.encode_spec.specs.System.{status_operation, status_parts, condition_code_operation, condition_code_parts, vector_parts, moveusp_parts, movec_parts, moves_parts, cas_parts, cas2_items, cas2_parts, raw_parts, no_operand_parts};
ghost use Rattle.encode_state.specs.Encoder.{step, run, run_parts};

use encode_state::{Encoder, Refusal};
use isa::{
    ConditionCodeOperation, Field, NoOperandOperation, Operand, RawOperation, RegisterOperand,
    Size, StatusOperation, TargetDirection, VectorOperation,
};

// The operation word of ANDI, ORI and EORI to SR, and of STOP.
fn status_operation(e: Encoder, operation: StatusOperation) -> Result<Encoder, Refusal>
    ensures { result ≡ step e (status_operation operation) }
{
    match operation {
        StatusOperation::ANDItoSR => Ok(e.operation(0, 1, 1, 60)),
        StatusOperation::ORItoSR => Ok(e.operation(0, 0, 1, 60)),
        StatusOperation::EORItoSR => Ok(e.operation(0, 5, 1, 60)),
        StatusOperation::STOP => Ok(e.operation(4, 7, 1, 50)),
    }
}

// ANDI, ORI and EORI to SR, and STOP.
#[tactic(auto, unfolding(encode_spec::specs::System::status_parts))]
#[inline(never)]
pub fn status(e: Encoder, operation: StatusOperation, value: u16) -> Result<Encoder, Refusal>
    ensures { result ≡ run_parts (status_parts operation value) (Ok e) }
{
    let e = status_operation(e, operation)?;
    Ok(e.word(value))
}

// The operation word of ANDI, ORI and EORI to CCR.
fn condition_code_operation(
    e: Encoder,
    operation: ConditionCodeOperation,
) -> Result<Encoder, Refusal>
    ensures { result ≡ step e (condition_code_operation operation) }
{
    match operation {
        ConditionCodeOperation::ANDItoCCR => Ok(e.operation(0, 1, 0, 60)),
        ConditionCodeOperation::ORItoCCR => Ok(e.operation(0, 0, 0, 60)),
        ConditionCodeOperation::EORItoCCR => Ok(e.operation(0, 5, 0, 60)),
    }
}

// ANDI, ORI and EORI to CCR.
#[tactic(auto, unfolding(encode_spec::specs::System::condition_code_parts))]
#[inline(never)]
pub fn condition_code(
    e: Encoder,
    operation: ConditionCodeOperation,
    value: u8,
) -> Result<Encoder, Refusal>
    ensures { result ≡ run_parts (condition_code_parts operation value) (Ok e) }
{
    let e = condition_code_operation(e, operation)?;
    Ok(e.word(value as u16))
}

// TRAP and BKPT.
#[tactic(auto, unfolding(encode_spec::specs::System::vector_parts))]
#[inline(never)]
pub fn vector(e: Encoder, operation: VectorOperation, value: u8) -> Result<Encoder, Refusal>
    ensures { result ≡ run_parts (vector_parts operation value) (Ok e) }
{
    match operation {
        VectorOperation::TRAP => {
            let e = e.operation(4, 7, 1, (value % 16) as u16);
            e.fits(Field::TrapVector, value as i64)
        }
        VectorOperation::BKPT => {
            let e = e.operation(4, 4, 1, 8 + (value % 8) as u16);
            e.fits(Field::BreakpointVector, value as i64)
        }
    }
}

// The low bits of MOVE USP, of which bit 3 says from USP.
fn usp_field(to_usp: bool) -> u16
    ensures { (result ≡ cond to_usp 32 40) × (result < 41) }
{
    if to_usp { 32 } else { 40 }
}

// MOVE USP.
#[tactic(auto, unfolding(encode_spec::specs::System::moveusp_parts))]
pub fn moveusp(e: Encoder, to_usp: bool, register: RegisterOperand) -> Result<Encoder, Refusal>
    ensures { result ≡ run_parts (moveusp_parts to_usp register) (Ok e) }
{
    let e = e.operation(
        4,
        7,
        1,
        usp_field(to_usp) + encode_state::register_bits(register),
    );
    e.address_register(register)
}

// MOVEC.
#[tactic(auto, unfolding(encode_spec::specs::System::movec_parts))]
#[inline(never)]
pub fn movec(
    e: Encoder,
    to_control: bool,
    control: u16,
    register: RegisterOperand,
) -> Result<Encoder, Refusal>
    ensures { result ≡ run_parts (movec_parts to_control control register) (Ok e) }
{
    let e = e.operation(4, 7, 1, 58 + encode_state::bit(to_control));
    let e = e.register(encode_state::number_of_register(register))?;
    Ok(e.word(encode_state::general(register) * 4096 + control % 4096))
}

// MOVES.
#[tactic(auto, unfolding(encode_spec::specs::System::moves_parts))]
pub fn moves(
    e: Encoder,
    direction: TargetDirection,
    size: Size,
    register: RegisterOperand,
    target: Operand,
) -> Result<Encoder, Refusal>
    ensures { result ≡ run_parts (moves_parts direction size register target) (Ok e) }
{
    let e = e.operation(
        0,
        7,
        encode_state::standard_size(size),
        isa_operands::ea_field(target),
    );
    let e = e.register(encode_state::number_of_register(register))?;
    let e = e.word(
        encode_state::general(register) * 4096 + encode_state::to_memory(direction) * 2048,
    );
    encode_ea::effective(e, target, size, isa_operands::MEMORY_ALTERABLE, 24)
}

// CAS.
#[tactic(auto, unfolding(encode_spec::specs::System::cas_parts))]
#[inline(never)]
pub fn cas(
    e: Encoder,
    compare: u8,
    update: u8,
    target: &Operand,
    size: Size,
) -> Result<Encoder, Refusal>
    ensures { result ≡ run_parts (cas_parts compare update target.now size) (Ok e) }
{
    let e = e.operation(
        0,
        5 + encode_state::standard_size(size),
        3,
        isa_operands::ea_field(*target),
    );
    let e = e.register(update)?;
    let e = e.register(compare)?;
    let e = e.word((update % 8) as u16 * 64 + (compare % 8) as u16);
    encode_ea::effective(e, *target, size, isa_operands::MEMORY_ALTERABLE, 30)
}

// One of the two extension words of CAS2.
fn cas2_word(
    e: Encoder,
    compare: u8,
    update: u8,
    pointer: RegisterOperand,
) -> Result<Encoder, Refusal>
    ensures { result ≡ run (cas2_items compare update pointer) (Ok e) }
{
    let e = e.register(encode_state::number_of_register(pointer))?;
    let e = e.register(update)?;
    let e = e.register(compare)?;
    Ok(e.word(
        encode_state::general(pointer) * 4096 + (update % 8) as u16 * 64 + (compare % 8) as u16,
    ))
}

// CAS2.
#[tactic(auto, unfolding(encode_spec::specs::System::cas2_parts))]
#[inline(never)]
pub fn cas2(
    e: Encoder,
    compare1: u8,
    compare2: u8,
    update1: u8,
    update2: u8,
    pointer1: RegisterOperand,
    pointer2: RegisterOperand,
    size: Size,
) -> Result<Encoder, Refusal>
    ensures { result ≡ run_parts (cas2_parts compare1 compare2 update1 update2 pointer1 pointer2 size) (Ok e) }
{
    let e = e.operation(0, 6 + encode_state::long_bit(size), 3, 60);
    let e = e.allow(!encode_state::is_byte(size), 31)?;
    let e = cas2_word(e, compare1, update1, pointer1)?;
    cas2_word(e, compare2, update2, pointer2)
}

// LINEA and LINEF, which stay in their line, and any other word.
#[tactic(auto, unfolding(encode_spec::specs::System::raw_parts))]
#[inline(never)]
pub fn raw(e: Encoder, operation: RawOperation, word: u16) -> Result<Encoder, Refusal>
    ensures { result ≡ run_parts (raw_parts operation word) (Ok e) }
{
    match operation {
        RawOperation::LINEA => {
            let e = e.well_formed(word / 4096 == 10)?;
            Ok(e.word(word))
        }
        RawOperation::LINEF => {
            let e = e.well_formed(word / 4096 == 15)?;
            Ok(e.word(word))
        }
        RawOperation::IllegalWord => Ok(e.word(word)),
    }
}

// Instructions without operands.
#[tactic(auto, unfolding(encode_spec::specs::System::no_operand_parts))]
pub fn no_operand(e: Encoder, operation: NoOperandOperation) -> Result<Encoder, Refusal>
    ensures { result ≡ run_parts (no_operand_parts operation) (Ok e) }
{
    match operation {
        NoOperandOperation::RTE => Ok(e.operation(4, 7, 1, 51)),
        NoOperandOperation::RESET => Ok(e.operation(4, 7, 1, 48)),
        NoOperandOperation::RTR => Ok(e.operation(4, 7, 1, 55)),
        NoOperandOperation::TRAPV => Ok(e.operation(4, 7, 1, 54)),
        NoOperandOperation::ILLEGAL => Ok(e.operation(4, 5, 3, 60)),
        NoOperandOperation::RTS => Ok(e.operation(4, 7, 1, 53)),
        NoOperandOperation::NOP => Ok(e.operation(4, 7, 1, 49)),
        NoOperandOperation::SIMHALT => Ok(e.long(4294967295)),
    }
}
