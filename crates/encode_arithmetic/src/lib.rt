// Integer arithmetic: the immediates, the quick forms, ADD SUB CMP and their kinds, long multiply and divide, EXT, SWAP and TST.
#![tactic(auto)]

ghost use Rattle.std.specs.Prelude.{◌≡◌, ◌<◌, Ok};
ghost use Rattle.encode_spec.specs.Arithmetic.{immediate_kind, immediate_modes, immediate_reason, immediate_parts, quick_bit, quick_parts, into_data_parts, arithmetic_parts, into_address_parts, bounds_parts, extended_parts, cmpm_parts, signed_bit, high_number, high_bits, mull_parts, divl_parts, tst_parts, ext_opmode, ext_parts, swap_parts};
ghost use Rattle.isa.specs.declared.Size.TheVariants as width;
ghost use Rattle.isa_spec.specs.Mode.{bits};
ghost use Rattle.encode_state.specs.Encoder.{run_parts};

use encode_state::{Encoder, Refusal};
use isa::{Field, ImmediateOperation, Operand, QuickOperation, RegisterOperand, Sign, Size};

// Bits 11 to 9 of an immediate instruction.
pub fn immediate_kind(operation: ImmediateOperation) -> u16
    ensures { (result ≡ immediate_kind operation) × (result < 8) }
{
    match operation {
        ImmediateOperation::ADDI => 3,
        ImmediateOperation::SUBI => 2,
        ImmediateOperation::ANDI => 1,
        ImmediateOperation::ORI => 0,
        ImmediateOperation::EORI => 5,
        ImmediateOperation::CMPI => 6,
    }
}

// The modes of its destination. CMPI only reads it, relative to the program counter too.
pub fn immediate_modes(operation: ImmediateOperation) -> u16
    ensures { result ≡ bits (immediate_modes operation) }
{
    match operation {
        ImmediateOperation::ADDI => isa_operands::DATA_ALTERABLE,
        ImmediateOperation::SUBI => isa_operands::DATA_ALTERABLE,
        ImmediateOperation::ANDI => isa_operands::DATA_ALTERABLE,
        ImmediateOperation::ORI => isa_operands::DATA_ALTERABLE,
        ImmediateOperation::EORI => isa_operands::DATA_ALTERABLE,
        ImmediateOperation::CMPI => isa_operands::DATA_NOT_IMMEDIATE,
    }
}

// The reason where the destination has another mode.
pub fn immediate_reason(operation: ImmediateOperation) -> u8
    ensures { result ≡ immediate_reason operation }
{
    match operation {
        ImmediateOperation::ADDI => 47,
        ImmediateOperation::SUBI => 47,
        ImmediateOperation::ANDI => 47,
        ImmediateOperation::ORI => 47,
        ImmediateOperation::EORI => 47,
        ImmediateOperation::CMPI => 46,
    }
}

// ORI ANDI SUBI ADDI EORI CMPI: the immediate's words, then the destination's.
#[tactic(auto, unfolding(encode_spec::specs::Arithmetic::immediate_parts))]
#[inline(never)]
pub fn immediate_into(
    e: Encoder,
    operation: ImmediateOperation,
    value: u32,
    destination: &Operand,
    size: Size,
) -> Result<Encoder, Refusal>
    ensures { result ≡ run_parts (immediate_parts operation value destination.now size) (Ok e) }
{
    let e = e.operation(
        0,
        immediate_kind(operation),
        encode_state::standard_size(size),
        isa_operands::ea_field(*destination),
    );
    let e = encode_ea::immediate(e, value, size)?;
    encode_ea::effective(
        e,
        *destination,
        size,
        immediate_modes(operation),
        immediate_reason(operation),
    )
}

// The bit that says SUBQ.
pub fn quick_bit(operation: QuickOperation) -> u16
    ensures { (result ≡ quick_bit operation) × (result < 2) }
{
    match operation {
        QuickOperation::ADDQ => 0,
        QuickOperation::SUBQ => 1,
    }
}

// ADDQ SUBQ: the count in bits 11 to 9, 8 written as 0.
#[tactic(auto, unfolding(encode_spec::specs::Arithmetic::quick_parts, encode_spec::specs::Ea::single))]
#[inline(never)]
pub fn quick(
    e: Encoder,
    operation: QuickOperation,
    count: u8,
    target: &Operand,
    size: Size,
) -> Result<Encoder, Refusal>
    ensures { result ≡ run_parts (quick_parts operation count target.now size) (Ok e) }
{
    let e = e.fits(Field::Count, count as i64)?;
    let e = e.allow(!isa_operands::byte_of_address(size, *target), 55)?;
    let opmode = 4 * quick_bit(operation) + encode_state::standard_size(size);
    encode_ea::single(
        e,
        5,
        (count % 8) as u16,
        opmode,
        *target,
        size,
        isa_operands::ALTERABLE,
        56,
    )
}

// <ea>,Dn of ADD, SUB and CMP.
#[tactic(auto, unfolding(encode_spec::specs::Arithmetic::into_data_parts, encode_spec::specs::Ea::with_data))]
pub fn into_data(
    e: Encoder,
    line: u16,
    reason: u8,
    source: Operand,
    register: RegisterOperand,
    size: Size,
) -> Result<Encoder, Refusal>
    requires { line < 16 }
    ensures { result ≡ run_parts (into_data_parts line reason source register size) (Ok e) }
{
    let e = e.allow(!isa_operands::byte_of_address(size, source), 7)?;
    encode_ea::with_data(
        e,
        line,
        register,
        encode_state::standard_size(size),
        source,
        size,
        isa_operands::ALL,
        reason,
    )
}

// ADD SUB.
#[tactic(auto, unfolding(encode_spec::specs::Arithmetic::arithmetic_parts, encode_spec::specs::Arithmetic::into_data_parts, encode_spec::specs::Ea::from_data, encode_spec::specs::Ea::with_data))]
pub fn arithmetic(
    e: Encoder,
    line: u16,
    source: Operand,
    destination: Operand,
    size: Size,
) -> Result<Encoder, Refusal>
    requires { line < 16 }
    ensures { result ≡ run_parts (arithmetic_parts line source destination size) (Ok e) }
{
    if isa_operands::is_register(destination) {
        into_data(
            e,
            line,
            59,
            source,
            isa_operands::register_in(destination),
            size,
        )
    } else {
        encode_ea::from_data(
            e,
            line,
            isa_operands::MEMORY_ALTERABLE,
            60,
            source,
            destination,
            size,
        )
    }
}

// ADDA SUBA CMPA: bit 8 says a long.
#[tactic(auto, unfolding(encode_spec::specs::Arithmetic::into_address_parts, encode_spec::specs::Ea::with_address))]
pub fn into_address(
    e: Encoder,
    line: u16,
    reason: u8,
    source: Operand,
    register: RegisterOperand,
    size: Size,
) -> Result<Encoder, Refusal>
    requires { line < 16 }
    ensures { result ≡ run_parts (into_address_parts line reason source register size) (Ok e) }
{
    let e = e.allow(!encode_state::is_byte(size), 61)?;
    encode_ea::with_address(
        e,
        line,
        register,
        3 + 4 * encode_state::long_bit(size),
        source,
        size,
        isa_operands::ALL,
        reason,
    )
}

// CHK2 CMP2: the register's extension word, then the bounds.
#[tactic(auto, unfolding(encode_spec::specs::Arithmetic::bounds_parts))]
pub fn bounds(
    e: Encoder,
    trap: bool,
    bounds: Operand,
    register: RegisterOperand,
    size: Size,
) -> Result<Encoder, Refusal>
    ensures { result ≡ run_parts (bounds_parts trap bounds register size) (Ok e) }
{
    let e = e.operation(
        0,
        encode_state::standard_size(size),
        3,
        isa_operands::ea_field(bounds),
    );
    let e = e.register(encode_state::number_of_register(register))?;
    let word = encode_state::general(register) * 4096 + encode_state::bit(trap) * 2048;
    let e = e.word(word);
    encode_ea::effective(e, bounds, size, isa_operands::CONTROL, 49)
}

// ADDX SUBX ABCD SBCD: Dy,Dx or -(Ay),-(Ax), y in bits 2 to 0 and x in bits 11 to 9.
#[tactic(auto, unfolding(encode_spec::specs::Arithmetic::extended_parts))]
pub fn extended(
    e: Encoder,
    line: u16,
    opmode: u16,
    source: Operand,
    destination: Operand,
) -> Result<Encoder, Refusal>
    requires { (line < 16) × (opmode < 8) }
    ensures { result ≡ run_parts (extended_parts line opmode source destination) (Ok e) }
{
    let y = 8 * isa_operands::memory_bit(source) + isa_operands::register_field(source);
    let e = e.operation(line, isa_operands::register_field(destination), opmode, y);
    let e = e.allow(isa_operands::paired(source, destination), 62)?;
    let e = e.register(isa_operands::register_number(destination))?;
    e.register(isa_operands::register_number(source))
}

// CMPM: (Ay)+,(Ax)+.
#[tactic(auto, unfolding(encode_spec::specs::Arithmetic::cmpm_parts))]
pub fn cmpm(
    e: Encoder,
    source: Operand,
    destination: Operand,
    size: Size,
) -> Result<Encoder, Refusal>
    ensures { result ≡ run_parts (cmpm_parts source destination size) (Ok e) }
{
    let ea = 8 + isa_operands::register_field(source);
    let e = e.operation(
        11,
        isa_operands::register_field(destination),
        4 + encode_state::standard_size(size),
        ea,
    );
    let Operand::PostIndirect(y) = source else {
        return Err(Refusal::NoEncoding(41));
    };
    let Operand::PostIndirect(x) = destination else {
        return Err(Refusal::NoEncoding(41));
    };
    let e = e.register(x)?;
    e.register(y)
}

// The bit that says signed.
pub fn signed_bit(sign: Sign) -> u16
    ensures { (result ≡ signed_bit sign) × (result < 2) }
{
    match sign {
        Sign::Signed => 1,
        Sign::Unsigned => 0,
    }
}

// The number of the high register, 0 where there is none.
pub fn high_number(high: Option<u8>) -> u8
    ensures { result ≡ high_number high }
{
    match high {
        None => 0,
        Some(n) => n,
    }
}

// Its bits in the extension word, with the one that says a 64-bit product.
pub fn high_bits(high: Option<u8>) -> u16
    ensures { (result ≡ high_bits high) × (result < 2048) }
{
    match high {
        None => 0,
        Some(n) => 1024 + (n % 8) as u16,
    }
}

// MULS.L MULU.L.
#[tactic(auto, unfolding(encode_spec::specs::Arithmetic::mull_parts))]
#[inline(never)]
pub fn mull(
    e: Encoder,
    source: &Operand,
    low: u8,
    high: Option<u8>,
    sign: Sign,
) -> Result<Encoder, Refusal>
    ensures { result ≡ run_parts (mull_parts source.now low high sign) (Ok e) }
{
    let e = e.operation(4, 6, 0, isa_operands::ea_field(*source));
    let e = e.register(high_number(high))?;
    let e = e.register(low)?;
    let upper = (low % 8) as u16 * 4096 + signed_bit(sign) * 2048;
    let e = e.word(upper + high_bits(high));
    encode_ea::effective(e, *source, Size::Long, isa_operands::DATA, 28)
}

// DIVS.L DIVU.L and their long forms.
#[tactic(auto, unfolding(encode_spec::specs::Arithmetic::divl_parts))]
#[inline(never)]
pub fn divl(
    e: Encoder,
    source: &Operand,
    quotient: u8,
    remainder: u8,
    wide: bool,
    sign: Sign,
) -> Result<Encoder, Refusal>
    ensures { result ≡ run_parts (divl_parts source.now quotient remainder wide sign) (Ok e) }
{
    let e = e.operation(4, 6, 1, isa_operands::ea_field(*source));
    let e = e.register(quotient)?;
    let e = e.register(remainder)?;
    let upper = (quotient % 8) as u16 * 4096
        + signed_bit(sign) * 2048
        + encode_state::bit(wide) * 1024;
    let e = e.word(upper + (remainder % 8) as u16);
    encode_ea::effective(e, *source, Size::Long, isa_operands::DATA, 29)
}

// TST: any operand, an address register not as a byte.
#[tactic(auto, unfolding(encode_spec::specs::Arithmetic::tst_parts, encode_spec::specs::Ea::single))]
pub fn tst(e: Encoder, target: Operand, size: Size) -> Result<Encoder, Refusal>
    ensures { result ≡ run_parts (tst_parts target size) (Ok e) }
{
    let e = e.allow(!isa_operands::byte_of_address(size, target), 7)?;
    encode_ea::single(
        e,
        4,
        5,
        encode_state::standard_size(size),
        target,
        size,
        isa_operands::ALL,
        12,
    )
}

// The opmode of EXT from a byte.
pub fn byte_opmode(to: Size) -> u16
    ensures { (result ≡ ext_opmode width.Byte to) × (result < 8) }
{
    match to {
        Size::Byte => 0,
        Size::Word => 2,
        Size::Long => 7,
    }
}

// From a word.
pub fn word_opmode(to: Size) -> u16
    ensures { (result ≡ ext_opmode width.Word to) × (result < 8) }
{
    match to {
        Size::Byte => 0,
        Size::Word => 0,
        Size::Long => 3,
    }
}

// From a long, which EXT does not widen.
pub fn long_opmode(to: Size) -> u16
    ensures { (result ≡ ext_opmode width.Long to) × (result < 8) }
{
    match to {
        Size::Byte => 0,
        Size::Word => 0,
        Size::Long => 0,
    }
}

// The opmode of EXT, 0 where there is none.
pub fn ext_opmode(from: Size, to: Size) -> u16
    ensures { (result ≡ ext_opmode from to) × (result < 8) }
{
    match from {
        Size::Byte => byte_opmode(to),
        Size::Word => word_opmode(to),
        Size::Long => long_opmode(to),
    }
}

// EXT.W EXT.L EXTB.L.
#[tactic(auto, unfolding(encode_spec::specs::Arithmetic::ext_parts))]
#[inline(never)]
pub fn ext(e: Encoder, register: RegisterOperand, from: Size, to: Size) -> Result<Encoder, Refusal>
    ensures { result ≡ run_parts (ext_parts register from to) (Ok e) }
{
    let opmode = ext_opmode(from, to);
    let e = e.operation(4, 4, opmode, encode_state::register_bits(register));
    let e = e.allow(opmode != 0, 19)?;
    e.data_register(register)
}

// SWAP.
#[tactic(auto, unfolding(encode_spec::specs::Arithmetic::swap_parts))]
pub fn swap(e: Encoder, register: RegisterOperand) -> Result<Encoder, Refusal>
    ensures { result ≡ run_parts (swap_parts register) (Ok e) }
{
    let e = e.operation(4, 4, 1, encode_state::register_bits(register));
    e.data_register(register)
}
