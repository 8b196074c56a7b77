// Data movement.
#![tactic(auto)]

ghost use Rattle.std.specs.Prelude.{◌≡◌, ◌<◌, Ok};
ghost use Rattle.encode_spec.specs.Movement.{move_parts, movea_parts, movem_reason, movem_parts, movep_parts, moveq_parts, is_address, exg_opmode, exg_parts, link_parts, linkl_parts, unlk_parts};
ghost use Rattle.encode_spec.specs.Ea.{effective};
ghost use Rattle.isa_spec.specs.Mode.{only};
ghost use Rattle.isa.specs.declared.Size.TheVariants.{Word};
ghost use Rattle.encode_state.specs.Encoder.{run, run_parts, next_address};

use encode_state::{Encoder, Refusal};
use isa::{Field, Operand, RegisterOperand, Size, TargetDirection};

// MOVE: the destination's register stands before its mode.
#[tactic(auto, unfolding(encode_spec::specs::Movement::move_parts))]
pub fn move_data(
    e: Encoder,
    source: Operand,
    destination: Operand,
    size: Size,
) -> Result<Encoder, Refusal>
    ensures { result ≡ run_parts (move_parts source destination size) (Ok e) }
{
    let x = isa_operands::register_field(destination);
    let opmode = isa_operands::mode_field(destination);
    let e = e.operation(
        encode_state::move_size(size),
        x,
        opmode,
        isa_operands::ea_field(source),
    );
    let e = e.allow(!isa_operands::byte_of_address(size, source), 7)?;
    let e = encode_ea::effective(e, source, size, isa_operands::ALL, 8)?;
    encode_ea::effective(e, destination, size, isa_operands::DATA_ALTERABLE, 9)
}

// MOVEA.
#[tactic(auto, unfolding(encode_spec::specs::Movement::movea_parts, encode_spec::specs::Ea::with_address))]
pub fn movea(
    e: Encoder,
    source: Operand,
    register: RegisterOperand,
    size: Size,
) -> Result<Encoder, Refusal>
    ensures { result ≡ run_parts (movea_parts source register size) (Ok e) }
{
    let e = e.allow(!encode_state::is_byte(size), 10)?;
    encode_ea::with_address(
        e,
        encode_state::move_size(size),
        register,
        1,
        source,
        size,
        isa_operands::ALL,
        11,
    )
}

// The refusal where its mode is another.
pub fn movem_reason(direction: TargetDirection) -> u8
    ensures { result ≡ movem_reason direction }
{
    match direction {
        TargetDirection::ToMemory => 21,
        TargetDirection::FromMemory => 22,
    }
}

// MOVEM: the mask before the operand's words.
#[tactic(auto, unfolding(encode_spec::specs::Movement::movem_parts))]
#[inline(never)]
pub fn movem(
    e: Encoder,
    direction: TargetDirection,
    size: Size,
    registers_mask: u16,
    target: &Operand,
) -> Result<Encoder, Refusal>
    ensures { result ≡ run_parts (movem_parts direction size registers_mask target.now) (Ok e) }
{
    let x = 4 + 2 * encode_state::from_memory(direction);
    let opmode = 2 + encode_state::long_bit(size);
    let e = e.operation(4, x, opmode, isa_operands::ea_field(*target));
    let e = e.allow(!encode_state::is_byte(size), 20)?;
    let e = e.word(registers_mask);
    encode_ea::effective(
        e,
        *target,
        size,
        isa_operands::movem_modes(direction),
        movem_reason(direction),
    )
}

// MOVEP reaches memory through d16(An) only.
pub fn movep_operand(e: Encoder, target: Operand) -> Result<Encoder, Refusal>
    ensures { result ≡ run (effective target Word (only 5) 5 (next_address e)) (Ok e) }
{
    let Operand::IndirectDisplacement { offset, base } = target else {
        return Err(Refusal::NoEncoding(5));
    };
    encode_ea::displaced(e, offset, base)
}

// MOVEP.
#[tactic(auto, unfolding(encode_spec::specs::Movement::movep_parts))]
pub fn movep(
    e: Encoder,
    direction: TargetDirection,
    size: Size,
    register: RegisterOperand,
    target: Operand,
) -> Result<Encoder, Refusal>
    ensures { result ≡ run_parts (movep_parts direction size register target) (Ok e) }
{
    let x = encode_state::register_bits(register);
    let opmode = 4 + 2 * encode_state::to_memory(direction) + encode_state::long_bit(size);
    let e = e.operation(0, x, opmode, 8 + isa_operands::register_field(target));
    let e = e.data_register(register)?;
    let e = movep_operand(e, target)?;
    e.allow(!encode_state::is_byte(size), 6)
}

// MOVEQ: the data in bits 7 to 0.
#[tactic(auto, unfolding(encode_spec::specs::Movement::moveq_parts))]
pub fn moveq(e: Encoder, value: u8, register: RegisterOperand) -> Result<Encoder, Refusal>
    ensures { result ≡ run_parts (moveq_parts value register) (Ok e) }
{
    let x = encode_state::register_bits(register);
    let e = e.operation(7, x, (value / 64) as u16, (value % 64) as u16);
    e.data_register(register)
}

// Whether a register is an address register.
pub fn is_address(r: RegisterOperand) -> bool
    ensures { result ≡ is_address r }
{
    match r {
        RegisterOperand::Data(_) => false,
        RegisterOperand::Address(_) => true,
    }
}

// The opmode of EXG, which differs where a data and an address register change places.
pub fn exg_opmode(first: RegisterOperand, second: RegisterOperand) -> u16
    ensures { (result ≡ exg_opmode first second) × (result < 8) }
{
    5 + encode_state::bit(!is_address(first) & is_address(second))
}

// EXG.
#[tactic(auto, unfolding(encode_spec::specs::Movement::exg_parts))]
#[inline(never)]
pub fn exg(e: Encoder, first: RegisterOperand, second: RegisterOperand) -> Result<Encoder, Refusal>
    ensures { result ≡ run_parts (exg_parts first second) (Ok e) }
{
    let x = encode_state::register_bits(first);
    let e = e.operation(
        12,
        x,
        exg_opmode(first, second),
        encode_state::general(second),
    );
    let e = e.allow(!is_address(first) | is_address(second), 43)?;
    let e = e.register(encode_state::number_of_register(first))?;
    e.register(encode_state::number_of_register(second))
}

// LINK with a word.
#[tactic(auto, unfolding(encode_spec::specs::Movement::link_parts))]
pub fn link(e: Encoder, register: RegisterOperand, displacement: u32) -> Result<Encoder, Refusal>
    ensures { result ≡ run_parts (link_parts register displacement) (Ok e) }
{
    let e = e.operation(4, 7, 1, 16 + encode_state::register_bits(register));
    let e = e.address_register(register)?;
    encode_ea::word_displacement(
        e,
        Field::LinkDisplacement,
        base_signed::to_signed(displacement),
    )
}

// LINK with a long.
#[tactic(auto, unfolding(encode_spec::specs::Movement::linkl_parts))]
pub fn linkl(e: Encoder, register: RegisterOperand, displacement: u32) -> Result<Encoder, Refusal>
    ensures { result ≡ run_parts (linkl_parts register displacement) (Ok e) }
{
    let e = e.operation(4, 4, 0, 8 + encode_state::register_bits(register));
    let e = e.address_register(register)?;
    Ok(e.long(displacement))
}

// UNLK.
#[tactic(auto, unfolding(encode_spec::specs::Movement::unlk_parts))]
pub fn unlk(e: Encoder, register: RegisterOperand) -> Result<Encoder, Refusal>
    ensures { result ≡ run_parts (unlk_parts register) (Ok e) }
{
    let e = e.operation(4, 7, 1, 24 + encode_state::register_bits(register));
    e.address_register(register)
}
