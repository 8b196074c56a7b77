// The extension words of an effective address, and the forms that most instructions have.
#![tactic(auto)]

ghost use Rattle.std.specs.Prelude.{◌≡◌, ◌<◌, ◌∷◌, Ok};
ghost use Rattle.encode_spec.specs.Item.{check};
ghost use Rattle.encode_spec.specs.Item as item;
ghost use Rattle.isa_facts.specs.Mode.{column_of};
ghost use Rattle.encode_spec.specs.Ea.{distance, word_items, immediate_words, immediate_items, index_size_verdict, brief_items, displacement_items, base_displacement, full_items, brief_field, scaled_items, extended_items, absolute_items, ea_items};
ghost use Rattle.encode_spec.specs.Ea as ea;
ghost use Rattle.isa.specs.declared.Field.TheVariants as field;
ghost use Rattle.encode_state.specs.Encoder.{step, run, run_parts, next_address};

use encode_state::{Encoder, Refusal};
use isa::{AddressWidth, DisplacementSize, Field, IndexRegister, Operand, RegisterOperand, Size};
use isa_values::extension_word::ExtensionWord;
use isa_values::index_base::IndexBase;

// The signed distance from the next word.
pub fn distance(e: Encoder, target: u32) -> i64
    ensures { result ≡ distance target (next_address e) }
{
    base_signed::to_signed(base_signed::minus(target, e.next()))
}

// A displacement of one word.
pub fn word_displacement(e: Encoder, field: Field, z: i64) -> Result<Encoder, Refusal>
    ensures { result ≡ run (word_items field z) (Ok e) }
{
    let e = e.fits(field, z)?;
    Ok(e.word(base_signed::low16(z)))
}

// A word that holds the distance from itself.
pub fn displacement_to(e: Encoder, target: u32, field: Field) -> Result<Encoder, Refusal>
    ensures { result ≡ run (word_items field (distance target (next_address e))) (Ok e) }
{
    word_displacement(e, field, distance(e, target))
}

// The words of an immediate.
pub fn immediate_words(e: Encoder, v: u32, size: Size) -> Result<Encoder, Refusal>
    ensures { result ≡ run (immediate_words v size) (Ok e) }
{
    match size {
        Size::Byte => Ok(e.word((v % 256) as u16)),
        Size::Word => Ok(e.word((v % 65536) as u16)),
        Size::Long => Ok(e.long(v)),
    }
}

// An immediate of a size.
pub fn immediate(e: Encoder, v: u32, size: Size) -> Result<Encoder, Refusal>
    ensures { result ≡ run (immediate_items v size) (Ok e) }
{
    let e = e.fits(Field::Immediate(size), v as i64)?;
    immediate_words(e, v, size)
}

// An index register is a word or a long.
pub fn index_size(e: Encoder, size: Size) -> Result<Encoder, Refusal>
    ensures { result ≡ step e (check (index_size_verdict size)) }
{
    match size {
        Size::Byte => Err(Refusal::NoEncoding(4)),
        Size::Word => Ok(e),
        Size::Long => Ok(e),
    }
}

// The brief extension word.
pub fn brief(e: Encoder, index: IndexRegister, z: i64, field: Field) -> Result<Encoder, Refusal>
    ensures { result ≡ run (brief_items index z field) (Ok e) }
{
    let register = index.register;
    let size = index.size;
    let e = e.fits(field, z)?;
    let e = e.register(encode_state::number_of_register(register))?;
    let e = index_size(e, size)?;
    let upper = encode_state::general(register) * 4096 + encode_state::long_bit(size) * 2048;
    Ok(e.word(upper + base_signed::low8(z)))
}

// A base or outer displacement of the full extension word.
pub fn displacement(
    e: Encoder,
    size: DisplacementSize,
    z: i64,
    field: Field,
) -> Result<Encoder, Refusal>
    ensures { result ≡ run (displacement_items size z field) (Ok e) }
{
    match size {
        DisplacementSize::Null => e.fits(Field::NullDisplacement, z),
        DisplacementSize::Word => word_displacement(e, field, z),
        DisplacementSize::Long => Ok(e.long(base_signed::low32(z))),
    }
}

// The base displacement as it is written.
pub fn base_displacement(e: Encoder, base: u8, word: u16, displacement: i32) -> i64
    ensures { result ≡ base_displacement base word displacement (next_address e) }
{
    let z = base_signed::wide(displacement);
    if isa_operands::from_pc(base, word) {
        distance(e, base_signed::low32(z))
    } else {
        z
    }
}

// The full extension word and its displacements.
pub fn full(e: Encoder, word: u16, z: i64, outer: i32) -> Result<Encoder, Refusal>
    ensures { result ≡ run (full_items word z outer) (Ok e) }
{
    let e = e.word(word);
    let e = displacement(
        e,
        ExtensionWord(word).base_displacement_size(),
        z,
        Field::BaseDisplacement,
    )?;
    displacement(
        e,
        ExtensionWord(word).outer_displacement_size(),
        base_signed::wide(outer),
        Field::OuterDisplacement,
    )
}

// The field of a brief extension word's displacement.
pub fn brief_field(base: u8) -> Field
    ensures { result ≡ brief_field base }
{
    if IndexBase(base).is_pc() {
        Field::PcIndex
    } else {
        Field::IndexDisplacement
    }
}

// A brief extension word kept with its scale.
pub fn scaled(e: Encoder, base: u8, word: u16, z: i64) -> Result<Encoder, Refusal>
    ensures { result ≡ run (scaled_items base word z) (Ok e) }
{
    let e = e.fits(brief_field(base), z)?;
    Ok(e.word(word / 256 * 256 + base_signed::low8(z)))
}

// The words of an Extended operand.
pub fn extended_index(
    e: Encoder,
    base: u8,
    word: u16,
    displacement: i32,
    outer: i32,
) -> Result<Encoder, Refusal>
    ensures { result ≡ run (extended_items base word displacement outer (next_address e)) (Ok e) }
{
    let z = base_displacement(e, base, word, displacement);
    if ExtensionWord(word).is_full() {
        full(e, word, z, outer)
    } else {
        scaled(e, base, word, z)
    }
}

// An absolute address.
pub fn absolute(e: Encoder, address: u64, width: AddressWidth) -> Result<Encoder, Refusal>
    ensures { result ≡ run (absolute_items address width) (Ok e) }
{
    let e = e.fits(Field::LongAddress, base_signed::to_signed64(address))?;
    match width {
        AddressWidth::Word => {
            let e = e.fits(
                Field::ShortAddress,
                base_signed::to_signed((address % 4294967296) as u32),
            )?;
            Ok(e.word((address % 65536) as u16))
        }
        AddressWidth::Long => Ok(e.long((address % 4294967296) as u32)),
    }
}

// d16(An).
pub fn displaced(e: Encoder, offset: i32, base: RegisterOperand) -> Result<Encoder, Refusal>
    ensures { result ≡ run (item.address_register base ∷ word_items field.Displacement offset) (Ok e) }
{
    let e = e.address_register(base)?;
    word_displacement(e, Field::Displacement, base_signed::wide(offset))
}

// d8(An,Xn).
pub fn indexed(
    e: Encoder,
    base: RegisterOperand,
    offset: i32,
    index: IndexRegister,
) -> Result<Encoder, Refusal>
    ensures { result ≡ run (item.address_register base ∷ brief_items index offset field.IndexDisplacement) (Ok e) }
{
    let e = e.address_register(base)?;
    brief(
        e,
        index,
        base_signed::wide(offset),
        Field::IndexDisplacement,
    )
}

// d8(PC,Xn).
pub fn pc_indexed(e: Encoder, target: u32, index: IndexRegister) -> Result<Encoder, Refusal>
    ensures { result ≡ run (brief_items index (distance target (next_address e)) field.PcIndex) (Ok e) }
{
    brief(e, index, distance(e, target), Field::PcIndex)
}

// The extension words of an operand, with the checks before each.
pub fn ea(e: Encoder, operand: Operand, size: Size) -> Result<Encoder, Refusal>
    ensures { result ≡ run (ea_items operand size (next_address e)) (Ok e) }
{
    match operand {
        Operand::Immediate(v) => immediate(e, v, size),
        Operand::Register(r) => e.register(encode_state::number_of_register(r)),
        Operand::Indirect(n) => e.register(n),
        Operand::PostIndirect(n) => e.register(n),
        Operand::PreIndirect(n) => e.register(n),
        Operand::IndirectDisplacement { offset, base } => displaced(e, offset, base),
        Operand::IndirectIndex {
            base,
            offset,
            index,
        } => indexed(e, base, offset, index),
        Operand::PcDisplacement { target } => displacement_to(e, target, Field::PcDisplacement),
        Operand::PcIndex { target, index } => pc_indexed(e, target, index),
        Operand::Extended {
            base,
            word,
            displacement,
            outer,
        } => extended_index(e, base, word, displacement, outer),
        Operand::Absolute { address, width } => absolute(e, address, width),
    }
}

// An operand in one of the modes allowed.
pub fn effective(
    e: Encoder,
    operand: Operand,
    size: Size,
    allowed: u16,
    reason: u8,
) -> Result<Encoder, Refusal>
    ensures { result ≡ run (ea.effective operand size (column_of allowed) reason (next_address e)) (Ok e) }
{
    let e = e.allow(isa_operands::permitted(allowed, operand), reason)?;
    ea(e, operand, size)
}

// Refusal 1 of an operand.
pub fn typed(e: Encoder, operand: Operand) -> Result<Encoder, Refusal>
    ensures { result ≡ step e (ea.typed operand) }
{
    e.well_formed(isa_operands::is_typed(operand))
}

// An operation word and an effective address.
#[tactic(auto, unfolding(encode_spec::specs::Ea::single))]
pub fn single(
    e: Encoder,
    line: u16,
    x: u16,
    opmode: u16,
    operand: Operand,
    size: Size,
    allowed: u16,
    reason: u8,
) -> Result<Encoder, Refusal>
    requires { (line < 16) × (x < 8) × (opmode < 8) }
    ensures { result ≡ run_parts (ea.single line x opmode operand size (column_of allowed) reason) (Ok e) }
{
    let e = e.operation(line, x, opmode, isa_operands::ea_field(operand));
    effective(e, operand, size, allowed, reason)
}

// The same with a data register in bits 11 to 9.
#[tactic(auto, unfolding(encode_spec::specs::Ea::with_data))]
pub fn with_data(
    e: Encoder,
    line: u16,
    register: RegisterOperand,
    opmode: u16,
    operand: Operand,
    size: Size,
    allowed: u16,
    reason: u8,
) -> Result<Encoder, Refusal>
    requires { (line < 16) × (opmode < 8) }
    ensures { result ≡ run_parts (ea.with_data line register opmode operand size (column_of allowed) reason) (Ok e) }
{
    let e = e.operation(
        line,
        encode_state::register_bits(register),
        opmode,
        isa_operands::ea_field(operand),
    );
    let e = e.data_register(register)?;
    effective(e, operand, size, allowed, reason)
}

// The same with an address register there.
#[tactic(auto, unfolding(encode_spec::specs::Ea::with_address))]
pub fn with_address(
    e: Encoder,
    line: u16,
    register: RegisterOperand,
    opmode: u16,
    operand: Operand,
    size: Size,
    allowed: u16,
    reason: u8,
) -> Result<Encoder, Refusal>
    requires { (line < 16) × (opmode < 8) }
    ensures { result ≡ run_parts (ea.with_address line register opmode operand size (column_of allowed) reason) (Ok e) }
{
    let e = e.operation(
        line,
        encode_state::register_bits(register),
        opmode,
        isa_operands::ea_field(operand),
    );
    let e = e.address_register(register)?;
    effective(e, operand, size, allowed, reason)
}

// A data register into memory or another data register.
#[tactic(auto, unfolding(encode_spec::specs::Ea::from_data, encode_spec::specs::Ea::with_data))]
pub fn from_data(
    e: Encoder,
    line: u16,
    allowed: u16,
    reason: u8,
    source: Operand,
    destination: Operand,
    size: Size,
) -> Result<Encoder, Refusal>
    requires { line < 16 }
    ensures { result ≡ run_parts (ea.from_data line (column_of allowed) reason source destination size) (Ok e) }
{
    let e = e.allow(isa_operands::is_register(source), 3)?;
    with_data(
        e,
        line,
        isa_operands::register_in(source),
        4 + encode_state::standard_size(size),
        destination,
        size,
        allowed,
        reason,
    )
}
