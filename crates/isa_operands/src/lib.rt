// What an operand is: its mode, its fields, and what it holds.
#![tactic(auto)]

ghost use Rattle.std.specs.Prelude.{◌≡◌, ◌<◌, ◌&&◌};
ghost use Rattle.encode_spec.specs.Ea.{register_mode, absolute_mode, extended_mode, mode_of, permits, byte_of_address, extended_mode_field, mode_field, extended_register_field, absolute_register_field, register_field, ea_field, from_pc, is_typed, is_register, is_immediate, register_in, immediate_in, register_number, both_of, paired, memory_bit};
ghost use Rattle.encode_spec.specs.Movement.{movem_modes};
ghost use Rattle.isa_facts.specs.Mode.{column_of};
ghost use Rattle.isa_operands.specs.Mode.{mode_number};
ghost use Rattle.isa_spec.specs.ExtensionWord.{is_canonical};
ghost use Rattle.isa_spec.specs.IndexBase.{is_base};
ghost use Rattle.isa_spec.specs.Mode.{bits};

use isa::{AddressWidth, Operand, RegisterOperand, Size, TargetDirection};
use isa_values::code;
use isa_values::extension_word::ExtensionWord;
use isa_values::index_base::IndexBase;

/// The addressing modes, by their rows in table 2-4 of the manual.
#[derive(Clone, Copy)]
pub enum Mode {
    DataRegister = 0,
    AddressRegister = 1,
    Indirect = 2,
    PostIndirect = 3,
    PreIndirect = 4,
    Displacement = 5,
    Index = 6,
    ShortAddress = 7,
    LongAddress = 8,
    PcDisplacement = 9,
    PcIndex = 10,
    Immediate = 11,
}

impl Mode {
    /// Its number, 0 to 11.
    pub fn number(self) -> u16
        ensures { (result ≡ mode_number self) × (result < 12) }
    {
        self as u16
    }
}

// The sets of modes that operands are taken from, bit n for mode n (the manual, table 2-4).
pub const ALL: u16 = 0b1111_1111_1111;

pub const DATA: u16 = 0b1111_1111_1101;

pub const ALTERABLE: u16 = 0b0001_1111_1111;

pub const DATA_ALTERABLE: u16 = 0b0001_1111_1101;

pub const MEMORY_ALTERABLE: u16 = 0b0001_1111_1100;

pub const CONTROL: u16 = 0b0111_1110_0100;

pub const DATA_NOT_IMMEDIATE: u16 = 0b0111_1111_1101;

pub const MOVEM_TO_MEMORY: u16 = 0b0001_1111_0100;

pub const MOVEM_FROM_MEMORY: u16 = 0b0111_1110_1100;

pub const BIT_FIELD_READ: u16 = 0b0111_1110_0101;

pub const BIT_FIELD_WRITTEN: u16 = 0b0001_1110_0101;

/// The modes of MOVEM's operand.
pub fn movem_modes(direction: TargetDirection) -> u16
    ensures { result ≡ bits (movem_modes direction) }
{
    match direction {
        TargetDirection::ToMemory => MOVEM_TO_MEMORY,
        TargetDirection::FromMemory => MOVEM_FROM_MEMORY,
    }
}

/// The mode of a register.
pub fn register_mode(r: RegisterOperand) -> Mode
    ensures { (mode_number result ≡ register_mode r) × (mode_number result < 2) }
{
    match r {
        RegisterOperand::Data(_) => Mode::DataRegister,
        RegisterOperand::Address(_) => Mode::AddressRegister,
    }
}

/// The mode of an absolute address.
pub fn absolute_mode(width: AddressWidth) -> Mode
    ensures { (mode_number result ≡ absolute_mode width) × (mode_number result < 12) }
{
    match width {
        AddressWidth::Word => Mode::ShortAddress,
        AddressWidth::Long => Mode::LongAddress,
    }
}

/// The mode of an Extended operand.
pub fn extended_mode(base: u8) -> Mode
    ensures { (mode_number result ≡ extended_mode base) × (mode_number result < 12) }
{
    if IndexBase(base).is_pc() {
        Mode::PcIndex
    } else {
        Mode::Index
    }
}

/// The mode of an operand.
pub fn mode_of(operand: Operand) -> Mode
    ensures { (mode_number result ≡ mode_of operand) × (mode_number result < 12) }
{
    match operand {
        Operand::Register(r) => register_mode(r),
        Operand::Indirect(_) => Mode::Indirect,
        Operand::PostIndirect(_) => Mode::PostIndirect,
        Operand::PreIndirect(_) => Mode::PreIndirect,
        Operand::IndirectDisplacement { .. } => Mode::Displacement,
        Operand::IndirectIndex { .. } => Mode::Index,
        Operand::Extended { base, .. } => extended_mode(base),
        Operand::Absolute { width, .. } => absolute_mode(width),
        Operand::PcDisplacement { .. } => Mode::PcDisplacement,
        Operand::PcIndex { .. } => Mode::PcIndex,
        Operand::Immediate(_) => Mode::Immediate,
    }
}

/// Whether a set of modes has the operand's.
pub fn permitted(allowed: u16, operand: Operand) -> bool
    ensures { result ≡ permits (column_of allowed) operand }
{
    (allowed >> mode_of(operand).number()) % 2 == 1
}

/// A byte of an address register.
#[tactic(auto, unfolding(encode_spec::specs::Ea::byte_of_address))]
pub fn byte_of_address(size: Size, operand: Operand) -> bool
    ensures { result ≡ byte_of_address size operand }
{
    code::is_byte(size) & matches!(operand, Operand::Register(RegisterOperand::Address(_)))
}

/// Whether the base displacement of an Extended operand is measured from the extension word.
pub fn from_pc(base: u8, word: u16) -> bool
    ensures { result ≡ from_pc base word }
{
    IndexBase(base).is_pc() & !ExtensionWord(word).base_suppressed()
}

/// The mode field of an Extended operand.
pub fn extended_mode_field(base: u8) -> u16
    ensures { (result ≡ extended_mode_field base) × (result < 8) }
{
    match IndexBase(base).address_register() {
        Some(_) => 6,
        None => 7,
    }
}

/// The mode field, three bits.
pub fn mode_field(operand: Operand) -> u16
    ensures { (result ≡ mode_field operand) × (result < 8) }
{
    match operand {
        Operand::Register(r) => register_mode(r).number(),
        Operand::Indirect(_) => 2,
        Operand::PostIndirect(_) => 3,
        Operand::PreIndirect(_) => 4,
        Operand::IndirectDisplacement { .. } => 5,
        Operand::IndirectIndex { .. } => 6,
        Operand::Extended { base, .. } => extended_mode_field(base),
        Operand::PcDisplacement { .. }
        | Operand::PcIndex { .. }
        | Operand::Absolute { .. }
        | Operand::Immediate(_) => 7,
    }
}

/// The register field of an Extended operand.
pub fn extended_register_field(base: u8) -> u16
    ensures { (result ≡ extended_register_field base) × (result < 8) }
{
    match IndexBase(base).address_register() {
        Some(n) => u16::from(n % 8),
        None => 3,
    }
}

/// The register field of an absolute address.
pub fn absolute_register_field(width: AddressWidth) -> u16
    ensures { (result ≡ absolute_register_field width) × (result < 8) }
{
    match width {
        AddressWidth::Word => 0,
        AddressWidth::Long => 1,
    }
}

/// The register field, three bits.
pub fn register_field(operand: Operand) -> u16
    ensures { (result ≡ register_field operand) × (result < 8) }
{
    match operand {
        Operand::Register(r) => code::register_bits(r),
        Operand::Indirect(n) | Operand::PostIndirect(n) | Operand::PreIndirect(n) => {
            u16::from(n % 8)
        }
        Operand::IndirectDisplacement { base, .. } | Operand::IndirectIndex { base, .. } => {
            code::register_bits(base)
        }
        Operand::Extended { base, .. } => extended_register_field(base),
        Operand::Absolute { width, .. } => absolute_register_field(width),
        Operand::PcDisplacement { .. } => 2,
        Operand::PcIndex { .. } => 3,
        Operand::Immediate(_) => 4,
    }
}

/// Mode and register, six bits.
pub fn ea_field(operand: Operand) -> u16
    ensures { (result ≡ ea_field operand) × (result < 64) }
{
    mode_field(operand) * 8 + register_field(operand)
}

/// An IndexBase up to 8, and a canonical word.
pub fn is_extended_typed(base: u8, word: u16) -> bool
    ensures { result ≡ (is_base base && is_canonical word) }
{
    IndexBase(base).is_base() & ExtensionWord(word).is_canonical()
}

/// Whether the operand is one of the type's (refusal 1).
pub fn is_typed(operand: Operand) -> bool
    ensures { result ≡ is_typed operand }
{
    match operand {
        Operand::Extended { base, word, .. } => is_extended_typed(base, word),
        _ => true,
    }
}

/// Whether the operand is a register.
pub fn is_register(operand: Operand) -> bool
    ensures { result ≡ is_register operand }
{
    matches!(operand, Operand::Register(_))
}

/// Whether the operand is an immediate.
pub fn is_immediate(operand: Operand) -> bool
    ensures { result ≡ is_immediate operand }
{
    matches!(operand, Operand::Immediate(_))
}

/// The register that an operand is, D0 where it is none.
pub fn register_in(operand: Operand) -> RegisterOperand
    ensures { result ≡ register_in operand }
{
    match operand {
        Operand::Register(r) => r,
        _ => RegisterOperand::Data(0),
    }
}

/// The immediate that an operand is, 0 where it is none.
pub fn immediate_in(operand: Operand) -> u32
    ensures { result ≡ immediate_in operand }
{
    match operand {
        Operand::Immediate(v) => v,
        _ => 0,
    }
}

/// The number of the register that an operand names by itself.
pub fn register_number(operand: Operand) -> u8
    ensures { result ≡ register_number operand }
{
    match operand {
        Operand::Register(r) => code::number_of_register(r),
        Operand::Indirect(n) | Operand::PostIndirect(n) | Operand::PreIndirect(n) => n,
        _ => 0,
    }
}

/// Whether two operands are of a mode.
pub fn both_of(mode: u16, x: Operand, y: Operand) -> bool
    ensures { result ≡ both_of mode x y }
{
    (mode_of(x).number() == mode) & (mode_of(y).number() == mode)
}

/// Dy,Dx or -(Ay),-(Ax).
pub fn paired(x: Operand, y: Operand) -> bool
    ensures { result ≡ paired x y }
{
    both_of(Mode::DataRegister.number(), x, y) | both_of(Mode::PreIndirect.number(), x, y)
}

/// The bit that says -(Ay),-(Ax).
pub fn memory_bit(x: Operand) -> u16
    ensures { (result ≡ memory_bit x) × (result < 2) }
{
    code::bit(matches!(x, Operand::PreIndirect(_)))
}
