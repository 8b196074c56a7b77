// The values of an instruction as fields of words.
ghost use Rattle.std.specs.Prelude.{◌≡◌, ◌<◌};
ghost use Rattle.isa_spec.specs.Code.{size_code, move_code, is_byte, is_word, long_bit, bit, number_of_register, register_bits, general, to_memory, from_memory};

use isa::{RegisterOperand, Size, TargetDirection};

/// The number of a register.
pub fn number_of_register(r: RegisterOperand) -> u8
    ensures { result ≡ number_of_register r }
{
    match r {
        RegisterOperand::Data(n) | RegisterOperand::Address(n) => n,
    }
}

/// Its three bits.
pub fn register_bits(r: RegisterOperand) -> u16
    ensures { (result ≡ register_bits r) × (result < 8) }
{
    u16::from(number_of_register(r) % 8)
}

/// D/A and the three bits.
pub fn general(r: RegisterOperand) -> u16
    ensures { (result ≡ general r) × (result < 16) }
{
    match r {
        RegisterOperand::Data(n) => u16::from(n % 8),
        RegisterOperand::Address(n) => 8 + u16::from(n % 8),
    }
}

/// The size in two bits: byte 00, word 01, long 10.
pub fn standard_size(size: Size) -> u16
    ensures { (result ≡ size_code size) × (result < 3) }
{
    size as u16
}

/// The size of MOVE and MOVEA: byte 01, word 11, long 10.
pub fn move_size(size: Size) -> u16
    ensures { (result ≡ move_code size) × (result < 4) }
{
    match size {
        Size::Byte => 1,
        Size::Word => 3,
        Size::Long => 2,
    }
}

pub fn is_byte(size: Size) -> bool
    ensures { result ≡ is_byte size }
{
    matches!(size, Size::Byte)
}

pub fn is_word(size: Size) -> bool
    ensures { result ≡ is_word size }
{
    matches!(size, Size::Word)
}

/// The bit that says long.
pub fn long_bit(size: Size) -> u16
    ensures { (result ≡ long_bit size) × (result < 2) }
{
    bit(matches!(size, Size::Long))
}

pub fn bit(b: bool) -> u16
    ensures { (result ≡ bit b) × (result < 2) }
{
    u16::from(b)
}

/// The bit that says to memory.
pub fn to_memory(direction: TargetDirection) -> u16
    ensures { (result ≡ to_memory direction) × (result < 2) }
{
    bit(matches!(direction, TargetDirection::ToMemory))
}

/// The bit that says from memory.
pub fn from_memory(direction: TargetDirection) -> u16
    ensures { (result ≡ from_memory direction) × (result < 2) }
{
    bit(matches!(direction, TargetDirection::FromMemory))
}
