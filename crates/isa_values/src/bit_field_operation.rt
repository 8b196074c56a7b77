// The bit-field operations.
ghost use Rattle.std.specs.Prelude.{◌≡◌, ◌<◌};
ghost use Rattle.encode_spec.specs.Bits.{bit_field_code, writes};
ghost use Rattle.isa_values.specs.BitFieldOperation.{has_register, bit_field_of};

use isa::BitFieldOperation;

/// The eight, in the order of their code.
pub const ALL: [BitFieldOperation; 8] = [
    BitFieldOperation::Test,
    BitFieldOperation::ExtractUnsigned,
    BitFieldOperation::Change,
    BitFieldOperation::ExtractSigned,
    BitFieldOperation::Clear,
    BitFieldOperation::FindFirstOne,
    BitFieldOperation::Set,
    BitFieldOperation::Insert,
];

// A const is laid out anew where it is indexed.
static BY_CODE: [BitFieldOperation; 8] = ALL;

/// The operation of the low three bits.
pub fn from_code(code: u16) -> BitFieldOperation
    ensures { result ≡ bit_field_of code }
{
    BY_CODE[usize::from(code % 8)]
}

/// Whether it names a data register beside the field.
pub fn has_register(operation: BitFieldOperation) -> bool
    ensures { result ≡ has_register operation }
{
    (operation as u16) % 2 == 1
}

/// Whether it writes the field back.
pub fn writes(operation: BitFieldOperation) -> bool
    ensures { result ≡ writes operation }
{
    matches!(
        operation,
        BitFieldOperation::Change
            | BitFieldOperation::Clear
            | BitFieldOperation::Set
            | BitFieldOperation::Insert
    )
}

/// Its code, three bits.
pub fn code(operation: BitFieldOperation) -> u16
    ensures { (result ≡ bit_field_code operation) × (result < 8) }
{
    operation as u16
}
