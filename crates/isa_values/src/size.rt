// The width that an instruction works at.
ghost use Rattle.std.specs.Prelude.{◌≡◌, ◌<◌};
ghost use Rattle.isa_values.specs.Size.{byte_count, bit_count};

use isa::Size;

/// How many bytes it covers.
pub fn to_bytes(size: Size) -> usize
    ensures { (result ≡ byte_count size) × (result < 5) }
{
    match size {
        Size::Byte => 1,
        Size::Word => 2,
        Size::Long => 4,
    }
}

/// How many bits it covers.
pub fn to_bits(size: Size) -> usize
    ensures { (result ≡ bit_count size) × (result < 33) }
{
    to_bytes(size) * 8
}
