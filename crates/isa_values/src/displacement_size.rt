// The widths of the displacements of a full extension word.
ghost use Rattle.std.specs.Prelude.{◌≡◌, ◌<◌};
ghost use Rattle.isa_spec.specs.ExtensionWord.{size_of_code};
ghost use Rattle.isa_values.specs.DisplacementSize.{displacement_bytes, displacement_code};

use isa::DisplacementSize;

/// The bytes it takes.
pub fn bytes(size: DisplacementSize) -> u32
    ensures { (result ≡ displacement_bytes size) × (result < 5) }
{
    match size {
        DisplacementSize::Null => 0,
        DisplacementSize::Word => 2,
        DisplacementSize::Long => 4,
    }
}

/// The two bits that say it.
pub fn code(size: DisplacementSize) -> u16
    ensures { (result ≡ displacement_code size) × (result < 4) }
{
    size as u16
}

/// The size that the low two bits say.
pub fn of_code(code: u16) -> DisplacementSize
    ensures { result ≡ size_of_code code }
{
    match code % 4 {
        2 => DisplacementSize::Word,
        3 => DisplacementSize::Long,
        _ => DisplacementSize::Null,
    }
}
