// The sixteen general registers.
ghost use Rattle.std.specs.Prelude.{◌≡◌, ◌<◌};
ghost use Rattle.isa_values.specs.RegisterOperand.{index_of};

use isa::RegisterOperand;

/// Where a register stands in a mask of MOVEM.
pub fn to_index(register: RegisterOperand) -> u16
    ensures { (result ≡ index_of register) × (result < 264) }
{
    match register {
        RegisterOperand::Address(number) => u16::from(number) + 8,
        RegisterOperand::Data(number) => u16::from(number),
    }
}
