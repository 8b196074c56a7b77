// Control registers, by their twelve-bit codes.
ghost use Rattle.std.specs.Prelude.{◌≡◌, ◌%◌, ◌<◌};
ghost use Rattle.isa_values.specs.ControlRegister.{processor_of};

use crate::processor::Processor;

/// The codes of the registers: of the MC68010,
pub const SFC: u16 = 0x000;

pub const DFC: u16 = 0x001;

pub const USP: u16 = 0x800;

pub const VBR: u16 = 0x801;

/// and those that the MC68020 adds.
pub const CACR: u16 = 0x002;

pub const CAAR: u16 = 0x802;

pub const MSP: u16 = 0x803;

pub const ISP: u16 = 0x804;

/// The control register of the low twelve bits.
pub fn from_code(code: u16) -> u16
    ensures { (result ≡ code % 4096) × (result < 4096) }
{
    code % 4096
}

/// The first processor that has the register of a code.
pub fn processor(code: u16) -> Option<Processor>
    ensures { result ≡ processor_of code }
{
    match code {
        SFC | DFC | USP | VBR => Some(Processor::M68010),
        CACR | CAAR | MSP | ISP => Some(Processor::M68020),
        _ => None,
    }
}
