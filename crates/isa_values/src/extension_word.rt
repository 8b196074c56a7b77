// Extension words, and what they say.
ghost use Rattle.std.specs.Prelude.{◌≡◌, ◌^◌, ◌<◌};
ghost use Rattle.isa_spec.specs.ExtensionWord.{is_full, base_suppressed, index_suppressed, base_size, indirection_of, outer_size, index_reserved, is_canonical};
ghost use Rattle.isa_values.specs.ExtensionWord.{index_operand, index_size, index_register, scale_shift, index, extension_bytes, scale_code, index_bits, indirection_code, full_word};

use crate::code::{bit, general, long_bit};
use crate::displacement_size;
use isa::{DisplacementSize, IndexRegister, Indirection, RegisterOperand, Size};

/// The word as it is encoded.
#[derive(Clone, Copy)]
pub struct ExtensionWord(pub u16);

/// The bit of the full format, and its BS and IS.
pub const FULL: u16 = 0x0100;

pub const BASE_SUPPRESSED: u16 = 0x0080;

pub const INDEX_SUPPRESSED: u16 = 0x0040;

/// How far the extension word of a PC-relative operand usually stands from the instruction.
pub const EXTENSION_WORD_OFFSET: i32 = 2;

impl ExtensionWord {
    /// Whether it is the full format.
    pub fn is_full(self) -> bool
        ensures { result ≡ is_full self.0 }
    {
        self.0 >> 8 & 1 == 1
    }

    /// Whether the base register is suppressed.
    pub fn base_suppressed(self) -> bool
        ensures { result ≡ base_suppressed self.0 }
    {
        self.is_full() && self.0 >> 7 & 1 == 1
    }

    /// Whether the index is suppressed.
    pub fn index_suppressed(self) -> bool
        ensures { result ≡ index_suppressed self.0 }
    {
        self.is_full() && self.0 >> 6 & 1 == 1
    }

    /// The width of the base displacement of a full word.
    pub fn base_displacement_size(self) -> DisplacementSize
        ensures { result ≡ base_size self.0 }
    {
        displacement_size::of_code(self.0 >> 4)
    }

    /// Whether and how the address is read from memory.
    pub fn indirection(self) -> Indirection
        ensures { result ≡ indirection_of self.0 }
    {
        let low = self.0 % 8;
        if !self.is_full() | (low == 0) {
            Indirection::None
        } else if low < 4 {
            Indirection::Preindexed
        } else {
            Indirection::Postindexed
        }
    }

    /// The width of the outer displacement, null where there is no indirection.
    pub fn outer_displacement_size(self) -> DisplacementSize
        ensures { result ≡ outer_size self.0 }
    {
        match self.indirection() {
            Indirection::None => DisplacementSize::Null,
            Indirection::Preindexed | Indirection::Postindexed => {
                displacement_size::of_code(self.0)
            }
        }
    }

    // Whether the index bits or I/IS hold a reserved combination.
    fn index_reserved(self) -> bool
        ensures { result ≡ index_reserved self.0 }
    {
        let word = self.0;
        if self.index_suppressed() {
            (4 <= word % 8) | (word >> 9 != 0)
        } else {
            word % 8 == 4
        }
    }

    /// Whether an assembler writes this word.
    pub fn is_canonical(self) -> bool
        ensures { result ≡ is_canonical self.0 }
    {
        let word = self.0;
        let reserved = (word >> 4 & 3 == 0) | (word >> 3 & 1 == 1) | self.index_reserved();
        !self.is_full() | !reserved
    }

    // The register that is the index.
    fn index_operand(self) -> RegisterOperand
        ensures { result ≡ index_operand self.0 }
    {
        let word = self.0;
        let number = (word >> 12 & 7) as u8;
        if word >> 15 == 1 {
            RegisterOperand::Address(number)
        } else {
            RegisterOperand::Data(number)
        }
    }

    // The width that the index is read at.
    fn index_size(self) -> Size
        ensures { result ≡ index_size self.0 }
    {
        if self.0 >> 11 & 1 == 1 {
            Size::Long
        } else {
            Size::Word
        }
    }

    /// The index register, suppressed or not.
    pub fn index_register(self) -> IndexRegister
        ensures { result ≡ index_register self.0 }
    {
        IndexRegister {
            register: self.index_operand(),
            size: self.index_size(),
        }
    }

    /// How far the index is shifted left.
    pub fn scale_shift(self) -> u32
        ensures { (result ≡ scale_shift self.0) × (result < 4) }
    {
        u32::from(self.0 >> 9 & 3)
    }

    /// The scale: 1, 2, 4 or 8.
    pub fn scale(self) -> u8
        ensures { (result ≡ 2 ^ scale_shift self.0) × (result < 9) }
    {
        // `1 << shift`: the proof did not close
        match self.scale_shift() {
            0 => 1,
            1 => 2,
            2 => 4,
            _ => 8,
        }
    }

    /// The index register, none where it is suppressed.
    pub fn index(self) -> Option<IndexRegister>
        ensures { result ≡ index self.0 }
    {
        if self.index_suppressed() {
            None
        } else {
            Some(self.index_register())
        }
    }

    /// The bytes of extension words, itself included.
    pub fn bytes(self) -> u32
        ensures { (result ≡ extension_bytes self.0) × (result < 11) }
    {
        let base = displacement_size::bytes(self.base_displacement_size());
        let outer = displacement_size::bytes(self.outer_displacement_size());
        if self.is_full() { 2 + base + outer } else { 2 }
    }

    /// Bits 15 to 9: the index register, its width and its scale.
    pub fn index_bits(index: IndexRegister, scale: u8) -> u16
        ensures { (result ≡ index_bits index scale) × (result < 65025) }
    {
        general(index.register) * 4096 + long_bit(index.size) * 2048 + scale_code(scale) * 512
    }

    /// The brief word of an index register with a scale; its displacement is left 0.
    pub fn brief(index: IndexRegister, scale: u8) -> ExtensionWord
        ensures { result.0 ≡ index_bits index scale }
    {
        ExtensionWord(ExtensionWord::index_bits(index, scale))
    }

    /// The full word of these parts.
    pub fn full(
        index: IndexRegister,
        scale: u8,
        base_suppressed: bool,
        index_suppressed: bool,
        base_displacement: DisplacementSize,
        indirection: Indirection,
        outer_displacement: DisplacementSize,
    ) -> ExtensionWord
        ensures { result.0 ≡ full_word index scale base_suppressed index_suppressed base_displacement indirection outer_displacement }
    {
        let upper = ExtensionWord::index_bits(index, scale)
            + FULL
            + bit(base_suppressed) * BASE_SUPPRESSED
            + bit(index_suppressed) * INDEX_SUPPRESSED;
        let lower = displacement_size::code(base_displacement) * 16
            + indirection_code(indirection, outer_displacement);
        ExtensionWord(upper + lower)
    }
}

// SCALE.
fn scale_code(scale: u8) -> u16
    ensures { (result ≡ scale_code scale) × (result < 4) }
{
    match scale {
        2 => 1,
        4 => 2,
        8 => 3,
        _ => 0,
    }
}

// I/IS.
fn indirection_code(indirection: Indirection, outer: DisplacementSize) -> u16
    ensures { (result ≡ indirection_code indirection outer) × (result < 8) }
{
    match indirection {
        Indirection::None => 0,
        Indirection::Preindexed => displacement_size::code(outer),
        Indirection::Postindexed => 4 + displacement_size::code(outer),
    }
}
