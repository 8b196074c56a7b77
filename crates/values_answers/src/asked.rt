// The values that numbers ask for, and what the functions on them give.
ghost use Rattle.std.specs.Prelude.{◌≡◌, [], ◌∷◌, ◌%◌, ◌<◌};
ghost use Rattle.isa_values.specs.RegisterOperand.{index_of};
ghost use Rattle.isa_spec.specs.Code.{condition_code};
ghost use Rattle.isa_spec.specs.Condition.{condition_of};
ghost use Rattle.values_answers.specs.Values.{choice_number, index_number, index_choice_number, processor_place, processor_number, indirection_number, size_by, indirection_by, register_by, index_by, flag_by, word_values, size_values, displacement_values, bit_field_values, base_values, constant_values};
ghost use Rattle.values_answers.specs.Asked.{brief_asked, full_asked};

use isa::{IndexRegister, Indirection, RegisterOperand, Size};
use isa_values::code::{bit, standard_size};
use isa_values::extension_word::ExtensionWord;
use isa_values::index_base::IndexBase;
use isa_values::processor::Processor;
use isa_values::register_operand::to_index;
use isa_values::{
    bit_field_operation, condition, control_register, displacement_size, extension_word,
    index_base, size,
};

// ---- from numbers
fn size_by(k: u64) -> Size
    ensures { result ≡ size_by k }
{
    match k % 3 {
        0 => Size::Byte,
        1 => Size::Word,
        _ => Size::Long,
    }
}

fn indirection_by(k: u64) -> Indirection
    ensures { result ≡ indirection_by k }
{
    match k % 3 {
        0 => Indirection::None,
        1 => Indirection::Preindexed,
        _ => Indirection::Postindexed,
    }
}

fn register_by(k: u64, n: u64) -> RegisterOperand
    ensures { result ≡ register_by k n }
{
    let number = (n % 256) as u8;
    if k % 2 == 0 {
        RegisterOperand::Address(number)
    } else {
        RegisterOperand::Data(number)
    }
}

fn index_by(k: u64, n: u64, size: u64) -> IndexRegister
    ensures { result ≡ index_by k n size }
{
    IndexRegister {
        register: register_by(k, n),
        size: size_by(size),
    }
}

fn flag_by(k: u64) -> bool
    ensures { result ≡ flag_by k }
{
    k % 2 == 1
}

// ---- to numbers
fn choice_number(choice: Option<u8>) -> u16
    ensures { result ≡ choice_number choice }
{
    match choice {
        None => 0,
        Some(n) => 1 + u16::from(n),
    }
}

fn index_number(x: IndexRegister) -> u16
    ensures { (result ≡ index_number x) × (result < 1056) }
{
    to_index(x.register) * 4 + standard_size(x.size)
}

fn index_choice_number(choice: Option<IndexRegister>) -> u16
    ensures { result ≡ index_choice_number choice }
{
    match choice {
        None => 0,
        Some(x) => 1 + index_number(x),
    }
}

fn processor_place(processor: Processor) -> u16
    ensures { (result ≡ processor_place processor) × (result < 4) }
{
    1 + processor as u16
}

fn processor_number(choice: Option<Processor>) -> u16
    ensures { result ≡ processor_number choice }
{
    match choice {
        None => 0,
        Some(processor) => processor_place(processor),
    }
}

fn indirection_number(indirection: Indirection) -> u16
    ensures { result ≡ indirection_number indirection }
{
    indirection as u16
}

// ---- what the functions give
pub fn word_values(w: u16) -> [u16; 17]
    ensures { result ≡ word_values w }
{
    let e = ExtensionWord(w);
    [
        bit(e.is_full()),
        bit(e.base_suppressed()),
        bit(e.index_suppressed()),
        bit(e.is_canonical()),
        index_number(e.index_register()),
        e.scale_shift() as u16,
        e.scale() as u16,
        index_choice_number(e.index()),
        displacement_size::code(e.base_displacement_size()),
        indirection_number(e.indirection()),
        displacement_size::code(e.outer_displacement_size()),
        e.bytes() as u16,
        displacement_size::code(displacement_size::of_code(w)),
        condition::code(condition::from_code(w)),
        control_register::from_code(w),
        processor_number(control_register::processor(w)),
        bit_field_operation::code(bit_field_operation::from_code(w)),
    ]
}

pub fn size_values(k: u64) -> [u16; 2]
    ensures { result ≡ size_values k }
{
    let s = size_by(k);
    [size::to_bytes(s) as u16, size::to_bits(s) as u16]
}

pub fn register_values(k: u64, n: u64) -> [u16; 1]
    ensures { result ≡ index_of (register_by k n) ∷ [] }
{
    [to_index(register_by(k, n))]
}

pub fn displacement_values(k: u64) -> [u16; 2]
    ensures { result ≡ displacement_values k }
{
    let d = displacement_size::of_code((k % 4) as u16);
    [
        displacement_size::bytes(d) as u16,
        displacement_size::code(d),
    ]
}

pub fn condition_values(k: u64) -> [u16; 1]
    ensures { result ≡ condition_code (condition_of (k % 16)) ∷ [] }
{
    [condition::code(condition::from_code((k % 16) as u16))]
}

pub fn bit_field_values(k: u64) -> [u16; 3]
    ensures { result ≡ bit_field_values k }
{
    let operation = bit_field_operation::from_code((k % 8) as u16);
    [
        bit(bit_field_operation::has_register(operation)),
        bit(bit_field_operation::writes(operation)),
        bit_field_operation::code(operation),
    ]
}

pub fn base_values(n: u64) -> [u16; 2]
    ensures { result ≡ base_values n }
{
    let base = IndexBase::address((n % 256) as u8);
    [bit(base.is_pc()), choice_number(base.address_register())]
}

pub fn constant_values() -> [u16; 14]
    ensures { result ≡ constant_values }
{
    let base = index_base::PC;
    [
        extension_word::FULL,
        extension_word::BASE_SUPPRESSED,
        extension_word::INDEX_SUPPRESSED,
        extension_word::EXTENSION_WORD_OFFSET as u16,
        bit(base.is_pc()),
        choice_number(base.address_register()),
        control_register::SFC,
        control_register::DFC,
        control_register::CACR,
        control_register::USP,
        control_register::VBR,
        control_register::CAAR,
        control_register::MSP,
        control_register::ISP,
    ]
}

pub fn brief_values(m: [u64; 24]) -> [u16; 1]
    ensures { result ≡ brief_asked m ∷ [] }
{
    let e = ExtensionWord::brief(index_by(m[1], m[2], m[3]), (m[4] % 256) as u8);
    [e.0]
}

pub fn full_values(m: [u64; 24]) -> [u16; 1]
    ensures { result ≡ full_asked m ∷ [] }
{
    let base = displacement_size::of_code((m[7] % 4) as u16);
    let outer = displacement_size::of_code((m[9] % 4) as u16);
    let e = ExtensionWord::full(
        index_by(m[1], m[2], m[3]),
        (m[4] % 256) as u8,
        flag_by(m[5]),
        flag_by(m[6]),
        base,
        indirection_by(m[8]),
        outer,
    );
    [e.0]
}
