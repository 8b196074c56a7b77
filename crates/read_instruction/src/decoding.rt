// From the group of an operation word, the word and what was read behind it to the instruction.
ghost use Rattle.std.specs.Prelude.{true, ◌≡◌, ℕ, ◌<◌, eqb};
ghost use Rattle.encode_spec.specs.Ea.{mode_of};
ghost use Rattle.read_values.specs.OperationWord.{ea_in};
ghost use Rattle.read_places.specs.Groups.{group_number};
ghost use Rattle.read_spec.specs.Tree.{ret};
ghost use Rattle.read_spec.specs.Reading.{as_reading};
ghost use Rattle.read_instruction.specs.Takes.{takes};
ghost use Rattle.read_instruction.specs.ReadAt.{decoded_in, Ends};

use isa::{Instruction, Operand, RawOperation};
use read_opcodes_0_3::{immediate, movement};
use read_opcodes_4_7::{conditional, miscellaneous, system};
use read_opcodes_8_f::{arithmetic, shift};
use read_spec::{Group, Read, Tail, Unread};
use read_values::operation_word::OperationWord;

// d16(An).
fn is_displaced(operand: Operand) -> bool
    ensures { result ≡ eqb (mode_of operand) 5 }
{
    let Operand::IndirectDisplacement { offset: _, base: _ } = operand else {
        return false;
    };
    true
}

// (An)+.
fn is_post(operand: Operand) -> bool
    ensures { result ≡ eqb (mode_of operand) 3 }
{
    let Operand::PostIndirect(_) = operand else {
        return false;
    };
    true
}

// Whether the group has an instruction with these operands: MOVEP takes d16(An), CMPM two (An)+.
fn takes(group: Group, ea: u8, source: Operand, destination: Operand) -> bool
    ensures { result ≡ takes group ea source destination }
{
    match group {
        Group::Unused => false,
        Group::DynamicBitMovep => (ea / 8 != 1) | is_displaced(source),
        Group::LogicCompare => (ea / 8 != 1) | (is_post(source) & is_post(destination)),
        _ => true,
    }
}

// The instruction of a group of lines 8 to F.
fn high_lines(group: Group, w: OperationWord, tail: Tail) -> Instruction
    requires { (takes group (ea_in w.0) tail.source tail.destination ≡ true) × (21 < group_number group) }
    ensures { (a : ℕ) → decoded_in a group w.0 tail ≡ ret result }
{
    match group {
        Group::IntoData => arithmetic::into_data(w, tail),
        Group::ArithmeticExtended => arithmetic::arithmetic(w, tail),
        Group::LogicDecimal => arithmetic::logic_decimal(w, tail),
        Group::LogicPack => arithmetic::logic_pack(w, tail),
        Group::LogicExchange => arithmetic::logic_exchange(w, tail),
        Group::LogicCompare => arithmetic::logic_compare(w, tail),
        Group::WordIntoData => arithmetic::word_into_data(w, tail),
        Group::IntoAddress => arithmetic::into_address(w, tail),
        Group::ShiftRegister => shift::shift_register(w),
        Group::ShiftMemory => shift::shift_memory(w, tail),
        Group::BitField => shift::bit_field(w, tail),
        Group::LineA => shift::raw(RawOperation::LINEA, w),
        _ => shift::raw(RawOperation::LINEF, w),
    }
}

// The instruction of a group of lines 0 to 7, or else of the others.
fn instruction_of(group: Group, address: u32, w: OperationWord, tail: Tail) -> Instruction
    requires { takes group (ea_in w.0) tail.source tail.destination ≡ true }
    ensures { decoded_in address group w.0 tail ≡ ret result }
{
    match group {
        Group::ImmediateInto => immediate::immediate_into(w, tail),
        Group::StaticBit => immediate::static_bit(w, tail),
        Group::DynamicBitMovep => immediate::dynamic_bit(w, tail),
        Group::MOVES => immediate::moves(w, tail),
        Group::Bounds => immediate::bounds(w, tail),
        Group::CAS => immediate::cas(w, tail),
        Group::MOVE => movement::move_data(w, tail),
        Group::OneOperand => miscellaneous::one_operand(w, tail),
        Group::UnsizedOneIllegal => miscellaneous::unsized_one_illegal(w, tail),
        Group::NbcdLink => miscellaneous::nbcd_link(w, tail),
        Group::PeaSwapBkpt => miscellaneous::pea_swap_bkpt(w, tail),
        Group::MovemExt => miscellaneous::movem_ext(w, tail),
        Group::MULL => miscellaneous::mull(tail),
        Group::DIVL => miscellaneous::divl(tail),
        Group::System => system::system(w, tail),
        Group::LeaExtb => miscellaneous::lea_extb(w, tail),
        Group::CHK => miscellaneous::chk(w, tail),
        Group::Quick => conditional::quick(w, tail),
        Group::Conditional => conditional::conditional(address, w, tail),
        Group::Branch => conditional::branch(address, w, tail),
        Group::MOVEQ => conditional::moveq(w),
        _ => high_lines(group, w, tail),
    }
}

/// The instruction and its length in bytes, after `count` words, or nothing.
pub fn decode(
    group: Group,
    address: u32,
    w: OperationWord,
    tail: Tail,
    count: u32,
) -> Result<Read, Unread>
    requires { count < 16 }
    ensures { Ends (decoded_in address group w.0 tail) address count (as_reading result) }
{
    if takes(group, w.ea(), tail.source, tail.destination) {
        let instruction = instruction_of(group, address, w, tail);
        Ok(Read {
            instruction,
            bytes: 2 * count,
        })
    } else {
        Err(Unread::Nothing)
    }
}
