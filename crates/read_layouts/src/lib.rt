// What an operation word is, and what follows it (the manual, sections 4 and 6, each instruction's format; section 8).
#![tactic(auto)]

ghost use Rattle.std.specs.Prelude.{cond, ◌≡◌, ◌<◌};
ghost use Rattle.isa.specs.declared.Size.TheVariants.{Long, Word};
ghost use Rattle.isa_spec.specs.Code.{unsized_size};
ghost use Rattle.read_spec.specs.Modes.{readable_modes, static_modes_at, unsized_modes};
ghost use Rattle.read_spec.specs.Layout.{two, one, alone, bare, no_layout};
ghost use Rattle.read_spec.specs.Layouts.{immediate_specifier, immediate_layout, dynamic_bit_movep_layout, cas_layout, movea_layout, move_layout, one_layout, unsized_layout, unsized_one_illegal_layout, nbcd_link_layout, pea_swap_bkpt_layout, movem_ext_layout, system_specifier, system_layout, lea_extb_layout, quick_layout, trap_specifier, conditional_layout, branch_layout, into_data_layout, from_data_layout, logic_exchange_layout, logic_compare_layout, bit_field_layout, layout_of};
ghost use Rattle.read_values.specs.OperationWord.{line_in, x_in, opmode_in, ea_in};

use isa::{BitFieldOperation, Size, UnsizedOneOperation};
use isa_operands::{
    ALL, ALTERABLE, BIT_FIELD_READ, BIT_FIELD_WRITTEN, CONTROL, DATA, DATA_ALTERABLE,
    DATA_NOT_IMMEDIATE, MEMORY_ALTERABLE, MOVEM_FROM_MEMORY, MOVEM_TO_MEMORY,
};
use isa_values::bit_field_operation;
use isa_values::code::is_byte;
use read_spec::{Group, Layout, Specifier};
use read_values::operation::{
    bit_field_of, is_exchange, move_size, size_at, to_status, unsized_at,
};
use read_values::operation_word::OperationWord;

pub mod map; // the group of an operation word

// One mode alone: Dn, (An)+ and d16(An).
const DATA_REGISTER: u16 = 0b1;

const POSTINCREMENT: u16 = 0b1000;

const DISPLACEMENT: u16 = 0b10_0000;

// A specifier and two operands.
fn two(
    specifier: Specifier,
    size: Size,
    source: u8,
    readable: u16,
    destination: u8,
    writable: u16,
) -> Layout
    ensures { result ≡ two specifier size source readable destination writable }
{
    Layout {
        accepted: true,
        specifier,
        size,
        source,
        readable,
        destination,
        writable,
    }
}

// A specifier and one operand. A missing operand stands as D0, which takes no words.
fn one(specifier: Specifier, size: Size, ea: u8, modes: u16) -> Layout
    ensures { result ≡ one specifier size ea modes }
{
    two(specifier, size, ea, modes, 0, DATA_REGISTER)
}

// A specifier alone.
fn alone(specifier: Specifier) -> Layout
    ensures { result ≡ alone specifier }
{
    one(specifier, Size::Byte, 0, DATA_REGISTER)
}

// Nothing more.
fn bare() -> Layout
    ensures { result ≡ bare }
{
    alone(Specifier::Nothing)
}

// No instruction.
fn no_layout() -> Layout
    ensures { result ≡ no_layout }
{
    Layout {
        accepted: false,
        specifier: Specifier::Nothing,
        size: Size::Byte,
        source: 0,
        readable: DATA_REGISTER,
        destination: 0,
        writable: DATA_REGISTER,
    }
}

// One of two sets of modes.
fn modes_if(test: bool, yes: u16, no: u16) -> u16
    ensures { result ≡ cond test yes no }
{
    if test { yes } else { no }
}

// A long, or else a word.
fn long_if(test: bool) -> Size
    ensures { result ≡ cond test Long Word }
{
    if test { Size::Long } else { Size::Word }
}

// Any mode, but not a byte of an address register.
fn readable_modes(size: Size) -> u16
    ensures { result ≡ readable_modes size }
{
    modes_if(is_byte(size), DATA, ALL)
}

// An immediate before the destination.
fn immediate_specifier(size: Size) -> Specifier
    ensures { result ≡ immediate_specifier size }
{
    match size {
        Size::Byte => Specifier::Byte,
        Size::Word => Specifier::Word,
        Size::Long => Specifier::Long,
    }
}

// The modes of BTST, BCHG, BCLR and BSET with a number; BTST only reads its operand.
fn static_modes(kind: u8) -> u16
    ensures { result ≡ static_modes_at kind }
{
    modes_if(kind == 0, DATA_NOT_IMMEDIATE, DATA_ALTERABLE)
}

// ORI, ANDI, SUBI, ADDI, EORI and CMPI, and to CCR and SR.
fn immediate_layout(w: OperationWord) -> Layout
    ensures { result ≡ immediate_layout (x_in w.0) (opmode_in w.0) (ea_in w.0) }
{
    let size = size_at(w.opmode());
    let specifier = immediate_specifier(size);
    let modes = modes_if(w.x() == 6, DATA_NOT_IMMEDIATE, DATA_ALTERABLE);
    if to_status(w) {
        alone(specifier)
    } else {
        one(specifier, size, w.ea(), modes)
    }
}

// BTST, BCHG, BCLR and BSET with a data register, and MOVEP.
fn dynamic_bit_movep_layout(w: OperationWord) -> Layout
    ensures { result ≡ dynamic_bit_movep_layout (opmode_in w.0) (ea_in w.0) }
{
    let kind = w.opmode().saturating_sub(4);
    let modes = modes_if(kind == 0, DATA, DATA_ALTERABLE);
    if w.ea() / 8 == 1 {
        one(
            Specifier::Nothing,
            Size::Word,
            40 + w.ea() % 8,
            DISPLACEMENT,
        )
    } else {
        one(Specifier::Nothing, Size::Byte, w.ea(), modes)
    }
}

// CAS and CAS2.
fn cas_layout(w: OperationWord) -> Layout
    ensures { result ≡ cas_layout (x_in w.0) (ea_in w.0) }
{
    let size = size_at(w.x().saturating_sub(5));
    if (w.ea() == 60) & (6 <= w.x()) {
        alone(Specifier::CompareTwo)
    } else {
        one(Specifier::Compare, size, w.ea(), MEMORY_ALTERABLE)
    }
}

// MOVEA has no byte.
fn movea_layout(size: Size, ea: u8) -> Layout
    ensures { result ≡ movea_layout size ea }
{
    if is_byte(size) {
        no_layout()
    } else {
        one(Specifier::Nothing, size, ea, ALL)
    }
}

// MOVE: the destination's register before its mode.
fn move_layout(size: Size, w: OperationWord) -> Layout
    ensures { result ≡ move_layout size (x_in w.0) (opmode_in w.0) (ea_in w.0) }
{
    let modes = readable_modes(size);
    if w.opmode() == 1 {
        movea_layout(size, w.ea())
    } else {
        two(
            Specifier::Nothing,
            size,
            w.ea(),
            modes,
            w.opmode() * 8 + w.x(),
            DATA_ALTERABLE,
        )
    }
}

// NEGX, CLR, NEG, NOT and TST.
fn one_layout(size: Size, w: OperationWord) -> Layout
    ensures { result ≡ one_layout size (x_in w.0) (ea_in w.0) }
{
    let modes = modes_if(w.x() == 5, readable_modes(size), DATA_ALTERABLE);
    one(Specifier::Nothing, size, w.ea(), modes)
}

fn unsized_modes(operation: UnsizedOneOperation) -> u16
    ensures { result ≡ unsized_modes operation }
{
    match operation {
        UnsizedOneOperation::PEA | UnsizedOneOperation::JSR | UnsizedOneOperation::JMP => CONTROL,
        UnsizedOneOperation::NBCD
        | UnsizedOneOperation::TAS
        | UnsizedOneOperation::MOVEfromCCR
        | UnsizedOneOperation::MOVEfromSR => DATA_ALTERABLE,
        UnsizedOneOperation::MOVEtoCCR | UnsizedOneOperation::MOVEtoSR => DATA,
    }
}

fn unsized_size(operation: UnsizedOneOperation) -> Size
    ensures { result ≡ unsized_size operation }
{
    match operation {
        UnsizedOneOperation::PEA | UnsizedOneOperation::JSR | UnsizedOneOperation::JMP =>
            Size::Long,
        UnsizedOneOperation::NBCD | UnsizedOneOperation::TAS => Size::Byte,
        UnsizedOneOperation::MOVEtoCCR
        | UnsizedOneOperation::MOVEfromCCR
        | UnsizedOneOperation::MOVEtoSR
        | UnsizedOneOperation::MOVEfromSR => Size::Word,
    }
}

fn unsized_layout(operation: UnsizedOneOperation, ea: u8) -> Layout
    ensures { result ≡ unsized_layout operation ea }
{
    one(
        Specifier::Nothing,
        unsized_size(operation),
        ea,
        unsized_modes(operation),
    )
}

// ILLEGAL stands where TAS would have an immediate operand.
fn unsized_one_illegal_layout(w: OperationWord) -> Layout
    ensures { result ≡ unsized_one_illegal_layout (x_in w.0) (opmode_in w.0) (ea_in w.0) }
{
    if (w.x() == 5) & (w.ea() == 60) {
        bare()
    } else {
        unsized_layout(unsized_at(w), w.ea())
    }
}

// NBCD, and LINK with a long.
fn nbcd_link_layout(ea: u8) -> Layout
    ensures { result ≡ nbcd_link_layout ea }
{
    if ea / 8 == 1 {
        alone(Specifier::Long)
    } else {
        unsized_layout(UnsizedOneOperation::NBCD, ea)
    }
}

// PEA, SWAP and BKPT.
fn pea_swap_bkpt_layout(ea: u8) -> Layout
    ensures { result ≡ pea_swap_bkpt_layout ea }
{
    if ea < 16 {
        bare()
    } else {
        unsized_layout(UnsizedOneOperation::PEA, ea)
    }
}

// MOVEM, and EXT.
fn movem_ext_layout(w: OperationWord) -> Layout
    ensures { result ≡ movem_ext_layout (x_in w.0) (opmode_in w.0) (ea_in w.0) }
{
    let size = size_at(w.opmode().saturating_sub(1));
    let modes = modes_if(w.x() == 4, MOVEM_TO_MEMORY, MOVEM_FROM_MEMORY);
    if (w.x() == 4) & (w.ea() < 8) {
        bare()
    } else {
        one(Specifier::Word, size, w.ea(), modes)
    }
}

// LINK, STOP, RTD and MOVEC have a word.
fn system_specifier(ea: u8) -> Specifier
    ensures { result ≡ system_specifier ea }
{
    if (ea / 8 == 2) | (ea == 50) | (ea == 52) | (56 <= ea) {
        Specifier::Word
    } else {
        Specifier::Nothing
    }
}

// TRAP, LINK, UNLK, MOVE USP, RESET, NOP, STOP, RTE, RTD, RTS, TRAPV, RTR and MOVEC.
fn system_layout(ea: u8) -> Layout
    ensures { result ≡ system_layout ea }
{
    if (ea < 56) | (ea / 2 == 29) {
        alone(system_specifier(ea))
    } else {
        no_layout()
    }
}

// LEA, and EXTB.L.
fn lea_extb_layout(w: OperationWord) -> Layout
    ensures { result ≡ lea_extb_layout (x_in w.0) (ea_in w.0) }
{
    if (w.x() == 4) & (w.ea() < 8) {
        bare()
    } else {
        one(Specifier::Nothing, Size::Long, w.ea(), CONTROL)
    }
}

// ADDQ and SUBQ.
fn quick_layout(size: Size, ea: u8) -> Layout
    ensures { result ≡ quick_layout size ea }
{
    let modes = modes_if(is_byte(size), DATA_ALTERABLE, ALTERABLE);
    one(Specifier::Nothing, size, ea, modes)
}

// The operand of TRAPcc.
fn trap_specifier(ea: u8) -> Specifier
    ensures { result ≡ trap_specifier ea }
{
    if ea == 58 {
        Specifier::Word
    } else if ea == 59 {
        Specifier::Long
    } else {
        Specifier::Nothing
    }
}

// Scc, DBcc and TRAPcc.
fn conditional_layout(ea: u8) -> Layout
    ensures { result ≡ conditional_layout ea }
{
    if ea / 8 == 1 {
        alone(Specifier::Word)
    } else if (58 <= ea) & (ea <= 60) {
        alone(trap_specifier(ea))
    } else {
        one(Specifier::Nothing, Size::Byte, ea, DATA_ALTERABLE)
    }
}

// The displacement's byte: $00 before a word, $FF before a long.
fn branch_layout(byte: u8) -> Layout
    ensures { result ≡ branch_layout byte }
{
    if byte == 0 {
        alone(Specifier::Word)
    } else if byte == 255 {
        alone(Specifier::Long)
    } else {
        bare()
    }
}

// <ea>,Dn of OR, AND, SUB, CMP and ADD.
fn into_data_layout(size: Size, w: OperationWord) -> Layout
    ensures { result ≡ into_data_layout (line_in w.0) size (ea_in w.0) }
{
    let modes = modes_if(
        (w.line() == 8) | (w.line() == 12),
        DATA,
        readable_modes(size),
    );
    one(Specifier::Nothing, size, w.ea(), modes)
}

// Dn,<ea> of these; below 16 stand the forms Dy,Dx and -(Ay),-(Ax) of others.
fn from_data_layout(specifier: Specifier, size: Size, ea: u8) -> Layout
    ensures { result ≡ from_data_layout specifier size ea }
{
    if ea < 16 {
        alone(specifier)
    } else {
        one(Specifier::Nothing, size, ea, MEMORY_ALTERABLE)
    }
}

fn logic_exchange_layout(w: OperationWord) -> Layout
    ensures { result ≡ logic_exchange_layout (opmode_in w.0) (ea_in w.0) }
{
    let size = size_at(w.opmode().saturating_sub(4));
    if is_exchange(w) {
        bare()
    } else {
        one(Specifier::Nothing, size, w.ea(), MEMORY_ALTERABLE)
    }
}

// CMPM takes two (An)+ only; EOR.
fn logic_compare_layout(w: OperationWord) -> Layout
    ensures { result ≡ logic_compare_layout (x_in w.0) (opmode_in w.0) (ea_in w.0) }
{
    let size = size_at(w.opmode().saturating_sub(4));
    if w.ea() / 8 == 1 {
        two(
            Specifier::Nothing,
            Size::Byte,
            24 + w.ea() % 8,
            POSTINCREMENT,
            24 + w.x(),
            POSTINCREMENT,
        )
    } else {
        one(Specifier::Nothing, size, w.ea(), DATA_ALTERABLE)
    }
}

fn bit_field_layout(operation: BitFieldOperation, ea: u8) -> Layout
    ensures { result ≡ bit_field_layout operation ea }
{
    let modes = modes_if(
        bit_field_operation::writes(operation),
        BIT_FIELD_WRITTEN,
        BIT_FIELD_READ,
    );
    one(Specifier::BitField, Size::Byte, ea, modes)
}

/// What follows the operation words of a group.
pub fn layout(group: Group, w: OperationWord) -> Layout
    ensures { result ≡ layout_of group (line_in w.0) (x_in w.0) (opmode_in w.0) (ea_in w.0) }
{
    match group {
        Group::Unused => no_layout(),
        Group::ImmediateInto => immediate_layout(w),
        Group::StaticBit => one(
            Specifier::Byte,
            Size::Byte,
            w.ea(),
            static_modes(w.opmode()),
        ),
        Group::DynamicBitMovep => dynamic_bit_movep_layout(w),
        Group::MOVES => one(
            Specifier::General,
            size_at(w.opmode()),
            w.ea(),
            MEMORY_ALTERABLE,
        ),
        Group::Bounds => one(Specifier::General, size_at(w.x()), w.ea(), CONTROL),
        Group::CAS => cas_layout(w),
        Group::MOVE => move_layout(move_size(w.line()), w),
        Group::OneOperand => one_layout(size_at(w.opmode()), w),
        Group::UnsizedOneIllegal => unsized_one_illegal_layout(w),
        Group::NbcdLink => nbcd_link_layout(w.ea()),
        Group::PeaSwapBkpt => pea_swap_bkpt_layout(w.ea()),
        Group::MovemExt => movem_ext_layout(w),
        Group::MULL => one(Specifier::Multiply, Size::Long, w.ea(), DATA),
        Group::DIVL => one(Specifier::Divide, Size::Long, w.ea(), DATA),
        Group::System => system_layout(w.ea()),
        Group::LeaExtb => lea_extb_layout(w),
        Group::CHK => one(Specifier::Nothing, long_if(w.opmode() == 4), w.ea(), DATA),
        Group::Quick => quick_layout(size_at(w.opmode() % 4), w.ea()),
        Group::Conditional => conditional_layout(w.ea()),
        Group::Branch => branch_layout(w.low_byte()),
        Group::IntoData => into_data_layout(size_at(w.opmode()), w),
        Group::ArithmeticExtended => from_data_layout(
            Specifier::Nothing,
            size_at(w.opmode().saturating_sub(4)),
            w.ea(),
        ),
        Group::LogicDecimal => from_data_layout(Specifier::Nothing, Size::Byte, w.ea()),
        Group::LogicPack => from_data_layout(
            Specifier::Word,
            size_at(w.opmode().saturating_sub(4)),
            w.ea(),
        ),
        Group::LogicExchange => logic_exchange_layout(w),
        Group::LogicCompare => logic_compare_layout(w),
        Group::WordIntoData => one(Specifier::Nothing, Size::Word, w.ea(), DATA),
        Group::IntoAddress => one(Specifier::Nothing, long_if(w.opmode() == 7), w.ea(), ALL),
        Group::ShiftMemory => one(Specifier::Nothing, Size::Word, w.ea(), MEMORY_ALTERABLE),
        Group::BitField => bit_field_layout(bit_field_of(w), w.ea()),
        Group::MOVEQ | Group::ShiftRegister | Group::LineA | Group::LineF => bare(),
    }
}
