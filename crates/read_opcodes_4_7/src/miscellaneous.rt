// Line 4 but for $4E40 to $4E7F.
ghost use Rattle.std.specs.Prelude.{◌≡◌};
ghost use Rattle.isa.specs.declared.Instruction.TheVariants.{OneOperand, UnsizedIntoRegister};
ghost use Rattle.isa.specs.declared.RegisterOperand.TheVariants.{Data};
ghost use Rattle.read_spec.specs.Decoded.{unsized_one_illegal_decoded, nbcd_link_decoded, pea_swap_bkpt_decoded, movem_ext_decoded, mull_decoded, divl_decoded, lea_extb_decoded};
ghost use Rattle.read_spec.specs.Operation.{size_at, one_at, chk_at};
ghost use Rattle.read_values.specs.OperationWord.{x_in, opmode_in, ea_in};

use isa::{
    Instruction, LinkOperation, NoOperandOperation, Operand, RegisterOperand, Size,
    UnsizedOneOperation, UnsizedRegisterOperation, VectorOperation,
};
use read_spec::Tail;
use read_values::operation::{chk_at, high_at, one_at, sign_at, size_at, to_memory_at, unsized_at};
use read_values::operation_word::OperationWord;

/// NEGX, CLR, NEG, NOT and TST.
pub fn one_operand(w: OperationWord, tail: Tail) -> Instruction
    ensures { result ≡ OneOperand (one_at (x_in w.0)) tail.source (size_at (opmode_in w.0)) }
{
    let operation = one_at(w.x());
    let size = size_at(w.opmode());
    Instruction::OneOperand(operation, tail.source, size)
}

/// MOVE from and to SR and CCR, JSR, JMP, TAS and ILLEGAL.
pub fn unsized_one_illegal(w: OperationWord, tail: Tail) -> Instruction
    ensures { result ≡ unsized_one_illegal_decoded (x_in w.0) (opmode_in w.0) (ea_in w.0) tail.source }
{
    if (w.x() == 5) & (w.ea() == 60) {
        return Instruction::NoOperand(NoOperandOperation::ILLEGAL);
    }
    let operation = unsized_at(w);
    Instruction::UnsizedOne(operation, tail.source)
}

/// NBCD, and LINK by a long.
pub fn nbcd_link(w: OperationWord, tail: Tail) -> Instruction
    ensures { result ≡ nbcd_link_decoded (ea_in w.0) tail.value tail.source }
{
    if w.ea() / 8 == 1 {
        let register = RegisterOperand::Address(w.ea() % 8);
        return Instruction::Link(LinkOperation::LINKL, register, tail.value);
    }
    Instruction::UnsizedOne(UnsizedOneOperation::NBCD, tail.source)
}

/// PEA, SWAP and BKPT.
pub fn pea_swap_bkpt(w: OperationWord, tail: Tail) -> Instruction
    ensures { result ≡ pea_swap_bkpt_decoded (ea_in w.0) tail.source }
{
    if w.ea() < 8 {
        let register = RegisterOperand::Data(w.ea());
        return Instruction::SWAP(register);
    }
    if w.ea() < 16 {
        return Instruction::Vector(VectorOperation::BKPT, w.ea() % 8);
    }
    Instruction::UnsizedOne(UnsizedOneOperation::PEA, tail.source)
}

/// MOVEM and EXT.
pub fn movem_ext(w: OperationWord, tail: Tail) -> Instruction
    ensures { result ≡ movem_ext_decoded (x_in w.0) (opmode_in w.0) (ea_in w.0) tail.value tail.source }
{
    let size = size_at(w.opmode().saturating_sub(1));
    if (w.x() == 4) & (w.ea() < 8) {
        let register = RegisterOperand::Data(w.ea());
        let from = size_at(w.opmode().saturating_sub(2));
        return Instruction::EXT(register, from, size);
    }
    let direction = to_memory_at(5u8.saturating_sub(w.x()));
    Instruction::MOVEM {
        direction,
        size,
        registers_mask: (tail.value % 65536) as u16,
        target: tail.source,
    }
}

/// MULU and MULS of longs.
pub fn mull(tail: Tail) -> Instruction
    ensures { result ≡ mull_decoded tail.value tail.source }
{
    let high = high_at(tail.value);
    let sign = sign_at((tail.value / 2048 % 2) as u8);
    Instruction::MULL {
        source: tail.source,
        low: (tail.value / 4096 % 8) as u8,
        high,
        sign,
    }
}

/// DIVU, DIVS, DIVUL and DIVSL of longs.
pub fn divl(tail: Tail) -> Instruction
    ensures { result ≡ divl_decoded tail.value tail.source }
{
    let sign = sign_at((tail.value / 2048 % 2) as u8);
    Instruction::DIVL {
        source: tail.source,
        quotient: (tail.value / 4096 % 8) as u8,
        remainder: (tail.value % 8) as u8,
        wide: tail.value / 1024 % 2 == 1,
        sign,
    }
}

/// LEA, and EXTB.
pub fn lea_extb(w: OperationWord, tail: Tail) -> Instruction
    ensures { result ≡ lea_extb_decoded (x_in w.0) (ea_in w.0) tail.source }
{
    if (w.x() == 4) & (w.ea() < 8) {
        let register = RegisterOperand::Data(w.ea());
        return Instruction::EXT(register, Size::Byte, Size::Long);
    }
    let register = RegisterOperand::Address(w.x());
    Instruction::UnsizedIntoRegister(UnsizedRegisterOperation::LEA, tail.source, register)
}

/// CHK.
pub fn chk(w: OperationWord, tail: Tail) -> Instruction
    ensures { result ≡ UnsizedIntoRegister (chk_at (opmode_in w.0)) tail.source (Data (x_in w.0)) }
{
    let operation = chk_at(w.opmode());
    let register = RegisterOperand::Data(w.x());
    Instruction::UnsizedIntoRegister(operation, tail.source, register)
}
