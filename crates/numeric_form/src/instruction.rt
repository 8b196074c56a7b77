//! Instructions: the place among the instructions, then the fields.
#![tactic(auto, using(crate::specs::PushedLaws::pushed_append), unfolding(crate::specs::Numbers::pushed_all, numeric_spec::specs::Build::take_instruction, numeric_spec::specs::Form::form_of))]

ghost use Rattle.std.specs.Prelude.{◌≡◌, ◌≤◌, get_or};
ghost use Rattle.isa.specs.declared.RegisterOperation.TheVariants.{ADDA};
ghost use Rattle.numeric_spec.specs.Shape.{shapes, into_register};
ghost use Rattle.numeric_spec.specs.Form.{form_of};
ghost use Rattle.numeric_spec.specs.Build.{take_instruction, take_shape};
ghost use Rattle.numeric_facts.specs.Form.{instruction_exact};
ghost use Rattle.numeric_form.specs.Numbers.{numbers_in, said, pushed_all};

use crate::lent::LentForm;
use crate::number::{push_unsigned, take_unsigned};
use crate::shape;
use base_spec::{Literal, Literals};
use isa::{
    BranchOperation, ConditionCodeOperation, ImmediateOperation, Instruction, LinkOperation,
    NoOperandOperation, OneOperation, PackOperation, PairOperation, QuickOperation, RawOperation,
    RegisterOperation, ShiftOperation, StatusOperation, TransferOperation, UnsizedOneOperation,
    UnsizedPairOperation, UnsizedRegisterOperation, VectorOperation, WordOperation,
};

/// The instruction of a place, taken from numbers.
fn take_at(place: u64, numbers: &[Literal]) -> Option<(Instruction, &[Literal])>
    requires { place ≤ 98 }
    ensures { said (λ rest. numbers_in rest.now) result ≡ take_shape (get_or shapes place (into_register ADDA)) (numbers_in numbers.now) }
{
    match place {
        0 => shape::into_register(RegisterOperation::ADDA, numbers),
        1 => shape::into_register(RegisterOperation::SUBA, numbers),
        2 => shape::into_register(RegisterOperation::CMPA, numbers),
        3 => shape::into_register(RegisterOperation::MOVEA, numbers),
        4 => shape::movem(numbers),
        5 => shape::pair(PairOperation::MOVE, numbers),
        6 => shape::pair(PairOperation::ADD, numbers),
        7 => shape::pair(PairOperation::SUB, numbers),
        8 => shape::pair(PairOperation::ADDX, numbers),
        9 => shape::pair(PairOperation::SUBX, numbers),
        10 => shape::quick(QuickOperation::ADDQ, numbers),
        11 => shape::moveq(numbers),
        12 => shape::quick(QuickOperation::SUBQ, numbers),
        13 => shape::immediate_into(ImmediateOperation::ADDI, numbers),
        14 => shape::immediate_into(ImmediateOperation::SUBI, numbers),
        15 => shape::immediate_into(ImmediateOperation::ANDI, numbers),
        16 => shape::immediate_into(ImmediateOperation::ORI, numbers),
        17 => shape::immediate_into(ImmediateOperation::EORI, numbers),
        18 => shape::immediate_into(ImmediateOperation::CMPI, numbers),
        19 => shape::pair(PairOperation::CMPM, numbers),
        20 => shape::word_into_data(WordOperation::DIVx, numbers),
        21 => shape::word_into_data(WordOperation::MULx, numbers),
        22 => shape::swap(numbers),
        23 => shape::one_operand(OneOperation::CLR, numbers),
        24 => shape::exg(numbers),
        25 => shape::unsized_into_register(UnsizedRegisterOperation::LEA, numbers),
        26 => shape::unsized_one(UnsizedOneOperation::PEA, numbers),
        27 => shape::one_operand(OneOperation::NEG, numbers),
        28 => shape::one_operand(OneOperation::NEGX, numbers),
        29 => shape::unsized_pair(UnsizedPairOperation::ABCD, numbers),
        30 => shape::unsized_pair(UnsizedPairOperation::SBCD, numbers),
        31 => shape::unsized_one(UnsizedOneOperation::NBCD, numbers),
        32 => shape::ext(numbers),
        33 => shape::one_operand(OneOperation::TST, numbers),
        34 => shape::into_register(RegisterOperation::CMP, numbers),
        35 => shape::bcc(numbers),
        36 => shape::scc(numbers),
        37 => shape::dbcc(numbers),
        38 => shape::branch(BranchOperation::BRA, numbers),
        39 => shape::link(LinkOperation::LINK, numbers),
        40 => shape::unlk(numbers),
        41 => shape::one_operand(OneOperation::NOT, numbers),
        42 => shape::pair(PairOperation::OR, numbers),
        43 => shape::pair(PairOperation::AND, numbers),
        44 => shape::pair(PairOperation::EOR, numbers),
        45 => shape::unsized_one(UnsizedOneOperation::JSR, numbers),
        46 => shape::shift(ShiftOperation::ASd, numbers),
        47 => shape::shift(ShiftOperation::ROd, numbers),
        48 => shape::shift(ShiftOperation::LSd, numbers),
        49 => shape::shift(ShiftOperation::ROXd, numbers),
        50 => shape::unsized_pair(UnsizedPairOperation::BTST, numbers),
        51 => shape::unsized_pair(UnsizedPairOperation::BCLR, numbers),
        52 => shape::unsized_pair(UnsizedPairOperation::BSET, numbers),
        53 => shape::unsized_pair(UnsizedPairOperation::BCHG, numbers),
        54 => shape::unsized_one(UnsizedOneOperation::JMP, numbers),
        55 => shape::branch(BranchOperation::BSR, numbers),
        56 => shape::vector(VectorOperation::TRAP, numbers),
        57 => shape::no_operand(NoOperandOperation::RTE, numbers),
        58 => shape::status(StatusOperation::STOP, numbers),
        59 => shape::no_operand(NoOperandOperation::RESET, numbers),
        60 => shape::moveusp(numbers),
        61 => shape::raw(RawOperation::LINEA, numbers),
        62 => shape::raw(RawOperation::LINEF, numbers),
        63 => shape::transfer(TransferOperation::MOVEP, numbers),
        64 => shape::unsized_one(UnsizedOneOperation::MOVEtoCCR, numbers),
        65 => shape::unsized_one(UnsizedOneOperation::MOVEfromCCR, numbers),
        66 => shape::unsized_one(UnsizedOneOperation::MOVEtoSR, numbers),
        67 => shape::unsized_one(UnsizedOneOperation::MOVEfromSR, numbers),
        68 => shape::condition_code(ConditionCodeOperation::ANDItoCCR, numbers),
        69 => shape::condition_code(ConditionCodeOperation::ORItoCCR, numbers),
        70 => shape::condition_code(ConditionCodeOperation::EORItoCCR, numbers),
        71 => shape::status(StatusOperation::ANDItoSR, numbers),
        72 => shape::status(StatusOperation::ORItoSR, numbers),
        73 => shape::status(StatusOperation::EORItoSR, numbers),
        74 => shape::unsized_one(UnsizedOneOperation::TAS, numbers),
        75 => shape::no_operand(NoOperandOperation::RTR, numbers),
        76 => shape::unsized_into_register(UnsizedRegisterOperation::CHK, numbers),
        77 => shape::no_operand(NoOperandOperation::TRAPV, numbers),
        78 => shape::no_operand(NoOperandOperation::ILLEGAL, numbers),
        79 => shape::raw(RawOperation::IllegalWord, numbers),
        80 => shape::no_operand(NoOperandOperation::RTS, numbers),
        81 => shape::no_operand(NoOperandOperation::NOP, numbers),
        82 => shape::no_operand(NoOperandOperation::SIMHALT, numbers),
        83 => shape::rtd(numbers),
        84 => shape::vector(VectorOperation::BKPT, numbers),
        85 => shape::movec(numbers),
        86 => shape::transfer(TransferOperation::MOVES, numbers),
        87 => shape::unsized_into_register(UnsizedRegisterOperation::CHKL, numbers),
        88 => shape::link(LinkOperation::LINKL, numbers),
        89 => shape::trapcc(numbers),
        90 => shape::mull(numbers),
        91 => shape::pack(PackOperation::PACK, numbers),
        92 => shape::pack(PackOperation::UNPK, numbers),
        93 => shape::into_register(RegisterOperation::CHK2, numbers),
        94 => shape::into_register(RegisterOperation::CMP2, numbers),
        95 => shape::cas(numbers),
        96 => shape::cas2(numbers),
        97 => shape::bf(numbers),
        98 => shape::divl(numbers),
        _ => None,
    }
}

impl LentForm for Instruction {
    ghost form = { form_of };

    ghost taken = { take_instruction };

    fn push(&self, numbers: &mut Literals) {
        match self {
            Instruction::IntoRegister(operation, source, register, size) => {
                push_unsigned(*operation as u64, numbers);
                source.push(numbers);
                register.push(numbers);
                size.push(numbers);
            }
            Instruction::MOVEM {
                direction,
                size,
                registers_mask,
                target,
            } => {
                push_unsigned(4, numbers);
                direction.push(numbers);
                size.push(numbers);
                registers_mask.push(numbers);
                target.push(numbers);
            }
            Instruction::Transfer {
                operation,
                direction,
                size,
                register,
                target,
            } => {
                push_unsigned(*operation as u64, numbers);
                direction.push(numbers);
                size.push(numbers);
                register.push(numbers);
                target.push(numbers);
            }
            Instruction::Pair(operation, source, destination, size) => {
                push_unsigned(*operation as u64, numbers);
                source.push(numbers);
                destination.push(numbers);
                size.push(numbers);
            }
            Instruction::Quick(operation, value, target, size) => {
                push_unsigned(*operation as u64, numbers);
                value.push(numbers);
                target.push(numbers);
                size.push(numbers);
            }
            Instruction::MOVEQ(value, register) => {
                push_unsigned(11, numbers);
                value.push(numbers);
                register.push(numbers);
            }
            Instruction::ImmediateInto(operation, value, target, size) => {
                push_unsigned(*operation as u64, numbers);
                value.push(numbers);
                target.push(numbers);
                size.push(numbers);
            }
            Instruction::WordIntoData(operation, source, register, sign) => {
                push_unsigned(*operation as u64, numbers);
                source.push(numbers);
                register.push(numbers);
                sign.push(numbers);
            }
            Instruction::SWAP(register) => {
                push_unsigned(22, numbers);
                register.push(numbers);
            }
            Instruction::EXG(first, second) => {
                push_unsigned(24, numbers);
                first.push(numbers);
                second.push(numbers);
            }
            Instruction::UnsizedIntoRegister(operation, source, register) => {
                push_unsigned(*operation as u64, numbers);
                source.push(numbers);
                register.push(numbers);
            }
            Instruction::UnsizedOne(operation, target) => {
                push_unsigned(*operation as u64, numbers);
                target.push(numbers);
            }
            Instruction::UnsizedPair(operation, source, destination) => {
                push_unsigned(*operation as u64, numbers);
                source.push(numbers);
                destination.push(numbers);
            }
            Instruction::EXT(register, from, to) => {
                push_unsigned(32, numbers);
                register.push(numbers);
                from.push(numbers);
                to.push(numbers);
            }
            Instruction::OneOperand(operation, target, size) => {
                push_unsigned(*operation as u64, numbers);
                target.push(numbers);
                size.push(numbers);
            }
            Instruction::Bcc(target, condition, size) => {
                push_unsigned(35, numbers);
                target.push(numbers);
                condition.push(numbers);
                size.push(numbers);
            }
            Instruction::Scc(target, condition) => {
                push_unsigned(36, numbers);
                target.push(numbers);
                condition.push(numbers);
            }
            Instruction::DBcc(register, target, condition) => {
                push_unsigned(37, numbers);
                register.push(numbers);
                target.push(numbers);
                condition.push(numbers);
            }
            Instruction::Branch(operation, target, size) => {
                push_unsigned(*operation as u64, numbers);
                target.push(numbers);
                size.push(numbers);
            }
            Instruction::Link(operation, register, displacement) => {
                push_unsigned(*operation as u64, numbers);
                register.push(numbers);
                displacement.push(numbers);
            }
            Instruction::UNLK(register) => {
                push_unsigned(40, numbers);
                register.push(numbers);
            }
            Instruction::Shift(operation, count, target, direction, size) => {
                push_unsigned(*operation as u64, numbers);
                count.push(numbers);
                target.push(numbers);
                direction.push(numbers);
                size.push(numbers);
            }
            Instruction::Vector(operation, vector) => {
                push_unsigned(*operation as u64, numbers);
                vector.push(numbers);
            }
            Instruction::Status(operation, value) => {
                push_unsigned(*operation as u64, numbers);
                value.push(numbers);
            }
            Instruction::ConditionCode(operation, value) => {
                push_unsigned(*operation as u64, numbers);
                value.push(numbers);
            }
            Instruction::MOVEUSP { to_usp, register } => {
                push_unsigned(60, numbers);
                to_usp.push(numbers);
                register.push(numbers);
            }
            Instruction::Raw(operation, word) => {
                push_unsigned(*operation as u64, numbers);
                word.push(numbers);
            }
            Instruction::NoOperand(operation) => {
                push_unsigned(*operation as u64, numbers);
            }
            Instruction::RTD(displacement) => {
                push_unsigned(83, numbers);
                displacement.push(numbers);
            }
            Instruction::MOVEC {
                to_control,
                control,
                register,
            } => {
                push_unsigned(85, numbers);
                to_control.push(numbers);
                control.push(numbers);
                register.push(numbers);
            }
            Instruction::TRAPcc(condition, operand) => {
                push_unsigned(89, numbers);
                condition.push(numbers);
                operand.push(numbers);
            }
            Instruction::MULL {
                source,
                low,
                high,
                sign,
            } => {
                push_unsigned(90, numbers);
                source.push(numbers);
                low.push(numbers);
                high.push(numbers);
                sign.push(numbers);
            }
            Instruction::Pack(operation, source, destination, adjustment) => {
                push_unsigned(*operation as u64, numbers);
                source.push(numbers);
                destination.push(numbers);
                adjustment.push(numbers);
            }
            Instruction::CAS {
                compare,
                update,
                target,
                size,
            } => {
                push_unsigned(95, numbers);
                compare.push(numbers);
                update.push(numbers);
                target.push(numbers);
                size.push(numbers);
            }
            Instruction::CAS2 {
                compare1,
                compare2,
                update1,
                update2,
                pointer1,
                pointer2,
                size,
            } => {
                push_unsigned(96, numbers);
                compare1.push(numbers);
                compare2.push(numbers);
                update1.push(numbers);
                update2.push(numbers);
                pointer1.push(numbers);
                pointer2.push(numbers);
                size.push(numbers);
            }
            Instruction::BF {
                operation,
                target,
                field,
                register,
            } => {
                push_unsigned(97, numbers);
                operation.push(numbers);
                target.push(numbers);
                field.push(numbers);
                register.push(numbers);
            }
            Instruction::DIVL {
                source,
                quotient,
                remainder,
                wide,
                sign,
            } => {
                push_unsigned(98, numbers);
                source.push(numbers);
                quotient.push(numbers);
                remainder.push(numbers);
                wide.push(numbers);
                sign.push(numbers);
            }
        }
    }

    fn take(numbers: &[Literal]) -> Option<(Instruction, &[Literal])> {
        let (place, rest) = take_unsigned(numbers, 98)?;
        take_at(place, rest)
    }

    ghost exact = { instruction_exact };
}
