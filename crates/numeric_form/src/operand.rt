//! Operands.
#![tactic(auto, using(crate::specs::PushedLaws::pushed_append), unfolding(crate::specs::Numbers::pushed_all, numeric_spec::specs::Take::take_operand, numeric_spec::specs::Take::operand_payloads))]

ghost use Rattle.std.specs.Prelude.{◌≡◌};
ghost use Rattle.numeric_spec.specs.Payload.{operand_form};
ghost use Rattle.numeric_spec.specs.Take.{take_operand};
ghost use Rattle.numeric_facts.specs.Payload.{operand_exact};
ghost use Rattle.numeric_form.specs.Numbers.{numbers_in, said, pushed_all};

use crate::lent::LentForm;
use crate::number::{push_unsigned, take_unsigned};
use base_spec::{Literal, Literals};
use isa::{AddressWidth, IndexRegister, Operand, RegisterOperand};

impl LentForm for Operand {
    ghost form = { operand_form };

    ghost taken = { take_operand };

    // Not inlined: 22 places call it.
    #[inline(never)]
    fn push(&self, numbers: &mut Literals) {
        match self {
            Operand::Immediate(value) => {
                push_unsigned(0, numbers);
                value.push(numbers);
            }
            Operand::Register(register) => {
                push_unsigned(1, numbers);
                register.push(numbers);
            }
            Operand::Indirect(base) => {
                push_unsigned(2, numbers);
                base.push(numbers);
            }
            Operand::PostIndirect(base) => {
                push_unsigned(3, numbers);
                base.push(numbers);
            }
            Operand::PreIndirect(base) => {
                push_unsigned(4, numbers);
                base.push(numbers);
            }
            Operand::IndirectDisplacement { offset, base } => {
                push_unsigned(5, numbers);
                offset.push(numbers);
                base.push(numbers);
            }
            Operand::IndirectIndex {
                base,
                offset,
                index,
            } => {
                push_unsigned(6, numbers);
                base.push(numbers);
                offset.push(numbers);
                index.push(numbers);
            }
            Operand::PcDisplacement { target } => {
                push_unsigned(7, numbers);
                target.push(numbers);
            }
            Operand::PcIndex { target, index } => {
                push_unsigned(8, numbers);
                target.push(numbers);
                index.push(numbers);
            }
            Operand::Extended {
                base,
                word,
                displacement,
                outer,
            } => {
                push_unsigned(9, numbers);
                base.push(numbers);
                word.push(numbers);
                displacement.push(numbers);
                outer.push(numbers);
            }
            Operand::Absolute { address, width } => {
                push_unsigned(10, numbers);
                address.push(numbers);
                width.push(numbers);
            }
        }
    }

    fn take(numbers: &[Literal]) -> Option<(Operand, &[Literal])> {
        let (place, rest) = take_unsigned(numbers, 10)?;
        match place {
            0 => {
                let (value, rest) = u32::take(rest)?;
                Some((Operand::Immediate(value), rest))
            }
            1 => {
                let (register, rest) = RegisterOperand::take(rest)?;
                Some((Operand::Register(register), rest))
            }
            2 => {
                let (base, rest) = u8::take(rest)?;
                Some((Operand::Indirect(base), rest))
            }
            3 => {
                let (base, rest) = u8::take(rest)?;
                Some((Operand::PostIndirect(base), rest))
            }
            4 => {
                let (base, rest) = u8::take(rest)?;
                Some((Operand::PreIndirect(base), rest))
            }
            5 => {
                let (offset, rest) = i32::take(rest)?;
                let (base, rest) = RegisterOperand::take(rest)?;
                Some((Operand::IndirectDisplacement { offset, base }, rest))
            }
            6 => {
                let (base, rest) = RegisterOperand::take(rest)?;
                let (offset, rest) = i32::take(rest)?;
                let (index, rest) = IndexRegister::take(rest)?;
                Some((
                    Operand::IndirectIndex {
                        base,
                        offset,
                        index,
                    },
                    rest,
                ))
            }
            7 => {
                let (target, rest) = u32::take(rest)?;
                Some((Operand::PcDisplacement { target }, rest))
            }
            8 => {
                let (target, rest) = u32::take(rest)?;
                let (index, rest) = IndexRegister::take(rest)?;
                Some((Operand::PcIndex { target, index }, rest))
            }
            9 => {
                let (base, rest) = u8::take(rest)?;
                let (word, rest) = u16::take(rest)?;
                let (displacement, rest) = i32::take(rest)?;
                let (outer, rest) = i32::take(rest)?;
                Some((
                    Operand::Extended {
                        base,
                        word,
                        displacement,
                        outer,
                    },
                    rest,
                ))
            }
            10 => {
                let (address, rest) = u64::take(rest)?;
                let (width, rest) = AddressWidth::take(rest)?;
                Some((Operand::Absolute { address, width }, rest))
            }
            _ => None,
        }
    }

    ghost exact = { operand_exact };
}
