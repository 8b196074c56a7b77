//! Registers and the other enums and structs that an instruction's fields are made of.
#![tactic(auto, using(crate::specs::PushedLaws::pushed_append), unfolding(crate::specs::Numbers::pushed_all, numeric_spec::specs::Take::take_register, numeric_spec::specs::Take::take_index, numeric_spec::specs::Take::take_field_value, numeric_spec::specs::Take::take_bit_field, numeric_spec::specs::Take::take_trap_operand, numeric_spec::specs::Take::take_register_choice, numeric_spec::specs::Value::register_by_place, numeric_spec::specs::Value::field_value_by_place))]

ghost use Rattle.std.specs.Prelude.{◌≡◌};
ghost use Rattle.numeric_spec.specs.Payload.{register_form, index_form, field_value_form, bit_field_form, trap_operand_form, register_choice_form};
ghost use Rattle.numeric_spec.specs.Take.{take_register, take_index, take_field_value, take_bit_field, take_trap_operand, take_register_choice};
ghost use Rattle.numeric_facts.specs.Payload.{register_exact, index_exact, field-value_exact, bit_field_exact, trap_operand_exact, register_choice_exact};
ghost use Rattle.numeric_form.specs.Numbers.{numbers_in, said, pushed_all};

use crate::lent::LentForm;
use crate::number::{push_unsigned, take_unsigned};
use base_spec::{Literal, Literals};
use isa::{BitField, FieldValue, IndexRegister, RegisterOperand, Size, TrapOperand};

impl LentForm for RegisterOperand {
    ghost form = { register_form };

    ghost taken = { take_register };

    fn push(&self, numbers: &mut Literals) {
        match self {
            RegisterOperand::Address(number) => {
                push_unsigned(0, numbers);
                number.push(numbers);
            }
            RegisterOperand::Data(number) => {
                push_unsigned(1, numbers);
                number.push(numbers);
            }
        }
    }

    fn take(numbers: &[Literal]) -> Option<(RegisterOperand, &[Literal])> {
        let (place, rest) = take_unsigned(numbers, 1)?;
        let (number, rest) = u8::take(rest)?;
        match place {
            0 => Some((RegisterOperand::Address(number), rest)),
            _ => Some((RegisterOperand::Data(number), rest)),
        }
    }

    ghost exact = { register_exact };
}

impl LentForm for IndexRegister {
    ghost form = { index_form };

    ghost taken = { take_index };

    fn push(&self, numbers: &mut Literals) {
        self.register.push(numbers);
        self.size.push(numbers);
    }

    fn take(numbers: &[Literal]) -> Option<(IndexRegister, &[Literal])> {
        let (register, rest) = RegisterOperand::take(numbers)?;
        let (size, rest) = Size::take(rest)?;
        Some((IndexRegister { register, size }, rest))
    }

    ghost exact = { index_exact };
}

impl LentForm for FieldValue {
    ghost form = { field_value_form };

    ghost taken = { take_field_value };

    fn push(&self, numbers: &mut Literals) {
        match self {
            FieldValue::Immediate(number) => {
                push_unsigned(0, numbers);
                number.push(numbers);
            }
            FieldValue::Register(number) => {
                push_unsigned(1, numbers);
                number.push(numbers);
            }
        }
    }

    fn take(numbers: &[Literal]) -> Option<(FieldValue, &[Literal])> {
        let (place, rest) = take_unsigned(numbers, 1)?;
        let (number, rest) = u8::take(rest)?;
        match place {
            0 => Some((FieldValue::Immediate(number), rest)),
            _ => Some((FieldValue::Register(number), rest)),
        }
    }

    ghost exact = { field-value_exact };
}

impl LentForm for BitField {
    ghost form = { bit_field_form };

    ghost taken = { take_bit_field };

    fn push(&self, numbers: &mut Literals) {
        self.offset.push(numbers);
        self.width.push(numbers);
    }

    fn take(numbers: &[Literal]) -> Option<(BitField, &[Literal])> {
        let (offset, rest) = FieldValue::take(numbers)?;
        let (width, rest) = FieldValue::take(rest)?;
        Some((BitField { offset, width }, rest))
    }

    ghost exact = { bit_field_exact };
}

impl LentForm for TrapOperand {
    ghost form = { trap_operand_form };

    ghost taken = { take_trap_operand };

    fn push(&self, numbers: &mut Literals) {
        match self {
            TrapOperand::None => push_unsigned(0, numbers),
            TrapOperand::Word(value) => {
                push_unsigned(1, numbers);
                value.push(numbers);
            }
            TrapOperand::Long(value) => {
                push_unsigned(2, numbers);
                value.push(numbers);
            }
        }
    }

    fn take(numbers: &[Literal]) -> Option<(TrapOperand, &[Literal])> {
        let (place, rest) = take_unsigned(numbers, 2)?;
        match place {
            0 => Some((TrapOperand::None, rest)),
            1 => {
                let (value, rest) = u16::take(rest)?;
                Some((TrapOperand::Word(value), rest))
            }
            2 => {
                let (value, rest) = u32::take(rest)?;
                Some((TrapOperand::Long(value), rest))
            }
            _ => None,
        }
    }

    ghost exact = { trap_operand_exact };
}

impl LentForm for Option<u8> {
    ghost form = { register_choice_form };

    ghost taken = { take_register_choice };

    fn push(&self, numbers: &mut Literals) {
        match self {
            None => push_unsigned(0, numbers),
            Some(number) => {
                push_unsigned(1, numbers);
                number.push(numbers);
            }
        }
    }

    fn take(numbers: &[Literal]) -> Option<(Option<u8>, &[Literal])> {
        let (place, rest) = take_unsigned(numbers, 1)?;
        match place {
            0 => Some((None, rest)),
            _ => {
                let (number, rest) = u8::take(rest)?;
                Some((Some(number), rest))
            }
        }
    }

    ghost exact = { register_choice_exact };
}
