//! The numeric form of a value that is given away: by that of the value lent, and of two values one after the other.
// An impl a type: one for every type with `LentForm` would overlap that of two values.
#![tactic(auto, using(crate::specs::PushedLaws::pushed_append))]

ghost use Rattle.std.specs.Prelude.{◌≡◌, ◌++◌};
ghost use Rattle.numeric_facts.specs.Exact.{signed_exact, thence};
ghost use Rattle.numeric_facts.specs.Form.{instruction_exact};
ghost use Rattle.numeric_facts.specs.Payload.{byte_exact, word_exact, long_exact, address_exact, flag_exact, size_exact, target-direction_exact, address_width_exact, condition_exact, branch_size_exact, shift_direction_exact, sign_exact, bit_field_operation_exact, register_exact, index_exact, field-value_exact, bit_field_exact, trap_operand_exact, register_choice_exact, operand_exact};
ghost use Rattle.numeric_spec.specs.Build.{take_instruction};
ghost use Rattle.numeric_spec.specs.Form.{form_of};
ghost use Rattle.numeric_spec.specs.Payload.{byte_form, word_form, long_form, address_form, signed_form, flag_form, size_form, target_direction_form, address_width_form, condition_form, branch_size_form, shift_direction_form, sign_form, bit_field_operation_form, register_form, index_form, field_value_form, bit_field_form, trap_operand_form, register_choice_form, operand_form};
ghost use Rattle.numeric_spec.specs.Take.{take_byte, take_word, take_long, take_address, take_signed, take_flag, take_size, take_target_direction, take_address_width, take_condition, take_branch_size, take_shift_direction, take_sign, take_bit_field_operation, take_register, take_index, take_field_value, take_bit_field, take_trap_operand, take_register_choice, take_operand, take_both};
ghost use Rattle.numeric_form.specs.Numbers.{numbers_in, said, pushed_all};

use crate::Form;
use crate::lent::LentForm;
use base_spec::{Literal, Literals};
use isa::{
    AddressWidth, BitField, BitFieldOperation, BranchSize, Condition, FieldValue, IndexRegister,
    Instruction, Operand, RegisterOperand, ShiftDirection, Sign, Size, TargetDirection,
    TrapOperand,
};

impl Form for u8 {
    ghost form = { byte_form };

    ghost taken = { take_byte };

    fn push(self, numbers: &mut Literals) {
        <u8 as LentForm>::push(&self, numbers);
    }

    fn take(numbers: &[Literal]) -> Option<(u8, &[Literal])> {
        <u8 as LentForm>::take(numbers)
    }

    ghost exact = { byte_exact };
}

impl Form for u16 {
    ghost form = { word_form };

    ghost taken = { take_word };

    fn push(self, numbers: &mut Literals) {
        <u16 as LentForm>::push(&self, numbers);
    }

    fn take(numbers: &[Literal]) -> Option<(u16, &[Literal])> {
        <u16 as LentForm>::take(numbers)
    }

    ghost exact = { word_exact };
}

impl Form for u32 {
    ghost form = { long_form };

    ghost taken = { take_long };

    fn push(self, numbers: &mut Literals) {
        <u32 as LentForm>::push(&self, numbers);
    }

    fn take(numbers: &[Literal]) -> Option<(u32, &[Literal])> {
        <u32 as LentForm>::take(numbers)
    }

    ghost exact = { long_exact };
}

impl Form for u64 {
    ghost form = { address_form };

    ghost taken = { take_address };

    fn push(self, numbers: &mut Literals) {
        <u64 as LentForm>::push(&self, numbers);
    }

    fn take(numbers: &[Literal]) -> Option<(u64, &[Literal])> {
        <u64 as LentForm>::take(numbers)
    }

    ghost exact = { address_exact };
}

impl Form for i32 {
    ghost form = { signed_form };

    ghost taken = { take_signed };

    fn push(self, numbers: &mut Literals) {
        <i32 as LentForm>::push(&self, numbers);
    }

    fn take(numbers: &[Literal]) -> Option<(i32, &[Literal])> {
        <i32 as LentForm>::take(numbers)
    }

    ghost exact = { signed_exact };
}

impl Form for bool {
    ghost form = { flag_form };

    ghost taken = { take_flag };

    fn push(self, numbers: &mut Literals) {
        <bool as LentForm>::push(&self, numbers);
    }

    fn take(numbers: &[Literal]) -> Option<(bool, &[Literal])> {
        <bool as LentForm>::take(numbers)
    }

    ghost exact = { flag_exact };
}

impl Form for Size {
    ghost form = { size_form };

    ghost taken = { take_size };

    fn push(self, numbers: &mut Literals) {
        <Size as LentForm>::push(&self, numbers);
    }

    fn take(numbers: &[Literal]) -> Option<(Size, &[Literal])> {
        <Size as LentForm>::take(numbers)
    }

    ghost exact = { size_exact };
}

impl Form for TargetDirection {
    ghost form = { target_direction_form };

    ghost taken = { take_target_direction };

    fn push(self, numbers: &mut Literals) {
        <TargetDirection as LentForm>::push(&self, numbers);
    }

    fn take(numbers: &[Literal]) -> Option<(TargetDirection, &[Literal])> {
        <TargetDirection as LentForm>::take(numbers)
    }

    ghost exact = { target-direction_exact };
}

impl Form for AddressWidth {
    ghost form = { address_width_form };

    ghost taken = { take_address_width };

    fn push(self, numbers: &mut Literals) {
        <AddressWidth as LentForm>::push(&self, numbers);
    }

    fn take(numbers: &[Literal]) -> Option<(AddressWidth, &[Literal])> {
        <AddressWidth as LentForm>::take(numbers)
    }

    ghost exact = { address_width_exact };
}

impl Form for Condition {
    ghost form = { condition_form };

    ghost taken = { take_condition };

    fn push(self, numbers: &mut Literals) {
        <Condition as LentForm>::push(&self, numbers);
    }

    fn take(numbers: &[Literal]) -> Option<(Condition, &[Literal])> {
        <Condition as LentForm>::take(numbers)
    }

    ghost exact = { condition_exact };
}

impl Form for BranchSize {
    ghost form = { branch_size_form };

    ghost taken = { take_branch_size };

    fn push(self, numbers: &mut Literals) {
        <BranchSize as LentForm>::push(&self, numbers);
    }

    fn take(numbers: &[Literal]) -> Option<(BranchSize, &[Literal])> {
        <BranchSize as LentForm>::take(numbers)
    }

    ghost exact = { branch_size_exact };
}

impl Form for ShiftDirection {
    ghost form = { shift_direction_form };

    ghost taken = { take_shift_direction };

    fn push(self, numbers: &mut Literals) {
        <ShiftDirection as LentForm>::push(&self, numbers);
    }

    fn take(numbers: &[Literal]) -> Option<(ShiftDirection, &[Literal])> {
        <ShiftDirection as LentForm>::take(numbers)
    }

    ghost exact = { shift_direction_exact };
}

impl Form for Sign {
    ghost form = { sign_form };

    ghost taken = { take_sign };

    fn push(self, numbers: &mut Literals) {
        <Sign as LentForm>::push(&self, numbers);
    }

    fn take(numbers: &[Literal]) -> Option<(Sign, &[Literal])> {
        <Sign as LentForm>::take(numbers)
    }

    ghost exact = { sign_exact };
}

impl Form for BitFieldOperation {
    ghost form = { bit_field_operation_form };

    ghost taken = { take_bit_field_operation };

    fn push(self, numbers: &mut Literals) {
        <BitFieldOperation as LentForm>::push(&self, numbers);
    }

    fn take(numbers: &[Literal]) -> Option<(BitFieldOperation, &[Literal])> {
        <BitFieldOperation as LentForm>::take(numbers)
    }

    ghost exact = { bit_field_operation_exact };
}

impl Form for RegisterOperand {
    ghost form = { register_form };

    ghost taken = { take_register };

    fn push(self, numbers: &mut Literals) {
        <RegisterOperand as LentForm>::push(&self, numbers);
    }

    fn take(numbers: &[Literal]) -> Option<(RegisterOperand, &[Literal])> {
        <RegisterOperand as LentForm>::take(numbers)
    }

    ghost exact = { register_exact };
}

impl Form for IndexRegister {
    ghost form = { index_form };

    ghost taken = { take_index };

    fn push(self, numbers: &mut Literals) {
        <IndexRegister as LentForm>::push(&self, numbers);
    }

    fn take(numbers: &[Literal]) -> Option<(IndexRegister, &[Literal])> {
        <IndexRegister as LentForm>::take(numbers)
    }

    ghost exact = { index_exact };
}

impl Form for FieldValue {
    ghost form = { field_value_form };

    ghost taken = { take_field_value };

    fn push(self, numbers: &mut Literals) {
        <FieldValue as LentForm>::push(&self, numbers);
    }

    fn take(numbers: &[Literal]) -> Option<(FieldValue, &[Literal])> {
        <FieldValue as LentForm>::take(numbers)
    }

    ghost exact = { field-value_exact };
}

impl Form for BitField {
    ghost form = { bit_field_form };

    ghost taken = { take_bit_field };

    fn push(self, numbers: &mut Literals) {
        <BitField as LentForm>::push(&self, numbers);
    }

    fn take(numbers: &[Literal]) -> Option<(BitField, &[Literal])> {
        <BitField as LentForm>::take(numbers)
    }

    ghost exact = { bit_field_exact };
}

impl Form for TrapOperand {
    ghost form = { trap_operand_form };

    ghost taken = { take_trap_operand };

    fn push(self, numbers: &mut Literals) {
        <TrapOperand as LentForm>::push(&self, numbers);
    }

    fn take(numbers: &[Literal]) -> Option<(TrapOperand, &[Literal])> {
        <TrapOperand as LentForm>::take(numbers)
    }

    ghost exact = { trap_operand_exact };
}

impl Form for Option<u8> {
    ghost form = { register_choice_form };

    ghost taken = { take_register_choice };

    fn push(self, numbers: &mut Literals) {
        <Option<u8> as LentForm>::push(&self, numbers);
    }

    fn take(numbers: &[Literal]) -> Option<(Option<u8>, &[Literal])> {
        <Option<u8> as LentForm>::take(numbers)
    }

    ghost exact = { register_choice_exact };
}

impl Form for Operand {
    ghost form = { operand_form };

    ghost taken = { take_operand };

    fn push(self, numbers: &mut Literals) {
        <Operand as LentForm>::push(&self, numbers);
    }

    fn take(numbers: &[Literal]) -> Option<(Operand, &[Literal])> {
        <Operand as LentForm>::take(numbers)
    }

    ghost exact = { operand_exact };
}

impl Form for Instruction {
    ghost form = { form_of };

    ghost taken = { take_instruction };

    fn push(self, numbers: &mut Literals) {
        <Instruction as LentForm>::push(&self, numbers);
    }

    fn take(numbers: &[Literal]) -> Option<(Instruction, &[Literal])> {
        <Instruction as LentForm>::take(numbers)
    }

    ghost exact = { instruction_exact };
}

impl<A: Form + Drop, B: Form> Form for (A, B) {
    ghost form = { λ x. A.form x.0 ++ B.form x.1 };

    ghost taken = { take_both A.taken B.taken };

    fn push(self, numbers: &mut Literals) {
        let (first, second) = self;
        first.push(numbers);
        second.push(numbers);
    }

    fn take(numbers: &[Literal]) -> Option<((A, B), &[Literal])> {
        let (first, rest) = A::take(numbers)?;
        let (second, rest) = B::take(rest)?;
        Some(((first, second), rest))
    }

    ghost exact = { thence A.exact B.exact };
}

#[cfg(test)]
mod tests {
    use super::*;
    use crate::NO_NUMBERS;

    fn same(a: &Literal, b: &Literal) -> bool {
        a.negative == b.negative && a.magnitude == b.magnitude
    }

    // Whether the value that is taken from the numbers of a value has the same numbers, which are all that it takes.
    fn comes_back<T: Form + Drop>(value: T) -> bool {
        let mut numbers = NO_NUMBERS;
        value.push(&mut numbers);
        let Some((taken, rest)) = T::take(&numbers.places) else {
            return false;
        };
        let mut again = NO_NUMBERS;
        taken.push(&mut again);
        for (a, b) in numbers.places.iter().zip(again.places.iter()) {
            if !same(a, b) {
                return false;
            }
        }
        again.count == numbers.count && rest.len() == 24usize.saturating_sub(numbers.count)
    }

    #[test]
    fn numbers_come_back(rt: HostRuntime) {
        assert!(rt; comes_back(1u8));
        assert!(rt; comes_back(2u16));
        assert!(rt; comes_back(3u32));
        assert!(rt; comes_back(4u64));
        assert!(rt; comes_back(-5i32));
        assert!(rt; comes_back(true));
    }

    #[test]
    fn names_come_back(rt: HostRuntime) {
        assert!(rt; comes_back(Size::Word));
        assert!(rt; comes_back(TargetDirection::ToMemory));
        assert!(rt; comes_back(AddressWidth::Long));
        assert!(rt; comes_back(Condition::High));
        assert!(rt; comes_back(BranchSize::Word));
        assert!(rt; comes_back(ShiftDirection::Left));
        assert!(rt; comes_back(Sign::Signed));
        assert!(rt; comes_back(BitFieldOperation::Insert));
    }

    #[test]
    fn parts_come_back(rt: HostRuntime) {
        let register = RegisterOperand::Address(7);
        let size = Size::Long;
        let offset = FieldValue::Register(3);
        let width = FieldValue::Immediate(8);
        assert!(rt; comes_back(register));
        assert!(rt; comes_back(IndexRegister { register, size }));
        assert!(rt; comes_back(offset));
        assert!(rt; comes_back(BitField { offset, width }));
        assert!(rt; comes_back(TrapOperand::Word(9)));
        assert!(rt; comes_back(Some(6u8)));
        assert!(rt; comes_back(Operand::Indirect(5)));
        assert!(rt; comes_back(Instruction::UNLK(register)));
        assert!(rt; comes_back((3u8, true)));
    }

    #[test]
    fn two_values_are_written_in_order(rt: HostRuntime) {
        let mut numbers = NO_NUMBERS;
        Form::push((3u8, true), &mut numbers);
        assert!(rt; numbers.count == 2);
        assert!(rt; numbers.places[0].magnitude == 3);
        assert!(rt; numbers.places[1].magnitude == 1);
    }
}
