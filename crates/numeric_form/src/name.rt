//! Enums without fields: a variant is its place.
#![tactic(auto, unfolding(crate::specs::Numbers::pushed_all))]

ghost use Rattle.std.specs.Prelude.{◌≡◌};
ghost use Rattle.numeric_spec.specs.Value.{size_by_place, target_direction_by_place, address_width_by_place, condition_by_place, branch_size_by_place, shift_direction_by_place, sign_by_place, bit_field_operation_by_place};
ghost use Rattle.numeric_spec.specs.Payload.{size_form, target_direction_form, address_width_form, condition_form, branch_size_form, shift_direction_form, sign_form, bit_field_operation_form};
ghost use Rattle.numeric_spec.specs.Take.{take_size, take_target_direction, take_address_width, take_condition, take_branch_size, take_shift_direction, take_sign, take_bit_field_operation};
ghost use Rattle.numeric_facts.specs.Payload.{size_exact, target-direction_exact, address_width_exact, condition_exact, branch_size_exact, shift_direction_exact, sign_exact, bit_field_operation_exact};
ghost use Rattle.numeric_form.specs.Numbers.{numbers_in, said, pushed_all};

use crate::lent::LentForm;
use crate::number::{push_unsigned, take_unsigned};
use base_spec::{Literal, Literals};
use isa::{
    AddressWidth, BitFieldOperation, BranchSize, Condition, ShiftDirection, Sign, Size,
    TargetDirection,
};

fn size_of(place: u64) -> Size
    ensures { result ≡ size_by_place place }
{
    match place {
        1 => Size::Word,
        2 => Size::Long,
        _ => Size::Byte,
    }
}

impl LentForm for Size {
    ghost form = { size_form };

    ghost taken = { take_size };

    fn push(&self, numbers: &mut Literals) {
        push_unsigned(*self as u64, numbers);
    }

    fn take(numbers: &[Literal]) -> Option<(Size, &[Literal])> {
        let (place, rest) = take_unsigned(numbers, 2)?;
        Some((size_of(place), rest))
    }

    ghost exact = { size_exact };
}

fn target_direction_of(place: u64) -> TargetDirection
    ensures { result ≡ target_direction_by_place place }
{
    match place {
        1 => TargetDirection::FromMemory,
        _ => TargetDirection::ToMemory,
    }
}

impl LentForm for TargetDirection {
    ghost form = { target_direction_form };

    ghost taken = { take_target_direction };

    fn push(&self, numbers: &mut Literals) {
        push_unsigned(*self as u64, numbers);
    }

    fn take(numbers: &[Literal]) -> Option<(TargetDirection, &[Literal])> {
        let (place, rest) = take_unsigned(numbers, 1)?;
        Some((target_direction_of(place), rest))
    }

    ghost exact = { target-direction_exact };
}

fn address_width_of(place: u64) -> AddressWidth
    ensures { result ≡ address_width_by_place place }
{
    match place {
        1 => AddressWidth::Long,
        _ => AddressWidth::Word,
    }
}

impl LentForm for AddressWidth {
    ghost form = { address_width_form };

    ghost taken = { take_address_width };

    fn push(&self, numbers: &mut Literals) {
        push_unsigned(*self as u64, numbers);
    }

    fn take(numbers: &[Literal]) -> Option<(AddressWidth, &[Literal])> {
        let (place, rest) = take_unsigned(numbers, 1)?;
        Some((address_width_of(place), rest))
    }

    ghost exact = { address_width_exact };
}

fn condition_of(place: u64) -> Condition
    ensures { result ≡ condition_by_place place }
{
    match place {
        1 => Condition::False,
        2 => Condition::High,
        3 => Condition::LowOrSame,
        4 => Condition::CarryClear,
        5 => Condition::CarrySet,
        6 => Condition::NotEqual,
        7 => Condition::Equal,
        8 => Condition::OverflowClear,
        9 => Condition::OverflowSet,
        10 => Condition::Plus,
        11 => Condition::Minus,
        12 => Condition::GreaterThanOrEqual,
        13 => Condition::LessThan,
        14 => Condition::GreaterThan,
        15 => Condition::LessThanOrEqual,
        _ => Condition::True,
    }
}

impl LentForm for Condition {
    ghost form = { condition_form };

    ghost taken = { take_condition };

    fn push(&self, numbers: &mut Literals) {
        push_unsigned(*self as u64, numbers);
    }

    fn take(numbers: &[Literal]) -> Option<(Condition, &[Literal])> {
        let (place, rest) = take_unsigned(numbers, 15)?;
        Some((condition_of(place), rest))
    }

    ghost exact = { condition_exact };
}

fn branch_size_of(place: u64) -> BranchSize
    ensures { result ≡ branch_size_by_place place }
{
    match place {
        1 => BranchSize::Word,
        2 => BranchSize::Long,
        _ => BranchSize::Short,
    }
}

impl LentForm for BranchSize {
    ghost form = { branch_size_form };

    ghost taken = { take_branch_size };

    fn push(&self, numbers: &mut Literals) {
        push_unsigned(*self as u64, numbers);
    }

    fn take(numbers: &[Literal]) -> Option<(BranchSize, &[Literal])> {
        let (place, rest) = take_unsigned(numbers, 2)?;
        Some((branch_size_of(place), rest))
    }

    ghost exact = { branch_size_exact };
}

fn shift_direction_of(place: u64) -> ShiftDirection
    ensures { result ≡ shift_direction_by_place place }
{
    match place {
        1 => ShiftDirection::Left,
        _ => ShiftDirection::Right,
    }
}

impl LentForm for ShiftDirection {
    ghost form = { shift_direction_form };

    ghost taken = { take_shift_direction };

    fn push(&self, numbers: &mut Literals) {
        push_unsigned(*self as u64, numbers);
    }

    fn take(numbers: &[Literal]) -> Option<(ShiftDirection, &[Literal])> {
        let (place, rest) = take_unsigned(numbers, 1)?;
        Some((shift_direction_of(place), rest))
    }

    ghost exact = { shift_direction_exact };
}

fn sign_of(place: u64) -> Sign
    ensures { result ≡ sign_by_place place }
{
    match place {
        1 => Sign::Unsigned,
        _ => Sign::Signed,
    }
}

impl LentForm for Sign {
    ghost form = { sign_form };

    ghost taken = { take_sign };

    fn push(&self, numbers: &mut Literals) {
        push_unsigned(*self as u64, numbers);
    }

    fn take(numbers: &[Literal]) -> Option<(Sign, &[Literal])> {
        let (place, rest) = take_unsigned(numbers, 1)?;
        Some((sign_of(place), rest))
    }

    ghost exact = { sign_exact };
}

fn bit_field_operation_of(place: u64) -> BitFieldOperation
    ensures { result ≡ bit_field_operation_by_place place }
{
    match place {
        1 => BitFieldOperation::ExtractUnsigned,
        2 => BitFieldOperation::Change,
        3 => BitFieldOperation::ExtractSigned,
        4 => BitFieldOperation::Clear,
        5 => BitFieldOperation::FindFirstOne,
        6 => BitFieldOperation::Set,
        7 => BitFieldOperation::Insert,
        _ => BitFieldOperation::Test,
    }
}

impl LentForm for BitFieldOperation {
    ghost form = { bit_field_operation_form };

    ghost taken = { take_bit_field_operation };

    fn push(&self, numbers: &mut Literals) {
        push_unsigned(*self as u64, numbers);
    }

    fn take(numbers: &[Literal]) -> Option<(BitFieldOperation, &[Literal])> {
        let (place, rest) = take_unsigned(numbers, 7)?;
        Some((bit_field_operation_of(place), rest))
    }

    ghost exact = { bit_field_operation_exact };
}
