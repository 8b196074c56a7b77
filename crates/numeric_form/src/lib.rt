//! The numeric form of a value: the numbers that it is written as, and the value that numbers say.
#![tactic(auto)]

ghost use Rattle.std.specs.Prelude.{◌≡◌, ◌≤◌, List};
ghost use Rattle.numeric_spec.specs.Build.{built_of};
ghost use Rattle.numeric_spec.specs.Entry.{Entry};
ghost use Rattle.numeric_spec.specs.Form.{form_of};
ghost use Rattle.numeric_spec.specs.Take.{Take};
ghost use Rattle.numeric_facts.specs.Exact.{Exact};
ghost use Rattle.numeric_form.specs.Numbers.{as_built, numbers_in, said, pushed_all, none, numbers_from};

use crate::lent::LentForm;
use base_spec::{Literal, Literals};
use isa::Instruction;

pub mod given; // values that are given away
pub mod instruction; // instructions
pub mod lent; // the trait for values that are lent
pub mod name; // enums without fields
pub mod number; // numbers and flags
pub mod operand; // operands
pub mod pair; // one value after another
pub mod part; // registers and other parts
pub mod shape; // instructions by their shapes

/// A type whose values are written as numbers.
pub trait Form: Sized {
    ghost form: { Self → List Entry };

    ghost taken: { Take Self };

    /// Writes the numbers of the value after those that are there.
    fn push(self, numbers: &mut Literals)
        ensures { numbers.new ≡ pushed_all numbers.old (form self) };

    /// The value that stands first, and the numbers after it.
    fn take(numbers: &[Literal]) -> Option<(Self, &[Literal])>
        ensures { said (λ rest. numbers_in rest.now) result ≡ taken (numbers_in numbers.now) };

    ghost exact: { Exact form taken };
}

/// No numbers yet.
pub const NO_NUMBERS: Literals = Literals {
    places: [Literal {
        negative: false,
        magnitude: 0,
    }; 24],
    count: 0,
};

/// The instruction whose numbers these are.
#[tactic(auto, using(crate::proofs::Whole::built_whole, crate::proofs::Whole::built_more, crate::proofs::Whole::built_none))]
pub fn build(numbers: &[Literal]) -> Option<Instruction>
    ensures { as_built result ≡ built_of (numbers_in numbers.now) }
{
    let (instruction, rest) = <Instruction as LentForm>::take(numbers)?;
    rest.is_empty().then_some(instruction)
}

/// The numbers of an instruction, at most 17, in place of those that are there: `build` gives it back.
// Lent: a `Literals` of 392 bytes that is returned is filled three times and copied twice.
#[tactic(auto, using(crate::specs::PushedLaws::form_pushed, crate::specs::PushedLaws::form_count), unfolding(crate::specs::Numbers::none))]
pub fn write_numbers(instruction: Instruction, numbers: &mut Literals)
    ensures value { numbers.new ≡ numbers_from (form_of instruction) }
    ensures few { numbers.new.count ≤ 17 }
{
    *numbers = NO_NUMBERS;
    LentForm::push(&instruction, numbers);
}

/// The numbers of an instruction, at most 17: `build` gives it back.
pub fn numbers(instruction: Instruction) -> Literals
    ensures value { result ≡ numbers_from (form_of instruction) }
    ensures few { result.count ≤ 17 }
{
    let mut numbers = NO_NUMBERS;
    write_numbers(instruction, &mut numbers);
    numbers
}
