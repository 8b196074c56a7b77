//! Numbers.
#![tactic(auto, unfolding(crate::specs::Numbers::stored, crate::specs::Numbers::pushed, crate::specs::Numbers::pushed_all))]

ghost use Rattle.std.specs.Prelude.{◌≡◌, ◌≤◌, ◌<◌, List, IfSome, pos};
ghost use Rattle.base_spec.specs.Signed.{minus};
ghost use Rattle.numeric_spec.specs.Payload.{byte_form, word_form, long_form, address_form, signed_form, flag_form};
ghost use Rattle.numeric_spec.specs.Take.{take_unsigned, take_byte, take_word, take_long, take_address, take_signed, take_flag};
ghost use Rattle.numeric_facts.specs.Payload.{byte_exact, word_exact, long_exact, address_exact, flag_exact};
ghost use Rattle.numeric_facts.specs.Exact.{signed_exact};
ghost use Rattle.numeric_form.specs.Numbers.{number_of, numbers_in, said, unsigned_in, signed_in, stored, pushed, pushed_all};

use crate::lent::LentForm;
use base_spec::{Literal, Literals};

/// The number, where it is between 0 and `top`.
#[tactic(auto, using(crate::proofs::First::unsigned_is, crate::proofs::First::unsigned_not, crate::proofs::First::unsigned_within))]
fn unsigned(literal: Literal, top: u64) -> Option<u64>
    ensures value { result ≡ unsigned_in top (number_of literal) }
    ensures within { IfSome result (λ v. v ≤ top) }
{
    if (literal.magnitude <= top) & (!literal.negative | (literal.magnitude == 0)) {
        Some(literal.magnitude)
    } else {
        None
    }
}

/// The number, where it is an `i32`.
fn signed(literal: Literal) -> Option<i32>
    ensures { result ≡ signed_in (number_of literal) }
{
    if literal.magnitude <= 2_147_483_647 {
        let value = literal.magnitude as i32;
        Some(if literal.negative { -value } else { value })
    } else if literal.negative & (literal.magnitude == 2_147_483_648) {
        Some(-2_147_483_648)
    } else {
        None
    }
}

/// Writes one number more, where there is room.
fn store(literal: Literal, numbers: &mut Literals)
    ensures { numbers.new ≡ stored numbers.old literal }
{
    let at = numbers.count;
    if at < 24 {
        numbers.places[at] = literal;
        numbers.count = at + 1;
    }
}

/// Writes a number that is not below 0.
pub fn push_unsigned(value: u64, numbers: &mut Literals)
    ensures { numbers.new ≡ pushed numbers.old (pos value) }
{
    store(
        Literal {
            negative: false,
            magnitude: value,
        },
        numbers,
    );
}

/// The first number, where it is between 0 and `top`.
#[tactic(auto, using(crate::proofs::First::unsigned_first, crate::proofs::First::unsigned_none))]
pub fn take_unsigned(numbers: &[Literal], top: u64) -> Option<(u64, &[Literal])>
    ensures value { said (λ rest. numbers_in rest.now) result ≡ take_unsigned top (numbers_in numbers.now) }
    ensures within { IfSome result (λ r. r.0 ≤ top) }
{
    let (first, rest) = numbers.split_first()?;
    let value = unsigned(*first, top)?;
    Some((value, rest))
}

impl LentForm for u8 {
    ghost form = { byte_form };

    ghost taken = { take_byte };

    fn push(&self, numbers: &mut Literals) {
        push_unsigned(u64::from(*self), numbers);
    }

    fn take(numbers: &[Literal]) -> Option<(u8, &[Literal])> {
        let (value, rest) = take_unsigned(numbers, 255)?;
        Some((value as u8, rest))
    }

    ghost exact = { byte_exact };
}

impl LentForm for u16 {
    ghost form = { word_form };

    ghost taken = { take_word };

    fn push(&self, numbers: &mut Literals) {
        push_unsigned(u64::from(*self), numbers);
    }

    fn take(numbers: &[Literal]) -> Option<(u16, &[Literal])> {
        let (value, rest) = take_unsigned(numbers, 65_535)?;
        Some((value as u16, rest))
    }

    ghost exact = { word_exact };
}

impl LentForm for u32 {
    ghost form = { long_form };

    ghost taken = { take_long };

    fn push(&self, numbers: &mut Literals) {
        push_unsigned(u64::from(*self), numbers);
    }

    fn take(numbers: &[Literal]) -> Option<(u32, &[Literal])> {
        let (value, rest) = take_unsigned(numbers, 4_294_967_295)?;
        Some((value as u32, rest))
    }

    ghost exact = { long_exact };
}

impl LentForm for u64 {
    ghost form = { address_form };

    ghost taken = { take_address };

    fn push(&self, numbers: &mut Literals) {
        push_unsigned(*self, numbers);
    }

    fn take(numbers: &[Literal]) -> Option<(u64, &[Literal])> {
        take_unsigned(numbers, 18_446_744_073_709_551_615)
    }

    ghost exact = { address_exact };
}

/// The first number, where it is an `i32`.
#[tactic(auto, using(crate::proofs::First::signed_first, crate::proofs::First::signed_none))]
pub fn take_signed(numbers: &[Literal]) -> Option<(i32, &[Literal])>
    ensures { said (λ rest. numbers_in rest.now) result ≡ take_signed (numbers_in numbers.now) }
{
    let (first, rest) = numbers.split_first()?;
    let value = signed(*first)?;
    Some((value, rest))
}

impl LentForm for i32 {
    ghost form = { signed_form };

    ghost taken = { take_signed };

    fn push(&self, numbers: &mut Literals) {
        store(
            Literal {
                negative: *self < 0,
                magnitude: u64::from(self.unsigned_abs()),
            },
            numbers,
        );
    }

    fn take(numbers: &[Literal]) -> Option<(i32, &[Literal])> {
        take_signed(numbers)
    }

    ghost exact = { signed_exact };
}

impl LentForm for bool {
    ghost form = { flag_form };

    ghost taken = { take_flag };

    fn push(&self, numbers: &mut Literals) {
        push_unsigned(u64::from(*self), numbers);
    }

    fn take(numbers: &[Literal]) -> Option<(bool, &[Literal])> {
        let (value, rest) = take_unsigned(numbers, 1)?;
        Some((value == 1, rest))
    }

    ghost exact = { flag_exact };
}
