//! The numeric form of a value that is lent.
#![tactic(auto)]

ghost use Rattle.std.specs.Prelude.{◌≡◌, List};
ghost use Rattle.numeric_spec.specs.Entry.{Entry};
ghost use Rattle.numeric_spec.specs.Take.{Take};
ghost use Rattle.numeric_facts.specs.Exact.{Exact};
ghost use Rattle.numeric_form.specs.Numbers.{numbers_in, said, pushed_all};

use base_spec::{Literal, Literals};

/// The same as `Form` of a value that is lent: none is copied.
pub trait LentForm: Sized {
    ghost form: { Self → List Entry };

    ghost taken: { Take Self };

    /// Writes the numbers of the value after those that are there.
    fn push(&self, numbers: &mut Literals)
        ensures { numbers.new ≡ pushed_all numbers.old (form self.now) };

    /// The value that stands first, and the numbers after it.
    fn take(numbers: &[Literal]) -> Option<(Self, &[Literal])>
        ensures { said (λ rest. numbers_in rest.now) result ≡ taken (numbers_in numbers.now) };

    ghost exact: { Exact form taken };
}
