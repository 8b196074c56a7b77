//! One value after another.
#![tactic(auto, using(crate::specs::PushedLaws::pushed_append))]

ghost use Rattle.std.specs.Prelude.{◌≡◌, ◌++◌};
ghost use Rattle.numeric_spec.specs.Take.{take_both};
ghost use Rattle.numeric_facts.specs.Exact.{thence};
ghost use Rattle.numeric_form.specs.Numbers.{numbers_in, said, pushed_all};

use crate::lent::LentForm;
use base_spec::{Literal, Literals};

impl<A: LentForm + Drop, B: LentForm> LentForm for (A, B) {
    ghost form = { λ x. A.form x.0 ++ B.form x.1 };

    ghost taken = { take_both A.taken B.taken };

    fn push(&self, numbers: &mut Literals) {
        self.0.push(numbers);
        self.1.push(numbers);
    }

    fn take(numbers: &[Literal]) -> Option<((A, B), &[Literal])> {
        let (first, rest) = A::take(numbers)?;
        let (second, rest) = B::take(rest)?;
        Some(((first, second), rest))
    }

    ghost exact = { thence A.exact B.exact };
}
