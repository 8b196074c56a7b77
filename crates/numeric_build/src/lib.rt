// From numbers in places to an instruction: the form that callers of `numeric_form` use.
#![tactic(auto)]

ghost use Rattle.std.specs.Prelude.{◌≡◌, ◌<◌, ◌≤◌, length, take};
ghost use Rattle.numeric_fields.specs.Number.{numbers_in};
ghost use Rattle.numeric_fields.specs.Taken.{Whole};
ghost use Rattle.numeric_places.specs.Places.{built_from, numbers_from};
ghost use Rattle.numeric_spec.specs.Form.{form_of};
ghost use Rattle.numeric_build.specs.Places.{in_places};
ghost use Rattle.numeric_build.specs.Literals.{literals_from};
ghost use Rattle.numeric_form.specs.Numbers as form;
ghost use Rattle.numeric_spec.specs.Build.{built_of};

use base_spec::{Literal, Literals};
use isa::Instruction;
use numeric_form::lent::LentForm;
pub use numeric_places::Numbers;
pub use numeric_spec::Built;

const NOTHING: Literal = Literal {
    negative: false,
    magnitude: 0,
};

// Signs and magnitudes, the first ones as literals in a lent place.
fn write_literals(
    count: usize,
    negative: &[bool; 24],
    magnitude: &[u64; 24],
    literals: &mut [Literal; 24],
)
    requires { (count ≤ 24) × (length negative.now ≡ 24) × (length magnitude.now ≡ 24) × (length literals.old ≡ 24) }
    ensures { (length literals.new ≡ 24) × (take count literals.new ≡ take count (literals_from negative.now magnitude.now)) }
{
    let mut i: usize = 0;
    while i < count {
        literals[i] = Literal {
            negative: negative[i],
            magnitude: magnitude[i],
        };
        i += 1;
    }
}

// The instruction whose numbers these are, to their end.
#[tactic(auto, using(crate::proofs::Whole::built_whole, crate::proofs::Whole::built_more, crate::proofs::Whole::built_none))]
fn built(numbers: &[Literal]) -> Built
    ensures { result ≡ built_of (form.numbers_in numbers.now) }
{
    match Instruction::take(numbers) {
        Some((instruction, rest)) => {
            if rest.is_empty() {
                Built::Instruction(instruction)
            } else {
                Built::NotInForm
            }
        }
        None => Built::NotInForm,
    }
}

// The instruction whose numbers are all those from a place on.
pub fn build_in(count: usize, negative: &[bool; 24], magnitude: &[u64; 24], from: usize) -> Built
    requires { Whole (numbers_in count negative.now magnitude.now) }
    ensures { result ≡ built_from (numbers_in count negative.now magnitude.now) from }
{
    if from <= count && count <= 24 {
        let mut literals = [NOTHING; 24];
        write_literals(count, negative, magnitude, &mut literals);
        built(&literals[from..count])
    } else {
        Built::NotInForm
    }
}

// The same of numbers by value.
pub fn build(numbers: Numbers, from: usize) -> Built
    ensures { result ≡ built_from numbers from }
{
    let negative = numbers.negative;
    let magnitude = numbers.magnitude;
    build_in(numbers.count, &negative, &magnitude, from)
}

fn in_places(literals: Literals) -> Numbers
    requires { length literals.places ≡ 24 }
    ensures { result ≡ in_places literals }
{
    let places = literals.places;
    let mut negative: [bool; 24] = [false; 24];
    let mut magnitude: [u64; 24] = [0; 24];
    let mut i: usize = 0;
    while i < 24 {
        negative[i] = places[i].negative;
        magnitude[i] = places[i].magnitude;
        i += 1;
    }
    Numbers {
        count: literals.count,
        negative,
        magnitude,
    }
}

// The numbers of an instruction, at most 17: `build` gives it back.
pub fn numbers(instruction: Instruction) -> Numbers
    ensures { (result ≡ numbers_from (form_of instruction)) × (result.count ≤ 17) }
{
    in_places(numeric_form::numbers(instruction))
}
