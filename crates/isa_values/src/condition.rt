// Conditions and their four-bit codes.
ghost use Rattle.std.specs.Prelude.{◌≡◌, ◌<◌};
ghost use Rattle.isa_spec.specs.Code.{condition_code};
ghost use Rattle.isa_spec.specs.Condition.{condition_of};

use isa::Condition;

/// Every condition, in the order of its code.
pub const ALL: [Condition; 16] = [
    Condition::True,
    Condition::False,
    Condition::High,
    Condition::LowOrSame,
    Condition::CarryClear,
    Condition::CarrySet,
    Condition::NotEqual,
    Condition::Equal,
    Condition::OverflowClear,
    Condition::OverflowSet,
    Condition::Plus,
    Condition::Minus,
    Condition::GreaterThanOrEqual,
    Condition::LessThan,
    Condition::GreaterThan,
    Condition::LessThanOrEqual,
];

// A const is laid out anew where it is indexed.
static BY_CODE: [Condition; 16] = ALL;

/// The condition of the low four bits.
pub fn from_code(code: u16) -> Condition
    ensures { result ≡ condition_of code }
{
    BY_CODE[usize::from(code % 16)]
}

/// The code of a condition.
pub fn code(condition: Condition) -> u16
    ensures { (result ≡ condition_code condition) × (result < 16) }
{
    condition as u16
}
