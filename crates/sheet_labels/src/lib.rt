// What a field's value says of a label: the address that it is made, and whether it names a line.
#![tactic(auto)]

ghost use Rattle.std.specs.Prelude.{◌≡◌};
ghost use Rattle.sheet_labels.specs.Labels.{address_in, own_number, below_zero, says_label, names_line};

use sheet_tokens::Value;

fn wide(x: u32) -> u64
    ensures { result ≡ x }
{
    x as u64
}

// The address of line k, or 0 where there is none.
pub fn address_in(addresses: &[u32], k: u64) -> u64
    ensures { result ≡ address_in addresses.now k }
{
    if k == 0 {
        return 0;
    }
    let i = (k - 1) as usize;
    if i < addresses.len() {
        return wide(addresses[i]);
    }
    0
}

// The number that a value says, of a label its line's.
pub fn own_number(v: Option<Value>) -> u64
    ensures { result ≡ own_number v }
{
    match v {
        Some(Value::Number { magnitude, .. }) => magnitude,
        Some(Value::Line(k)) => k,
        None => 0,
    }
}

pub fn below_zero(v: Option<Value>) -> bool
    ensures { result ≡ below_zero v }
{
    match v {
        Some(Value::Number { negative, .. }) => negative,
        Some(Value::Line(_)) => false,
        None => false,
    }
}

pub fn says_label(v: Option<Value>) -> bool
    ensures { result ≡ says_label v }
{
    match v {
        Some(Value::Number { .. }) => false,
        Some(Value::Line(_)) => true,
        None => false,
    }
}

// Whether a value, where it is a label, is the number of one of `lines` lines.
pub fn names_line(v: Option<Value>, lines: usize) -> bool
    ensures { result ≡ names_line lines v }
{
    match v {
        Some(Value::Number { .. }) => true,
        Some(Value::Line(k)) => (1 <= k) & (k <= lines as u64),
        None => true,
    }
}
