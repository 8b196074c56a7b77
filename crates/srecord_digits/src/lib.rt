// Capital hexadecimal digits, and the byte of two.
#![tactic(auto)]

ghost use Rattle.std.specs.Prelude.{◌≡◌, ◌+◌, ◌*◌, ◌≤◌};
ghost use Rattle.srecord_spec.specs.Record.{digit_value};

// What a digit writes, 0 to 9, A to F; 16 for another byte.
pub fn digit_value(b: u8) -> usize
    ensures { (result ≡ digit_value b) × (result ≤ 16) }
{
    if (48 <= b) & (b <= 57) {
        return (b - 48) as usize;
    }
    if (65 <= b) & (b <= 70) {
        return (b - 55) as usize;
    }
    16
}

// The byte of two digits, each as `digit_value` gives it.
pub fn byte_of(high: u8, low: u8) -> usize
    ensures { (result ≡ digit_value high * 16 + digit_value low) × (result ≤ 272) }
{
    digit_value(high) * 16 + digit_value(low)
}
