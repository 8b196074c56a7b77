// Numbers inside their declared types.
ghost use Rattle.std.specs.Prelude.{◌≡◌, ◌≤◌, ◌<◌};
ghost use Rattle.base_spec.specs.Signed.{minus};
ghost use Rattle.numeric_fields.specs.Number.{numbers_in, unsigned_at, signed_at, byte_at, word_at, long_at};

use crate::{ByteAt, LongAt, Numbers, SignedAt, UnsignedAt, WordAt};

// A number from 0 to top.
pub fn unsigned_at(
    count: usize,
    negative: &[bool; 24],
    magnitude: &[u64; 24],
    k: usize,
    top: u64,
) -> UnsignedAt
    ensures { result ≡ unsigned_at top (numbers_in count negative.now magnitude.now) k }
{
    if k < 24 {
        let m = magnitude[k];
        let minus = negative[k];
        if (k < count) & (m <= top) & (!minus | (m == 0)) {
            UnsignedAt {
                ok: true,
                value: m,
                next: k + 1,
            }
        } else {
            UnsignedAt {
                ok: false,
                value: 0,
                next: k,
            }
        }
    } else {
        UnsignedAt {
            ok: false,
            value: 0,
            next: k,
        }
    }
}

// -1 to -2^31 from 1 to 2^31.
fn negated(magnitude: u64) -> i32
    requires { (0 < magnitude) × (magnitude ≤ 2147483648) }
    ensures { result ≡ minus magnitude }
{
    let n = (magnitude - 1) as i32;
    -1 - n
}

pub fn signed_at(count: usize, negative: &[bool; 24], magnitude: &[u64; 24], k: usize) -> SignedAt
    ensures { result ≡ signed_at (numbers_in count negative.now magnitude.now) k }
{
    if k < 24 {
        let m = magnitude[k];
        let minus = negative[k];
        let there = k < count;
        if there & minus & (0 < m) & (m <= 2147483648) {
            SignedAt {
                ok: true,
                value: negated(m),
                next: k + 1,
            }
        } else if there & (m < 2147483648) & (!minus | (m == 0)) {
            SignedAt {
                ok: true,
                value: m as i32,
                next: k + 1,
            }
        } else {
            SignedAt {
                ok: false,
                value: 0,
                next: k,
            }
        }
    } else {
        SignedAt {
            ok: false,
            value: 0,
            next: k,
        }
    }
}

pub fn byte_at(count: usize, negative: &[bool; 24], magnitude: &[u64; 24], k: usize) -> ByteAt
    ensures { result ≡ byte_at (numbers_in count negative.now magnitude.now) k }
{
    let n = unsigned_at(count, negative, magnitude, k, 255);
    ByteAt {
        ok: n.ok,
        value: n.value as u8,
        next: n.next,
    }
}

pub fn word_at(count: usize, negative: &[bool; 24], magnitude: &[u64; 24], k: usize) -> WordAt
    ensures { result ≡ word_at (numbers_in count negative.now magnitude.now) k }
{
    let n = unsigned_at(count, negative, magnitude, k, 65535);
    WordAt {
        ok: n.ok,
        value: n.value as u16,
        next: n.next,
    }
}

pub fn long_at(count: usize, negative: &[bool; 24], magnitude: &[u64; 24], k: usize) -> LongAt
    ensures { result ≡ long_at (numbers_in count negative.now magnitude.now) k }
{
    let n = unsigned_at(count, negative, magnitude, k, 4294967295);
    LongAt {
        ok: n.ok,
        value: n.value as u32,
        next: n.next,
    }
}

// The same of numbers that are not lent.
pub fn long_in(numbers: Numbers, k: usize) -> LongAt
    ensures { result ≡ long_at numbers k }
{
    let negative = numbers.negative;
    let magnitude = numbers.magnitude;
    long_at(numbers.count, &negative, &magnitude, k)
}
