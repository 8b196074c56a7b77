// Two's complement: signed numbers and their bits.
#![tactic(auto, using(crate::proofs::Laws::signed32_is, crate::proofs::Laws::signed64_is, crate::proofs::Laws::bits_is))]

ghost use Rattle.std.specs.Prelude.{◌≡◌, ◌%◌};
ghost use Rattle.base_spec.specs.Signed.{signed32, signed64, bits_of, difference};

/// A 32-bit number read as signed.
pub fn to_signed(x: u32) -> i64
    ensures { result ≡ signed32 x }
{
    i64::from(x.cast_signed())
}

/// a - b modulo 2^32.
pub fn minus(a: u32, b: u32) -> u32
    ensures { result ≡ difference a b }
{
    a.wrapping_sub(b)
}

/// The 64 bits of a signed number.
pub fn bits(v: i64) -> u64
    ensures { result ≡ bits_of v }
{
    v.cast_unsigned()
}

/// The low 16 bits.
pub fn low16(v: i64) -> u16
    ensures { result ≡ bits_of v % 65536 }
{
    (bits(v) % 0x1_0000) as u16
}

/// The low 8 bits.
pub fn low8(v: i64) -> u16
    ensures { result ≡ bits_of v % 256 }
{
    (bits(v) % 256) as u16
}

/// The low 32 bits.
pub fn low32(v: i64) -> u32
    ensures { result ≡ bits_of v % 4294967296 }
{
    (bits(v) % 0x1_0000_0000) as u32
}

/// A 32-bit signed number in 64 bits.
pub fn wide(v: i32) -> i64
    ensures { result ≡ v }
{
    i64::from(v)
}

/// A 64-bit number read as signed.
pub fn to_signed64(x: u64) -> i64
    ensures { result ≡ signed64 x }
{
    x.cast_signed()
}
