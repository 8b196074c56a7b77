// Signed numbers in words, and addresses.
ghost use Rattle.std.specs.Prelude.{◌≡◌, ◌+◌, ◌*◌, ◌%◌, ◌<◌, ◌≤◌};
ghost use Rattle.encode_spec.specs.Item.{word_address};
ghost use Rattle.base_spec.specs.Signed.{signed32};
ghost use Rattle.read_spec.specs.Decoded.{extended};
ghost use Rattle.read_spec.specs.Number.{signed, signed8, signed16, reach};

// A number below twice half, read as signed.
fn signed(half: u32, x: u32) -> i32
    requires { (x < half + half) × (half ≤ 2147483648) }
    ensures { result ≡ signed half x }
{
    if x < half {
        x as i32
    } else {
        let n = (half - 1 - (x - half)) as i32;
        -1 - n
    }
}

// The low byte of a word, read as signed.
pub fn signed8(w: u16) -> i32
    ensures { result ≡ signed8 (w % 256) }
{
    signed(128, (w % 256) as u32)
}

// A word read as signed.
pub fn signed16(w: u16) -> i32
    ensures { result ≡ signed16 w }
{
    signed(32768, w as u32)
}

// A long read as signed.
pub fn signed32(x: u32) -> i32
    ensures { result ≡ signed32 x }
{
    signed(2147483648, x)
}

// A word sign-extended to a long.
pub fn extended(w: u16) -> u32
    ensures { result ≡ extended w }
{
    base_signed::low32(base_signed::wide(signed16(w)))
}

// A long of two words.
pub fn long(high: u16, low: u16) -> u32
    ensures { result ≡ high * 65536 + low }
{
    high as u32 * 65536 + low as u32
}

// The address of a word, the first at `address`.
pub fn word_address(address: u32, at: usize) -> u32
    ensures { result ≡ word_address address at }
{
    let n = (at % 2147483648) as u32;
    std::num::wrapping_add_u32(address, 2 * n)
}

// The address that a displacement reaches.
pub fn reach(place: u32, z: i32) -> u32
    ensures { result ≡ reach place z }
{
    std::num::wrapping_add_u32(place, base_signed::low32(base_signed::wide(z)))
}

// The address that a displacement reaches from the word after an operation word.
pub fn byte_target(address: u32, byte: u8) -> u32
    ensures { result ≡ reach (word_address address 1) (signed8 byte) }
{
    reach(word_address(address, 1), signed8(byte as u16))
}

pub fn word_target(address: u32, value: u32) -> u32
    ensures { result ≡ reach (word_address address 1) (signed16 (value % 65536)) }
{
    reach(word_address(address, 1), signed16((value % 65536) as u16))
}

pub fn long_target(address: u32, value: u32) -> u32
    ensures { result ≡ reach (word_address address 1) (signed32 value) }
{
    reach(word_address(address, 1), signed32(value))
}
