// What listings, image lines and refusals are made of, written into a lent buffer.
#![tactic(auto)]

ghost use Rattle.std.specs.Prelude.{◌≡◌, ◌+◌, ◌*◌, ◌≤◌, length};
ghost use Rattle.base_text.specs.Wrote.{Wrote};
ghost use Rattle.print_spec.specs.Printed.{listed_words, line_refusal, too_long_input};

// A tab and each word.
pub fn put_words(out: &mut [u8], at: usize, words: &[u16]) -> usize
    requires { at + 5 * length words.now ≤ length out.old }
    ensures { Wrote out.old at (listed_words words.now) out.new result × (result ≡ at + 5 * length words.now) }
{
    let mut next = at;
    let mut i: usize = 0;
    while i < words.len() {
        next = base_text::put_byte(out, next, b'\t');
        next = base_text::put_hex4(out, next, words[i]);
        i += 1;
    }
    next
}

// `refused`, number, line, detail and value.
pub fn put_refusal(out: &mut [u8], number: u8, line: usize, detail: u8, value: i64) -> usize
    requires { 92 ≤ length out.old }
    ensures { Wrote out.old 0 (line_refusal number line detail value) out.new result × (result ≤ 92) }
{
    let mut next = base_text::put(out, 0, b"refused\t");
    next = base_text::put_field(out, next, number as u64);
    next = base_text::put_field(out, next, line as u64);
    next = base_text::put_field(out, next, detail as u64);
    next = base_text::put_signed(out, next, value);
    base_text::put_byte(out, next, b'\n')
}

// What is printed for an input that is longer than a program takes.
pub fn too_long() -> [u8; 17]
    ensures { result ≡ too_long_input }
{
    *b"refused\t10\t0\t0\t0\n"
}
