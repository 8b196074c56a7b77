// From a line to a run: its address in decimal, then its words in hexadecimal, parted by tabs.
#![tactic(auto)]

ghost use Rattle.std.specs.Prelude.{◌≡◌};
ghost use Rattle.base_spec.specs.Number.{number_in};
ghost use Rattle.print_spec.specs.Run.{hex_value};
ghost use Rattle.read_runs.specs.Kept.{no_run, run_of};
ghost use Rattle.read_runs.specs.Step.{four_digits, word_of, start_at, start_of, placed_word, with_word};

use base_spec::Literal;

// The first 16 words of a run, and how many they are; the other places are 0.
#[derive(Clone, Copy)]
pub struct Run {
    pub ok: bool,
    pub address: u32,
    pub count: usize,
    pub words: [u16; 16],
}

#[derive(Clone, Copy)]
pub enum Word {
    Is(u16),
    No,
}

// What a hexadecimal digit writes; 16 for another byte.
fn hex_value(b: u8) -> u16
    ensures { result ≡ hex_value b }
{
    if (48 <= b) & (b <= 57) {
        return (b - 48) as u16;
    }
    if (65 <= b) & (b <= 70) {
        return (b - 55) as u16;
    }
    if (97 <= b) & (b <= 102) {
        return (b - 87) as u16;
    }
    16
}

// The word of four digits.
fn four_digits(a: u16, b: u16, c: u16, d: u16) -> Word
    ensures { result ≡ four_digits a b c d }
{
    if (a < 16) & (b < 16) & (c < 16) & (d < 16) {
        return Word::Is(a * 4096 + b * 256 + c * 16 + d);
    }
    Word::No
}

// What a field of a word says.
fn read_word(f: &[u8]) -> Word
    ensures { result ≡ word_of f.now }
{
    if f.len() != 4 {
        return Word::No;
    }
    four_digits(
        hex_value(f[0]),
        hex_value(f[1]),
        hex_value(f[2]),
        hex_value(f[3]),
    )
}

fn no_run() -> Run
    ensures { result ≡ no_run }
{
    Run {
        ok: false,
        address: 0,
        count: 0,
        words: [0; 16],
    }
}

fn start_at(negative: bool, magnitude: u64) -> Run
    ensures { result ≡ start_at negative magnitude }
{
    if !negative & (magnitude < 0x1_0000_0000) {
        return Run {
            ok: true,
            address: magnitude as u32,
            count: 0,
            words: [0; 16],
        };
    }
    no_run()
}

// A run of no words yet.
fn start(n: Option<Literal>) -> Run
    ensures { result ≡ start_of (number_in n) }
{
    match n {
        Some(literal) => start_at(literal.negative, literal.magnitude),
        None => no_run(),
    }
}

// One word more, where it is kept.
fn place_word(r: Run, w: u16) -> Run
    ensures { result ≡ placed_word r w }
{
    let count = r.count;
    if r.ok & (count < 16) {
        let mut s = r;
        s.words[count] = w;
        s.count = count + 1;
        return s;
    }
    r
}

fn with_word(r: Run, w: Word) -> Run
    ensures { result ≡ with_word r w }
{
    match w {
        Word::Is(w) => place_word(r, w),
        Word::No => no_run(),
    }
}

// The run of a line.
pub fn read_run(line: &[u8]) -> Run
    ensures { result ≡ run_of line.now }
{
    let first = base_text::field_end(line, 0);
    let mut r = start(base_text::read_number(&line[..first]));
    let mut from = first + 1;
    while from <= line.len() {
        let e = base_text::field_end(line, from);
        let w = read_word(&line[from..e]);
        r = with_word(r, w);
        from = e + 1;
    }
    r
}
