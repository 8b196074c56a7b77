// What stands between an operation word and the words of its operands.
#![tactic(auto, using(crate::specs::ReadLaws::read_more, crate::specs::ReadLaws::read_bind))]

ghost use Rattle.std.specs.Prelude.{◌≡◌, ℕ};
ghost use Rattle.read_places.specs.RunAt.{run_at};
ghost use Rattle.read_spec.specs.Layout.{value_part, valid, one_word, two_words, specifier_tree};
ghost use Rattle.read_operands.specs.Read.{read_of_at, word_read};
ghost use Rattle.read_operands.specs.Part.{second_word};

use read_spec::{Specifier, Unread};
use read_values::number;

// A bit-field's offset or width.
fn value_part(n: u16) -> bool
    ensures { result ≡ value_part n }
{
    (n / 32 != 1) | (n / 8 % 4 == 0)
}

/// Whether the unused bits of a word are 0.
pub fn valid(kind: Specifier, w: u16) -> bool
    ensures { result ≡ valid kind w }
{
    match kind {
        Specifier::Nothing | Specifier::Word | Specifier::Long => true,
        Specifier::Byte => w / 256 == 0,
        Specifier::General => w % 2048 == 0,
        Specifier::Multiply => {
            (w / 32768 == 0) & (w / 8 % 128 == 0) & ((w / 1024 % 2 == 1) | (w % 8 == 0))
        }
        Specifier::Divide => (w / 32768 == 0) & (w / 8 % 128 == 0),
        Specifier::Compare => (w / 512 == 0) & (w / 8 % 8 == 0),
        Specifier::BitField => (w / 32768 == 0) & value_part(w / 64 % 64) & value_part(w % 64),
        Specifier::CompareTwo => (w / 512 % 8 == 0) & (w / 8 % 8 == 0),
    }
}

/// The word at a place, and the place after it.
pub fn word(words: &[u16], at: usize) -> Result<(u16, usize), Unread>
    ensures { result ≡ word_read words.now at }
{
    if at < words.len() {
        Ok((words[at], at + 1))
    } else {
        Err(Unread::Short)
    }
}

/// One word.
pub fn one_word(words: &[u16], at: usize, kind: Specifier) -> Result<(u32, usize), Unread>
    ensures { (a : ℕ) → result ≡ read_of_at (run_at (one_word kind) a words.now at) }
{
    let (w, next) = word(words, at)?;
    if valid(kind, w) {
        Ok((u32::from(w), next))
    } else {
        Err(Unread::Nothing)
    }
}

// The second word of two.
fn second_word(words: &[u16], at: usize, kind: Specifier, high: u16) -> Result<(u32, usize), Unread>
    ensures { (a : ℕ) → result ≡ read_of_at (run_at (second_word kind high) a words.now at) }
{
    let (low, next) = word(words, at)?;
    if valid(kind, low) {
        Ok((number::long(high, low), next))
    } else {
        Err(Unread::Nothing)
    }
}

/// Two words.
pub fn two_words(words: &[u16], at: usize, kind: Specifier) -> Result<(u32, usize), Unread>
    ensures { (a : ℕ) → result ≡ read_of_at (run_at (two_words kind) a words.now at) }
{
    let (high, next) = word(words, at)?;
    if valid(kind, high) {
        second_word(words, next, kind, high)
    } else {
        Err(Unread::Nothing)
    }
}

/// The words of a specifier, as a number.
pub fn specifier(words: &[u16], at: usize, kind: Specifier) -> Result<(u32, usize), Unread>
    ensures { (a : ℕ) → result ≡ read_of_at (run_at (specifier_tree kind) a words.now at) }
{
    match kind {
        Specifier::Nothing => Ok((0, at)),
        Specifier::Word => one_word(words, at, kind),
        Specifier::Byte => one_word(words, at, kind),
        Specifier::General => one_word(words, at, kind),
        Specifier::Multiply => one_word(words, at, kind),
        Specifier::Divide => one_word(words, at, kind),
        Specifier::Compare => one_word(words, at, kind),
        Specifier::BitField => one_word(words, at, kind),
        Specifier::Long => two_words(words, at, kind),
        Specifier::CompareTwo => two_words(words, at, kind),
    }
}
