// The encoder's state: the words so far. What refuses ends the encoding, so the state needs no flag.
#![tactic(auto)]

ghost use Rattle.std.specs.Prelude.{◌≡◌, ◌+◌, ◌*◌, ◌/◌, ◌%◌, ◌<◌, [], Ok};
ghost use Rattle.encode_state.specs.Encoder.{pushed, step, run, next_address, holding};
ghost use Rattle.encode_state.specs.Laws.{refusal};
ghost use Rattle.encode_spec.specs.Item as item;
ghost use Rattle.encode_spec.specs.Ea.{long_items};

use isa::{Field, RegisterOperand};
pub use isa_values::code::{
    bit, from_memory, general, is_byte, is_word, long_bit, move_size, number_of_register,
    register_bits, standard_size, to_memory,
};

/// Why an instruction has no words.
#[derive(Clone, Copy)]
pub enum Refusal {
    /// The instruction is not one that the enum can mean.
    Malformed,
    /// The field does not hold the value.
    OutOfRange(Field, i64),
    /// The MC68020 has no encoding, for the reason of this number.
    NoEncoding(u8),
    /// The lent slice has fewer bytes than the words take.
    FewBytes,
    /// A refusal in numbers, as they come; no encoder gives one.
    Numbered { number: u8, detail: u8, value: i64 },
}

impl Refusal {
    /// The number of the refusal: 1 to 4, or the one that it names.
    pub fn number(self) -> u8
        ensures { result ≡ (refusal self).number }
    {
        match self {
            Refusal::Malformed => 1,
            Refusal::OutOfRange(_, _) => 2,
            Refusal::NoEncoding(_) => 3,
            Refusal::FewBytes => 4,
            Refusal::Numbered { number, .. } => number,
        }
    }

    /// The number of the field or the reason, 0 where the refusal names none.
    pub fn detail(self) -> u8
        ensures { result ≡ (refusal self).detail }
    {
        match self {
            Refusal::OutOfRange(field, _) => isa_values::field::number(field),
            Refusal::NoEncoding(reason) => reason,
            Refusal::Numbered { detail, .. } => detail,
            Refusal::Malformed => 0,
            Refusal::FewBytes => 0,
        }
    }

    /// The value that the field does not hold, 0 where the refusal names none.
    pub fn value(self) -> i64
        ensures { result ≡ (refusal self).value }
    {
        match self {
            Refusal::OutOfRange(_, value) => value,
            Refusal::Numbered { value, .. } => value,
            Refusal::Malformed => 0,
            Refusal::NoEncoding(_) => 0,
            Refusal::FewBytes => 0,
        }
    }
}

/// The words of one instruction at an address: eleven places and how many count. `size` does not check ranges.
// Its methods are inlined: through calls the state goes by memory, and `encode` took 708 instructions a line in place of 669.
#[derive(Clone, Copy)]
pub struct Encoder {
    pub words: [u16; 11],
    pub count: usize,
    pub address: u32,
    pub check: bool,
}

impl Encoder {
    /// No words yet.
    #[inline(always)]
    pub fn begin(address: u32, check: bool) -> Encoder
        ensures { result ≡ holding address check [] }
    {
        Encoder {
            words: [0; 11],
            count: 0,
            address,
            check,
        }
    }

    /// The address of the next word.
    #[tactic(auto, unfolding(crate::specs::Encoder::next_address))]
    #[inline(always)]
    pub fn next(self) -> u32
        ensures { result ≡ next_address self }
    {
        let n = (self.count % 16) as u32;
        self.address.wrapping_add(2 * n)
    }

    /// One word more.
    #[tactic(auto, unfolding(crate::specs::Encoder::pushed))]
    #[inline(always)]
    pub fn word(self, w: u16) -> Encoder
        ensures words { result ≡ pushed self w }
        ensures as_step { Ok result ≡ step self (item.word w) }
    {
        let mut e = self;
        if e.count < 11 {
            e.words[e.count] = w;
            e.count += 1;
        }
        e
    }

    /// A long in two words, the high half first.
    #[inline(always)]
    pub fn long(self, v: u32) -> Encoder
        ensures words { result ≡ pushed (pushed self (v / 65536)) (v % 65536) }
        ensures as_run { Ok result ≡ run (long_items v) (Ok self) }
    {
        self.word((v / 65536) as u16).word((v % 65536) as u16)
    }

    /// The operation word in its fields.
    #[inline(always)]
    pub fn operation(self, line: u16, x: u16, opmode: u16, ea: u16) -> Encoder
        requires { (line < 16) × (x < 8) × (opmode < 8) × (ea < 64) }
        ensures words { result ≡ pushed self ((line * 64 + x * 8 + opmode) * 64 + ea) }
        ensures as_step { Ok result ≡ step self (item.operation line x opmode ea) }
    {
        self.word((line * 64 + x * 8 + opmode) * 64 + ea)
    }

    /// Malformed where the test fails.
    #[inline(always)]
    pub fn well_formed(self, ok: bool) -> Result<Encoder, Refusal>
        ensures { result ≡ step self (item.check (item.unless ok item.malformed)) }
    {
        if ok {
            Ok(self)
        } else {
            Err(Refusal::Malformed)
        }
    }

    /// No encoding where the test fails.
    #[inline(always)]
    pub fn allow(self, ok: bool, reason: u8) -> Result<Encoder, Refusal>
        ensures { result ≡ step self (item.allow ok reason) }
    {
        if ok {
            Ok(self)
        } else {
            Err(Refusal::NoEncoding(reason))
        }
    }

    /// The field holds the value, where ranges are checked.
    #[inline(always)]
    pub fn fits(self, field: Field, value: i64) -> Result<Encoder, Refusal>
        ensures { result ≡ step self (item.range field value) }
    {
        if self.check {
            if isa_values::field::holds(field, value) {
                Ok(self)
            } else {
                Err(Refusal::OutOfRange(field, value))
            }
        } else {
            Ok(self)
        }
    }

    /// A register number is 0 to 7.
    #[inline(always)]
    pub fn register(self, n: u8) -> Result<Encoder, Refusal>
        ensures { result ≡ step self (item.register n) }
    {
        if n < 8 {
            Ok(self)
        } else {
            Err(Refusal::OutOfRange(Field::Register, i64::from(n)))
        }
    }

    /// A data register.
    #[inline(always)]
    pub fn data_register(self, r: RegisterOperand) -> Result<Encoder, Refusal>
        ensures { result ≡ step self (item.data_register r) }
    {
        match r {
            RegisterOperand::Data(n) => self.register(n),
            RegisterOperand::Address(_) => Err(Refusal::NoEncoding(1)),
        }
    }

    /// An address register.
    #[inline(always)]
    pub fn address_register(self, r: RegisterOperand) -> Result<Encoder, Refusal>
        ensures { result ≡ step self (item.address_register r) }
    {
        match r {
            RegisterOperand::Data(_) => Err(Refusal::NoEncoding(2)),
            RegisterOperand::Address(n) => self.register(n),
        }
    }
}
