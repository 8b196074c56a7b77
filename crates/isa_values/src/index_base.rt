// The base register of an Extended operand.
ghost use Rattle.std.specs.Prelude.{◌≡◌, ◌%◌};
ghost use Rattle.isa_spec.specs.IndexBase.{is_base, is_pc};
ghost use Rattle.isa_values.specs.IndexBase.{address_register};

/// A0 to A7 as 0 to 7, the program counter as 8.
#[derive(Clone, Copy)]
pub struct IndexBase(pub u8);

/// The program counter.
pub const PC: IndexBase = IndexBase(8);

impl IndexBase {
    /// The address register of the low three bits.
    pub fn address(number: u8) -> IndexBase
        ensures { result.0 ≡ number % 8 }
    {
        IndexBase(number % 8)
    }

    /// Whether it is one.
    pub fn is_base(self) -> bool
        ensures { result ≡ is_base self.0 }
    {
        self.0 <= 8
    }

    /// Whether it is the program counter.
    pub fn is_pc(self) -> bool
        ensures { result ≡ is_pc self.0 }
    {
        self.0 == 8
    }

    /// The number of the address register.
    pub fn address_register(self) -> Option<u8>
        ensures { result ≡ address_register self.0 }
    {
        let number = self.0;
        if number < 8 { Some(number) } else { None }
    }
}
