// The operation word by its fields.
ghost use Rattle.std.specs.Prelude.{◌≡◌};
ghost use Rattle.read_values.specs.OperationWord.{line_in, x_in, opmode_in, ea_in, condition_in, byte_in};

/// An operation word. Which of its fields stand for what depends on its group.
#[derive(Clone, Copy)]
pub struct OperationWord(pub u16);

impl OperationWord {
    /// Bits 15 to 12.
    pub fn line(self) -> u8
        ensures { result ≡ line_in self.0 }
    {
        (self.0 / 4096) as u8
    }

    /// Bits 11 to 9.
    pub fn x(self) -> u8
        ensures { result ≡ x_in self.0 }
    {
        (self.0 / 512 % 8) as u8
    }

    /// Bits 8 to 6.
    pub fn opmode(self) -> u8
        ensures { result ≡ opmode_in self.0 }
    {
        (self.0 / 64 % 8) as u8
    }

    /// Bits 5 to 0.
    pub fn ea(self) -> u8
        ensures { result ≡ ea_in self.0 }
    {
        (self.0 % 64) as u8
    }

    /// A condition's code, in bits 11 to 8.
    pub fn condition_code(self) -> u8
        ensures { result ≡ condition_in self.0 }
    {
        self.x() * 2 + self.opmode() / 4
    }

    /// The low byte.
    pub fn low_byte(self) -> u8
        ensures { result ≡ byte_in self.0 }
    {
        self.opmode() % 4 * 64 + self.ea()
    }
}
