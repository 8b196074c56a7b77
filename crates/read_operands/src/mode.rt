// The modes that six bits name.
ghost use Rattle.std.specs.Prelude.{◌≡◌};
ghost use Rattle.read_spec.specs.Operand.{mode_at, permitted};

// The mode: 0 to 11, or none.
fn mode_at(ea: u8) -> u8
    ensures { result ≡ mode_at ea }
{
    if ea < 56 { ea / 8 } else { ea - 49 }
}

// Whether a set has the mode.
pub fn permitted(modes: u16, ea: u8) -> bool
    ensures { result ≡ permitted modes ea }
{
    let mode = mode_at(ea);
    if mode < 12 {
        (modes >> mode) % 2 == 1
    } else {
        false
    }
}
