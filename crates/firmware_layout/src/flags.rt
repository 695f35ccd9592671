// A flag as a number, 0 or 1: `u16::from` makes it one.
ghost use Rattle.std.specs.Prelude.{◌≡◌};
ghost use Rattle.firmware_layout.specs.Flags.{is_bit, is_set};

// The flag that a number says.
pub fn is_set(x: u16) -> bool
    ensures { result ≡ is_set x }
{
    x == 1
}

// A number that is a flag.
pub fn is_bit(x: u16) -> bool
    ensures { result ≡ is_bit x }
{
    x <= 1
}
