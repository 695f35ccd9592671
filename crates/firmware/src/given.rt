// Whether what a call was given is a controller of ours, and beside it a flag or two hearings.
ghost use Rattle.std.specs.Prelude.{◌≡◌, ◌&&◌};
ghost use Rattle.firmware_layout.specs.Flags.{is_bit};
ghost use Rattle.firmware_layout.specs.Controller.{ours};
ghost use Rattle.firmware_layout.specs.Hearing.{formed};

use firmware_layout::flags::is_bit;
use firmware_layout::{FlatController, FlatHearing};

pub(crate) fn with_flag(c: FlatController, n: u16) -> bool
    ensures { result ≡ (ours c && is_bit n) }
{
    c.is_ours() && is_bit(n)
}

pub(crate) fn with_hearings(c: FlatController, a: FlatHearing, b: FlatHearing) -> bool
    ensures { result ≡ (ours c && formed a && formed b) }
{
    c.is_ours() && a.is_formed() && b.is_formed()
}
