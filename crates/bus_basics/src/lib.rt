// What the crates of the bus have in common: a bit that is raised on an occasion, and a status poll to our address. So none of them needs
// another.
//
// Each promise is an equation with a definition of the crate `model`. Nothing is asked of a caller.
#![tactic(auto)]

ghost use Rattle.std.specs.Prelude.{◌≡◌};
ghost use Rattle.model.specs.Event.{raise_all, when, polls_us};

use constants::{CODE_UNIT, STATUS_CODE};
use interrupts::Group;
use model::Device;

// The bits are raised on this occasion, and else nothing.
pub fn raise_if(occasion: bool, bits: u16, g: Group) -> Group
    ensures { result ≡ raise_all (when occasion bits) g }
{
    if occasion { g.raise(bits) } else { g }
}

// A status poll to our address.
pub fn polls_us(d: Device, w: u16) -> bool
    ensures { result ≡ polls_us d w }
{
    w / CODE_UNIT == STATUS_CODE && w % CODE_UNIT == d.address
}
