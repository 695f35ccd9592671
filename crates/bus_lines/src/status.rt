// Document 02, W-201: LAA and RLD in the status word that a poll is answered with.
ghost use Rattle.std.specs.Prelude.{◌≡◌};
ghost use Rattle.model.specs.Lines.{status_with};
ghost use Rattle.model.specs.Event.{device_with};

use constants::{STATUS_LAA, STATUS_RLD};
use model::{Device, Lines};

// The status word with LAA and RLD at their places, over what the host wrote there. RLD stands right below LAA, so what is the host's lies
// above LAA and below RLD.
#[tactic(auto, unfolding(model::specs::Lines::status_with))]
fn status_with(l: Lines, s: u16) -> u16
    ensures { result ≡ status_with l s }
{
    let above = 2 * STATUS_LAA;
    let laa = if l.laa { STATUS_LAA } else { 0 };
    let rld = if l.rld { STATUS_RLD } else { 0 };
    s / above * above + laa + rld + s % STATUS_RLD
}

// Our device with these lines in its status word.
pub fn device_with(l: Lines, d: Device) -> Device
    ensures { result ≡ device_with l d }
{
    Device {
        status: status_with(l, d.status),
        ..d
    }
}
