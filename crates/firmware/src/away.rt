// Whether a call that is lent the areas and given numbers comes to the call of the controller.
ghost use Rattle.std.specs.Prelude.{◌≡◌};
ghost use Rattle.constants.specs.Refusal.{told};
ghost use Rattle.areas.specs.Lent.{lent};
ghost use Rattle.firmware.specs.Promise.{admitted};

use areas::layout;
use constants::Refusal;

// An area of another length turns it away, and then numbers that are no argument; `given` says that they are one.
pub(crate) fn admitted(
    index: &[u16],
    ports: &[u16],
    page0: &[u16],
    page1: &[u16],
    given: bool,
) -> Result<(), Refusal>
    ensures { told result ≡ admitted given (lent index.entry ports.entry page0.entry page1.entry) }
{
    if !layout::fits(index, ports, page0, page1) {
        return Err(Refusal::Area);
    }
    if !given {
        return Err(Refusal::Range);
    }
    Ok(())
}
