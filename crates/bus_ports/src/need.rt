// The refusals of bus events and quiet time.
ghost use Rattle.std.specs.Prelude.{◌≡◌, IfOk, Ok};
ghost use Rattle.constants.specs.Refusal.{told};
ghost use Rattle.bus_ports.specs.Need.{event_refusal};

use constants::Refusal;

// In the document's order: an area, an argument, and what was sought. The port that was found comes back, if one was.
pub fn needed(
    fits: bool,
    out: bool,
    sought: Result<Option<u16>, Refusal>,
) -> Result<Option<u16>, Refusal>
    ensures number { told result ≡ event_refusal fits out sought }
    ensures found { IfOk result (λ found. sought ≡ Ok found) }
{
    if !fits {
        return Err(Refusal::Area);
    }
    if out {
        return Err(Refusal::Range);
    }
    sought
}
