// Document 01, "What one bus event does": FC counts judged frames modulo 65,536, EC counts the unsound ones and stops at 65,535.
ghost use Rattle.std.specs.Prelude.{◌≡◌};
ghost use Rattle.model.proofs.Tables.{is_counted, counts_after};
ghost use Rattle.bus_events.specs.Counts.{unsound};

use crate::heard::is_sound;
use constants::LAST_EC;
use model::{Counts, Heard};

// A frame was judged.
pub fn is_counted(h: Heard) -> bool
    ensures { result ≡ is_counted h }
{
    matches!(h, Heard::Unsound | Heard::Master(_) | Heard::Reply(_, _))
}

// An unsound frame was judged.
fn unsound(h: Heard) -> bool
    ensures { result ≡ unsound h }
{
    match h {
        Heard::Unsound => true,
        Heard::Reply(_, j) => !is_sound(j),
        _ => false,
    }
}

// Both counts after an event.
pub fn counts_after(n: Counts, h: Heard) -> Counts
    ensures { result ≡ counts_after n h }
{
    Counts {
        fc: if is_counted(h) {
            n.fc.wrapping_add(1)
        } else {
            n.fc
        },
        ec: if unsound(h) {
            n.ec.saturating_add(1).min(LAST_EC)
        } else {
            n.ec
        },
    }
}
