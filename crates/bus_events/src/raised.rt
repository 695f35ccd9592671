// Document 01, "What one bus event does" and "Two interrupt groups": the bits that an event raises in the two groups.
ghost use Rattle.std.specs.Prelude.{◌≡◌};
ghost use Rattle.model.specs.Event.{raise_all, waits_for, is_done};
ghost use Rattle.model.proofs.Tables.{raised1};
ghost use Rattle.bus_events.specs.Raised.{reply_bits, bits0};

use crate::counts::{counts_after, is_counted};
use bus_basics::raise_if;
use frames::Judgement;
use interrupts::{Group, data_transfer, names};
use model::{Counts, Exchange, Heard, Times};

// Waiting with an equal word.
fn waits_for(x: Exchange, w: u16) -> bool
    ensures { result ≡ waits_for x w }
{
    matches!(x, Exchange::Waiting(v) if v == w)
}

// The exchange is done.
fn is_done(x: Exchange) -> bool
    ensures { result ≡ is_done x }
{
    matches!(x, Exchange::Done)
}

// A judged slave frame: ESF if it is unsound, else the interrupt of the port that it fills.
fn raise_reply(j: Judgement, interrupt: u16, g: Group) -> Group
    ensures { result ≡ raise_all (reply_bits j interrupt) g }
{
    match j {
        Judgement::Sound => raise_if(interrupt != 0, data_transfer(interrupt), g),
        Judgement::Unsound(_) => g.raise(names::ESF),
    }
}

// Group 0 after an event: EMF for an unsound master frame, DMF if a sound one finds an equal word waited for, SFC for a slave frame,
// with DSF if we are done and less than the reply time has passed. `interrupt` is that of the sink that a reply answers for, 0 for none: the port's
// word, as it lies in the memory that C lends.
pub fn raise0(x: Exchange, t: Times, h: Heard, interrupt: u16, g: Group) -> Group
    ensures { result ≡ raise_all (bits0 x t h interrupt) g }
{
    match h {
        Heard::Nothing => g,
        Heard::Unsound => g.raise(names::EMF),
        Heard::Master(w) => raise_if(waits_for(x, w), names::DMF, g),
        Heard::Reply(_, j) => raise_reply(j, interrupt, g.raise(names::SFC)),
        Heard::Stray => raise_if(
            is_done(x) && t.since < t.adopted,
            names::DSF,
            g.raise(names::SFC),
        ),
    }
}

// Group 1 after an event: FEV when FC returns to 0.
pub fn raise1(n: Counts, h: Heard, g: Group) -> Group
    ensures { result ≡ raise_all (raised1 n h) g }
{
    raise_if(is_counted(h) && counts_after(n, h).fc == 0, names::FEV, g)
}
