// What a sound master frame is met with: a reply of ours, waiting, or nothing.
ghost use Rattle.std.specs.Prelude.{◌≡◌, []};
ghost use Rattle.model.specs.Layout.{areas};
ghost use Rattle.bus_ports.specs.Found.{source_at, standing_at, unanswered, answered, met_by, met_as};

use crate::Met;
use crate::frame::{SILENT, sent};
use areas::{layout, port};
use bus_basics::polls_us;
use constants::CODE_UNIT;
use model::{Device, Exchange, Heard};

// Port p is a filled source.
fn source_at(ports: &[u16], p: u16) -> bool
    ensures { result ≡ source_at ports.now p }
{
    let f = layout::flags_of(layout::get_flags(ports, p));
    !f.sink && f.ever
}

// No reply of ours.
fn unanswered(x: Exchange) -> Met
    ensures { result ≡ unanswered x }
{
    Met {
        exchange: x,
        reply: SILENT,
    }
}

// These words are our reply.
fn answered(words: &[u16]) -> Met
    ensures { result ≡ answered words.now }
{
    Met {
        exchange: Exchange::Done,
        reply: sent(words),
    }
}

// A sound master frame, with the port that is open for its word. Codes 5, 6, 7, 10, 11: idle. A filled source replies its valid words, a status
// poll to our address the status word, if the host set one: done. Otherwise waiting.
fn meet<'a>(
    ports: &[u16],
    page0: &'a [u16],
    page1: &'a [u16],
    d: Device,
    found: Option<u16>,
    w: u16,
) -> Met
    ensures { result ≡ met_by d (standing_at (areas [] ports.now page0.now page1.now) found) w }
{
    if frames::reply_size(w / CODE_UNIT).is_none() {
        return unanswered(Exchange::Idle);
    }
    match found {
        Some(p) if source_at(ports, p) => { answered(port::valid_words(ports, page0, page1, p)) }
        _ if polls_us(d, w) && d.set => answered(&[d.status]),
        _ => unanswered(Exchange::Waiting(w)),
    }
}

// The exchange after what was heard, and the reply, with the port that is open for the word.
pub fn meet_heard<'a>(
    ports: &[u16],
    page0: &'a [u16],
    page1: &'a [u16],
    d: Device,
    found: Option<u16>,
    x: Exchange,
    h: Heard,
) -> Met
    ensures { result ≡ met_as d (standing_at (areas [] ports.now page0.now page1.now) found) x h }
{
    match h {
        Heard::Master(w) => meet(ports, page0, page1, d, found, w),
        Heard::Unsound => unanswered(Exchange::Idle),
        Heard::Reply(_, _) => unanswered(Exchange::Done),
        Heard::Nothing | Heard::Stray => unanswered(x),
    }
}
