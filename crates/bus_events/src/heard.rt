// Document 01, "What one bus event does": what the trusted line heard, by the exchange, and what becomes of the times and the lines.
ghost use Rattle.std.specs.Prelude.{◌≡◌};
ghost use Rattle.model.specs.Event.{as_master, as_slave, heard};
ghost use Rattle.model.proofs.Tables.{times_after, disturbs, polls, lines_found};
ghost use Rattle.frames.specs.Judge.{judged_master, is_sound};

use bus_basics::polls_us;
use constants::CODE_UNIT;
use frames::{Hearing, Judgement, Kind};
use model::{Device, Exchange, Heard, Lines, Times};

// A master frame: its first word if it is sound.
fn as_master(h: Hearing) -> Heard
    ensures { result ≡ as_master (judged_master h) h }
{
    match frames::judge_master(h) {
        Judgement::Sound => Heard::Master(h.words[0]),
        Judgement::Unsound(_) => Heard::Unsound,
    }
}

// A slave frame is judged while a master word is waited for, and sized by its F-code.
fn as_slave(x: Exchange, h: Hearing) -> Heard
    ensures { result ≡ as_slave x h }
{
    match x {
        Exchange::Waiting(w) => Heard::Reply(w, frames::judge_slave(w / CODE_UNIT, h)),
        Exchange::Idle | Exchange::Done => Heard::Stray,
    }
}

// What the trusted line heard; its silence or noise is ignored.
#[tactic(auto, unfolding(model::specs::Event::heard))]
pub fn heard(x: Exchange, h: Hearing) -> Heard
    ensures { result ≡ heard x h }
{
    match h.kind {
        Kind::Silence | Kind::Noise => Heard::Nothing,
        Kind::Master => as_master(h),
        Kind::Slave => as_slave(x, h),
    }
}

// A sound frame.
pub fn is_sound(j: Judgement) -> bool
    ensures { result ≡ is_sound j }
{
    matches!(j, Judgement::Sound)
}

// A sound master frame restarts both counts, and adopts the chosen reply time.
pub fn times_after(t: Times, h: Heard) -> Times
    ensures { result ≡ times_after t h }
{
    match h {
        Heard::Master(_) => Times {
            since: 0,
            line: 0,
            adopted: t.chosen,
            ..t
        },
        _ => t,
    }
}

// A judged unsound frame: an unsound master, or an unsound slave while the waiting code is not 9, 13 or 14.
pub fn disturbs(h: Heard) -> bool
    ensures { result ≡ disturbs h }
{
    match h {
        Heard::Unsound => true,
        Heard::Reply(w, j) => !is_sound(j) && !bus_lines::exempt(w / CODE_UNIT),
        _ => false,
    }
}

// A sound status poll to our address.
pub fn polls(d: Device, h: Heard) -> bool
    ensures { result ≡ polls d h }
{
    matches!(h, Heard::Master(w) if polls_us(d, w))
}

// Rules 1 and 4, in this order: the lines as rule 3 finds them. `l` are the lines at the start of the event.
pub fn lines_found(l: Lines, h: Heard, t: Hearing, o: Hearing) -> Lines
    ensures { result ≡ lines_found l h t o }
{
    let unsound = disturbs(h);
    let poorer = !bus_lines::acts1(unsound, l)
        && bus_lines::is_frame(t.kind)
        && bus_lines::is_poor(o);
    bus_lines::rule4(poorer, bus_lines::rule1(unsound, l))
}
