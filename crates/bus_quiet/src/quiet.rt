// Document 01, "Quiet time": the controller's part of one quiet bit time, and what is due within several.
ghost use Rattle.std.specs.Prelude.{◌≡◌, cond, ◌+◌};
ghost use Rattle.model.specs.Quiet.{expired, bus_silent, line_silent, times_later, exchange_later, disturbs_late, lines_later};
ghost use Rattle.bus_quiet.specs.Quiet.{pulse_of, since_after, due_in};

use bus_basics::raise_if;
use constants::{BUS_TIMEOUT, CODE_UNIT, LINE_TIMEOUT};
use interrupts::names;
use model::{Controller, Exchange, Lines, Times};

// The time since the last sound master frame, n bit times later: it stops at the bus timeout.
pub fn since_after(n: u32, since: u16) -> u16
    ensures { result ≡ since_after n since }
{
    let counted = n.saturating_add(since as u32).min(BUS_TIMEOUT as u32);
    since.max(counted as u16)
}

// The master word whose reply time is reached within n bit times.
pub fn due_within(n: u32, x: Exchange, t: Times) -> Option<u16>
    ensures { result ≡ due_in n x t }
{
    match x {
        Exchange::Waiting(w) if 0 < n && t.adopted <= since_after(n, t.since) => Some(w),
        _ => None,
    }
}

// The master word whose reply time is reached with the next bit time.
pub fn due(x: Exchange, t: Times) -> Option<u16>
    ensures { result ≡ expired x t }
{
    due_within(1, x, t)
}

// BTI, once: the time comes to the bus timeout.
fn bus_silent(t: Times) -> bool
    ensures { result ≡ bus_silent t }
{
    t.since < BUS_TIMEOUT && since_after(1, t.since) == BUS_TIMEOUT
}

// The line count comes to the line timeout.
fn line_silent(t: Times) -> bool
    ensures { result ≡ line_silent t }
{
    LINE_TIMEOUT <= t.line.saturating_add(1)
}

// The line count, which restarts at the line timeout.
fn line_later(t: Times) -> u16
    ensures { result ≡ cond (line_silent t) 0 (t.line + 1) }
{
    if line_silent(t) { 0 } else { t.line + 1 }
}

// The times after one bit time.
fn times_later(t: Times) -> Times
    ensures { result ≡ times_later t }
{
    Times {
        since: since_after(1, t.since),
        line: line_later(t),
        ..t
    }
}

// A reply time that is reached ends the wait.
fn exchange_later(x: Exchange, d: Option<u16>) -> Exchange
    ensures { result ≡ exchange_later x d }
{
    if d.is_some() { Exchange::Idle } else { x }
}

// A reply timeout, the waiting code not 9, 13 or 14.
fn disturbs_late(d: Option<u16>) -> bool
    ensures { result ≡ disturbs_late d }
{
    d.is_some_and(|w| !bus_lines::exempt(w / CODE_UNIT))
}

// Rules 1, 2 and 5, in this order.
fn lines_later(l: Lines, d: Option<u16>, timeout: bool) -> Lines
    ensures { result ≡ lines_later l d timeout }
{
    bus_lines::rule5(bus_lines::rule2(timeout, bus_lines::rule1(disturbs_late(d), l)))
}

// The controller after the rules of one quiet bit time.
#[tactic(auto, unfolding(crate::specs::Quiet::pulse_of))]
pub fn pulse_controller(c: Controller) -> Controller
    ensures { result ≡ pulse_of c }
{
    let d = due(c.exchange, c.times);
    // BTI is raised once the bus is silent, RTI where a reply time is reached.
    Controller {
        exchange: exchange_later(c.exchange, d),
        times: times_later(c.times),
        lines: lines_later(c.lines, d, line_silent(c.times)),
        group0: raise_if(
            bus_silent(c.times),
            names::BTI,
            raise_if(d.is_some(), names::RTI, c.group0),
        ),
        ..c
    }
}
