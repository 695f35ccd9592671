// The two calls.
ghost use Rattle.std.specs.Prelude.{◌≡◌, not, ◌||◌, [], Ok};
ghost use Rattle.frames.specs.Hearing.{in_range};
ghost use Rattle.model.specs.Layout.{areas};
ghost use Rattle.model.specs.Event.{world};
ghost use Rattle.model.specs.Quiet.{pulse, pulses};
ghost use Rattle.model.specs.Grown.{grown_by};
ghost use Rattle.model.specs.Calls.{hear, quiet, outcome};
ghost use Rattle.bus.specs.Promise.{as_outcome, after_with, accepted_with};

use crate::Answered;
use areas::age::age_ports;
use areas::layout;
use bus_events::{counts, heard, raised};
use bus_lines::status::device_with;
use bus_ports::frame::SILENT;
use bus_ports::need::needed;
use bus_ports::reply::meet_heard;
use bus_ports::{found, take};
use bus_quiet::{passing, phase, quiet};
use constants::{LAST_QUIET, Refusal};
use frames::Hearing;
use model::{Controller, Exchange, Heard, Lines};

// The controller after an event: each part by what was heard. Rule 3 finds the lines `l`.
fn after(c: Controller, h: Heard, l: Lines, x: Exchange, interrupt: u16) -> Controller
    ensures { result ≡ after_with c h l x interrupt }
{
    Controller {
        exchange: x,
        times: heard::times_after(c.times, h),
        lines: bus_lines::rule3(heard::polls(c.device, h), l),
        counts: counts::counts_after(c.counts, h),
        group0: raised::raise0(c.exchange, c.times, h, interrupt, c.group0),
        group1: raised::raise1(c.counts, h, c.group1),
        ..c
    }
}

// An event that is accepted, with the port that was found for it. What was heard is met and taken. A status poll is told the lines as rule 3
// finds them.
fn accept(
    ports: &mut [u16],
    page0: &mut [u16],
    page1: &mut [u16],
    c: Controller,
    found: Option<u16>,
    h: Heard,
    t: Hearing,
    o: Hearing,
) -> Answered
    ensures { as_outcome c (areas [] ports.new page0.new page1.new) (Ok result) ≡
        accepted_with (world c (areas [] ports.old page0.old page1.old)) found h t o }
{
    let before = c.lines;
    let l = heard::lines_found(before, h, t, o);
    let d = c.device;
    let device = device_with(l, d);
    let met = meet_heard(ports, page0, page1, device, found, c.exchange, h);
    let sink = found::sink_of(ports, found);
    let interrupt = found::interrupt_at(ports, sink);
    take::take(ports, page0, page1, sink, h, t);
    Answered {
        controller: after(c, h, l, met.exchange, interrupt),
        reply: met.reply,
    }
}

// A hearing is out of range.
fn is_out(a: Hearing, b: Hearing) -> bool
    ensures { result ≡ (not (in_range a) || not (in_range b)) }
{
    !frames::in_range(a) || !frames::in_range(b)
}

// A bus event: what line A and what line B heard. The trusted line is the one at the start of the event.
pub fn hear(
    index: &[u16],
    ports: &mut [u16],
    page0: &mut [u16],
    page1: &mut [u16],
    c: Controller,
    a: Hearing,
    b: Hearing,
) -> Result<Answered, Refusal>
    ensures { as_outcome c (areas index.now ports.new page0.new page1.new) result ≡
        outcome (hear a b) (world c (areas index.now ports.old page0.old page1.old)) }
{
    let t = bus_lines::trusted(c.lines, a, b);
    let h = heard::heard(c.exchange, t);
    let fit = layout::fits(index, ports, page0, page1);
    let out = is_out(a, b);
    let found = needed(fit, out, found::sought_heard(index, ports, h))?;
    let o = bus_lines::observed(c.lines, a, b);
    Ok(accept(ports, page0, page1, c, found, h, t, o))
}

// The rules of document 01 in one quiet bit time. Where what is sought is damaged there is no port of ours.
fn pulse(
    index: &[u16],
    ports: &mut [u16],
    page0: &[u16],
    page1: &[u16],
    c: Controller,
) -> Controller
    ensures { world result (areas index.now ports.new page0.now page1.now) ≡
        pulse (world c (areas index.now ports.old page0.now page1.now)) }
{
    let due = quiet::due(c.exchange, c.times);
    let found = found::sought_due(index, ports, due).unwrap_or(None);
    let sink = found::sink_of(ports, found);
    take::miss(ports, sink);
    quiet::pulse_controller(c)
}

// These rules in n quiet bit times, from deadline to deadline, and to the end at once when nothing but line timeouts is to come. Before that
// come the reply time, the bus timeout, the bit time in which a filed LS acts, and a line timeout, each at most once (the bus timeout is past
// and RLD or SLM is set when a second line timeout comes): the loop turns at most five times, whatever n is.
fn pass(
    index: &[u16],
    ports: &mut [u16],
    page0: &[u16],
    page1: &[u16],
    c: Controller,
    n: u32,
) -> Controller
    ensures { world result (areas index.now ports.new page0.now page1.now) ≡
        pulses n (world c (areas index.now ports.old page0.now page1.now)) }
{
    let mut d = c;
    let mut left = n;
    while 0 < left {
        let j = passing::jump(left, d);
        d = j.controller;
        left = j.left;
        if 0 < left {
            d = pulse(index, ports, page0, page1, d);
            left -= 1;
        }
    }
    d
}

// The end of n quiet bit times, at once: where milliseconds end, one walk over the ports makes the open sinks as much older. Where none ends
// no port is looked at.
fn grow(
    index: &[u16],
    ports: &mut [u16],
    page0: &[u16],
    page1: &[u16],
    c: Controller,
    n: u32,
) -> Controller
    ensures { world result (areas index.now ports.new page0.now page1.now) ≡
        grown_by n (world c (areas index.now ports.old page0.now page1.now)) }
{
    let k = phase::ends_within(n, c.phase);
    if k != 0 {
        age_ports(ports, k);
    }
    phase::phase_later(n, c)
}

// n quiet bit times.
pub fn quiet(
    index: &[u16],
    ports: &mut [u16],
    page0: &[u16],
    page1: &[u16],
    c: Controller,
    n: u32,
) -> Result<Answered, Refusal>
    ensures { as_outcome c (areas index.now ports.new page0.now page1.now) result ≡
        outcome (quiet n) (world c (areas index.now ports.old page0.now page1.now)) }
{
    let due = quiet::due_within(n, c.exchange, c.times);
    let fit = layout::fits(index, ports, page0, page1);
    needed(fit, LAST_QUIET < n, found::sought_due(index, ports, due))?;
    let passed = pass(index, ports, page0, page1, c, n);
    Ok(Answered {
        controller: grow(index, ports, page0, page1, passed, n),
        reply: SILENT,
    })
}
