// Quiet bit times that surely bring nothing are passed at once, and those that bring line timeouts alone (`resting`).
ghost use Rattle.std.specs.Prelude.{◌≡◌, ◌≤◌};
ghost use Rattle.bus_quiet.specs.Jump.{before_reply, before_bus, before_line, free, later, jumped};

use crate::{Passed, quiet, resting};
use constants::{BUS_TIMEOUT, LINE_TIMEOUT};
use model::{Controller, Exchange, Times};

// Bit times before the reply time is reached; where no word is due within the line timeout, that comes first.
fn before_reply(x: Exchange, t: Times) -> u16
    ensures { result ≡ before_reply x t }
{
    if quiet::due_within(LINE_TIMEOUT as u32, x, t).is_some() {
        t.adopted.saturating_sub(t.since).saturating_sub(1)
    } else {
        LINE_TIMEOUT
    }
}

// Bit times before the bus timeout; once it is reached it does not come again.
fn before_bus(t: Times) -> u16
    ensures { result ≡ before_bus t }
{
    if t.since < BUS_TIMEOUT {
        BUS_TIMEOUT - 1 - t.since
    } else {
        LINE_TIMEOUT
    }
}

// Bit times before the line timeout.
fn before_line(t: Times) -> u16
    ensures { result ≡ before_line t }
{
    (LINE_TIMEOUT - 1).saturating_sub(t.line)
}

// How many bit times surely bring nothing but later times.
#[tactic(auto, unfolding(crate::specs::Jump::free))]
pub fn free(c: Controller) -> u16
    ensures { result ≡ free c }
{
    if bus_lines::acts5(c.lines) {
        return 0;
    }
    before_reply(c.exchange, c.times).min(before_bus(c.times).min(before_line(c.times)))
}

// The controller after k of them.
#[tactic(auto, using(crate::proofs::Jump::free_line), unfolding(crate::specs::Jump::later))]
fn later(k: u16, c: Controller) -> Controller
    requires { k ≤ free c }
    ensures { result ≡ later k c }
{
    Controller {
        times: Times {
            since: quiet::since_after(k as u32, c.times.since),
            line: c.times.line + k,
            ..c.times
        },
        ..c
    }
}

// Of n bit times, all at once where nothing but line timeouts is to come, else as many as surely bring nothing.
#[tactic(auto, unfolding(crate::specs::Jump::jumped))]
pub fn jump(n: u32, c: Controller) -> Passed
    ensures { result ≡ jumped n c }
{
    if resting::resting(c) {
        return Passed {
            left: 0,
            controller: resting::rolled(n, c),
        };
    }
    let k = n.min(free(c) as u32);
    Passed {
        left: n - k,
        controller: later(k as u16, c),
    }
}
