// When nothing but line timeouts is to come, bit times are passed at once, whatever their number.
ghost use Rattle.std.specs.Prelude.{◌≡◌};
ghost use Rattle.bus_quiet.specs.Resting.{resting, rolled};

use crate::quiet;
use constants::{BUS_TIMEOUT, LINE_TIMEOUT};
use model::{Controller, Times};

// Nothing but line timeouts is to come, which only switch: the bus timeout is past, no reply time is reached any more, RLD or SLM is set.
#[tactic(auto, unfolding(crate::specs::Resting::resting))]
pub fn resting(c: Controller) -> bool
    ensures { result ≡ resting c }
{
    BUS_TIMEOUT <= c.times.since
        && quiet::due(c.exchange, c.times).is_none()
        && c.times.line < LINE_TIMEOUT
        && (c.lines.rld || c.lines.slm)
}

// A resting controller n bit times later: the line count restarted at each line timeout, and an odd number of them switches as one does.
#[tactic(auto, unfolding(crate::specs::Resting::rolled))]
pub fn rolled(n: u32, c: Controller) -> Controller
    ensures { result ≡ rolled n c }
{
    let counted = c.times.line as u64 + n as u64;
    let timeout = LINE_TIMEOUT as u64;
    Controller {
        times: Times {
            line: (counted % timeout) as u16,
            ..c.times
        },
        lines: bus_lines::rule2(counted / timeout % 2 == 1, c.lines),
        ..c
    }
}
