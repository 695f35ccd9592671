// Document 01, "Host calls on ports": what the host sets, and reset. No call here is lent an area.
ghost use Rattle.std.specs.Prelude.{◌≡◌};
ghost use Rattle.model.specs.Host.{fresh_controller, address, status, reply_time, slm, ls, ec_clear, is_reply_time, tell};
ghost use Rattle.host_controller.specs.Settings.{told_for};

use constants::{FIRST_REPLY_TIME, LAST_ADDRESS, Refusal};
use interrupts::Group;
use interrupts::names::{USED_0, USED_1};
use model::{Controller, Counts, Device, Exchange, Lines, Times};

// The device address, 0 to 4095.
#[tactic(auto, unfolding(model::specs::Host::tell, crate::specs::Settings::told_for))]
pub fn set_address(c: Controller, a: u16) -> Result<Controller, Refusal>
    ensures { result ≡ told_for (address a) c }
{
    if a > LAST_ADDRESS {
        return Err(Refusal::Range);
    }
    Ok(Controller {
        device: Device {
            address: a,
            ..c.device
        },
        ..c
    })
}

// The status word that a poll of our address is answered with, with LAA and RLD in it.
#[tactic(auto, unfolding(model::specs::Host::tell))]
pub fn set_status(c: Controller, w: u16) -> Controller
    ensures { result ≡ tell (status w) c }
{
    Controller {
        device: Device {
            set: true,
            status: w,
            ..c.device
        },
        ..c
    }
}

// Reply times: 32, 64, 96, 128.
pub fn is_reply_time(t: u16) -> bool
    ensures { result ≡ is_reply_time t }
{
    matches!(t, 32 | 64 | 96 | 128)
}

// The reply time that the next sound master frame adopts.
#[tactic(auto, unfolding(model::specs::Host::tell, crate::specs::Settings::told_for))]
pub fn set_reply_time(c: Controller, t: u16) -> Result<Controller, Refusal>
    ensures { result ≡ told_for (reply_time t) c }
{
    if !is_reply_time(t) {
        return Err(Refusal::Range);
    }
    Ok(Controller {
        times: Times {
            chosen: t,
            ..c.times
        },
        ..c
    })
}

// Single line mode.
#[tactic(auto, unfolding(model::specs::Host::tell))]
pub fn set_slm(c: Controller, b: bool) -> Controller
    ensures { result ≡ tell (slm b) c }
{
    Controller {
        lines: Lines { slm: b, ..c.lines },
        ..c
    }
}

// A line switch filed, or withdrawn.
#[tactic(auto, unfolding(model::specs::Host::tell))]
pub fn set_ls(c: Controller, b: bool) -> Controller
    ensures { result ≡ tell (ls b) c }
{
    Controller {
        lines: Lines { ls: b, ..c.lines },
        ..c
    }
}

// EC is cleared by the host.
#[tactic(auto, unfolding(model::specs::Host::tell))]
pub fn clear_ec(c: Controller) -> Controller
    ensures { result ≡ tell ec_clear c }
{
    Controller {
        counts: Counts { ec: 0, ..c.counts },
        ..c
    }
}

// A fresh controller.
#[tactic(auto, unfolding(model::specs::Host::fresh_controller))]
pub fn reset() -> Controller
    ensures { result ≡ fresh_controller }
{
    Controller {
        exchange: Exchange::Idle,
        times: Times {
            since: 0,
            line: 0,
            chosen: FIRST_REPLY_TIME,
            adopted: FIRST_REPLY_TIME,
        },
        lines: Lines {
            laa: true,
            rld: false,
            ls: false,
            slm: false,
        },
        counts: Counts { fc: 0, ec: 0 },
        group0: Group::new(USED_0),
        group1: Group::new(USED_1),
        device: Device {
            address: 0,
            set: false,
            status: 0,
        },
        phase: 0,
    }
}
