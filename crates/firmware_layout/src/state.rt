// The controller as numbers, both ways by `From`, and which numbers are a controller of ours (specs/Controller.antt).
ghost use Rattle.std.specs.Prelude.{◌≡◌};
ghost use Rattle.firmware_layout.specs.Controller.{flat, controller_of, ours};

use crate::{
    FlatController, FlatCounts, FlatDevice, FlatExchange, FlatGroup, FlatLines, FlatTimes,
};
use constants::MILLISECOND;
use interrupts::names::{USED_0, USED_1};
use model::{Controller, Counts, Device, Exchange, Lines, Times};

impl From<Controller> for FlatController {
    ghost from_gives = { λ c f. f ≡ flat c };

    #[tactic(auto, unfolding(crate::specs::Controller::flat))]
    fn from(c: Controller) -> FlatController {
        FlatController {
            exchange: FlatExchange::from(c.exchange),
            times: FlatTimes::from(c.times),
            lines: FlatLines::from(c.lines),
            counts: FlatCounts::from(c.counts),
            group0: FlatGroup::from(c.group0),
            group1: FlatGroup::from(c.group1),
            device: FlatDevice::from(c.device),
            phase: c.phase,
        }
    }
}

// Of any numbers, so that what a call answers to numbers that are none of ours is said too.
impl From<FlatController> for Controller {
    ghost from_gives = { λ f c. c ≡ controller_of f };

    #[tactic(auto, unfolding(crate::specs::Controller::controller_of))]
    fn from(f: FlatController) -> Controller {
        Controller {
            exchange: Exchange::from(f.exchange),
            times: Times::from(f.times),
            lines: Lines::from(f.lines),
            counts: Counts::from(f.counts),
            group0: f.group0.group(USED_0),
            group1: f.group1.group(USED_1),
            device: Device::from(f.device),
            phase: f.phase,
        }
    }
}

impl FlatController {
    // Each part is ours, and the phase restarts with each millisecond.
    #[tactic(auto, unfolding(crate::specs::Controller::ours))]
    pub fn is_ours(self) -> bool
        ensures { result ≡ ours self }
    {
        self.exchange.is_ours()
            && self.times.is_ours()
            && self.lines.is_ours()
            && self.group0.is_ours(USED_0)
            && self.group1.is_ours(USED_1)
            && self.device.is_ours()
            && self.phase < MILLISECOND
    }
}
