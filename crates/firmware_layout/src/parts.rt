// The parts of the controller as numbers, both ways by `From`, and which numbers are such a part of ours (specs/Controller.antt).
ghost use Rattle.std.specs.Prelude.{◌≡◌};
ghost use Rattle.firmware_layout.specs.Controller.{flat_exchange, exchange_of, exchange_ours, flat_times, times_of, times_ours};
ghost use Rattle.firmware_layout.specs.Controller.{flat_lines, lines_of, lines_ours, flat_counts, counts_of};
ghost use Rattle.firmware_layout.specs.Controller.{flat_group, group_of, inside, group_ours, flat_device, device_of, device_ours};

use crate::flags::{is_bit, is_set};
use crate::{FlatCounts, FlatDevice, FlatExchange, FlatGroup, FlatLines, FlatTimes};
use constants::{BUS_TIMEOUT, LAST_ADDRESS, LINE_TIMEOUT};
use host_controller::settings::is_reply_time;
use interrupts::Group;
use model::{Counts, Device, Exchange, Lines, Times};

impl From<Exchange> for FlatExchange {
    ghost from_gives = { λ x f. f ≡ flat_exchange x };

    fn from(x: Exchange) -> FlatExchange {
        match x {
            Exchange::Idle => FlatExchange { stage: 0, word: 0 },
            Exchange::Waiting(w) => FlatExchange { stage: 1, word: w },
            Exchange::Done => FlatExchange { stage: 2, word: 0 },
        }
    }
}

impl From<FlatExchange> for Exchange {
    ghost from_gives = { λ f x. x ≡ exchange_of f };

    fn from(f: FlatExchange) -> Exchange {
        match f.stage {
            1 => Exchange::Waiting(f.word),
            2 => Exchange::Done,
            _ => Exchange::Idle,
        }
    }
}

impl FlatExchange {
    // The stage is one of three, and the word is 0 unless one is waited for.
    pub fn is_ours(self) -> bool
        ensures { result ≡ exchange_ours self }
    {
        self.stage <= 2 && (self.stage == 1 || self.word == 0)
    }
}

impl From<Times> for FlatTimes {
    ghost from_gives = { λ t f. f ≡ flat_times t };

    fn from(t: Times) -> FlatTimes {
        FlatTimes {
            since: t.since,
            line: t.line,
            chosen: t.chosen,
            adopted: t.adopted,
        }
    }
}

impl From<FlatTimes> for Times {
    ghost from_gives = { λ f t. t ≡ times_of f };

    fn from(f: FlatTimes) -> Times {
        Times {
            since: f.since,
            line: f.line,
            chosen: f.chosen,
            adopted: f.adopted,
        }
    }
}

impl FlatTimes {
    // The time since the last sound master frame stops at the bus timeout, the line count restarts at its own, and both reply times are ones.
    pub fn is_ours(self) -> bool
        ensures { result ≡ times_ours self }
    {
        self.since <= BUS_TIMEOUT
            && self.line < LINE_TIMEOUT
            && is_reply_time(self.chosen)
            && is_reply_time(self.adopted)
    }
}

impl From<Lines> for FlatLines {
    ghost from_gives = { λ l f. f ≡ flat_lines l };

    fn from(l: Lines) -> FlatLines {
        FlatLines {
            laa: u16::from(l.laa),
            rld: u16::from(l.rld),
            ls: u16::from(l.ls),
            slm: u16::from(l.slm),
        }
    }
}

impl From<FlatLines> for Lines {
    ghost from_gives = { λ f l. l ≡ lines_of f };

    fn from(f: FlatLines) -> Lines {
        Lines {
            laa: is_set(f.laa),
            rld: is_set(f.rld),
            ls: is_set(f.ls),
            slm: is_set(f.slm),
        }
    }
}

impl FlatLines {
    // Each is a flag.
    pub fn is_ours(self) -> bool
        ensures { result ≡ lines_ours self }
    {
        is_bit(self.laa) && is_bit(self.rld) && is_bit(self.ls) && is_bit(self.slm)
    }
}

impl From<Counts> for FlatCounts {
    ghost from_gives = { λ n f. f ≡ flat_counts n };

    fn from(n: Counts) -> FlatCounts {
        FlatCounts { fc: n.fc, ec: n.ec }
    }
}

impl From<FlatCounts> for Counts {
    ghost from_gives = { λ f n. n ≡ counts_of f };

    fn from(f: FlatCounts) -> Counts {
        Counts { fc: f.fc, ec: f.ec }
    }
}

impl From<Group> for FlatGroup {
    ghost from_gives = { λ g f. f ≡ flat_group g };

    fn from(g: Group) -> FlatGroup {
        FlatGroup {
            pending: g.pending,
            mask: g.mask,
            status: g.status,
            frozen: u16::from(g.frozen),
        }
    }
}

// The word x has no bit outside `used`.
fn is_inside(used: u16, x: u16) -> bool
    ensures { result ≡ inside used x }
{
    x & used == x
}

impl FlatGroup {
    // The group with these numbers that uses the bits `used`. No `From`: the numbers do not say which bits those are.
    pub fn group(self, used: u16) -> Group
        ensures { result ≡ group_of used self }
    {
        Group {
            used,
            pending: self.pending,
            mask: self.mask,
            status: self.status,
            frozen: is_set(self.frozen),
        }
    }

    // Unused bits are zero, and nothing is pending unless the group is frozen.
    pub fn is_ours(self, used: u16) -> bool
        ensures { result ≡ group_ours used self }
    {
        is_inside(used, self.pending)
            && is_inside(used, self.mask)
            && is_inside(used, self.status)
            && is_bit(self.frozen)
            && (is_set(self.frozen) || self.pending == 0)
    }
}

impl From<Device> for FlatDevice {
    ghost from_gives = { λ d f. f ≡ flat_device d };

    fn from(d: Device) -> FlatDevice {
        FlatDevice {
            address: d.address,
            set: u16::from(d.set),
            status: d.status,
        }
    }
}

impl From<FlatDevice> for Device {
    ghost from_gives = { λ f d. d ≡ device_of f };

    fn from(f: FlatDevice) -> Device {
        Device {
            address: f.address,
            set: is_set(f.set),
            status: f.status,
        }
    }
}

impl FlatDevice {
    // The address is one, and the status word is 0 unless it is set.
    pub fn is_ours(self) -> bool
        ensures { result ≡ device_ours self }
    {
        self.address <= LAST_ADDRESS && is_bit(self.set) && (is_set(self.set) || self.status == 0)
    }
}
