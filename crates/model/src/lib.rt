// The controller as definitions, and the three demands as theorems about them. This crate has no function.
//
// Here are the types that the calls take and answer. specs/ defines, from document 01's own words, what each call answers and what it
// leaves of the controller and of the four lent areas; a run is a list of accepted calls. proofs/ has the demands as theorems: what is
// refused (Refused), what holds in any memory (Anywhere, Empty), what a port shows and what is replied and counted in a run (Demands), and
// that damage leaves no trace but what document 01 lists (MayDiffer, Settled). docs/READING.md says in which order to read them.
#![tactic(auto)]

use frames::{Judgement, Wrong};
use interrupts::Group;

// The exchange is idle, waiting with the master word, or done.
#[derive(Clone, Copy)]
pub enum Exchange {
    Idle,
    Waiting(u16),
    Done,
}

// Bit times since the last sound master frame or reset, counted up to the bus timeout; the line count; and the reply time that the
// host chose and the one that the last sound master frame adopted.
#[derive(Clone, Copy)]
pub struct Times {
    pub since: u16,
    pub line: u16,
    pub chosen: u16,
    pub adopted: u16,
}

// LAA: line A is the trusted one. RLD: the redundant line is disturbed. LS: a switch is filed. SLM: single line mode.
#[derive(Clone, Copy)]
pub struct Lines {
    pub laa: bool,
    pub rld: bool,
    pub ls: bool,
    pub slm: bool,
}

// FC counts judged frames, EC the unsound ones.
#[derive(Clone, Copy)]
pub struct Counts {
    pub fc: u16,
    pub ec: u16,
}

// The device address, and the status word where the host has set one.
//
// A flag beside the word, and no `Option`: the calls (`bus::calls::hear`) take every controller, also one that has a word which is not set.
#[derive(Clone, Copy)]
pub struct Device {
    pub address: u16,
    pub set: bool,
    pub status: u16,
}

#[derive(Clone, Copy)]
pub struct Controller {
    pub exchange: Exchange,
    pub times: Times,
    pub lines: Lines,
    pub counts: Counts,
    pub group0: Group,
    pub group1: Group,
    pub device: Device,
    // The quiet bit times of the millisecond that runs; milliseconds are counted from reset on, and no frame restarts one.
    pub phase: u16,
}

// The eight words of a port: its master word, its flags, its data transfer interrupt or 0, its fills, its limit in milliseconds or 0
// where it is not supervised, its age in milliseconds, and two that are zero. They are numbers, with 0 for none, as they lie in the memory that is
// lent.
#[derive(Clone, Copy)]
pub struct Words {
    pub master: u16,
    pub flags: u16,
    pub interrupt: u16,
    pub fills: u16,
    pub limit: u16,
    pub age: u16,
    pub sixth: u16,
    pub seventh: u16,
}

// The status bits of a port's flags; the marks of the blocks are among them.
#[derive(Clone, Copy)]
pub struct Faults {
    pub sto: bool,
    pub terr: bool,
    pub crc: bool,
    pub sqe: bool,
    pub alo: bool,
    pub wrong: Wrong,
}

// The flags of a port: valid page, ever filled, source, sink, and the status bits.
#[derive(Clone, Copy)]
pub struct Flags {
    pub vp: bool,
    pub ever: bool,
    pub src: bool,
    pub sink: bool,
    pub faults: Faults,
}

// What asking answers of a port, where it does not refuse.
#[derive(Clone, Copy, Debug, PartialEq, Eq)]
pub enum State {
    Never,
    Good,
    Held,
    Stale,
}

// What the trusted line heard, by the exchange: nothing, an unsound or a sound master frame, a slave frame that is judged while a
// master word is waited for, or one that is not.
#[derive(Clone, Copy)]
pub enum Heard {
    Nothing,
    Unsound,
    Master(u16),
    Reply(u16, Judgement),
    Stray,
}
