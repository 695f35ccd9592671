// The controller and a hearing as plain numbers, in C's layout, both ways: what crosses the boundary of the firmware library.
//
// Promised for all inputs: each conversion, a `From` between the types, is that of specs/Controller.antt and specs/Hearing.antt, and which
// numbers are a controller of ours (`ours`) or a hearing (`formed`). The conversions are each other's inverse (proofs/Inverse.antt), and the
// controller that a call leaves is again one of ours (proofs/Kept.antt). Nothing is asked of the caller.
//
// `parts` has the parts of the controller, `state` the whole, `hearing` a hearing, `flags` a flag.
#![tactic(auto)]

pub mod flags;
pub mod hearing;
pub mod parts;
pub mod state;

// The exchange on the bus.
#[repr(C)]
#[derive(Clone, Copy)]
pub struct FlatExchange {
    pub stage: u16, // 0 idle, 1 waiting, 2 done
    pub word: u16, // the master word that is waited for, else 0
}

// Times, in bit times.
#[repr(C)]
#[derive(Clone, Copy)]
pub struct FlatTimes {
    pub since: u16, // since the last sound master frame or reset, counted up to 1950
    pub line: u16, // the line count, below 2130
    pub chosen: u16, // the reply time that the host chose
    pub adopted: u16, // the reply time that the last sound master frame adopted
}

// The two lines, each flag 0 or 1.
#[repr(C)]
#[derive(Clone, Copy)]
pub struct FlatLines {
    pub laa: u16, // line A active: 1 where line A is trusted, 0 where line B is
    pub rld: u16, // redundant line disturbed: set by a failure, cleared by a status poll to us
    pub ls: u16, // a line switch is filed
    pub slm: u16, // single line mode: no rule switches or sets RLD
}

// Counts of frames.
#[repr(C)]
#[derive(Clone, Copy)]
pub struct FlatCounts {
    pub fc: u16, // judged frames, modulo 65,536
    pub ec: u16, // unsound ones, up to 65,535
}

// An interrupt group. Its unused bits are zero, and nothing is pending unless it is frozen.
#[repr(C)]
#[derive(Clone, Copy)]
pub struct FlatGroup {
    pub pending: u16, // bits raised while it is frozen
    pub mask: u16, // 1 lets a bit through
    pub status: u16, // bits to be served
    pub frozen: u16, // 0 or 1
}

// Our device on the bus.
#[repr(C)]
#[derive(Clone, Copy)]
pub struct FlatDevice {
    pub address: u16, // the device address, 0 to 4095
    pub set: u16, // 1 once the host has set a status word
    pub status: u16, // the status word, 0 unless set
}

// The controller. No struct in it lies across a multiple of four words, so that a machine that copies the controller moves each whole.
#[repr(C)]
#[derive(Clone, Copy)]
pub struct FlatController {
    pub exchange: FlatExchange,
    pub counts: FlatCounts,
    pub times: FlatTimes,
    pub lines: FlatLines,
    pub group0: FlatGroup,
    pub group1: FlatGroup,
    pub device: FlatDevice,
    pub phase: u16, // quiet bit times of the millisecond that runs, below 1500
}

// What one line heard in an event. In silence and in noise the rest says nothing, but is tested.
#[repr(C)]
#[derive(Clone, Copy)]
pub struct FlatHearing {
    pub kind: u16, // 0 silence, 1 noise, 2 master frame, 3 slave frame
    pub words: [u16; 16],
    pub size: u16, // how many words, 0 to 16
    pub checks: [u8; 4],
    pub ends: u16, // how many check bytes, 0 to 4
    pub sqe: u16, // the three quality marks, each 0 or 1
    pub violation: u16,
    pub alo: u16,
}
