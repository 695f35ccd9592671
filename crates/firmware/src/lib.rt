// The controller for C and for Rust: everything a host does, as calls that the crate `firmware_c` exports (firmware/tolvendrum.h declares
// them).
//
// What crosses the boundary are numbers, slices of words and structs of numbers alone, in C's layout: those below and those of the crate
// `firmware_layout`. A struct that is no controller or no hearing of ours (`ours` and `formed` there) is an argument out of range, and so
// is a flag or a group that is neither 0 nor 1: the call is refused with 2, after 1 where areas are lent, and changes nothing.
//
// Promised for all inputs: what each call answers and leaves is that of the definitions of the crates `model` and `host_controller`,
// through the conversions of `firmware_layout` (specs/Promise.antt). Given a controller of ours a call hands back one of ours, and a
// refused one exactly what it was given (proofs/Handed.antt). Nothing is asked of the caller, and no area is copied.
#![tactic(auto, unfolding(crate::specs::Promise::flat_checks, crate::specs::Promise::set_through, crate::specs::Promise::read_through, host_controller::specs::Settings::told_for, model::specs::Event::silent, firmware_layout::specs::Hearing::flat_hearing))]

mod away;
pub mod bus_calls;
mod given;
pub mod group_calls;
pub mod port_calls;
mod reply;
pub mod setting_calls;

use firmware_layout::{FlatController, FlatHearing};

// What a bus event and quiet time answer.
#[repr(C)]
#[derive(Clone, Copy)]
pub struct FlatAnswered {
    pub controller: FlatController,
    pub refusal: u16,
    pub reply: FlatHearing, // the slave frame that we send, or silence
}

// What a setting answers.
#[repr(C)]
#[derive(Clone, Copy)]
pub struct FlatTold {
    pub controller: FlatController,
    pub refusal: u16,
}

// What a call on an interrupt group answers.
#[repr(C)]
#[derive(Clone, Copy)]
pub struct FlatReading {
    pub controller: FlatController,
    pub refusal: u16,
    pub value: u16, // what was read; 0 by a write
}

// A number that was asked for.
#[repr(C)]
#[derive(Clone, Copy)]
pub struct Number {
    pub refusal: u16,
    pub value: u16, // 0 where refused
}

// The words of a port.
#[repr(C)]
#[derive(Clone, Copy)]
pub struct Fetched {
    pub refusal: u16,
    pub size: u16, // how many words; 0 where refused, or never filled
    pub words: [u16; 16], // zeros after them
}

// The check bytes of a frame.
#[repr(C)]
#[derive(Clone, Copy)]
pub struct FlatChecks {
    pub count: u16, // how many; 0 for no words or more than 16
    pub bytes: [u8; 4], // zeros after them
}
