// The host's calls on the controller (document 01, "Host calls on ports" and "Two interrupt groups"): what it sets, `reset`, and the calls
// on the two interrupt groups. No call here is lent an area.
//
// Each promise is an equation with a definition of the crate `model`, or with one of specs/ here. No public function asks anything of its
// caller.
#![tactic(auto)]

use model::Controller;

pub mod groups;
pub mod settings;

// The host's calls on an interrupt group.
#[derive(Clone, Copy)]
pub enum GroupCall {
    ReadStatus,
    ReadVector,
    WriteStatus(u16),
    WriteVector,
    WritePending(u16),
    WriteMask(u16),
}

// What was read, 0 by a write, and the controller afterwards.
#[derive(Clone, Copy)]
pub struct Reading {
    pub value: u16,
    pub controller: Controller,
}
