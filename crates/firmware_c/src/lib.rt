// The controller as a static library for C and for Rust: the calls of the crate `firmware` by their names there, exported
// (firmware/tolvendrum.h declares them).
//
// Promised for all inputs: what each call of `firmware` promises, in the same words. The modules are written by firmware/make.py from those of
// `firmware`. Nothing is asked of the caller.
#![tactic(auto)]

mod bus_calls;
mod group_calls;
mod port_calls;
mod setting_calls;
