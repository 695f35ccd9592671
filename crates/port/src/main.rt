// The port program (document 01, "Numbers on either side"): standard input to standard output, as the crate `port_run` promises of pieces. It
// takes no arguments.
#![tactic(auto)]

use std::env::FillError;
use std::rt::Env;

// Whether there is an argument, of whatever length: its first byte is as much as is asked for.
fn has_argument(rt: &impl Env) -> bool {
    !matches!(rt.arg(1, &mut [0u8; 1]), Err(FillError::NotPresent))
}

fn main(rt: HostRuntime) {
    if has_argument(&rt) {
        let _ = eprintln!(rt; "port: no argument is taken; the input is standard input");
        return;
    }
    port_stream::serve(&rt, &mut rt.stdin(), &mut rt.stdout());
}
