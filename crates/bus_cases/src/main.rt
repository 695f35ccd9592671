// The numbers of documents 01 and 02, run: a script of calls is read from standard input, each call is made, and a line is printed for each answer.
//
// A line of the script is a command and decimal numbers, with a space between two; a number above 65,535 counts modulo 65,536, but for
// `quiet` and `hear`. A line that begins with # is printed as it stands, and any other line does nothing. Input of 262,144 bytes or more
// is `input too long`.
//
//   begin                       cleared areas, a fresh controller, silence on both lines
//   lengths I P Q R             how many words of the index table, the port words, page 0 and page 1 are lent from here on
//   open A P CODE SINK INT LIMIT · close A · write A WORDS · ask A · fetch A
//   a KIND MARKS WORDS / CHECKS what line A hears from here on; b for line B, both for both lines. KIND is silence, noise, master or
//                               slave; MARKS are any of sqe, violation, alo
//   hear N                      the event, N times (once without a number): the last answer is printed, with its reply
//   quiet N                     N quiet bit times
//   address N · status W · reply N · single 0|1 · switch 0|1 · clear · reset     the host's settings; `clear` is for EC
//   readstatus G · readvector G · writestatus G W · writevector G · pending G W · mask G W · outgoing G     interrupt group G, 0 or 1
//   entry AT VALUE · word AT VALUE     a word of the index table or of the port words is replaced, as damage would
//   state · port A · pages A · areas · mark · same     what controller and areas hold (see src/show.rt)
//
// What must be printed, the file stdout, does not come from this program or from the crates that it runs: make.py writes stdin and
// stdout from a controller of its own, written from documents 01 and 02. No function here promises anything of its result; all are proved to
// be safe and to end.
#![tactic(auto)]

mod command;
mod desk;
mod line;
mod memory;
mod numbers;
mod script;
mod show;
mod spaced;

use arrayvec::ArrayVec;
use std::io::{self, Read};

// The length of the buffer; make.py reads it here. Where the input fills it, more of it may follow.
const ROOM: usize = 262144;

fn main(rt: HostRuntime) {
    let mut input = ArrayVec::<u8, ROOM>::new();
    // No more is read than there is room for. Where a read fails, the buffer has what came until then.
    let _ = io::copy(&mut rt.stdin().take(ROOM as u64), &mut input);
    if input.is_full() {
        let _ = println!(rt; "input too long");
        return;
    }
    script::run(&rt, input.as_slice());
}
