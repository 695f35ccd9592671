// The lines of the port program (document 01, "Numbers on either side"), both ways: what a line of the input says (`line`), and the lines
// that are printed (`say`): replies, refusals, and eight for each open port (`report`).
//
// Promised for all inputs: what a line says is specs/Line.antt, what is printed specs/Report.antt. Output goes into a lent buffer of any
// length: past its end bytes are counted and not stored. Nothing is asked of the caller. The lines `addr`, `fcode`, `dir` and `index` that
// are printed of a port are read as its setup lines (proofs/Back.antt).
#![tactic(auto, unfolding(crate::specs::Report::line_text, crate::specs::Report::refused_text, crate::specs::Report::open_text, crate::specs::Report::text_of_port, crate::specs::Report::report_below, crate::specs::Report::reply_text, port_digits::specs::Write::onto), using(port_digits::proofs::Pasting::then, model::proofs::Asking::asks_alone, crate::proofs::Ports::report_next))]

pub mod line;
pub mod report;
pub mod say;

// What stands before the `=` of a line.
#[derive(Clone, Copy)]
pub enum Key {
    Addr,
    Fcode,
    Dir,
    Index,
    Master,
    Slave,
    Quiet,
    Write,
}
