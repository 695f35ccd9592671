// The open ports, eight lines for each.
ghost use Rattle.std.specs.Prelude.{◌≡◌};
ghost use Rattle.port_digits.specs.Write.{paper, onto};
ghost use Rattle.model.specs.Answer.{answer_of};
ghost use Rattle.areas.specs.Lent.{lent};
ghost use Rattle.port_text.specs.Words.{w_dir, w_state, w_data};
ghost use Rattle.port_text.specs.Report.{line_text, dir_text, state_text, data_text, setup_text, text_of_port, open_text, report};

use crate::say;
use areas::layout;
use constants::{CODE_UNIT, Refusal};
use host_ports::calls;
use model::State;

const ADDRESSES: u16 = 4096;

// `dir` is sink or source.
fn put_dir(out: &mut [u8], at: usize, sink: bool) -> usize
    ensures { paper out.new result ≡ onto (paper out.old at) (line_text w_dir (dir_text sink)) }
{
    if sink {
        say::put_line(out, at, b"dir", b"sink")
    } else {
        say::put_line(out, at, b"dir", b"source")
    }
}

// `state` never, good, held or stale; asking an open port is never refused.
fn put_state(out: &mut [u8], at: usize, answer: Result<State, Refusal>) -> usize
    ensures { paper out.new result ≡
        onto (paper out.old at) (line_text w_state (state_text (answer_of answer))) }
{
    match answer {
        Ok(State::Never) => say::put_line(out, at, b"state", b"never"),
        Ok(State::Good) => say::put_line(out, at, b"state", b"good"),
        Ok(State::Held) => say::put_line(out, at, b"state", b"held"),
        Ok(State::Stale) => say::put_line(out, at, b"state", b"stale"),
        Err(_) => say::put_line(out, at, b"state", b""),
    }
}

// `data` the words, or the word none when never.
fn put_data(out: &mut [u8], at: usize, answer: Result<State, Refusal>, words: &[u16]) -> usize
    ensures { paper out.new result ≡
        onto (paper out.old at) (line_text w_data (data_text (answer_of answer) words.now)) }
{
    match answer {
        Ok(State::Never) => say::put_line(out, at, b"data", b"none"),
        Ok(State::Good | State::Held | State::Stale) | Err(_) => say::put_listed(
            out, at, b"data", words,
        ),
    }
}

// The setup lines of a port.
fn put_setup(out: &mut [u8], at: usize, a: u16, code: u16, sink: bool, p: u16) -> usize
    ensures { paper out.new result ≡ onto (paper out.old at) (setup_text a code sink p) }
{
    let addr = say::put_numbered(out, at, b"addr", a);
    let fcode = say::put_numbered(out, addr, b"fcode", code);
    let dir = put_dir(out, fcode, sink);
    say::put_numbered(out, dir, b"index", p)
}

// The eight lines of port p at address a.
fn put_port(
    index: &[u16],
    ports: &[u16],
    page0: &[u16],
    page1: &[u16],
    out: &mut [u8],
    at: usize,
    a: u16,
    p: u16,
) -> usize
    ensures { paper out.new result ≡
        onto (paper out.old at) (text_of_port (lent index.entry ports.entry page0.entry page1.entry) a p) }
{
    let w = layout::get_port(ports, p);
    let f = layout::flags_of(w.flags);
    let faults = f.faults;
    let marks = layout::marks_number(faults.wrong);
    let state = calls::ask(index, ports, a);
    let words = calls::fetch(index, ports, page0, page1, a);
    let described = put_setup(out, at, a, w.master / CODE_UNIT, f.sink, p);
    let told = put_state(out, described, state);
    let fills = say::put_numbered(out, told, b"fills", w.fills);
    let blocks = say::put_numbered(out, fills, b"blocks", marks);
    put_data(out, blocks, state, words)
}

// The port at address a, if one is open.
fn put_open(
    index: &[u16],
    ports: &[u16],
    page0: &[u16],
    page1: &[u16],
    out: &mut [u8],
    at: usize,
    a: u16,
) -> usize
    ensures { paper out.new result ≡
        onto (paper out.old at) (open_text (lent index.entry ports.entry page0.entry page1.entry) a) }
{
    // 0 is no port, as the index table has it.
    let p = layout::get(index, a as usize);
    if p == 0 {
        at
    } else {
        put_port(index, ports, page0, page1, out, at, a, p)
    }
}

// Every open port, by rising address.
pub fn put_report(
    index: &[u16],
    ports: &[u16],
    page0: &[u16],
    page1: &[u16],
    out: &mut [u8],
    at: usize,
) -> usize
    ensures { paper out.new result ≡
        onto (paper out.old at) (report (lent index.entry ports.entry page0.entry page1.entry)) }
{
    let mut p = at;
    for a in 0..ADDRESSES {
        p = put_open(index, ports, page0, page1, out, p, a);
    }
    p
}
