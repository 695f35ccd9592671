// The calls that lines make, each where it may come; elsewhere the line is refused as a malformed one is.
ghost use Rattle.std.specs.Prelude.{◌≡◌, true, List, ℕ};
ghost use Rattle.port_digits.specs.Write.{paper};
ghost use Rattle.model.specs.Layout.{areas, Areas};
ghost use Rattle.bus.specs.Promise.{as_outcome};
ghost use Rattle.port_text.specs.Line.{addr, fcode, dir, index as index_line, framed, numbered, quiet, written};
ghost use Rattle.port_line.specs.Meaning.{begun, whole, misplaced, describes, answered, worded, meaning};
ghost use Rattle.port_line.specs.Meaning.{state_after, ended, ended_by};

use crate::{Setup, Stepped};
use bus::Answered;
use constants::{Refusal, told};
use frames::Hearing;
use host_controller::settings;
use port_digits::read;
use port_text::{line, say};

// A malformed line, or one out of its place.
pub const TEXT: u16 = 7;

// The setup line that is due; EVENTS where none is, because events have begun.
const ADDRESS: u16 = 0;

const CODE: u16 = 1;

const DIRECTION: u16 = 2;

const PORT: u16 = 3;

const EVENTS: u16 = 4;

// Before the first line: a fresh controller, and an address is due.
pub fn begin() -> Stepped
    ensures { result ≡ begun }
{
    Stepped {
        refusal: 0,
        controller: settings::reset(),
        setup: Setup {
            stage: ADDRESS,
            addr: 0,
            code: 0,
            sink: false,
        },
        at: 0,
    }
}

// No port is described in part.
pub fn is_whole(u: Setup) -> bool
    ensures { result ≡ whole u }
{
    u.stage == ADDRESS || u.stage == EVENTS
}

// A malformed line, or one out of its place.
pub fn misplace(s: Stepped) -> Stepped
    ensures { (m : Areas) (o : List ℕ) → ended m o result ≡ ended_by (paper o s.at) (misplaced (state_after m s)) }
{
    Stepped { refusal: TEXT, ..s }
}

// A setup line in its place, after which this much of the port is described.
fn describe(s: Stepped, setup: Setup) -> Stepped
    ensures { (m : Areas) (o : List ℕ) → ended m o result ≡ ended_by (paper o s.at) (describes true setup (state_after m s)) }
{
    Stepped {
        refusal: 0,
        setup,
        ..s
    }
}

pub(crate) fn set_addr(s: Stepped, n: Option<u32>) -> Stepped
    ensures { (m : Areas) (o : List ℕ) → ended m o result ≡ ended_by (paper o s.at) (meaning (worded addr n) (state_after m s)) }
{
    match n {
        Some(v) if s.setup.is_due(ADDRESS) => describe(
            s,
            Setup {
                stage: CODE,
                addr: read::word(v),
                ..s.setup
            },
        ),
        _ => misplace(s),
    }
}

pub(crate) fn set_code(s: Stepped, n: Option<u32>) -> Stepped
    ensures { (m : Areas) (o : List ℕ) → ended m o result ≡ ended_by (paper o s.at) (meaning (worded fcode n) (state_after m s)) }
{
    match n {
        Some(v) if s.setup.is_due(CODE) => describe(
            s,
            Setup {
                stage: DIRECTION,
                code: read::word(v),
                ..s.setup
            },
        ),
        _ => misplace(s),
    }
}

pub(crate) fn set_dir(s: Stepped, sink: bool) -> Stepped
    ensures { (m : Areas) (o : List ℕ) → ended m o result ≡ ended_by (paper o s.at) (meaning (dir sink) (state_after m s)) }
{
    if s.setup.is_due(DIRECTION) {
        describe(
            s,
            Setup {
                stage: PORT,
                sink,
                ..s.setup
            },
        )
    } else {
        misplace(s)
    }
}

// The fourth line opens the port, without a data transfer interrupt, and not supervised.
pub(crate) fn open(
    index: &mut [u16],
    ports: &mut [u16],
    page0: &[u16],
    page1: &[u16],
    s: Stepped,
    n: Option<u32>,
) -> Stepped
    ensures { (o : List ℕ) →
        ended (areas index.new ports.new page0.now page1.now) o result ≡
        ended_by (paper o s.at)
        (meaning (worded index_line n) (state_after (areas index.old ports.old page0.now page1.now) s)) }
{
    let u = s.setup;
    match n {
        Some(v) if u.is_due(PORT) => Stepped {
            refusal: told(&host_ports::calls::open(
                index,
                ports,
                page0,
                page1,
                u.addr,
                read::word(v),
                u.code,
                u.sink,
                0,
                0,
            )),
            setup: Setup {
                stage: ADDRESS,
                ..u
            },
            ..s
        },
        _ => misplace(s),
    }
}

// The host writes words. An address above its word is malformed.
pub(crate) fn write(
    index: &[u16],
    ports: &mut [u16],
    page0: &mut [u16],
    page1: &mut [u16],
    s: Stepped,
    n: Option<u32>,
    words: &[u16],
) -> Stepped
    ensures { (o : List ℕ) →
        ended (areas index.now ports.new page0.new page1.new) o result ≡
        ended_by (paper o s.at)
        (meaning (written n words.now)
        (state_after (areas index.now ports.old page0.old page1.old) s)) }
{
    match n {
        Some(v) if v <= line::LAST_WORD && is_whole(s.setup) => Stepped {
            refusal: told(&host_ports::calls::write(
                index,
                ports,
                page0,
                page1,
                read::word(v),
                words,
            )),
            setup: Setup {
                stage: EVENTS,
                ..s.setup
            },
            ..s
        },
        _ => misplace(s),
    }
}

// What a call on the bus answered: its reply is printed. A refused one leaves the controller as it was.
fn after_call(out: &mut [u8], s: Stepped, answer: Result<Answered, Refusal>) -> Stepped
    ensures { (m : Areas) →
        ended m out.new result ≡ ended_by (paper out.old s.at) (answered (as_outcome s.controller m answer) s.setup) }
{
    let setup = Setup {
        stage: EVENTS,
        ..s.setup
    };
    match answer {
        Ok(answered) => Stepped {
            refusal: 0,
            controller: answered.controller,
            setup,
            at: say::put_reply(out, s.at, answered.reply),
        },
        Err(refusal) => Stepped {
            refusal: u16::from(refusal),
            setup,
            ..s
        },
    }
}

// An event that both lines hear alike.
pub(crate) fn hear(
    index: &[u16],
    ports: &mut [u16],
    page0: &mut [u16],
    page1: &mut [u16],
    out: &mut [u8],
    s: Stepped,
    f: Option<Hearing>,
) -> Stepped
    ensures { ended (areas index.now ports.new page0.new page1.new) out.new result ≡
        ended_by (paper out.old s.at)
        (meaning (framed f) (state_after (areas index.now ports.old page0.old page1.old) s)) }
{
    match f {
        Some(h) if is_whole(s.setup) => {
            let answer = bus::calls::hear(index, ports, page0, page1, s.controller, h, h);
            after_call(out, s, answer)
        }
        _ => misplace(s),
    }
}

// Quiet bit times.
pub(crate) fn quiet(
    index: &[u16],
    ports: &mut [u16],
    page0: &[u16],
    page1: &[u16],
    out: &mut [u8],
    s: Stepped,
    n: Option<u32>,
) -> Stepped
    ensures { ended (areas index.now ports.new page0.now page1.now) out.new result ≡
        ended_by (paper out.old s.at)
        (meaning (numbered quiet n) (state_after (areas index.now ports.old page0.now page1.now) s)) }
{
    match n {
        Some(v) if is_whole(s.setup) => {
            let answer = bus::calls::quiet(index, ports, page0, page1, s.controller, v);
            after_call(out, s, answer)
        }
        _ => misplace(s),
    }
}
