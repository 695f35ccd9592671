// The host's calls on ports. Each is lent the four areas, but for asking, which is lent the index table and the port words; `&mut` are those
// that it may change. A refused call changes nothing.
ghost use Rattle.std.specs.Prelude.{◌≡◌, true, [], get_or, ◌≤◌};
ghost use Rattle.constants.specs.Refusal.{told};
ghost use Rattle.model.specs.Answer.{answer_of};
ghost use Rattle.model.specs.Layout.{areas, words_at, flags_of};
ghost use Rattle.model.specs.Ports.{open_words};
ghost use Rattle.model.specs.Calls.{open_port, close_port, write_port, read_port, port_refusal, asked, refusal_of, fetched};
ghost use Rattle.areas.specs.Lent.{lent, valid_lent, Lies};
ghost use Rattle.host_ports.specs.Host.{out, host_call, hands_back};

use crate::refusal;
use areas::store::NO_FAULTS;
use areas::{layout, port, store};
use constants::{CODE_UNIT, Refusal};
use model::{Flags, State, Words};

// The words of a port just opened: status, EVER, VP and fills zero, with its limit, and age 0.
fn open_words(a: u16, code: u16, sink: bool, interrupt: u16, limit: u16) -> Words
    requires { (a ≤ 4095) × (code ≤ 4) }
    ensures { result ≡ open_words a code sink interrupt limit }
{
    let f = Flags {
        vp: false,
        ever: false,
        src: !sink,
        sink,
        faults: NO_FAULTS,
    };
    Words {
        master: code * CODE_UNIT + a,
        flags: layout::word_of(f),
        interrupt,
        limit,
        ..NO_WORDS
    }
}

// The words of a port that is closed.
const NO_WORDS: Words = Words {
    master: 0,
    flags: 0,
    interrupt: 0,
    fills: 0,
    limit: 0,
    age: 0,
    sixth: 0,
    seventh: 0,
};

// Opens port p at address a, as a sink or a source of this F-code, with a data transfer interrupt or 0, and a limit in milliseconds, 0 where
// it is not supervised: as the port's words have them, and C. The six go side by side, as in `tolvendrum_open`: a struct for them would be taken apart
// at once, and every contract names them one by one (`open_port`).
pub fn open(
    index: &mut [u16],
    ports: &mut [u16],
    page0: &[u16],
    page1: &[u16],
    a: u16,
    p: u16,
    code: u16,
    sink: bool,
    interrupt: u16,
    limit: u16,
) -> Result<(), Refusal>
    ensures { out (areas index.new ports.new page0.now page1.now) (told result) ≡
        host_call (open_port a p code sink interrupt limit) (areas index.old ports.old page0.now page1.now) }
{
    refusal::of_open(index, ports, page0, page1, a, p, code, interrupt)?;
    layout::put(index, a as usize, p);
    layout::put_port(ports, p, open_words(a, code, sink, interrupt, limit));
    Ok(())
}

// Closes the port at address a: entry and port words are zeroed, the pages stay.
pub fn close(
    index: &mut [u16],
    ports: &mut [u16],
    page0: &[u16],
    page1: &[u16],
    a: u16,
) -> Result<(), Refusal>
    ensures { out (areas index.new ports.new page0.now page1.now) (told result) ≡
        host_call (close_port a) (areas index.old ports.old page0.now page1.now) }
{
    let p = refusal::of_close(index, ports, page0, page1, a)?;
    layout::put(index, a as usize, 0);
    layout::put_port(ports, p, NO_WORDS);
    Ok(())
}

// Writes to the source at address a, in its exact size: a fill, without interrupt.
pub fn write(
    index: &[u16],
    ports: &mut [u16],
    page0: &mut [u16],
    page1: &mut [u16],
    a: u16,
    words: &[u16],
) -> Result<(), Refusal>
    ensures { out (areas index.now ports.new page0.new page1.new) (told result) ≡
        host_call (write_port a words.now) (areas index.now ports.old page0.old page1.old) }
{
    let p = refusal::of_write(index, ports, page0, page1, a, words)?;
    store::fill(ports, page0, page1, p, words);
    Ok(())
}

// Asks for the state of the port at address a; the pages are not asked.
pub fn ask(index: &[u16], ports: &[u16], a: u16) -> Result<State, Refusal>
    ensures value { answer_of result ≡ asked (areas index.now ports.now [] []) a }
    ensures number { refusal_of (answer_of result) ≡ port_refusal (read_port a) (areas index.now ports.now [] []) }
{
    let p = refusal::of_ask(index, ports, a)?;
    Ok(port::state_of(layout::get_port(ports, p)))
}

// The valid words of the port at address a; none exactly when asking refuses or answers never, or a page has another length.
pub fn fetch<'a>(
    index: &[u16],
    ports: &[u16],
    page0: &'a [u16],
    page1: &'a [u16],
    a: u16,
) -> &'a [u16]
    ensures words { result.now ≡ fetched (lent index.entry ports.entry page0.entry page1.entry) a }
    ensures place { hands_back (lent index.entry ports.entry page0.entry page1.entry) a ≡ true → Lies result
        (valid_lent page0.entry page1.entry (flags_of (words_at ports.now (get_or index.now a 0)).flags))
        (get_or index.now a 0) }
{
    let fit = layout::pages_fit(page0, page1);
    let shows = port::shows(ask(index, ports, a));
    if fit && shows {
        let p = layout::get(index, a as usize);
        return port::valid_words(ports, page0, page1, p);
    }
    &page0[..0]
}
