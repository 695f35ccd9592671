// The host's calls on ports (document 01, "Host calls on ports"). Opening, closing and writing answer the number of a refusal, 0 where the call was
// accepted; asking and fetching a struct that has it.
ghost use Rattle.std.specs.Prelude.{◌≡◌, cond, []};
ghost use Rattle.model.specs.Layout.{areas, pages_fit};
ghost use Rattle.model.specs.Answer.{answer_of};
ghost use Rattle.model.specs.Calls.{open_port, close_port, write_port, asked, refusal_of};
ghost use Rattle.areas.specs.Lent.{lent};
ghost use Rattle.host_ports.specs.Host.{out, host_call};
ghost use Rattle.firmware_layout.specs.Flags.{is_bit, is_set};
ghost use Rattle.firmware.specs.Promise.{open_through, answer_number, fetching};

use crate::away::admitted;
use crate::{Fetched, Number};
use areas::{layout, store};
use constants::{Refusal, told};
use firmware_layout::flags::{is_bit, is_set};
use host_ports::calls;
use model::State;

// Opens port p at address a, as a sink (1) or a source (0) of this F-code, with a data transfer interrupt or 0, and a limit in milliseconds or
// 0 where it is not supervised.
pub fn tolvendrum_open(
    index: &mut [u16],
    ports: &mut [u16],
    page0: &[u16],
    page1: &[u16],
    a: u16,
    p: u16,
    code: u16,
    sink: u16,
    interrupt: u16,
    limit: u16,
) -> u16
    ensures { out (areas index.new ports.new page0.now page1.now) result ≡
        open_through (is_bit sink) (open_port a p code (is_set sink) interrupt limit)
        (areas index.old ports.old page0.now page1.now) }
{
    if let Err(refusal) = admitted(index, ports, page0, page1, is_bit(sink)) {
        return u16::from(refusal);
    }
    told(&calls::open(
        index,
        ports,
        page0,
        page1,
        a,
        p,
        code,
        is_set(sink),
        interrupt,
        limit,
    ))
}

// Closes the port at address a.
pub fn tolvendrum_close(
    index: &mut [u16],
    ports: &mut [u16],
    page0: &[u16],
    page1: &[u16],
    a: u16,
) -> u16
    ensures { out (areas index.new ports.new page0.now page1.now) result ≡
        host_call (close_port a) (areas index.old ports.old page0.now page1.now) }
{
    told(&calls::close(index, ports, page0, page1, a))
}

// Writes to the source at address a, in its exact size.
pub fn tolvendrum_write(
    index: &[u16],
    ports: &mut [u16],
    page0: &mut [u16],
    page1: &mut [u16],
    a: u16,
    words: &[u16],
) -> u16
    ensures { out (areas index.now ports.new page0.new page1.new) result ≡
        host_call (write_port a words.now) (areas index.now ports.old page0.old page1.old) }
{
    told(&calls::write(index, ports, page0, page1, a, words))
}

// What asking answers as a number: 0 never, 1 good, 2 held, 3 stale. No `From`: the numbers are C's, and belong to this crate, of which neither the answer
// nor the state is a type.
fn answer_number(answer: Result<State, Refusal>) -> Number
    ensures { result ≡ answer_number (answer_of answer) }
{
    let value = match answer {
        Ok(State::Never) | Err(_) => 0,
        Ok(State::Good) => 1,
        Ok(State::Held) => 2,
        Ok(State::Stale) => 3,
    };
    Number {
        refusal: told(&answer),
        value,
    }
}

// Asks for the state of the port at address a, from the index table and the port words alone: 0 never, 1 good, 2 held, 3 stale.
pub fn tolvendrum_ask(index: &[u16], ports: &[u16], a: u16) -> Number
    ensures { result ≡ answer_number (asked (areas index.now ports.now [] []) a) }
{
    answer_number(calls::ask(index, ports, a))
}

// The number that fetching is refused with: a page of another length is refused, though asking is not. A number, since C is handed it and nothing else is
// done with it.
fn fetch_refusal(index: &[u16], ports: &[u16], page0: &[u16], page1: &[u16], a: u16) -> u16
    ensures { result ≡ cond (pages_fit (areas [] [] page0.now page1.now)) (refusal_of (asked (areas index.now ports.now [] []) a)) 1 }
{
    if !layout::pages_fit(page0, page1) {
        return u16::from(Refusal::Area);
    }
    told(&calls::ask(index, ports, a))
}

// The valid words of the port at address a, copied out; none exactly when asking refuses or answers never, or a page has another length. Such
// a page is refused here with 1, though asking is not.
pub fn tolvendrum_fetch<'a>(
    index: &[u16],
    ports: &[u16],
    page0: &'a [u16],
    page1: &'a [u16],
    a: u16,
) -> Fetched
    ensures { result ≡ fetching (lent index.entry ports.entry page0.entry page1.entry) a }
{
    let refusal = fetch_refusal(index, ports, page0, page1, a);
    let part = calls::fetch(index, ports, page0, page1, a);
    let mut words = [0u16; 16];
    store::copy(&mut words, 0, part);
    Fetched {
        refusal,
        size: part.len() as u16,
        words,
    }
}
