// What the index table and the port words say of a port (document 01, "Memory lent to the calls" and "Host calls on ports").
ghost use Rattle.std.specs.Prelude.{◌≡◌, []};
ghost use Rattle.model.specs.Layout.{areas, part_of, words_at, flags_of};
ghost use Rattle.model.specs.Answer.{shown_as, answer_of};
ghost use Rattle.model.specs.Ports.{one_side, well_formed, seek, size_of, valid_page, valid_words, too_old, state_of, open_sink};
ghost use Rattle.areas.specs.Lent.{shown, valid_lent, Lies};

use crate::layout;
use constants::Refusal;
use model::{Flags, State, Words};

// Exactly one of SRC and SINK is set.
fn one_side(f: Flags) -> bool
    ensures { result ≡ one_side f }
{
    f.src != f.sink
}

// Port words are well formed for address a.
pub fn well_formed(a: u16, w: Words) -> bool
    ensures { result ≡ well_formed a w }
{
    w.master / constants::CODE_UNIT <= constants::LAST_CODE
        && w.master % constants::CODE_UNIT == a
        && one_side(layout::flags_of(w.flags))
        && w.flags / constants::ZERO_BITS == 0
        && w.interrupt <= constants::LAST_INTERRUPT
        && w.sixth == 0
        && w.seventh == 0
}

// Port words of an open sink, at any address.
pub fn open_sink(w: Words) -> bool
    ensures { result ≡ open_sink w }
{
    well_formed(w.master % constants::CODE_UNIT, w) && layout::flags_of(w.flags).sink
}

// What stands at address a; the pages are not asked.
pub fn seek(index: &[u16], ports: &[u16], a: u16) -> Result<Option<u16>, Refusal>
    ensures { result ≡ seek (areas index.now ports.now [] []) a }
{
    // 0 is no port: so the index table has it, which C lends.
    let e = layout::get(index, a as usize);
    if e == 0 {
        return Ok(None);
    }
    if e <= constants::LAST_PORT && well_formed(a, layout::get_port(ports, e)) {
        Ok(Some(e))
    } else {
        Err(Refusal::Damaged)
    }
}

// How many words a port of this F-code has.
pub fn port_size(code: u16) -> usize
    ensures { result ≡ size_of code }
{
    frames::reply_size(code).unwrap_or(0)
}

// The limit is nonzero, and the age at or above it.
fn too_old(limit: u16, age: u16) -> bool
    ensures { result ≡ too_old limit age }
{
    limit != 0 && limit <= age
}

// Never; or held: filled, but STO or TERR set; or stale; or good.
pub fn state_of(w: Words) -> State
    ensures { shown_as result ≡ state_of w }
{
    let f = layout::flags_of(w.flags);
    if !f.ever {
        return State::Never;
    }
    if f.faults.sto || f.faults.terr {
        return State::Held;
    }
    if too_old(w.limit, w.age) {
        State::Stale
    } else {
        State::Good
    }
}

// Whether an answer shows the port's words.
pub fn shows(answer: Result<State, Refusal>) -> bool
    ensures { result ≡ shown (answer_of answer) }
{
    match answer {
        Ok(State::Good | State::Held | State::Stale) => true,
        Ok(State::Never) | Err(_) => false,
    }
}

// The first n of port p's words in a page, as far as the page goes.
fn part<'a>(page: &'a [u16], p: u16, n: usize) -> &'a [u16]
    ensures words { result.now ≡ part_of page.now p n }
    ensures place { Lies result page.entry p }
{
    let at = constants::PAGE_WORDS * p as usize;
    if page.len() <= at {
        return &page[..0];
    }
    if page.len() - at <= n {
        return &page[at..];
    }
    let end = at + n;
    &page[at..end]
}

// VP is the number of the valid page.
fn valid_part<'a>(page0: &'a [u16], page1: &'a [u16], f: Flags, p: u16, n: usize) -> &'a [u16]
    ensures words { result.now ≡ part_of (valid_page (areas [] [] page0.now page1.now) f) p n }
    ensures place { Lies result (valid_lent page0.entry page1.entry f) p }
{
    if f.vp {
        part(page1, p, n)
    } else {
        part(page0, p, n)
    }
}

// Port p's own part of whichever page is valid, sized by its F-code. The index table is not asked.
pub fn valid_words<'a>(ports: &[u16], page0: &'a [u16], page1: &'a [u16], p: u16) -> &'a [u16]
    ensures words { result.now ≡ valid_words (areas [] ports.now page0.now page1.now) p }
    ensures place { Lies result (valid_lent page0.entry page1.entry (flags_of (words_at ports.now p).flags)) p }
{
    let w = layout::get_port(ports, p);
    let n = port_size(w.master / constants::CODE_UNIT);
    valid_part(page0, page1, layout::flags_of(w.flags), p, n)
}
