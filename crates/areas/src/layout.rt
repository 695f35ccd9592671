// The areas' words (document 01, "Memory lent to the calls"). Every function is total: past the end of an area a word reads as 0, and a
// store there does nothing.
//
// Here and above the areas come one by one and are no struct: C lends them so, with `&mut` for those alone that a call may change, and of a struct
// that holds `&mut` every contract would have to say besides that each is still the same reference (tried: no plainer).
ghost use Rattle.std.specs.Prelude.{◌≡◌, [], ◌≤◌, get_or, set};
ghost use Rattle.model.specs.Layout.{areas, tables_fit, pages_fit, areas_fit, words_at, with_words, flags_of, worth, marks_number, word_of};
ghost use Rattle.model.specs.Ports.{with_age};
ghost use Rattle.areas.specs.Lent.{lent};

use frames::Wrong;
use model::{Faults, Flags, Words};

// The word at i, 0 past the end.
pub fn get(s: &[u16], i: usize) -> u16
    ensures { result ≡ get_or s.now i 0 }
{
    if i < s.len() { s[i] } else { 0 }
}

// The word at i replaced; nothing past the end. (`port_digits` has the same of any type, and says why it stands twice.)
pub fn put(s: &mut [u16], i: usize, v: u16)
    ensures { s.new ≡ set s.old i v }
{
    if i < s.len() {
        s[i] = v;
    }
}

// The index table and the port words have their lengths.
pub fn tables_fit(index: &[u16], ports: &[u16]) -> bool
    ensures { result ≡ tables_fit (areas index.now ports.now [] []) }
{
    index.len() == constants::INDEX && ports.len() == constants::PORTS
}

// Both pages have theirs.
pub fn pages_fit(page0: &[u16], page1: &[u16]) -> bool
    ensures { result ≡ pages_fit (areas [] [] page0.now page1.now) }
{
    page0.len() == constants::PAGE && page1.len() == constants::PAGE
}

// All four areas have theirs.
pub fn fits(index: &[u16], ports: &[u16], page0: &[u16], page1: &[u16]) -> bool
    ensures { result ≡ areas_fit (lent index.entry ports.entry page0.entry page1.entry) }
{
    tables_fit(index, ports) && pages_fit(page0, page1)
}

// The eight words of port p.
pub fn get_port(ports: &[u16], p: u16) -> Words
    ensures { result ≡ words_at ports.now p }
{
    let at = constants::PORT_WORDS * p as usize;
    Words {
        master: get(ports, at),
        flags: get(ports, at + 1),
        interrupt: get(ports, at + 2),
        fills: get(ports, at + 3),
        limit: get(ports, at + 4),
        age: get(ports, at + 5),
        sixth: get(ports, at + 6),
        seventh: get(ports, at + 7),
    }
}

// Word 1 of port p alone.
pub fn get_flags(ports: &[u16], p: u16) -> u16
    ensures { result ≡ (words_at ports.now p).flags }
{
    get(ports, constants::PORT_WORDS * p as usize + 1)
}

// The eight words of port p replaced.
pub fn put_port(ports: &mut [u16], p: u16, w: Words)
    ensures { ports.new ≡ with_words ports.old p w }
{
    let at = constants::PORT_WORDS * p as usize;
    put(ports, at, w.master);
    put(ports, at + 1, w.flags);
    put(ports, at + 2, w.interrupt);
    put(ports, at + 3, w.fills);
    put(ports, at + 4, w.limit);
    put(ports, at + 5, w.age);
    put(ports, at + 6, w.sixth);
    put(ports, at + 7, w.seventh);
}

// The age of port p replaced; its other words stay.
pub fn put_age(ports: &mut [u16], p: u16, age: u16)
    ensures { ports.new ≡ with_words ports.old p (with_age age (words_at ports.old p)) }
{
    put(ports, constants::PORT_WORDS * p as usize + 5, age);
}

// SINK of word 1.
pub fn sink_of(x: u16) -> bool
    ensures { result ≡ (flags_of x).sink }
{
    x / constants::SINK % 2 == 1
}

// Word 1 taken apart; bits above the marks of the blocks are not looked at. No `From`, here or below: neither the flags nor the number is a type of this
// crate, in which alone the bits have their places.
pub fn flags_of(x: u16) -> Flags
    ensures { result ≡ flags_of x }
{
    let wrong = Wrong {
        first: x / constants::FIRST_BLOCK % 2 == 1,
        second: x / constants::SECOND_BLOCK % 2 == 1,
        third: x / constants::THIRD_BLOCK % 2 == 1,
        fourth: x / constants::FOURTH_BLOCK % 2 == 1,
    };
    let faults = Faults {
        sto: x / constants::STO % 2 == 1,
        terr: x / constants::TERR % 2 == 1,
        crc: x / constants::CRC % 2 == 1,
        sqe: x / constants::SQE % 2 == 1,
        alo: x / constants::ALO % 2 == 1,
        wrong,
    };
    Flags {
        vp: x / constants::VP % 2 == 1,
        ever: x / constants::EVER % 2 == 1,
        src: x / constants::SRC % 2 == 1,
        sink: sink_of(x),
        faults,
    }
}

// A flag's part of the word.
fn flag_part(b: bool, k: u16) -> u16
    ensures worth { result ≡ worth b k }
    ensures in_range { result ≤ k }
{
    if b { k } else { 0 }
}

// The marks of the blocks as a number, lowest bit for the first block.
pub fn marks_number(w: Wrong) -> u16
    ensures { result ≡ marks_number w }
{
    flag_part(w.first, 1) + flag_part(w.second, 2) + flag_part(w.third, 4) + flag_part(w.fourth, 8)
}

// Word 1 put together; the bits above the marks of the blocks are zero.
pub fn word_of(f: Flags) -> u16
    ensures { result ≡ word_of f }
{
    let s = f.faults;
    let w = s.wrong;
    let sides = flag_part(f.vp, constants::VP)
        + flag_part(f.ever, constants::EVER)
        + flag_part(f.src, constants::SRC)
        + flag_part(f.sink, constants::SINK);
    let told = sides
        + flag_part(s.sto, constants::STO)
        + flag_part(s.terr, constants::TERR)
        + flag_part(s.crc, constants::CRC)
        + flag_part(s.sqe, constants::SQE)
        + flag_part(s.alo, constants::ALO);
    told + flag_part(w.first, constants::FIRST_BLOCK)
        + flag_part(w.second, constants::SECOND_BLOCK)
        + flag_part(w.third, constants::THIRD_BLOCK)
        + flag_part(w.fourth, constants::FOURTH_BLOCK)
}
