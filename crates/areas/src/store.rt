// What changes a port: filling it, as a write of the host and a slave frame that is taken do, and marking its status bits. Every function
// is total; the index table is not asked.
ghost use Rattle.std.specs.Prelude.{◌≡◌, cond, []};
ghost use Rattle.model.specs.Layout.{areas, words_at, with_words, with_part};
ghost use Rattle.model.specs.Ports.{turned, filled_words, marked_words, filled};

use crate::layout;
use frames::NO_WRONG;
use model::{Faults, Flags, Words};

// The words to port p's part of a page, from its first word on; past the page's end nothing is stored.
pub fn copy(page: &mut [u16], p: u16, words: &[u16])
    ensures { page.new ≡ with_part page.old p words.now }
{
    let at = constants::PAGE_WORDS * p as usize;
    for (i, &word) in words.iter().enumerate() {
        layout::put(page, at + i, word);
    }
}

// The words to the page that is not valid: page 0 where `one` says that page 1 is the valid one.
fn copy_aside(page0: &mut [u16], page1: &mut [u16], one: bool, p: u16, words: &[u16])
    ensures zero { page0.new ≡ cond one (with_part page0.old p words.now) page0.old }
    ensures one { page1.new ≡ cond one page1.old (with_part page1.old p words.now) }
{
    if one {
        copy(page0, p, words);
    } else {
        copy(page1, p, words);
    }
}

// No status bit set.
pub const NO_FAULTS: Faults = Faults {
    sto: false,
    terr: false,
    crc: false,
    sqe: false,
    alo: false,
    wrong: NO_WRONG,
};

// VP turned, EVER set, the status bits cleared.
fn turn(f: Flags) -> Flags
    ensures { result ≡ turned f }
{
    Flags {
        vp: !f.vp,
        ever: true,
        faults: NO_FAULTS,
        ..f
    }
}

// Port words after a fill: one fill is added modulo 65,536, and the age is 0.
fn fill_words(w: Words) -> Words
    ensures { result ≡ filled_words w }
{
    Words {
        flags: layout::word_of(turn(layout::flags_of(w.flags))),
        fills: ((u32::from(w.fills) + 1) % constants::FILLS) as u16,
        age: 0,
        ..w
    }
}

// The words fill port p: they go to the page that is not valid, then VP turns.
pub fn fill(ports: &mut [u16], page0: &mut [u16], page1: &mut [u16], p: u16, words: &[u16])
    ensures { areas [] ports.new page0.new page1.new ≡
        filled (areas [] ports.old page0.old page1.old) p words.now }
{
    let w = layout::get_port(ports, p);
    copy_aside(page0, page1, layout::flags_of(w.flags).vp, p, words);
    layout::put_port(ports, p, fill_words(w));
}

// Port words with other status bits.
fn mark_words(w: Words, x: Faults) -> Words
    ensures { result ≡ marked_words w x }
{
    let f = Flags {
        faults: x,
        ..layout::flags_of(w.flags)
    };
    Words {
        flags: layout::word_of(f),
        ..w
    }
}

// Only the status bits of port p change.
pub fn mark(ports: &mut [u16], p: u16, x: Faults)
    ensures { ports.new ≡ with_words ports.old p (marked_words (words_at ports.old p) x) }
{
    let w = layout::get_port(ports, p);
    layout::put_port(ports, p, mark_words(w, x));
}
