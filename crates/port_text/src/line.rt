// What a line says.
ghost use Rattle.std.specs.Prelude.{◌≡◌, true, false, not, ◌&&◌, ◌||◌, eqb, leb};
ghost use Rattle.port_digits.specs.Marks.{comma, semicolon};
ghost use Rattle.frames.specs.declared.Kind.TheVariants.{Master as MasterFrame, Slave as SlaveFrame};
ghost use Rattle.port_text.specs.Line.{key_of, unmarked, frame_read};

use crate::Key;
use frames::{Hearing, Kind};
use port_digits::{Listed, cut, read};

pub const LAST_WORD: u32 = 65535;

const LAST_BYTE: u32 = 255;

// The key, exactly; none where no line has it. Tests in turn, as a `match` on the words goes byte by byte: of its forty-four ways out
// the proof didn't close.
#[tactic(auto, unfolding(crate::specs::Line::key_of))]
pub fn key_of(k: &[u8]) -> Option<Key>
    ensures { result ≡ key_of k.now }
{
    if cut::same(k, b"addr") {
        Some(Key::Addr)
    } else if cut::same(k, b"fcode") {
        Some(Key::Fcode)
    } else if cut::same(k, b"dir") {
        Some(Key::Dir)
    } else if cut::same(k, b"index") {
        Some(Key::Index)
    } else if cut::same(k, b"master") {
        Some(Key::Master)
    } else if cut::same(k, b"slave") {
        Some(Key::Slave)
    } else if cut::same(k, b"quiet") {
        Some(Key::Quiet)
    } else if cut::same(k, b"write") {
        Some(Key::Write)
    } else {
        None
    }
}

// None of the numbers of a list is above the limit.
pub fn is_below(l: Listed, limit: u32) -> bool
    ensures { result ≡ (l.good && leb l.largest limit) }
{
    l.good && l.largest <= limit
}

// A frame without a quality mark.
fn unmarked(kind: Kind, words: [u16; 16], size: usize, checks: [u8; 4], ends: usize) -> Hearing
    ensures { result ≡ unmarked kind words size checks ends }
{
    Hearing {
        kind,
        words,
        size,
        checks,
        ends,
        sqe: false,
        violation: false,
        alo: false,
    }
}

// Two lists that are apart, of words and of bytes; `one` asks for one number in each.
fn is_frame(one: bool, apart: bool, x: Listed, y: Listed) -> bool
    ensures { result ≡
        (apart && (x.good && leb x.largest 65535) && (y.good && leb y.largest 255)
        && (not one || (eqb x.count 1 && eqb y.count 1))) }
{
    apart
        && is_below(x, LAST_WORD)
        && is_below(y, LAST_BYTE)
        && (!one || (x.count == 1 && y.count == 1))
}

// The frame that two lists with the byte b between describe, if they are well formed.
fn frame(kind: Kind, one: bool, b: u8, v: &[u8]) -> Option<Hearing>
    ensures { result ≡ frame_read kind one b v.now }
{
    let mut words = [0u16; 16];
    let mut checks = [0u16; 4];
    let x = read::numbers(cut::before(v, b), &mut words);
    let y = read::numbers(cut::after(v, b), &mut checks);
    if is_frame(one, cut::has(v, b), x, y) {
        Some(unmarked(kind, words, x.count, checks.map(read::byte), y.count))
    } else {
        None
    }
}

// `WORD,CHECK`. A line over `frame`, as `slave` is: the two kinds of frame have names, and a caller that gave their constants would be no plainer.
pub fn master(v: &[u8]) -> Option<Hearing>
    ensures { result ≡ frame_read MasterFrame true comma v.now }
{
    frame(Kind::Master, true, b',', v)
}

// `WORDS;CHECKS`.
pub fn slave(v: &[u8]) -> Option<Hearing>
    ensures { result ≡ frame_read SlaveFrame false semicolon v.now }
{
    frame(Kind::Slave, false, b';', v)
}
