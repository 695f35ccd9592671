// The check sequence (document 01, "Check sequence and frame sizes"): the check byte of a block of one to four words, and the
// check bytes of a frame, in which a check byte ends each four words and a shorter rest.
//
// Promised for all inputs: each answer is the one that specs/Check.antt and specs/Frame.antt define over G(x). Nothing is asked of
// the caller: a block or a frame of another length has an answer of its own. specs/Remainder.antt says what a remainder is, and
// proofs/Divides.antt and proofs/Unique.antt that the computed one is it. The division goes a byte at a time, by the step table of
// src/table.rt.
#![tactic(auto)]

ghost use Rattle.std.specs.Prelude.{◌≡◌};
ghost use Rattle.sequence.specs.Check.{check_of, block_check};
ghost use Rattle.sequence.specs.Frame.{blocks, byte_at, frame_checks};
ghost use Rattle.sequence.specs.Joined.{joined_bytes};

mod table;

use constants::Refusal;
pub use table::step_at;

// The words of a full block, the words of the longest frame.
const BLOCK: usize = 4;

const LONGEST: usize = 16;

// The check bytes of a frame, as many as `count` says; the others are 0. A frame with no words or more than sixteen has none.
// An array and a number beside it: what is promised (`frame_checks`) names both, and the bytes behind the last are zero.
#[derive(Clone, Copy)]
pub struct FrameChecks {
    pub count: usize,
    pub bytes: [u8; 4],
}

// The check byte of all the words. Words joined by xor have as many ones as all of them together, but for an even number: so one count of
// ones gives the parity, and no number of words is too many.
fn check(words: &[u16]) -> u8
    ensures { result ≡ check_of words.now }
{
    let mut r: u8 = 0;
    let mut all: u16 = 0;
    for &w in words {
        r = table::push_word(r, w);
        all ^= w;
    }
    let p = (all ^ (r as u16)).count_ones() % 2;
    !((r << 1) | (p as u8))
}

// The check byte of a block, which has one to four words.
pub fn block_check(words: &[u16]) -> Result<u8, Refusal>
    ensures { result ≡ block_check words.now }
{
    if words.is_empty() || BLOCK < words.len() {
        return Err(Refusal::Range);
    }
    Ok(check(words))
}

// How many blocks a frame of n words has: none where no frame has n words.
pub fn block_count(n: usize) -> usize
    ensures { result ≡ blocks n }
{
    if n <= LONGEST { (n + 3) / BLOCK } else { 0 }
}

// The check byte of block k, 0 where the frame has no such block.
fn byte_at(words: &[u16], k: usize) -> u8
    ensures { result ≡ byte_at words.now k }
{
    if k < block_count(words.len()) {
        let from = BLOCK * k;
        let end = (from + BLOCK).min(words.len());
        check(&words[from..end])
    } else {
        0
    }
}

// The check bytes of a frame as one number, that of block 0 lowest: a number is handed back in a register, four bytes in memory. A frame of one
// block, as every master frame is, has no other byte.
fn bytes_joined(words: &[u16]) -> u32
    ensures { result ≡ joined_bytes words.now }
{
    let first = byte_at(words, 0) as u32;
    if words.len() <= BLOCK {
        return first;
    }
    let second = byte_at(words, 1) as u32;
    let third = byte_at(words, 2) as u32;
    let fourth = byte_at(words, 3) as u32;
    first + 256 * (second + 256 * (third + 256 * fourth))
}

// The check bytes of a frame.
pub fn frame_checks(words: &[u16]) -> FrameChecks
    ensures { result ≡ frame_checks words.now }
{
    FrameChecks {
        count: block_count(words.len()),
        bytes: bytes_joined(words).to_le_bytes(),
    }
}
