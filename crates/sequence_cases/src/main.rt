// Check sequence vectors: reads frames, one a line, and prints the check bytes that the crate `sequence` computes of each.
//
// A line has words of one to four lower-case hexadecimal digits, with a space between two words and a newline at the end. Its answer
// is `block=HH frame=HH,..`: the check byte of the line as one block, then those of its blocks as a frame. `block=range` stands where
// the line is no block, and `frame=none` where it is no frame. Any other byte ends a word as a space does, of a longer word the last
// four digits count, and what follows the last newline is not answered. Input of 65,536 bytes or more is `input too long`.
//
// What must be printed, the file stdout, does not come from this program or from `sequence`: make.py divides bit by bit, from the
// words of document 01, and writes stdin and stdout.
#![tactic(auto)]

use arrayvec::ArrayVec;
use std::fmt;
use std::io::{self, Read};

// The length of the buffer. Where the input fills it, more of it may follow.
const ROOM: usize = 65536;

// The first words of a line: room for more than any frame has, so that a longer line is not taken for a frame.
type Words = ArrayVec<u16, 20>;

// The check byte of a line as one block, where it is a block, and those of its blocks as a frame, none where it is no frame.
#[derive(Clone, Copy)]
struct Answer<'a> {
    block: Option<u8>,
    frame: &'a [u8],
}

impl fmt::Display for Answer<'_> {
    fn fmt<W: fmt::Write>(&self, f: &mut fmt::Formatter<W>) -> fmt::Result {
        match self.block {
            Some(byte) => write!(f, "block={byte:02x}")?,
            None => write!(f, "block=range")?,
        }
        match self.frame {
            [] => write!(f, " frame=none"),
            [first, others @ ..] => {
                write!(f, " frame={first:02x}")?;
                for byte in others {
                    write!(f, ",{byte:02x}")?;
                }
                Ok(())
            }
        }
    }
}

// The value of a hexadecimal digit.
fn digit(byte: &u8) -> Option<u16> {
    match *byte {
        b'0'..=b'9' => Some(u16::from(*byte - b'0')),
        b'a'..=b'f' => Some(u16::from(*byte - b'a') + 10),
        _ => None,
    }
}

fn word_of(digits: &[u8]) -> u16 {
    digits
        .iter()
        .filter_map(digit)
        .fold(0, |word, digit| (word << 4) | digit)
}

fn words_of(line: &[u8]) -> Words {
    let mut words = Words::new();
    for digits in line.split(|byte| digit(byte).is_none()) {
        if !digits.is_empty() {
            let _ = words.try_push(word_of(digits));
        }
    }
    words
}

// A write that fails is passed over: the answers that are missing show it.
fn print_answer(rt: &impl Print, words: &[u16]) {
    let block = sequence::block_check(words).ok();
    let checks = sequence::frame_checks(words);
    let frame = &checks.bytes[..checks.count.min(4)];
    let answer = Answer { block, frame };
    let _ = println!(rt; "{answer}");
}

// What follows the last newline is no line.
fn answer_lines(rt: &impl Print, text: &[u8]) {
    for piece in text.split_inclusive(|byte| *byte == b'\n') {
        if let Some(line) = piece.strip_suffix(b"\n") {
            print_answer(rt, words_of(line).as_slice());
        }
    }
}

fn main(rt: HostRuntime) {
    let mut input = ArrayVec::<u8, ROOM>::new();
    // No more is read than there is room for. Where a read fails, the buffer has what came until then.
    let _ = io::copy(&mut rt.stdin().take(ROOM as u64), &mut input);
    if input.is_full() {
        let _ = println!(rt; "input too long");
        return;
    }
    answer_lines(&rt, input.as_slice());
}
