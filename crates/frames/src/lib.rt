// What a line hears, how long a reply is, and whether a frame is sound (document 01, "Check sequence and frame sizes" and "What one
// bus event does").
//
// Promised for all inputs: a hearing is in range, a reply has a size and a frame is judged as specs/Hearing.antt, specs/Size.antt and
// specs/Judge.antt define. Nothing is asked of the caller: a hearing with more words or check bytes than it can hold is out of range,
// and unsound where it is judged all the same.
#![tactic(auto)]

ghost use Rattle.std.specs.Prelude.{◌≡◌, not, ◌||◌, eqb, leb, ◌≤◌};
ghost use Rattle.frames.specs.Hearing.{in_range, marked};
ghost use Rattle.frames.specs.Size.{expected_of};
ghost use Rattle.frames.specs.Judge.{wrong_of, any_wrong, judged, judged_master, judged_slave};

// What was heard in an event.
#[derive(Clone, Copy, Debug, PartialEq, Eq)]
pub enum Kind {
    Silence,
    Noise,
    Master,
    Slave,
}

// What one line heard in an event: `size` words and `ends` check bytes, each of which ends a block, and the three quality marks.
// In silence and in noise the rest says nothing.
//
// A number beside each array, and no vector: a line may tell of more words than there is room for, which is refused as RANGE (`in_range`), and C gives
// a hearing so.
#[derive(Clone, Copy)]
pub struct Hearing {
    pub kind: Kind,
    pub words: [u16; 16],
    pub size: usize,
    pub checks: [u8; 4],
    pub ends: usize,
    pub sqe: bool,
    pub violation: bool,
    pub alo: bool,
}

// Which of the up to four blocks of a frame are wrong.
#[derive(Clone, Copy)]
pub struct Wrong {
    pub first: bool,
    pub second: bool,
    pub third: bool,
    pub fourth: bool,
}

// No block is wrong.
pub const NO_WRONG: Wrong = Wrong {
    first: false,
    second: false,
    third: false,
    fourth: false,
};

// A frame is sound, or it is not: then the blocks with a wrong check byte are marked if the counts were right, and none otherwise.
//
// Not `Result<(), Wrong>`: "sound" and "unsound" are document 01's words, in which the theorems speak (`sound_no_marks`), and an unsound frame is no call
// that failed.
#[derive(Clone, Copy)]
pub enum Judgement {
    Sound,
    Unsound(Wrong),
}

// A hearing has at most 16 words and 4 check bytes.
pub fn in_range(h: Hearing) -> bool
    ensures { result ≡ in_range h }
{
    h.size <= 16 && h.ends <= 4
}

// The words of the reply to a master frame by its F-code.
static SIZES: [Option<usize>; 16] = [
    Some(1),
    Some(2),
    Some(4),
    Some(8),
    Some(16),
    None,
    None,
    None,
    Some(1),
    Some(1),
    None,
    None,
    Some(16),
    Some(1),
    Some(1),
    Some(1),
];

// How many words answer a master frame of an F-code, if any do. A number above 15 is no F-code, and has no reply.
pub fn reply_size(code: u16) -> Option<usize>
    ensures { result ≡ expected_of code }
{
    let at = code as usize;
    if at < SIZES.len() { SIZES[at] } else { None }
}

// A quality mark was heard.
fn is_marked(h: Hearing) -> bool
    ensures { result ≡ marked h }
{
    h.sqe || h.violation || h.alo
}

// Block k is wrong: of `count` blocks there is such a one, and the byte that was given is not the computed one.
fn is_wrong(count: usize, k: usize, given: u8, computed: u8) -> bool
    ensures { result ≡ not (leb count k || eqb given computed) }
{
    k < count && given != computed
}

// Which blocks are wrong, each by its own check byte.
fn wrong_blocks(words: &[u16], checks: [u8; 4]) -> Wrong
    ensures { result ≡ wrong_of words.now checks }
{
    let f = sequence::frame_checks(words);
    let n = f.count;
    let bytes = f.bytes;
    Wrong {
        first: is_wrong(n, 0, checks[0], bytes[0]),
        second: is_wrong(n, 1, checks[1], bytes[1]),
        third: is_wrong(n, 2, checks[2], bytes[2]),
        fourth: is_wrong(n, 3, checks[3], bytes[3]),
    }
}

// A block is wrong.
pub fn any_wrong(w: Wrong) -> bool
    ensures { result ≡ any_wrong w }
{
    w.first || w.second || w.third || w.fourth
}

// A frame that is to have n words. With the right counts the blocks are marked as they are.
fn judge(h: Hearing, n: usize) -> Judgement
    requires { n ≤ 16 }
    ensures { result ≡ judged n h }
{
    let ends = sequence::block_count(n);
    if h.size != n || h.ends != ends {
        return Judgement::Unsound(NO_WRONG);
    }
    let words = h.words;
    let wrong = wrong_blocks(&words[..h.size], h.checks);
    if is_marked(h) || any_wrong(wrong) {
        Judgement::Unsound(wrong)
    } else {
        Judgement::Sound
    }
}

// A master frame is one word and one check byte.
pub fn judge_master(h: Hearing) -> Judgement
    ensures { result ≡ judged_master h }
{
    judge(h, 1)
}

// A slave frame that answers a master frame of this F-code: the code gives the size, never the frame's own length.
pub fn judge_slave(code: u16, h: Hearing) -> Judgement
    ensures { result ≡ judged_slave code h }
{
    match reply_size(code) {
        Some(n) => judge(h, n),
        None => Judgement::Unsound(NO_WRONG),
    }
}
