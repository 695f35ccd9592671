// Decimal text, both ways, for the port program (document 01, "Numbers on either side"): texts cut at a byte, numbers and lists of numbers
// read, and text and numbers written into a lent buffer.
//
// Promised for all inputs: what is read is what specs/Cut.antt and specs/Read.antt define of the text, and what stands in the buffer
// afterwards is specs/Write.antt's `onto`. Nothing is asked of the caller. What has no room in a buffer is counted and not stored, so a
// caller sees by the place that comes back whether all of it went in.
//
// What is written reads back: numbers of at most 65,535, alone or in a list, are read from their text as themselves (proofs/Back.antt).
//
// `cut` has the texts, `read` the numbers, `write` the buffer. specs/Marks.antt names the bytes that stand between.
#![tactic(auto)]

ghost use Rattle.std.specs.Prelude.{◌≡◌, set};

pub mod cut;
pub mod read;
pub mod write;

// What a list of numbers is told by: whether it is one, how many numbers stand in it, and the largest of them or 0. Of a text that is no
// list, count and largest are promised too (`numbers`): so `good` is no `Result` about them.
#[derive(Clone, Copy)]
pub struct Listed {
    pub good: bool,
    pub count: usize,
    pub largest: u32,
}

// A value stored at a place of a buffer; nothing past the end. `areas` has the same of its words: neither crate knows the other, and a third for these
// lines would be no plainer.
fn store<T: Copy>(into: &mut [T], at: usize, x: T)
    ensures { into.new ≡ set into.old at x }
{
    if at < into.len() {
        into[at] = x;
    }
}
