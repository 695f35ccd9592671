// The port program (document 01, "Numbers on either side"): its input, in pieces of any sizes, to its output.
//
// Promised for every piece, every content of the areas and every buffer (`pieces::feed`, `pieces::finish`): how things stand afterwards and what
// is written is what specs/Fed.antt defines of the bytes, one after the other. What a line does is the crate `port_line`'s. Nothing is asked
// of the caller. specs/Printed.antt has what is printed of a whole input; proofs/Fed.antt has that an input in pieces prints the same,
// wherever it is cut. The crate `port_told` says it by the calls that the lines make, as the demands do.
//
// Each byte is looked at once for a newline. A line that lies whole in a piece is read where it lies; one that is cut goes into a buffer of
// the caller's, whose length is the longest line that there is room for.
#![tactic(auto, unfolding(crate::specs::Printed::end_text, port_digits::specs::Write::onto))]

pub mod pieces;

use port_line::Stepped;

// How things stand between two pieces: what the last line left, and how many bytes of a line that has not ended lie in its buffer. A refusal
// stays, and nothing is worked after it. The buffer is the caller's, and lent anew with each piece: there is no heap for one of our own.
#[derive(Clone, Copy)]
pub struct Feed {
    pub stepped: Stepped,
    pub partial: usize,
}
