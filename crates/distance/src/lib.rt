// How many wrong bits get through (document 02, W-210): bits of a sound frame are flipped on their way, and one, two or three of them in a
// block are always seen. This crate has no function.
//
// specs/Flips.antt says what it is that bits are flipped. proofs/Seen.antt has the theorems, for master frames and for slave frames of every
// size; proofs/Sharp.antt that four flipped bits can pass, and proofs/LetIn.antt what the premises let in.
#![tactic(auto)]
