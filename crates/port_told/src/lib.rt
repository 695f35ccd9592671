// The demands at the port program, said of its output by the calls that its lines make. This crate has no function.
//
// specs/Told.antt has the calls of an input, and the output that these calls tell. proofs/Course.antt has that a line that is not refused is
// its call, proofs/Told.antt that exactly this is printed of every input, and proofs/Prints.antt that a program which makes the calls of the
// crate `port_run`, by their contracts as they stand, prints it in pieces of any sizes.
#![tactic(auto)]
