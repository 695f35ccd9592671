// The cases that document 01, "Numbers on either side", marks P, proved together as one table: specs/Numbers.antt. This crate has no
// function; it stands above the three crates whose definitions the cases are about.
#![tactic(auto)]
