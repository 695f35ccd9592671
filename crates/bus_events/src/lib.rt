// What a bus event does to the controller (document 01, "What one bus event does" and "Two lines"): what the trusted line heard, and what
// becomes by that of the times, the lines, the counts and the interrupt groups. No area is touched.
//
// Each promise is an equation with a definition of the crate `model`, or with one of specs/ here, of which proofs/Outcomes.antt of the
// crate `bus` shows that it raises the model's bits. No public function asks anything of its caller.
#![tactic(auto)]

pub mod counts;
pub mod heard;
pub mod raised;
