// What quiet time does to the controller. Document 01, "Quiet time", the rules of a bit time: of one by itself (`quiet`), of many that bring
// nothing at once (`passing`), and of any number that bring line timeouts alone (`resting`). Document 02, W-205, the end of a bit time: the
// milliseconds that end within many (`phase`). No area is touched.
//
// Each promise is an equation with a definition of the crate `model`, or with one of specs/ here, of which proofs/ shows what it says of
// the model's: BitTime for one bit time, Roll, Jump and Within for many. No public function asks anything of its caller.
#![tactic(auto)]

use model::Controller;

pub mod passing;
pub mod phase;
pub mod quiet;
pub mod resting;

// Quiet bit times passed at once: how many are left, and the controller after the others.
#[derive(Clone, Copy)]
pub struct Passed {
    pub left: u32,
    pub controller: Controller,
}
