// Bus events and quiet time over the lent areas (document 01, "What one bus event does", "Quiet time" and "Two lines").
//
// Promised for all inputs and every content of the areas: what comes back and what controller and areas are afterwards is the `outcome`
// of the crate `model`, so every theorem about its runs holds of these two calls. Nothing is asked of the caller; a refused call changes
// nothing. `hear` seeks its port once and copies nothing but the words of the frame that it takes or sends; `quiet` goes from deadline to
// deadline, and to the end at once when only line timeouts are to come, so its cost does not grow with the bit times. specs/Promise.antt
// says how the answer and the areas make up an outcome.
#![tactic(auto)]

pub mod calls;

use frames::Hearing;
use model::Controller;

// What an accepted call answers: the controller afterwards, and the reply as a line hears it, or silence. A refused call leaves the controller
// that it was given as it was.
#[derive(Clone, Copy)]
pub struct Answered {
    pub controller: Controller,
    pub reply: Hearing,
}
