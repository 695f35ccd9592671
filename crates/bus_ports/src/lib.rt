// What a bus event meets in the lent areas (document 01, "What one bus event does"): our port for a master word (`found`), the refusals
// (`need`), the reply to a sound master frame (`reply`, `frame`), and what a judged slave frame or a reply time that is reached leaves in
// the areas (`take`). The port is sought once; the reply, the interrupt and the storing are handed its number and ask no index table.
//
// Promised for all inputs and every content of the areas: each answer and each area afterwards is that of a definition of the crate
// `model`, or of one of specs/ here, of which proofs/ shows what it says of the model's. Nothing is asked of the caller. Nothing is copied
// but the words of the frame that is taken or sent.
#![tactic(auto, unfolding(model::specs::Event::silent, model::specs::Event::sent, model::specs::Layout::with_part, model::specs::Ports::apply, model::specs::Ports::standing_of, frames::specs::Hearing::words_of))]

pub mod found;
pub mod frame;
pub mod need;
pub mod reply;
pub mod take;

use frames::Hearing;
use model::Exchange;

// What a sound master frame is met with: the exchange afterwards, and the reply.
#[derive(Clone, Copy)]
pub struct Met {
    pub exchange: Exchange,
    pub reply: Hearing,
}
