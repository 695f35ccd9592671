// The host's calls on ports (document 01, "Host calls on ports") over the areas that the caller lends, which may have any length and content:
// all four, or the index table and the port words alone for asking (document 02, W-212).
//
// Promised for all inputs: what comes back and what each area holds afterwards are those of the definitions of the crate `model`;
// specs/Host.antt puts them together for the calls that change an area. Nothing is asked of the caller: what a call cannot do it refuses
// and then it changes nothing. No call looks further than the entry, the port words and the page words that
// it needs, and nothing is copied but the words of a write.
//
// `calls` has the calls, `refusal` their refusals.
#![tactic(auto, unfolding(crate::specs::Host::open_refusal, crate::specs::Host::reached, model::specs::Ports::open_words))]

pub mod calls;
mod refusal;
