// The lent areas and a port in them (document 01, "Memory lent to the calls"): words read and stored, what the index table and the port
// words tell of a port, what fills or marks one, and ageing. The areas may have any length and content.
//
// Promised for all inputs: each answer and each area afterwards is that of a definition of the crate `model`; specs/Lent.antt puts the
// four areas together. Nothing is asked of the caller: past the end of an area a word reads as 0, and a store there does nothing. Nothing
// is copied but the words of a fill.
//
// `layout` reads and writes the areas, `port` says what they tell of a port, `store` changes one, `age` is the walk over all of them.
#![tactic(auto, unfolding(model::specs::Layout::tables_fit, model::specs::Layout::pages_fit, model::specs::Layout::areas_fit, model::specs::Layout::zero_bits, model::specs::Ports::well_formed, model::specs::Ports::open_sink, model::specs::Ports::seek, model::specs::Ports::size_of, model::specs::Ports::state_of, model::specs::Ports::marked_words, model::specs::Ports::filled_words))]

pub mod age;
pub mod layout;
pub mod port;
pub mod store;
