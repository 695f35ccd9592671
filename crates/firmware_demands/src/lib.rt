// The three demands, said of what ships: of every call and every sequence of the calls of the crate `firmware` that are exported, each given the flat
// controller and the areas that the one before left, from `tolvendrum_reset` and cleared areas on. This crate has no function.
//
// specs/Clauses.antt has, for each exported function, what its contract says of one call; specs/Called.antt one exported call, and which
// call of the model it stands for; specs/Exported.antt what a sequence is. proofs/Promised.antt takes each contract for the equation that it
// is. proofs/Inside.antt has that a call whose arguments are ours is an inner call (`Made` of the crate `demands`), proofs/Away.antt that any
// other is turned away, and proofs/Stands.antt that a sequence of exported calls is one of inner calls (`Ran`). The demands: proofs/OfCalled.antt
// of one call in any memory, proofs/OfExported.antt of sequences, proofs/OfRead.antt of what a host reads, in the numbers that it sees, and
// proofs/OfDamage.antt of a stretch of damage cut out of a sequence.
#![tactic(auto)]
