// The three demands, said of the code: of every call and every sequence of the public calls, by what their promises say. This crate has no
// function.
//
// specs/Made.antt has, for each public call, what its promise says of one call, and what a sequence of calls is. proofs/Bridge.antt has, for
// each function, that its contract as it stands gives the call of Made.antt; proofs/OneAnswer.antt that a promise allows one result alone.
// The demands: proofs/OfCall.antt of one call in any memory, proofs/OfCode.antt of sequences, which are runs of the crate `model`, and
// proofs/OfDamage.antt of a stretch of damage cut out of one; proofs/Again.antt has that the code runs the sequence without the stretch.
#![tactic(auto)]
