// Demand 3, whole: all lists of builder calls, refused ones included, and all slices of bytes (document 01, 'The hundred bytes', second
// paragraph). There is no code here and no Rust file.
// specs/Calls.antt: lists of calls and what their accepted calls added; specs/Demand.antt: the claim, proofs/Demand3.antt: its proof;
// specs/Accepts.antt: which calls are accepted, proofs/Accepts.antt: the proof.
// The calls are run by the definitions that the builders' contracts cite, and slices are read by the one that the reader's cites.

#![tactic(auto)]
