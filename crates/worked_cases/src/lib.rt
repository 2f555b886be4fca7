// No code: worked cases of the definitions of `rules` (specs/), those of 01 marked P among them, and their proofs, which compute the definitions. They stand apart from
// `rules` so that none of its must-fail edits proves them again.
#![tactic(auto)]
