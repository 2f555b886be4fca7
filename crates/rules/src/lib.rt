// `rules` has no code: it is document 01 as definitions (specs/) and the laws proved of them (proofs/). Other crates cite both.
#![tactic(auto)]
