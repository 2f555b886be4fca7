// No code: what the promise of the crate `month_service` says of every file, in the demands' words (specs/Demands.antt), and the proofs of it.
#![tactic(auto)]
