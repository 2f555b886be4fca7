// What holds of every public service, by its promise alone: "that no second result fits is itself proved" (01, "What a proof here has to say"), and "A refused
// call writes nothing into any buffer it was lent." (00, demand 1). No code: specs/ states it for each service, proofs/ proves it.
#![tactic(auto)]
