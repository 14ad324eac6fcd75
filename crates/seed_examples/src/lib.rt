// Computed examples of what seeds make, as the original has them: parts, seeds and streams. They stand alone since the sponge
// is computed in them, which takes longer than the proofs beside them. There is no code.

#![tactic(auto)]
