//! What a step of the network makes of cells that fit before it. No code: the lemmas are for the proofs of the core.
#![tactic(auto)]
