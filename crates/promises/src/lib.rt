// No code: what this project promises, as statements (specs, to be read top to bottom) and their proofs.

#![tactic(auto)]
