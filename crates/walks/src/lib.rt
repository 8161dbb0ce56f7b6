// No code: this crate is what proofs by hand share, in proofs/.
#![tactic(auto)]
