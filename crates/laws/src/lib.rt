// No code: this crate is what follows from the rules for every store, object and command, in proofs/.
#![tactic(auto)]
