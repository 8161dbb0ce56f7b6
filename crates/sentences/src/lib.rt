// No code: this crate is a case for each sentence of document 01, about counters and about conditions on them, in specs/, and that the rules give it, in proofs/.
#![tactic(auto)]
