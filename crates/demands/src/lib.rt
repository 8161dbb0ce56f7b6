// No code: this crate is the demands in their own words, in specs/, and that the rules meet them, in proofs/.
#![tactic(auto)]
