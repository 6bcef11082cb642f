// The promises about the mapper stand in specs/ and their proofs in proofs/; this crate has no code.
#![tactic(auto)]
