// The promises to a host, above its entries, stand in specs/ and their proofs in proofs/; this crate has no code.
#![tactic(auto)]
