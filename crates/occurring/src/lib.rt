// That each refusal of the table occurs is stated in specs/ and computed in proofs/; this crate has no code.
#![tactic(auto)]
