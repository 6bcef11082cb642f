// The table of refusals stands in specs/ and its proof in proofs/; this crate has no code.
#![tactic(auto)]
