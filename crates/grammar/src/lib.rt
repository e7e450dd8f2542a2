// The grammar of formulas, apart from any reader of it: definitions in specs/ and laws in proofs/, for the crates above.
#![tactic(auto)]
