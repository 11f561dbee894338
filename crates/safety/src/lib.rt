// Demand 3 over the rules: proofs only
#![tactic(auto)]
