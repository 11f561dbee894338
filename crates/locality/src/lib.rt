// What a rule at a relay sees and changes: definitions and proofs only
#![tactic(auto)]
