// What an inspector asks of every public function: proofs only
#![tactic(auto)]
