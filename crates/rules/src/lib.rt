// The mark rules: specs/ says what useless and can't-reach are, and their bytes; proofs/ has the laws.
#![tactic(auto)]
