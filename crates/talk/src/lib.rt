// The talking nodes as 01 has them: specs/ says what a state is, what the calls on it answer and what they promise; proofs/ has the laws.
#![tactic(auto)]
