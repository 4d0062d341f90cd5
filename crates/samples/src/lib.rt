// The starred samples of 01: specs/ has the table, proofs/ the one statement about it.
#![tactic(auto)]
