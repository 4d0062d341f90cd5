// The map file: its format and the calls' equations, in specs/; proofs/ has the laws.
#![tactic(auto)]
