// The model of all calls and the laws up to demand 3: specs/ and proofs/, no code.
#![tactic(auto)]
