// Exact numbers: specs/ defines them and proofs/ has their laws. There is no code here.
#![tactic(auto)]
