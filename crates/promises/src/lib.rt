// What is promised of the gate's calls. There is no code here: specs/ has the statements' words, proofs/ the theorems.
#![tactic(auto)]
