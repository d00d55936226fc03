// Algebra that the arithmetics and the labels rest on: definitions in specs/, theorems in proofs/.
#![tactic(auto)]
