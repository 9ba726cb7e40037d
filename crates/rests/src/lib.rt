// Theorems alone: what no entry of a sound state uses is zero. The statement is in specs/, its proof in proofs/.
#![tactic(auto)]
