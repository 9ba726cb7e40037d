// What one side writes the other reads: theorems alone, their statements in specs/ and their proofs in proofs/.
#![tactic(auto)]
