// The verdict on a cut table: a Safe table's cut is Safe. Theorems in proofs/.
#![tactic(auto)]
