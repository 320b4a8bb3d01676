// The evidence of a Safe verdict: the file that a search leaves, and that it is accepted. Definitions in specs/, theorems in proofs/.
#![tactic(auto)]
