// The mathematics of a search level by level, over any system of states and ticks: definitions in specs/, laws in proofs/.
#![tactic(auto)]
