// The starred examples of document 01: definitions and one statement, no code.
#![tactic(auto)]
