// The words in which rules are written: definitions in specs/, no code.
#![tactic(auto)]
