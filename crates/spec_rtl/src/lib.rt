// Words, the operators of IEEE 1800 and modules: definitions in specs/, no code.
#![tactic(auto)]
