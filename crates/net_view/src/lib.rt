// The netlist that words hold, and the laws of its words: definitions and laws in specs/, no code.
#![tactic(auto)]
