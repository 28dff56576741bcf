// A netlist image taken back in, refusal 11 and what is then given: definitions in specs/, no code.
#![tactic(auto)]
