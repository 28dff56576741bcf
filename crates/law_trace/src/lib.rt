// The trace program prints what a netlist's run shows, and a lowered module's: laws only, in specs/.
#![tactic(auto)]
