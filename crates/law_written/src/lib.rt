// The words of a netlist within its limits, taken back in: laws only, in specs/.
#![tactic(auto)]
