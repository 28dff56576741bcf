// The values of the nets of an ordered netlist, each from the nets that it reads: laws only, in specs/.
#![tactic(auto)]
