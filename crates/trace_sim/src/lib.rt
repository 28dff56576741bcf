// A step on words is the step of the netlist: laws only, in specs/.
#![tactic(auto)]
