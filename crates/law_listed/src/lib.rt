// A netlist whose nodes and records are listed is accepted: laws only, in specs/.
#![tactic(auto)]
