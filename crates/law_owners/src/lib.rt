// Whose the nodes and port records of a lowered netlist are: laws only, in specs/.
#![tactic(auto)]
