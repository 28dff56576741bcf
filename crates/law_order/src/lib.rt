// Each call of the builder leaves a netlist whose inputs are lower nets, over the contracts of the code. The laws are in specs/.
#![tactic(auto)]
