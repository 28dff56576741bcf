// What the builder and the walk keep of a netlist's fields: laws only, in specs/.
#![tactic(auto)]
