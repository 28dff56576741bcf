// What a netlist means while it is built: the values of its nets, now and in every later netlist. The laws are in specs/.
#![tactic(auto)]
