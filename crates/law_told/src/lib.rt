// What an accepted netlist image tells, and when one is accepted: laws only, in specs/.
#![tactic(auto)]
