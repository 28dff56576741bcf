// What each record of an accepted netlist image tells, sort by sort: laws only, in specs/.
#![tactic(auto)]
