// Demands 2 and 3 of a lowering: laws only, in specs/.
#![tactic(auto)]
