// What the walk of the lowering keeps: laws only, in specs/.
#![tactic(auto)]
